// Day counts, sines, arctangents and roots.
ghost use Rattle.std.specs.Prelude.{◌≡◌};
ghost use Rattle.number_rules.specs.Calendar.{day_count};
ghost use Rattle.number_rules.specs.Sine.{sine, cosine};
ghost use Rattle.arctangent.specs.Arctangent.{arctangent};
ghost use Rattle.arctangent.specs.Direction.{angle_or, mark};
ghost use Rattle.numbers.specs.Root.{root};
ghost use Rattle.boundary.specs.Fault.{Told};
ghost use Rattle.capi.specs.Answers.{written_one};

use arctangent::direction::{MARK, angle_or};
use boundary::fault::{Fault, put};
use calendar::day_count::day_count;

// Days from 2000-01-01.
#[unsafe(no_mangle)]
pub extern "C" fn raddlehue_day_count(year: i64, month: i64, day: i64, days: &mut i64) -> u32
    ensures value { result ≡ (day_count year month day).refusal }
    ensures days_after { days.new ≡ written_one (day_count year month day).refusal (day_count year month day).days days.old }
{
    put(days, counted(year, month, day))
}

fn counted(year: i64, month: i64, day: i64) -> Result<i64, Fault>
    ensures { Told (λ days. days) (day_count year month day).refusal (day_count year month day).days result }
{
    Ok(day_count(year, month, day)?)
}

#[unsafe(no_mangle)]
pub extern "C" fn raddlehue_sine(angle: i64) -> i64
    ensures { result ≡ sine angle }
{
    numbers::sine::sine(angle)
}

#[unsafe(no_mangle)]
pub extern "C" fn raddlehue_cosine(angle: i64) -> i64
    ensures { result ≡ cosine angle }
{
    numbers::sine::cosine(angle)
}

// An angle that callers subtract is signed; no direction is the mark.
#[unsafe(no_mangle)]
pub extern "C" fn raddlehue_arctangent(y: i64, x: i64) -> i64
    ensures { result ≡ angle_or mark (arctangent y x) }
{
    angle_or(MARK, arctangent::direction::arctangent(y, x))
}

#[unsafe(no_mangle)]
pub extern "C" fn raddlehue_root(square: u64) -> u64
    ensures { result ≡ root square }
{
    numbers::root::root(square)
}
