// The middle of two azimuths, the short way round.
ghost use Rattle.std.specs.Prelude.{◌≡◌, ◌<◌, false, pos, MatchResult};
ghost use Rattle.number_rules.specs.Angle.{full_turn};
ghost use Rattle.calendar.specs.Refusal.{OneAnswer};
ghost use Rattle.heading.specs.Heading.{is_reduced, clockwise, half_way, middle, middle_answer};

use calendar::refusal::Refusal;
use numbers::angle::Angle;

#[tactic(auto, unfolding(crate::specs::Heading::is_reduced))]
pub fn is_reduced(x: i64) -> bool
    ensures { result ≡ is_reduced x }
{
    (0..Angle::FULL as i64).contains(&x)
}

// The number of a reduced angle.
fn reduced(x: i64) -> Result<u64, Refusal>
    ensures { MatchResult result (λ n. (x ≡ pos n) × (n < full_turn)) (λ refusal. (is_reduced x ≡ false) × (refusal ≡ Refusal.NotReduced)) }
{
    if is_reduced(x) {
        Ok(x as u64)
    } else {
        Err(Refusal::NotReduced)
    }
}

// The arc from a to b, clockwise. Azimuths stay plain numbers here and in turning_points, as C lends them; one test, `is_reduced`, stands before all.
#[tactic(auto, unfolding(crate::specs::Heading::clockwise))]
pub fn clockwise(a: u64, b: u64) -> u64
    requires { (a < full_turn) × (b < full_turn) }
    ensures { result ≡ clockwise a b }
{
    if a <= b { b - a } else { b + Angle::FULL - a }
}

// Half of an arc on, clockwise.
fn half_way(from: u64, arc: u64) -> u64
    requires { (from < full_turn) × (arc < full_turn) }
    ensures { result ≡ half_way from arc }
{
    (from + arc / 2) % Angle::FULL
}

// From the end whose short way to the other runs clockwise, half of the arc on.
pub fn middle_azimuth(a: i64, b: i64) -> Result<u64, Refusal>
    ensures { OneAnswer middle_answer (middle a b) result }
{
    let start = reduced(a)?;
    let end = reduced(b)?;
    let arc = clockwise(start, end);
    let opposite = arc == Angle::HALF;
    let forward = arc < Angle::HALF;
    if opposite {
        Err(Refusal::Opposite)
    } else if forward {
        Ok(half_way(start, arc))
    } else {
        Ok(half_way(end, Angle::FULL - arc))
    }
}
