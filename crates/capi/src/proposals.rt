// A proposal: the watch's verdict on one, and the phone's plan of one.
ghost use Rattle.std.specs.Prelude.{◌≡◌};
ghost use Rattle.boundary.specs.Fault.{Told};
ghost use Rattle.capi.specs.Answers.{written_one};
ghost use Rattle.capi.specs.Proposals.{azimuths_left, coded_judgement, coded_planning, minutes_left, plan_refusal, told_minute, verdict_told};

use boundary::codes::read_body;
use boundary::fault::{Fault, put};
use day::date::Date;
use plan::answer::plan;
use proposal::judge::judge;
use sky_vectors::station::Point;
use turning_points::points::Points;

// The first minute out of tolerance (31) is told; any other answer writes nothing.
#[unsafe(no_mangle)]
pub extern "C" fn raddlehue_judge(
    date: &[i64; 5],
    body: u32,
    point: &[i64; 3],
    tolerance: u64,
    minutes: &[u32],
    azimuths: &[i64],
    out: &mut u32,
) -> u32
    ensures value { result ≡ (coded_judgement date.now body point.now tolerance minutes.now azimuths.now).refusal }
    ensures out_after { out.new ≡ told_minute (coded_judgement date.now body point.now tolerance minutes.now azimuths.now) out.old }
{
    match judged(date, body, point, tolerance, minutes, azimuths) {
        Ok(()) => 0,
        Err(fault) => {
            if let Fault::Out(minute) = fault {
                *out = minute;
            }
            fault.number()
        }
    }
}

// How many points the plan has is told; entries behind them are left alone.
#[unsafe(no_mangle)]
pub extern "C" fn raddlehue_plan(
    date: &[i64; 5],
    body: u32,
    point: &[i64; 3],
    tolerance: u64,
    minutes: &mut [u32; 1440],
    azimuths: &mut [i64; 1440],
    count: &mut u64,
) -> u32
    ensures value { result ≡ plan_refusal (coded_planning date.now body point.now tolerance) }
    ensures minutes_after { minutes.new ≡ minutes_left date.now body point.now tolerance minutes.old }
    ensures azimuths_after { azimuths.new ≡ azimuths_left date.now body point.now tolerance azimuths.old }
    ensures count_after { count.new ≡ written_one (plan_refusal (coded_planning date.now body point.now tolerance)) (coded_planning date.now body point.now tolerance).value.points count.old }
{
    put(
        count,
        planned(date, body, point, tolerance, minutes, azimuths),
    )
}

fn judged(
    date: &[i64; 5],
    body: u32,
    point: &[i64; 3],
    tolerance: u64,
    minutes: &[u32],
    azimuths: &[i64],
) -> Result<(), Fault>
    ensures { verdict_told result ≡ coded_judgement date.now body point.now tolerance minutes.now azimuths.now }
{
    let body = read_body(body)?;
    judge(
        Date::from(*date),
        body,
        Point::from(*point),
        tolerance,
        Points { minutes, azimuths },
    )?;
    Ok(())
}

fn planned(
    date: &[i64; 5],
    body: u32,
    point: &[i64; 3],
    tolerance: u64,
    minutes: &mut [u32; 1440],
    azimuths: &mut [i64; 1440],
) -> Result<u64, Fault>
    ensures answer { Told (λ n. n) (plan_refusal (coded_planning date.now body point.now tolerance)) (coded_planning date.now body point.now tolerance).value.points result }
    ensures minutes_after { minutes.new ≡ minutes_left date.now body point.now tolerance minutes.old }
    ensures azimuths_after { azimuths.new ≡ azimuths_left date.now body point.now tolerance azimuths.old }
{
    let body = read_body(body)?;
    let date = Date::from(*date);
    let point = Point::from(*point);
    match plan(date, body, point, tolerance, minutes, azimuths)? {
        Some(points) => Ok(points as u64),
        None => Err(Fault::NoPlan),
    }
}
