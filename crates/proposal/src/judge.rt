// The watch's verdict on a proposal. Each minute's azimuth is worked once, and none is kept.
ghost use Rattle.std.specs.Prelude.{true, ◌++◌, ◌≡◌, ◌-◌, ◌<◌, ◌≤◌};
ghost use Rattle.day.specs.Curve.{azimuth_from, azimuth_on, last_minute};
ghost use Rattle.day.specs.Date.{day_refusals};
ghost use Rattle.day.specs.Demand3.{DayNear};
ghost use Rattle.number_rules.specs.Angle.{full_turn};
ghost use Rattle.arctangent.specs.Direction.{Reduced};
ghost use Rattle.calendar.specs.Refusal.{OneAnswer, first, verdict_number};
ghost use Rattle.turning_points.specs.Points.{is_formed};
ghost use Rattle.proposal.specs.Verdict.{IsFirstOut, form_refusals, is_out, judgement, judgement_answer, leg_of};
ghost use Rattle.proposal.specs.declared.judge.Objection.TheVariants as Objections;

use calendar::refusal::{ProposalRefusal, Refusal, unless};
use day::course::Course;
use day::curve::MINUTES;
use day::date::{Date, day_verdict};
use numbers::angle::Angle;
use sky_vectors::geocentric::Body;
use sky_vectors::station::Point;
use turning_points::arc::{distance, value_on};
use turning_points::points::{Points, are_turned};

// Why a proposal is not accepted. 31 is a case of its own, since it carries the first minute out of tolerance.
#[derive(Clone, Copy)]
pub enum Objection {
    Refused(Refusal),
    Out(u32),
}

impl From<Refusal> for Objection {
    ghost from_gives = { λ refusal objection. objection ≡ Objections.Refused refusal };

    fn from(refusal: Refusal) -> Self {
        Objection::Refused(refusal)
    }
}

// Whether a value lies farther from the azimuth worked than the tolerance. Where there is none, nothing is compared.
#[tactic(auto, unfolding(crate::specs::Verdict::is_out))]
fn is_out(tolerance: u64, worked: Option<Angle>, value: u64) -> bool
    requires { Reduced worked × (value < full_turn) }
    ensures { result ≡ is_out tolerance worked value }
{
    match worked {
        Some(angle) => tolerance < distance(value, angle.units),
        None => false,
    }
}

// The leg on which a minute lies, by its earlier point, from that of the minute before.
fn next_leg(points: Points, leg: usize, minute: usize) -> usize
    requires formed { is_formed points.minutes.now points.azimuths.now ≡ true }
    requires leg_value { (leg ≡ leg_of points.minutes.now (minute - 1)) × (minute ≤ last_minute) }
    ensures { result ≡ leg_of points.entry.minutes.now minute }
{
    if points.minute(leg + 1) < minute {
        leg + 1
    } else {
        leg
    }
}

// The first minute out of tolerance.
fn first_out(course: Course, tolerance: u64, points: Points) -> Option<u32>
    requires { is_formed points.minutes.now points.azimuths.now ≡ true }
    ensures { IsFirstOut tolerance (azimuth_from course.body course.runner course.date course.days) points.entry.minutes.now points.entry.azimuths.now result }
{
    let mut leg = 0;
    for minute in 0..MINUTES {
        leg = next_leg(points, leg, minute);
        let value = value_on(points.leg(leg), minute);
        let worked = course.azimuth(minute);
        if is_out(tolerance, worked, value) {
            return Some(minute as u32);
        }
    }
    None
}

// 29, then 30.
fn form_verdict(points: Points) -> Result<(), Refusal>
    ensures { verdict_number result ≡ first (form_refusals points.entry.minutes.now points.entry.azimuths.now) }
{
    unless(ProposalRefusal::Points.into(), points.is_formed())?;
    unless(
        ProposalRefusal::Opposite.into(),
        are_turned(points.azimuths),
    )
}

// The first of 1 to 3, 5 to 9, 29 and 30 that applies.
fn verdict_before(date: Date, point: Point, points: Points) -> Result<(), Refusal>
    ensures { verdict_number result ≡ first (day_refusals date point ++ form_refusals points.entry.minutes.now points.entry.azimuths.now) }
{
    day_verdict(date, point)?;
    form_verdict(points)
}

// Accepted exactly when every minute's value is within the tolerance, in 10⁻⁸ degree, of the azimuth worked for it.
pub fn judge(
    date: Date,
    body: Body,
    point: Point,
    tolerance: u64,
    points: Points,
) -> Result<(), Objection>
    ensures one_answer { OneAnswer judgement_answer (judgement date body point tolerance points.entry.minutes.now points.entry.azimuths.now) result }
    ensures day_near { DayNear date point }
{
    verdict_before(date, point, points)?;
    let course = Course::new(date, body, point);
    match first_out(course, tolerance, points) {
        Some(minute) => Err(Objection::Out(minute)),
        None => Ok(()),
    }
}
