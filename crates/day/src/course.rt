// The course of a body over a day, as a runner sees it.
ghost use Rattle.sky_vectors.specs.SkyRange.{Standing};
ghost use Rattle.day.specs.Curve.{AcceptedDay};

use super::curve::{azimuth_from, elevation_from, minute_of};
use super::date::{Date, days_of};
use arctangent::direction::{MARK, angle_or};
use numbers::angle::Angle;
use sky_vectors::geocentric::Body;
use sky_vectors::station::{Point, Runner, runner_at};
use sum_rules::instant::Instant;

// What the minutes of a day have in common, worked once: the body, where the runner stands, and the day, so many days from 2000-01-01. Each minute of it is accepted.
#[derive(Clone, Copy)]
pub struct Course {
    pub body: Body,
    pub runner: Runner,
    pub date: Date,
    pub days: i64,
    pub ghost stands: { Standing runner },
    pub ghost accepted: { AcceptedDay date days },
}

impl Course {
    ghost use Rattle.std.specs.Prelude.{◌≡◌, ◌<◌};
    ghost use Rattle.arctangent.specs.Direction.{angle_or, mark};
    ghost use Rattle.calendar.specs.Refusal.{first};
    ghost use Rattle.day.specs.Curve.{azimuth_from, elevation_from, minute_of, minutes};
    ghost use Rattle.day.specs.Date.{day_refusals, days};
    ghost use Rattle.sky_vectors.specs.Station.{runner};

    // Of a day that is let pass.
    pub fn new(date: Date, body: Body, point: Point) -> Self
        requires { first (day_refusals date point) ≡ 0 }
        ensures body_is { result.body ≡ body }
        ensures runner_is { result.runner ≡ runner point }
        ensures date_is { result.date ≡ date }
        ensures days_is { result.days ≡ days date }
    {
        Self {
            body,
            runner: runner_at(point),
            date,
            days: days_of(date),
        }
    }

    // Minute m of the day, at its first instant.
    fn instant(self, minute: usize) -> Instant
        requires { minute < minutes }
        ensures { result ≡ minute_of self.date self.days minute }
    {
        minute_of(self.date, self.days, minute)
    }

    // The elevation without refraction at a minute.
    pub fn elevation(self, minute: usize) -> i64
        requires { minute < minutes }
        ensures { result ≡ elevation_from self.body self.runner self.date self.days minute }
    {
        elevation_from(self.body, self.runner, self.instant(minute))
    }

    // The azimuth at a minute.
    pub fn azimuth(self, minute: usize) -> Option<Angle>
        requires { minute < minutes }
        ensures { result ≡ azimuth_from self.body self.runner self.date self.days minute }
    {
        azimuth_from(self.body, self.runner, self.instant(minute))
    }

    // The same as one number: the mark where there is none.
    pub fn marked_azimuth(self, minute: usize) -> i64
        requires { minute < minutes }
        ensures { result ≡ angle_or mark (azimuth_from self.body self.runner self.date self.days minute) }
    {
        angle_or(MARK, self.azimuth(minute))
    }
}
