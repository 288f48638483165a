// From each turning point straight to the farthest minute that the tolerance allows.
ghost use Rattle.plan.specs.Plan.{Plannable};

use day::curve::MINUTES;
use turning_points::arc::{Leg, are_opposite, distance, value_on};
use turning_points::points::azimuth_at;

// A day that has a plan, by its azimuths, and the plan's tolerance.
#[derive(Clone, Copy)]
pub struct Planner<'a> {
    pub day: &'a [i64],
    pub tolerance: u64,
    pub ghost plannable: { Plannable day.now },
}

impl Planner<'_> {
    ghost use Rattle.std.specs.Prelude.{◌++◌, ◌≡◌, ◌<◌, ◌≤◌, drop, length, set};
    ghost use Rattle.day.specs.Curve.{last_minute};
    ghost use Rattle.turning_points.specs.Points.{signed_at};
    ghost use Rattle.plan.specs.Plan.{EachMinute, count, farthest, plan_azimuths, plan_minutes, reaches, straight};

    // The leg from one minute of the day to another, between the day's azimuths.
    fn straight(self, first: usize, last: usize) -> Leg
        requires { (first ≤ last_minute) × (last ≤ last_minute) }
        ensures { result ≡ straight self.entry.day.now first last }
    {
        Leg {
            first,
            last,
            start: azimuth_at(self.day, first),
            end: azimuth_at(self.day, last),
        }
    }

    // Whether the straight leg stays within the tolerance of the day at every minute.
    fn reaches(self, first: usize, last: usize) -> bool
        requires { (first < last) × (last ≤ last_minute) }
        ensures { result ≡ reaches self.entry.tolerance self.entry.day.now first last }
    {
        if are_opposite(azimuth_at(self.day, first), azimuth_at(self.day, last)) {
            return false;
        }
        let leg = self.straight(first, last);
        for minute in first + 1..last + 1 {
            let apart = distance(value_on(leg, minute), azimuth_at(self.day, minute));
            let is_off = self.tolerance < apart;
            if is_off {
                return false;
            }
        }
        true
    }

    // The farthest minute that is reached, searched from the day's end. The next minute always is.
    fn farthest(self, first: usize) -> usize
        requires { first < last_minute }
        ensures { result ≡ farthest self.entry.tolerance self.entry.day.now first }
    {
        for last in (first + 2..MINUTES).rev() {
            if self.reaches(first, last) {
                return last;
            }
        }
        first + 1
    }

    // A point into both buffers.
    fn put_point(self, minute: usize, index: usize, minutes: &mut [u32], azimuths: &mut [i64])
        requires in_day { minute ≤ last_minute }
        requires index_in_bounds { (index < length minutes.old) × (index < length azimuths.old) }
        ensures minutes_after { minutes.new ≡ set minutes.old index minute }
        ensures azimuths_after { azimuths.new ≡ set azimuths.old index (signed_at self.entry.day.now minute) }
    {
        minutes[index] = minute as u32;
        azimuths[index] = self.day[minute];
    }

    // Writes the points of a plan, and gives their number; entries behind them are left alone. How many there are shows only at the last, and both of C's buffers are written
    // at one index, so that it is counted by hand.
    pub fn put_points(self, minutes: &mut [u32], azimuths: &mut [i64]) -> usize
        requires { EachMinute minutes.old × EachMinute azimuths.old }
        ensures value { result ≡ count self.entry.tolerance self.entry.day.now }
        ensures minutes_after { minutes.new ≡ plan_minutes self.entry.tolerance self.entry.day.now ++ drop (count self.entry.tolerance self.entry.day.now) minutes.old }
        ensures azimuths_after { azimuths.new ≡ plan_azimuths self.entry.tolerance self.entry.day.now ++ drop (count self.entry.tolerance self.entry.day.now) azimuths.old }
    {
        let mut minute = 0;
        let mut index = 0;
        while minute < MINUTES - 1 {
            self.put_point(minute, index, minutes, azimuths);
            minute = self.farthest(minute);
            index += 1;
        }
        self.put_point(minute, index, minutes, azimuths);
        index + 1
    }
}
