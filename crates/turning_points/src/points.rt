// Turning points by their minutes and their azimuths, as the phone sends them: 29 and 30.
ghost use Rattle.std.specs.Prelude.{true, ◌≡◌, ◌+◌, ◌<◌, length};
ghost use Rattle.turning_points.specs.Points.{are_reduced, are_turned, at, azimuth, is_counted, is_formed, is_rising, leg_at, never_falls};

use super::arc::{Leg, are_opposite};
use day::curve::MINUTES;
use heading::middle::is_reduced;

// The azimuth of a point, among azimuths that are reduced.
pub fn azimuth_at(azimuths: &[i64], index: usize) -> u64
    requires { (are_reduced azimuths.now ≡ true) × (index < length azimuths.now) }
    ensures { result ≡ azimuth azimuths.now index }
{
    azimuths[index] as u64
}

// Each minute is above the one before.
fn never_falls(minutes: &[u32]) -> bool
    ensures { result ≡ never_falls minutes.now }
{
    minutes.is_sorted_by(|earlier, later| earlier < later)
}

// Every azimuth is below a full turn, and none below zero.
pub fn are_reduced(azimuths: &[i64]) -> bool
    ensures { result ≡ are_reduced azimuths.now }
{
    azimuths.iter().all(|azimuth| is_reduced(*azimuth))
}

// No two neighbours are exactly half a turn apart.
pub fn are_turned(azimuths: &[i64]) -> bool
    requires { are_reduced azimuths.now ≡ true }
    ensures { result ≡ are_turned azimuths.now }
{
    for pair in azimuths.windows(2) {
        if are_opposite(azimuth_at(pair, 0), azimuth_at(pair, 1)) {
            return false;
        }
    }
    true
}

// An azimuth to each minute, and neither too few nor too many.
#[tactic(auto, unfolding(crate::specs::Points::is_counted))]
fn is_counted(points: usize, azimuths: usize) -> bool
    ensures { result ≡ is_counted points azimuths }
{
    points == azimuths && 2 <= points && points <= MINUTES
}

// The minutes of turning points, and their azimuths. C gives them as two arrays, whose lengths may differ.
#[derive(Clone, Copy)]
pub struct Points<'a> {
    pub minutes: &'a [u32],
    pub azimuths: &'a [i64],
}

impl Points<'_> {
    // The minute of a point.
    pub fn minute(self, index: usize) -> usize
        requires { index < length self.minutes.now }
        ensures { result ≡ at self.entry.minutes.now index }
    {
        self.minutes[index] as usize
    }

    // From point to point.
    pub fn leg(self, index: usize) -> Leg
        requires azimuths_value { (are_reduced self.azimuths.now ≡ true) × (index + 1 < length self.azimuths.now) }
        requires index_in_bounds { index + 1 < length self.minutes.now }
        ensures { result ≡ leg_at self.entry.minutes.now self.entry.azimuths.now index }
    {
        Leg {
            first: self.minute(index),
            last: self.minute(index + 1),
            start: azimuth_at(self.azimuths, index),
            end: azimuth_at(self.azimuths, index + 1),
        }
    }

    // From 0 to 1439, without a fall.
    #[tactic(auto, unfolding(crate::specs::Points::is_rising))]
    fn is_rising(self) -> bool
        requires { 0 < length self.minutes.now }
        ensures { result ≡ is_rising self.entry.minutes.now }
    {
        let last = self.minutes.len() - 1;
        self.minute(0) == 0 && self.minute(last) == MINUTES - 1 && never_falls(self.minutes)
    }

    // All that 29 asks.
    #[tactic(auto, using(crate::proofs::PointLaws::counted), unfolding(crate::specs::Points::is_formed))]
    pub fn is_formed(self) -> bool
        ensures { result ≡ is_formed self.entry.minutes.now self.entry.azimuths.now }
    {
        is_counted(self.minutes.len(), self.azimuths.len())
            && self.is_rising()
            && are_reduced(self.azimuths)
    }
}
