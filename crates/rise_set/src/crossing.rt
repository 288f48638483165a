// Rise and set: the first minute at which a body is on the other side of the threshold than at the minute before.
ghost use Rattle.std.specs.Prelude.{◌≡◌, length};
ghost use Rattle.calendar.specs.Refusal.{OneAnswer};
ghost use Rattle.day.specs.Curve.{minutes};
ghost use Rattle.rise_set.specs.Crossing.{crosses, crossing_numbers, first_minute, is_up};
ghost use Rattle.rise_set.specs.Worked.{crosses_in};

// 34 minutes of arc of refraction and 16 of the Sun's radius: the upper rim at the horizon. 02's number for rise and set alone.
const THRESHOLD: i64 = -83_330_000;

#[derive(Clone, Copy)]
pub enum Event {
    Rise,
    Set,
}

impl Event {
    // Whether it is at a minute, by the sides of the threshold at the minute before and now.
    fn crosses(self, before: bool, now: bool) -> bool
        ensures { result ≡ crosses self before now }
    {
        match self {
            Event::Rise => !before && now,
            Event::Set => before && !now,
        }
    }
}

// Whether an elevation is at or above the threshold.
pub fn is_up(elevation: i64) -> bool
    ensures { result ≡ is_up elevation }
{
    THRESHOLD <= elevation
}

// The first minute of a curve at which the event is, 0 to 1439, given whether the body was up at the minute before the first.
pub fn first_crossing(event: Event, up_before: bool, curve: &[i64]) -> Option<u32>
    requires { length curve.now ≡ minutes }
    ensures { OneAnswer crossing_numbers (first_minute (crosses_in event up_before curve.now)) result }
{
    let mut before = up_before;
    for (minute, elevation) in curve.iter().enumerate() {
        let now = is_up(*elevation);
        let is_here = event.crosses(before, now);
        if is_here {
            return Some(minute as u32);
        }
        before = now;
    }
    None
}
