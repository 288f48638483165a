// The azimuth at each step of a day, as a strip has it.
ghost use Rattle.std.specs.Prelude.{◌++◌, ◌≡◌, ◌*◌, ◌≤◌, drop, length};
ghost use Rattle.arctangent.specs.Direction.{Reduced};
ghost use Rattle.day.specs.Curve.{each_below, minutes};
ghost use Rattle.day_azimuths.specs.Azimuths.{strip_azimuth, strip_azimuth_from};

use day::course::Course;
use numbers::angle::Angle;
use strip::checks::ABSENT;

// Units of an angle, 10⁻⁸ degree, to one of a strip's, 10⁻⁷.
const COARSER: u64 = 10;

// A direction as a strip has it: floored, or absent.
fn strip_azimuth(direction: Option<Angle>) -> u32
    requires { Reduced direction }
    ensures { result ≡ strip_azimuth direction }
{
    match direction {
        Some(angle) => (angle.units / COARSER) as u32,
        None => ABSENT,
    }
}

// Entry i is the azimuth i steps after minute 0.
fn fill_all(course: Course, step: usize, azimuths: &mut [u32])
    requires { length azimuths.old * step ≤ minutes }
    ensures { azimuths.new ≡ each_below (strip_azimuth_from course.body course.runner course.date course.days step) (length azimuths.old) }
{
    for (index, azimuth) in azimuths.iter_mut().enumerate() {
        *azimuth = strip_azimuth(course.azimuth(index * step));
    }
}

// So many entries; what lies behind them is left alone.
pub fn fill(course: Course, step: usize, count: usize, azimuths: &mut [u32])
    requires step_bound { (count * step ≤ minutes) × (count ≤ length azimuths.old) }
    ensures { azimuths.new ≡ each_below (strip_azimuth_from course.body course.runner course.date course.days step) count ++ drop count azimuths.old }
{
    fill_all(course, step, &mut azimuths[..count]);
}
