// The share of the Sun's disk that the Moon's covers: two circles in a plane, the separation of their centres and their radii in 10⁻⁸ degree.
ghost use Rattle.std.specs.Prelude.{◌≡◌, ◌*◌, ◌<◌, ◌≤◌};
ghost use Rattle.overlap.specs.DiskRange.{Radii, Crossing, radius_most};
ghost use Rattle.overlap.specs.Overlap.{piece, sun_height, lens, millionths, ring, share};
ghost use Rattle.overlap.specs.Share.{ShareHolds};

use super::short_arctangent::short_arctangent;
use numbers::root::root;
use numbers::sine::sine;
use numbers::whole::floor_div;

// A radius of either disk is at most 0.3 degree, and the Sun's at least 0.2.
pub const RADIUS_MOST: u64 = 30_000_000;

pub const SUN_RADIUS_LEAST: u64 = 20_000_000;

// The whole of the Sun's disk, in millionths.
const WHOLE: u64 = 1_000_000;

// The Sun's disk and the Moon's: how far their centres stand apart, and their radii.
#[derive(Clone, Copy)]
pub struct Disks {
    pub apart: u64,
    pub sun: u64,
    pub moon: u64,
    ghost radii: { Radii sun moon },
}

impl Disks {
    // The height of the Sun's piece of the overlap, on its side of the common chord.
    fn sun_height(self) -> u64
        requires { Crossing self.apart self.sun self.moon }
        ensures { result ≡ sun_height self.apart self.sun self.moon }
    {
        let Disks { apart, sun, moon } = self;
        (sun + moon - apart) * (apart + moon - sun) / (2 * apart)
    }

    // The overlap of two circles that cross, in 10⁻⁹ of the Sun's disk.
    fn lens(self) -> i64
        requires { Crossing self.apart self.sun self.moon }
        ensures { result ≡ lens self.apart self.sun self.moon }
    {
        let Disks { apart, sun, moon } = self;
        let height = self.sun_height();
        let sun_piece = piece(sun, height);
        let moon_piece = piece(moon, sun + moon - apart - height);
        let once = floor_div(moon_piece * moon as i64, sun);
        sun_piece + floor_div(once * moon as i64, sun)
    }

    // The Moon within the Sun's rim: two digits to base 1000 of rm² / rs², since 10⁶ rm² would pass 64 bits.
    fn ring(self) -> u64
        requires { self.moon ≤ self.sun }
        ensures { result ≡ ring self.sun self.moon }
    {
        let sun = self.sun * self.sun;
        let moon = 1000 * (self.moon * self.moon);
        moon / sun * 1000 + moon % sun * 1000 / sun
    }

    // Nothing, the whole, a ring or a lens, in millionths.
    pub fn share(self) -> u64
        ensures value { result ≡ share self.apart self.sun self.moon }
        ensures share_holds { ShareHolds self.apart self.sun self.moon }
    {
        let Disks { apart, sun, moon } = self;
        if sun + moon <= apart {
            return 0;
        }
        if sun <= moon {
            if apart <= moon - sun {
                return WHOLE;
            }
        } else if apart <= sun - moon {
            return self.ring();
        }
        millionths(self.lens())
    }
}

// The piece of a height that a chord cuts off a disk, in 10⁻⁹ of the disk.
fn piece(radius: u64, height: u64) -> i64
    requires { (radius ≤ radius_most) × (height ≤ 2 * radius) }
    ensures { result ≡ piece radius height }
{
    let half_chord = root(height * (2 * radius - height));
    let half_angle = short_arctangent(half_chord as i64, radius as i64 - height as i64);
    let sine = sine((2 * half_angle) as i64);
    (half_angle / 18) as i64 - floor_div(159_154_943 * sine, 1_000_000_000)
}

// 10⁻⁹ to millionths, kept within nothing and the whole.
fn millionths(part: i64) -> u64
    ensures { result ≡ millionths part }
{
    (part.max(0) as u64 / 1000).min(WHOLE)
}
