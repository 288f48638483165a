// Up, north and east, and the azimuth and the elevation that they make.
ghost use Rattle.std.specs.Prelude.{◌≡◌, ◌≤◌, nat_abs};
ghost use Rattle.number_rules.specs.Angle.{full_turn};
ghost use Rattle.sky_vectors.specs.Horizon.{horizon, azimuth, level, slope, lowered, clamped, elevation};
ghost use Rattle.numbers.specs.SineCosine.{OneAngle};
ghost use Rattle.sky_vectors.specs.SkyRange.{SmallVector, SmallHorizon, vector_limit};

use super::rotation::rotated;
use super::vector::Vector;
use arctangent::direction::{angle_or, arctangent};
use numbers::angle::Angle;
use numbers::root::root;
use numbers::sine::SineCosine;

// What up and level answer where both are zero.
const ELEVATION_OF_ZEROS: i64 = 0;

#[derive(Clone, Copy)]
pub struct Horizon {
    pub up: i64,
    pub north: i64,
    pub east: i64,
}

// At a latitude. It differs from `meridian` in the axes alone, whose names are all that `rotated` leaves to either.
pub fn horizon_at(latitude: SineCosine, vector: Vector) -> Horizon
    requires { OneAngle latitude × SmallVector vector_limit vector }
    ensures { result ≡ horizon latitude vector }
{
    let east = vector.y;
    let turned = rotated(latitude, vector.x, vector.z);
    Horizon {
        up: turned.along,
        north: turned.across,
        east,
    }
}

// Straight overhead and straight underfoot it has none.
pub fn azimuth(seen: Horizon) -> Option<Angle>
    ensures { result ≡ azimuth seen }
{
    let north = seen.north;
    let east = seen.east;
    arctangent(east, north)
}

// The length of north and east together.
fn level(seen: Horizon) -> i64
    requires { SmallHorizon seen }
    ensures { result ≡ level seen }
{
    let north = seen.north;
    let east = seen.east;
    root((north * north) as u64 + (east * east) as u64) as i64
}

// An elevation, and the separation of two vectors, have a rule of their own for two zeros.
pub fn slope(up: i64, level: i64) -> i64
    ensures { result ≡ slope up level }
{
    angle_or(ELEVATION_OF_ZEROS, arctangent(up, level))
}

// Less a whole turn from 180 degrees up.
fn lowered(angle: i64) -> i64
    requires { nat_abs angle ≤ full_turn }
    ensures { result ≡ lowered angle }
{
    if angle >= Angle::HALF as i64 {
        angle - Angle::FULL as i64
    } else {
        angle
    }
}

// Kept within 90 degrees of the horizon.
fn clamped(angle: i64) -> i64
    ensures { result ≡ clamped angle }
{
    let most = Angle::QUARTER as i64;
    angle.clamp(-most, most)
}

pub fn elevation(seen: Horizon) -> i64
    requires { SmallHorizon seen }
    ensures { result ≡ elevation seen }
{
    let up = seen.up;
    clamped(lowered(slope(up, level(seen))))
}
