// A body's direction as a vector, and its rotations.
ghost use Rattle.std.specs.Prelude.{◌≡◌};
ghost use Rattle.sky_vectors.specs.Vector.{unit_vector, equatorial, meridian};
ghost use Rattle.numbers.specs.SineCosine.{OneAngle};
ghost use Rattle.sky_vectors.specs.SkyRange.{SmallVector, vector_limit};

use super::rotation::rotated;
use numbers::sine::SineCosine;
use numbers::whole::floor_div;

#[derive(Clone, Copy)]
pub struct Vector {
    pub x: i64,
    pub y: i64,
    pub z: i64,
}

// The unit vector at longitude l and latitude t.
pub fn unit_vector(l: SineCosine, t: SineCosine) -> Vector
    requires { OneAngle l × OneAngle t }
    ensures { result ≡ unit_vector l t }
{
    let z = t.sine;
    let flat = t.cosine;
    let sine = l.sine;
    let cosine = l.cosine;
    let x = floor_div(flat * cosine, 1_000_000_000);
    let y = floor_div(flat * sine, 1_000_000_000);
    Vector { x, y, z }
}

// From the ecliptic to the equator, by the obliquity.
pub fn equatorial(obliquity: SineCosine, vector: Vector) -> Vector
    requires { OneAngle obliquity × SmallVector vector_limit vector }
    ensures { result ≡ equatorial obliquity vector }
{
    let x = vector.x;
    let turned = rotated(obliquity, vector.z, vector.y);
    Vector {
        x,
        y: turned.across,
        z: turned.along,
    }
}

// From the equinox to the runner's meridian, by the sidereal angle there.
pub fn meridian(sidereal: SineCosine, vector: Vector) -> Vector
    requires { OneAngle sidereal × SmallVector vector_limit vector }
    ensures { result ≡ meridian sidereal vector }
{
    let z = vector.z;
    let turned = rotated(sidereal, vector.x, vector.y);
    Vector {
        x: turned.along,
        y: turned.across,
        z,
    }
}
