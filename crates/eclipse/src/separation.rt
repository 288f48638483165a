// The angle between two directions.
ghost use Rattle.std.specs.Prelude.{◌≡◌, ◌≤◌, nat_abs};
ghost use Rattle.sky_vectors.specs.Product.{◌·◌};
ghost use Rattle.sky_vectors.specs.SkyRange.{SmallVector};
ghost use Rattle.eclipse.specs.Separation.{minor, cross, dot, length, separation};
ghost use Rattle.eclipse.specs.EclipseRange.{ShortVector, coordinate_limit, cross_limit};

use numbers::root::root;
use numbers::whole::floor_div;
use overlap::short_arctangent::short_arctangent;
use sky_vectors::vector::Vector;

// Floored by 10⁹, before it is added or subtracted.
fn product(first: i64, second: i64) -> i64
    requires { (nat_abs first ≤ coordinate_limit) × (nat_abs second ≤ coordinate_limit) }
    ensures { result ≡ first · second }
{
    floor_div(first * second, 1_000_000_000)
}

// One coordinate of a cross product.
fn minor(s1: i64, s2: i64, m1: i64, m2: i64) -> i64
    requires { (nat_abs s1 ≤ coordinate_limit) × (nat_abs s2 ≤ coordinate_limit) × (nat_abs m1 ≤ coordinate_limit) × (nat_abs m2 ≤ coordinate_limit) }
    ensures { result ≡ minor s1 s2 m1 m2 }
{
    product(s1, m2) - product(s2, m1)
}

// A direction that is short enough for the squares of a cross product to fit.
#[derive(Clone, Copy)]
pub struct Direction {
    pub vector: Vector,
    ghost short: { ShortVector vector },
}

impl Direction {
    fn cross(self, other: Direction) -> Vector
        ensures { result ≡ cross self.vector other.vector }
    {
        let s = self.vector;
        let m = other.vector;
        Vector {
            x: minor(s.y, s.z, m.y, m.z),
            y: minor(s.z, s.x, m.z, m.x),
            z: minor(s.x, s.y, m.x, m.y),
        }
    }

    fn dot(self, other: Direction) -> i64
        ensures { result ≡ dot self.vector other.vector }
    {
        let s = self.vector;
        let m = other.vector;
        product(s.x, m.x) + product(s.y, m.y) + product(s.z, m.z)
    }

    // The angle between the two, in 10⁻⁸ degree.
    pub fn separation(self, other: Direction) -> u64
        ensures { result ≡ separation self.vector other.vector }
    {
        let across = length(self.cross(other));
        let along = self.dot(other);
        short_arctangent(across as i64, along)
    }
}

fn length(vector: Vector) -> u64
    requires { SmallVector cross_limit vector }
    ensures { result ≡ length vector }
{
    let Vector { x, y, z } = vector;
    root((x * x) as u64 + (y * y) as u64 + (z * z) as u64)
}
