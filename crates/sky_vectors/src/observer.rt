// Where the runner stands on the flattened Earth.
ghost use Rattle.std.specs.Prelude.{◌≡◌, ◌≤◌, nat_abs};
ghost use Rattle.sky_vectors.specs.Observer.{observer, shifted};
ghost use Rattle.numbers.specs.SineCosine.{OneAngle};
ghost use Rattle.sky_vectors.specs.SkyRange.{SmallVector, SmallObserver, highest_height, parallax_limit, vector_limit};

use super::vector::Vector;
use arctangent::direction::angle_of;
use numbers::sine::{SineCosine, sine_cosine};
use numbers::whole::floor_div;

// The Earth's radius at the equator, in metres.
pub const RADIUS: u64 = 6_378_140;

// The polar radius, times 10⁸, where the equator's is 1.
const POLAR: i64 = 99_664_719;

// The distances from the Earth's axis and from the equator's plane.
#[derive(Clone, Copy)]
pub struct Observer {
    pub f: i64,
    pub g: i64,
}

// At a latitude, and at a height in metres. The two numbers of w are never both zero, so that it has a direction.
pub fn observer_at(latitude: SineCosine, height: i64) -> Observer
    requires { OneAngle latitude × (nat_abs height ≤ highest_height) }
    ensures { result ≡ observer latitude height }
{
    let sine = latitude.sine;
    let cosine = latitude.cosine;
    let flattened = floor_div(POLAR * sine, 100_000_000);
    let angle = angle_of(flattened, cosine).units;
    let w = sine_cosine(angle as i64);
    let sine_w = w.sine;
    let cosine_w = w.cosine;
    let f = cosine_w + floor_div(height * cosine, RADIUS);
    let g = floor_div(POLAR * sine_w, 100_000_000) + floor_div(height * sine, RADIUS);
    Observer { f, g }
}

// The vector less the parallax p times the observer's distances.
pub fn shifted(p: i64, observer: Observer, vector: Vector) -> Vector
    requires { (nat_abs p ≤ parallax_limit) × SmallObserver observer × SmallVector vector_limit vector }
    ensures { result ≡ shifted p observer vector }
{
    let f = observer.f;
    let g = observer.g;
    let x = vector.x;
    let y = vector.y;
    let z = vector.z;
    Vector {
        x: x - floor_div(p * f, 1_000_000_000),
        y,
        z: z - floor_div(p * g, 1_000_000_000),
    }
}
