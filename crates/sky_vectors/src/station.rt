// Points on Earth, and where a runner stands at one.
ghost use Rattle.std.specs.Prelude.{◌≡◌};
ghost use Rattle.sky_vectors.specs.SkyRange.{OnEarth};
ghost use Rattle.sky_vectors.specs.Station.{point_from, runner};

use super::observer::{Observer, observer_at};
use numbers::sine::{SineCosine, sine_cosine};

// What 7 to 9 let pass: longitude and latitude either way of zero, and heights from the lowest to the highest.
pub const LONGITUDE_LIMIT: i64 = 1_800_000_000;

pub const LATITUDE_LIMIT: i64 = 900_000_000;

pub const LOWEST_HEIGHT: i64 = -500;

pub const HIGHEST_HEIGHT: i64 = 9_000;

// Longitude east-positive and latitude in 10⁻⁷ degree, height in metres.
#[derive(Clone, Copy)]
pub struct Point {
    pub longitude: i64,
    pub latitude: i64,
    pub height: i64,
}

impl From<[i64; 3]> for Point {
    ghost from_gives = { λ numbers point. point ≡ point_from numbers };

    fn from(numbers: [i64; 3]) -> Self {
        let [longitude, latitude, height] = numbers;
        Self {
            longitude,
            latitude,
            height,
        }
    }
}

// What a point has in common for every instant: the longitude in 10⁻⁸ degree, the sine and the cosine of the latitude φ, and the observer there.
#[derive(Clone, Copy)]
pub struct Runner {
    pub longitude: i64,
    pub latitude: SineCosine,
    pub observer: Observer,
}

pub fn runner_at(point: Point) -> Runner
    requires { OnEarth point }
    ensures { result ≡ runner point }
{
    let longitude = 10 * point.longitude;
    let latitude = sine_cosine(10 * point.latitude);
    let observer = observer_at(latitude, point.height);
    Runner {
        longitude,
        latitude,
        observer,
    }
}
