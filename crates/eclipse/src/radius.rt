// The radii of the two disks, in 10⁻⁸ degree.
ghost use Rattle.std.specs.Prelude.{◌≡◌};
ghost use Rattle.eclipse.specs.Radius.{sun_radius, moon_radius};
ghost use Rattle.eclipse.specs.EclipseRange.{SunFar, MoonFar};

use numbers::sine::sine;
use numbers::whole::floor_div;
use sky_vectors::geocentric::Geocentric;

pub fn sun_radius(sun: Geocentric) -> u64
    requires { SunFar sun }
    ensures { result ≡ sun_radius sun }
{
    let distance = sun.distance;
    9_596_300_000_000_000_000 / (36 * distance as u64)
}

// At an elevation without refraction: a Moon at the zenith is nearer by the Earth's radius, and larger.
pub fn moon_radius(moon: Geocentric, elevation: i64) -> u64
    requires { MoonFar moon }
    ensures { result ≡ moon_radius moon elevation }
{
    let distance = moon.distance;
    let parallax = moon.parallax;
    let height = sine(elevation);
    let nearer = 1_000_000_000 + floor_div(parallax * height, 1_000_000_000);
    358_473_400 * nearer as u64 / (36 * distance as u64)
}
