// Answers as C is handed them, in arrays and a flag.
ghost use Rattle.std.specs.Prelude.{◌≡◌};
ghost use Rattle.rise_set.specs.Answer.{rise_set_numbers};
ghost use Rattle.sky.specs.Answer.{place_numbers};
ghost use Rattle.sky.specs.Shown.{shown_numbers};
ghost use Rattle.sky_vectors.specs.Place.{InTurns};
ghost use Rattle.boundary.specs.Lent.{header_parts, measured_values, place_parts, rise_set_values, shown_parts};

use super::codes::strip_kind_of;
use arctangent::direction::angle_or;
use rise_set::answer::RiseSet;
use sky::shown::Shown;
use sky_vectors::place::Place;
use strip::air::StripAir;
use strip::header::Header;

// The flag of the azimuth, 1 where there is one; azimuth and elevation.
pub fn place_parts(seen: Place) -> (u32, [i64; 2])
    requires { InTurns seen }
    ensures { result ≡ place_parts (place_numbers seen) }
{
    let azimuth = seen.azimuth;
    let flag = u32::from(azimuth.is_some());
    let values = [angle_or(0, azimuth), seen.elevation];
    (flag, values)
}

// The flag of the azimuth; azimuth, elevation and refraction.
pub fn shown_parts(seen: Shown) -> (u32, [f64; 3])
    ensures { result ≡ shown_parts (shown_numbers seen) }
{
    let azimuth = seen.azimuth;
    let values = [azimuth.unwrap_or(0.0), seen.elevation, seen.refraction];
    (u32::from(azimuth.is_some()), values)
}

// A flag and a minute for the rise, then for the set.
pub fn rise_set_parts(seen: RiseSet) -> [u32; 4]
    ensures { result ≡ rise_set_values (rise_set_numbers seen) }
{
    let RiseSet { rise, set } = seen;
    [
        u32::from(rise.is_some()),
        rise.unwrap_or(0),
        u32::from(set.is_some()),
        set.unwrap_or(0),
    ]
}

// Air and body by their codes, year, month, day, longitude, latitude and step; and what the air was measured at.
pub fn header_parts(header: Header) -> ([i64; 8], [f64; 2])
    ensures { result ≡ header_parts header }
{
    let air = header.air;
    let body = header.body;
    let values = [
        strip_kind_of(air) as i64,
        body as i64,
        header.year,
        header.month,
        header.day,
        header.longitude,
        header.latitude,
        header.step,
    ];
    (values, measured(air))
}

// The pressure in mbar and the temperature in °C of a strip's air, zeros where there is none.
fn measured(air: StripAir) -> [f64; 2]
    ensures { result ≡ measured_values air }
{
    match air {
        StripAir::None => [0.0, 0.0],
        StripAir::Measured(air) => [air.pressure, air.temperature],
        StripAir::CarriedOver(air) => [air.pressure, air.temperature],
    }
}
