// The air of a strip.
ghost use Rattle.std.specs.Prelude.{◌≡◌};
ghost use Rattle.strip.specs.Air.{air_in, is_none, request_air};

use refraction::air::Air;

// The mark that it was carried over is a case, so that no copy of the air is without it.
#[derive(Clone, Copy)]
pub enum StripAir {
    None,
    Measured(Air),
    CarriedOver(Air),
}

// What octet 1 says: air that was measured at this pressure and this temperature.
const CARRIED_OVER: Air = Air {
    pressure: 1010.0,
    temperature: 10.0,
};

// The octet of air that is written.
pub const WRITTEN_AIR: u32 = 0;

impl From<u32> for StripAir {
    ghost from_gives = { λ byte air. air ≡ air_in byte };

    fn from(byte: u32) -> StripAir {
        if byte == 0 {
            StripAir::None
        } else {
            StripAir::CarriedOver(CARRIED_OVER)
        }
    }
}

impl StripAir {
    pub fn is_none(self) -> bool
        ensures { result ≡ is_none self }
    {
        matches!(self, StripAir::None)
    }
}

// The air of a request for the same place: here the mark is left behind.
impl From<StripAir> for Option<Air> {
    ghost from_gives = { λ air request. request ≡ request_air air };

    fn from(air: StripAir) -> Option<Air> {
        match air {
            StripAir::None => None,
            StripAir::Measured(air) => Some(air),
            StripAir::CarriedOver(air) => Some(air),
        }
    }
}
