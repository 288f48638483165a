// Angles in 10⁻⁸ degree.
ghost use Rattle.std.specs.Prelude.{◌≡◌};
ghost use Rattle.number_rules.specs.Angle.{reduced};

use super::whole::floor_mod;

// An angle brought to 0 up to but not a full turn.
#[derive(Clone, Copy)]
pub struct Angle {
    pub units: u64,
}

impl Angle {
    pub const FULL: u64 = 36_000_000_000;

    pub const HALF: u64 = 18_000_000_000;

    pub const QUARTER: u64 = 9_000_000_000;

    // x less whole turns, for any x.
    pub fn new(x: i64) -> Self
        ensures { result.units ≡ reduced x }
    {
        Self {
            units: floor_mod(x, Self::FULL),
        }
    }
}
