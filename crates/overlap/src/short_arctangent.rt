// The angle of a pair of numbers, the short way round.
ghost use Rattle.std.specs.Prelude.{◌≡◌};
ghost use Rattle.overlap.specs.ShortArctangent.{short_arctangent};

use numbers::angle::Angle;
use sky_vectors::horizon::slope;

// The arctangent, or a whole turn less it where that is smaller.
pub fn short_arctangent(y: i64, x: i64) -> u64
    ensures { result ≡ short_arctangent y x }
{
    let angle = slope(y, x) as u64;
    angle.min(Angle::FULL - angle)
}
