// A pair of numbers turned by one angle.
ghost use Rattle.std.specs.Prelude.{◌≡◌, ◌≤◌, nat_abs};
ghost use Rattle.sky_vectors.specs.Rotation.{rotated};
ghost use Rattle.numbers.specs.SineCosine.{OneAngle};
ghost use Rattle.sky_vectors.specs.SkyRange.{vector_limit};

use numbers::sine::SineCosine;
use numbers::whole::floor_div;

// The parts along the turned axis and across it.
#[derive(Clone, Copy)]
pub struct Pair {
    pub along: i64,
    pub across: i64,
}

// Each product is floored on its own. That both are of one angle is a clause, not a field: the rules compare pairs by their two numbers (sine_cosine). A coordinate's bound is one too: it grows from step to step.
pub fn rotated(angle: SineCosine, x: i64, y: i64) -> Pair
    requires { OneAngle angle × (nat_abs x ≤ vector_limit) × (nat_abs y ≤ vector_limit) }
    ensures { result ≡ rotated angle x y }
{
    let sine = angle.sine;
    let cosine = angle.cosine;
    Pair {
        along: floor_div(x * cosine, 1_000_000_000) + floor_div(y * sine, 1_000_000_000),
        across: floor_div(y * cosine, 1_000_000_000) - floor_div(x * sine, 1_000_000_000),
    }
}
