// How the sky is turned at a runner's longitude, and what else the bodies have in common at an instant.
ghost use Rattle.std.specs.Prelude.{◌≡◌, ◌≤◌, nat_abs};
ghost use Rattle.number_rules.specs.Angle.{half_turn};
ghost use Rattle.sum_rules.specs.Instant.{Reached};
ghost use Rattle.sum_rules.specs.Nutation.{Δψ, Δε};
ghost use Rattle.sky_vectors.specs.Orientation.{orientation, moment};
ghost use Rattle.sky_vectors.specs.SkyRange.{Reachable};

use earth::nutation::{Nutation, nutation_at, obliquity_at};
use earth::sidereal::apparent_at;
use sum_rules::instant::{Instant, Powers};
use sum_terms::instant::powers_at;

// The sidereal angle θ there, and the obliquity ε.
#[derive(Clone, Copy)]
pub struct Orientation {
    pub sidereal: i64,
    pub obliquity: i64,
}

// The Earth turns by UT and nods by TT.
pub fn orientation_at(longitude: i64, ut: Powers, tt: Powers, nutation: Nutation) -> Orientation
    requires within { nat_abs longitude ≤ half_turn }
    requires reached { (Reached ut × Reached tt) × ((nutation.longitude ≡ Δψ tt.n) × (nutation.obliquity ≡ Δε tt.n)) }
    ensures { result ≡ orientation longitude ut.n tt.n }
{
    let obliquity = obliquity_at(tt, nutation.obliquity);
    let greenwich = apparent_at(ut, nutation.longitude, obliquity);
    let sidereal = greenwich + longitude;
    Orientation {
        sidereal,
        obliquity,
    }
}

// The powers of TT, the nutation in longitude and the orientation: worked once for both bodies.
#[derive(Clone, Copy)]
pub struct Moment {
    pub tt: Powers,
    pub nutation: i64,
    pub orientation: Orientation,
}

// At an instant, for a runner at a longitude.
pub fn moment_at(longitude: i64, instant: Instant) -> Moment
    requires { (nat_abs longitude ≤ half_turn) × Reachable instant }
    ensures { result ≡ moment longitude instant }
{
    let ut = powers_at(instant.ut);
    let tt = powers_at(instant.tt);
    let nutation = nutation_at(tt);
    let in_longitude = nutation.longitude;
    let orientation = orientation_at(longitude, ut, tt, nutation);
    Moment {
        tt,
        nutation: in_longitude,
        orientation,
    }
}
