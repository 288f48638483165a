// The short way round, and the azimuth on a leg from one turning point to the next.
ghost use Rattle.std.specs.Prelude.{◌≡◌, ◌<◌};
ghost use Rattle.number_rules.specs.Angle.{full_turn};
ghost use Rattle.turning_points.specs.Arc.{OnLeg, are_opposite, distance, value_on};

use heading::middle::clockwise;
use numbers::angle::Angle;

// From one minute of a day to a later one, and from the azimuth at the one to that at the other.
#[derive(Clone, Copy)]
pub struct Leg {
    pub first: usize,
    pub last: usize,
    pub start: u64,
    pub end: u64,
}

// Exactly half a turn apart, so that neither way is the short one.
pub fn are_opposite(a: u64, b: u64) -> bool
    requires { (a < full_turn) × (b < full_turn) }
    ensures { result ≡ are_opposite a b }
{
    clockwise(a, b) == Angle::HALF
}

// How far two azimuths lie apart, the short way round.
pub fn distance(a: u64, b: u64) -> u64
    requires { (a < full_turn) × (b < full_turn) }
    ensures { result ≡ distance a b }
{
    let arc = clockwise(a, b);
    let near = arc <= Angle::HALF;
    if near { arc } else { Angle::FULL - arc }
}

// The azimuth at a minute of a leg. Where the way runs backward, what is taken off is rounded up, which is the floor of what is below zero.
pub fn value_on(leg: Leg, minute: usize) -> u64
    requires { OnLeg leg minute }
    ensures { result ≡ value_on leg minute }
{
    let start = leg.start;
    let first = leg.first;
    let all = (leg.last - first) as u64;
    let part = (minute - first) as u64;
    let arc = clockwise(start, leg.end);
    let forward = arc < Angle::HALF;
    if forward {
        (start + arc * part / all) % Angle::FULL
    } else {
        let back = ((Angle::FULL - arc) * part + (all - 1)) / all;
        (start + Angle::FULL - back) % Angle::FULL
    }
}
