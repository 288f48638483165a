// The arctangent of a pair of numbers: its direction, which two zeros do not have.
ghost use Rattle.std.specs.Prelude.{◌≡◌, ◌+◌, ◌<◌, ◌^◌, leb, nat_abs};
ghost use Rattle.arctangent.specs.Arctangent.{angle_of, arctangent};
ghost use Rattle.arctangent.specs.Direction.{Reduced, angle_or};

use super::limbs::Limbs;
use super::turning::turned_angle;
use numbers::angle::Angle;

// No direction, where one number has to say so: to C, and in the entries of a batch.
pub const MARK: i64 = 9_223_372_036_854_775_807;

// At most 2⁴⁰ on either side of zero, as every number of the sky is.
fn is_small(z: i64) -> bool
    ensures { result ≡ leb (nat_abs z) (2 ^ 40) }
{
    z.unsigned_abs() <= 1_099_511_627_776
}

// The angle of a pair that is known to have a direction.
pub fn angle_of(y: i64, x: i64) -> Angle
    requires { 0 < nat_abs y + nat_abs x }
    ensures { result.units ≡ angle_of y x }
{
    if is_small(y) && is_small(x) {
        turned_angle::<i64>(y, x)
    } else {
        turned_angle::<Limbs>(y, x)
    }
}

// Where a pair points to from the x axis towards the y axis: a reduced angle, or nowhere.
#[tactic(auto, unfolding(crate::specs::Arctangent::arctangent))]
pub fn arctangent(y: i64, x: i64) -> Option<Angle>
    ensures { result ≡ arctangent y x }
{
    let no_y = y == 0;
    let no_x = x == 0;
    if no_y && no_x {
        return None;
    }
    Some(angle_of(y, x))
}

// The angle of a direction, or a number for none. `Reduced` stays a clause: specs/ builds angles of any number, and its theorems speak of each.
pub fn angle_or(none: i64, direction: Option<Angle>) -> i64
    requires { Reduced direction }
    ensures { result ≡ angle_or none direction }
{
    direction.map_or(none, |angle| angle.units as i64)
}
