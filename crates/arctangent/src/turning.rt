// The arctangent's thirty steps: a pair is turned towards the x axis, and the angles that it is turned by are added up.
ghost use Rattle.std.specs.Prelude.{◌≡◌, ◌≤◌, ◌<◌, ◌^◌, ◌*◌, ℕ, ℤ, pos, nat_abs, ◌+ℤ◌, ◌*ℤ◌};
ghost use Rattle.arithmetic.specs.Floor.{⌊◌÷◌⌋};
ghost use Rattle.number_rules.specs.ArctangentTable.{turn_by};
ghost use Rattle.numbers.specs.Whole.{sign};
ghost use Rattle.arctangent.specs.Arctangent.{step, steps, start, angle_of};
ghost use Rattle.arctangent.specs.Turning.{Both, Sized, grown, narrow_enough, turning};

use numbers::angle::Angle;
use numbers::whole::sign_of;

// The angles whose tangents are 1, 1/2, 1/4, ..
static ARCTANGENTS: [i64; 30] = [
    4_500_000_000,
    2_656_505_118,
    1_403_624_347,
    712_501_635,
    357_633_437,
    178_991_061,
    89_517_371,
    44_761_417,
    22_381_050,
    11_190_568,
    5_595_289,
    2_797_645,
    1_398_823,
    699_411,
    349_706,
    174_853,
    87_426,
    43_713,
    21_857,
    10_928,
    5_464,
    2_732,
    1_366,
    683,
    342,
    171,
    85,
    43,
    21,
    11,
];

// A coordinate of a pair: a number of 64 bits, or one in limbs.
pub trait Coordinate: Copy {
    // The whole number that it is.
    ghost number: { Self → ℤ };

    // What its form keeps to.
    ghost IsProper: { Self → Type 0 };

    // The largest number, on either side of zero, that a pair starts from.
    ghost largest: { ℕ };

    // The largest that a step is taken from.
    ghost room: { ℕ };

    // z times 1024.
    fn scaled(z: i64) -> Self
        requires { nat_abs z ≤ largest }
        ensures { (number result ≡ z *ℤ pos 1024) × IsProper result };

    // 1, 0 or -1.
    fn sign(self) -> i64
        requires { IsProper self }
        ensures { result ≡ sign (number self) };

    // Its floor by 2ᵏ.
    fn floored(self, k: usize) -> Self
        requires { IsProper self × (k < 30) }
        ensures { (number result ≡ ⌊ number self ÷ 2 ^ k ⌋) × (IsProper result × (nat_abs (number result) ≤ nat_abs (number self))) };

    // Its sum with c times another, for c of -1, 0 or 1.
    fn plus_times(self, c: i64, other: Self) -> Self
        requires { IsProper self × IsProper other × (nat_abs c ≤ 1) × (nat_abs (number self +ℤ c *ℤ number other) ≤ 2 * room) }
        ensures { (number result ≡ number self +ℤ c *ℤ number other) × IsProper result };

    // No step passes the room.
    ghost enough: { grown (largest * 1024) 30 ≤ room };
}

impl Coordinate for i64 {
    ghost number = { λ z. z };

    ghost IsProper = { λ z. nat_abs z ≤ 2 ^ 61 };

    ghost largest = { 2 ^ 40 };

    ghost room = { 2 ^ 60 };

    ghost enough = { narrow_enough };

    fn scaled(z: i64) -> i64 {
        z * 1024
    }

    fn sign(self) -> i64 {
        sign_of(self)
    }

    fn floored(self, k: usize) -> i64 {
        self >> k
    }

    fn plus_times(self, c: i64, other: i64) -> i64 {
        self + c * other
    }
}

// A pair that is turned towards the x axis, and the angle that it has been turned by.
#[derive(Clone, Copy)]
pub struct Turning<T> {
    pub x: T,
    pub y: T,
    pub angle: i64,
}

// One step, from the old pair: by the sign of y, with no branch.
#[tactic(auto, using(crate::proofs::ArctangentLaws::sum_room))]
fn stepped<T: Coordinate>(s: Turning<T>, k: usize, turn: i64) -> Turning<T>
    requires { (k < 30) × (turn ≡ pos (turn_by k)) × Both T.IsProper s × Sized T.room (2 ^ 60) (turning T.number s) }
    ensures { (turning T.number result ≡ step k (turning T.number s)) × Both T.IsProper result }
{
    let x = s.x;
    let y = s.y;
    let c = y.sign();
    let dx = y.floored(k);
    let dy = x.floored(k);
    Turning {
        x: x.plus_times(c, dx),
        y: y.plus_times(-c, dy),
        angle: s.angle + c * turn,
    }
}

// All thirty steps.
fn turned<T: Coordinate>(s: Turning<T>) -> Turning<T>
    requires { Both T.IsProper s × Sized (T.largest * 1024) (2 ^ 50) (turning T.number s) }
    ensures { (turning T.number result ≡ steps 30 (turning T.number s)) × (nat_abs result.angle ≤ 2 ^ 60) }
{
    let mut r = s;
    for (k, turn) in ARCTANGENTS.iter().enumerate() {
        r = stepped(r, k, *turn);
    }
    r
}

// Both numbers times 1024, in the right half plane, with the angle to start at.
fn started<T: Coordinate>(y: i64, x: i64) -> Turning<T>
    requires { (nat_abs y ≤ T.largest) × (nat_abs x ≤ T.largest) }
    ensures { (turning T.number result ≡ start y x) × Both T.IsProper result }
{
    let xs = T::scaled(x);
    let ys = T::scaled(y);
    if x < 0 {
        let zero = T::scaled(0);
        Turning {
            x: zero.plus_times(-1, xs),
            y: zero.plus_times(-1, ys),
            angle: Angle::HALF as i64,
        }
    } else {
        Turning {
            x: xs,
            y: ys,
            angle: 0,
        }
    }
}

// The angle of a pair, turned in coordinates that have room for it.
pub fn turned_angle<T: Coordinate>(y: i64, x: i64) -> Angle
    requires { (nat_abs y ≤ T.largest) × (nat_abs x ≤ T.largest) }
    ensures { result.units ≡ angle_of y x }
{
    let t = turned(started::<T>(y, x));
    Angle::new(t.angle)
}
