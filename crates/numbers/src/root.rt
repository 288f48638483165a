// The square root by the schoolbook method: two digits of the square for one of the root, from the front.
//
// Mark the number off in pairs of digits from the back, and take the pairs from the front. Write each pair behind what is left over from before. The next digit of
// the root is the greatest d for which (20 × the root so far + d) × d is not above that. Take this away; the rest is left over for the next pair.
//
// 1,522,756 is 1 52 27 56:
//
//     pair   with what was left   digit                             left over   root so far
//        1                    1   1, since (   0 + 1) × 1 =    1            0             1
//       52                   52   2, since (  20 + 2) × 2 =   44            8            12   (3 is too large: 23 × 3 = 69)
//       27                  827   3, since ( 240 + 3) × 3 =  729           98           123
//       56                 9856   4, since (2460 + 4) × 4 = 9856            0          1234
//
// Nothing is left over: 1,234 × 1,234 = 1,522,756. 200, which is 2 00, is no square:
//
//        2                    2   1, since (   0 + 1) × 1 =    1            1             1
//       00                  100   4, since (  20 + 4) × 4 =   96            4            14   (5 is too large: 25 × 5 = 125)
//
// 4 is left over: 14 × 14 = 196 is not above 200, and 15 × 15 = 225 is.
//
// Why twenty: with a digit d more the root r becomes 10 r + d, and its square 100 r² + (20 r + d) d. The digits before took away r², which two places further on
// is 100 r². So (20 r + d) d is what d takes, and the greatest d that can take it gives the greatest root.
ghost use Rattle.std.specs.Prelude.{◌≡◌, ℕ, ◌+◌, ◌*◌, ◌^◌, ◌<◌};
ghost use Rattle.numbers.specs.Root.{Greatest, root};
ghost use Rattle.numbers.specs.RootDigits.{AfterDigit, PairsOf, digits_of, taking};

// The pairs of digits that 64 bits have.
const PAIRS: usize = 10;

// The root of the digits taken so far, and what its square leaves of them.
#[derive(Clone, Copy)]
struct SoFar {
    root: u64,
    remainder: u64,
}

// The pairs of digits of x, from the front. They are marked off from the back.
fn pairs_of(x: u64) -> [u64; PAIRS]
    ensures { PairsOf x result }
{
    let mut marked: [u64; PAIRS] = [0; PAIRS];
    let mut front = x;
    for k in (0..PAIRS).rev() {
        marked[k] = front % 100;
        front /= 100;
    }
    marked
}

// The greatest digit d for which (twentyfold + d) d is not above rest. Nine is never too small, nor is the guess, since (twentyfold + 1) d is not above rest either.
fn greatest_digit(twentyfold: u64, rest: u64) -> u64
    requires { (twentyfold < 2 ^ 34) × (rest < taking twentyfold 10) }
    ensures { Greatest (taking twentyfold) rest result }
{
    let guess = rest / (twentyfold + 1);
    let mut digit = guess.min(9);
    while (twentyfold + digit) * digit > rest {
        digit -= 1;
    }
    digit
}

// One pair of digits more, and so one digit of the root more. `digits` are those taken before: the square of the root so far, and what it leaves.
fn next_digit(before: SoFar, pair: u64) -> SoFar
    ghost digits: { ℕ }
    requires before_value { digits_of before ≡ digits }
    requires after_digit { AfterDigit digits before × (pair < 100) × (100 * digits + pair < 2 ^ 64) }
    ensures { AfterDigit (100 * digits + pair) result }
{
    let rest = 100 * before.remainder + pair;
    let twentyfold = 20 * before.root;
    let digit = greatest_digit(twentyfold, rest);
    SoFar {
        root: 10 * before.root + digit,
        remainder: rest - (twentyfold + digit) * digit,
    }
}

// The greatest whole number whose square is not above x. After k rounds so_far has the root of the first k pairs.
pub fn root(x: u64) -> u64
    ensures { result ≡ root x }
{
    let mut so_far = SoFar {
        root: 0,
        remainder: 0,
    };
    let marked = pairs_of(x);
    for pair in marked {
        so_far = next_digit(so_far, pair);
    }
    so_far.root
}
