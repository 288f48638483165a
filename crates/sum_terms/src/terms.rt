// What the sums by sine and cosine share: a row's angle, what it adds, and the rows of a table added.
ghost use Rattle.std.specs.Prelude.{◌≡◌, ◌<◌, ◌≤◌, ◌^◌, List, [], ℕ, ℤ, length, get_or, nat_abs, ◌*ℤ◌};
ghost use Rattle.number_rules.specs.Sine.{cosine, sine};
ghost use Rattle.sum_rules.specs.Table.{total};
ghost use Rattle.sum_terms.specs.TermRange.{Few, Summing, Turns, angle_of};

use numbers::sine::{cosine, sine};

// What is summed by sine and by cosine.
#[derive(Clone, Copy)]
pub struct TermSums {
    pub sine: i64,
    pub cosine: i64,
}

// So many times each argument, added.
pub fn angle_of(arguments: [i64; 5], multiples: [i32; 5]) -> i64
    requires { Turns arguments × Few multiples }
    ensures { result ≡ angle_of arguments multiples }
{
    multiples[0] as i64 * arguments[0]
        + multiples[1] as i64 * arguments[1]
        + multiples[2] as i64 * arguments[2]
        + multiples[3] as i64 * arguments[3]
        + multiples[4] as i64 * arguments[4]
}

// One row: its first weight by sine, its second by cosine. Many rows go by sine alone.
pub fn weighted(first: i64, second: i64, angle: i64) -> TermSums
    requires { (nat_abs first ≤ 2 ^ 32) × (nat_abs second ≤ 2 ^ 32) }
    ensures { (result.sine ≡ first *ℤ sine angle) × (result.cosine ≡ second *ℤ cosine angle) }
{
    let sine = first * sine(angle);
    if second == 0 {
        TermSums { sine, cosine: 0 }
    } else {
        let cosine = second * cosine(angle);
        TermSums { sine, cosine }
    }
}

// What gives the terms of a row of N columns, as the Moon's rows have 6 and those of the nutation 9.
pub trait RowTerms<const N: usize> {
    ghost takes: { Self → List ℤ → Type 0 };

    ghost sine: { Self → List ℤ → ℤ };

    ghost cosine: { Self → List ℤ → ℤ };

    // One row by sine and by cosine.
    fn row_terms(&self, row: [i32; N]) -> TermSums
        requires { takes self.now row }
        ensures { (result.sine ≡ sine self.now row.entry) × (result.cosine ≡ cosine self.now row.entry) };
}

// All rows of a table by sine and by cosine.
pub fn term_sums<const N: usize, T: RowTerms<N>>(terms: &T, table: &[[i32; N]]) -> TermSums
    requires takes { (i : ℕ) → i < length table.now → T.takes terms.now (get_or table.now i []) }
    requires by_sine { Summing (T.sine terms.now) table.now (2 ^ 62) }
    requires by_cosine { Summing (T.cosine terms.now) table.now (2 ^ 62) }
    ensures { (result.sine ≡ total (T.sine terms.now) table.now) × (result.cosine ≡ total (T.cosine terms.now) table.now) }
{
    let mut sine = 0;
    let mut cosine = 0;
    for row in table {
        let term = terms.row_terms(*row);
        sine += term.sine;
        cosine += term.cosine;
    }
    TermSums { sine, cosine }
}
