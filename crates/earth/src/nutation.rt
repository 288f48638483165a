// Nutation and obliquity.
ghost use Rattle.std.specs.Prelude.{◌≡◌, ◌≤◌, ◌^◌, nat_abs, ◌+ℤ◌};
ghost use Rattle.sum_rules.specs.Instant.{Reached};
ghost use Rattle.sum_terms.specs.TermRange.{Turns};
ghost use Rattle.sum_rules.specs.Nutation.{arguments, row_angle, weight, sine_term, cosine_term, Δψ, Δε, mean_obliquity};
ghost use Rattle.earth.specs.NutationRange.{SmallRow};

use numbers::whole::floor_div;
use sum_rules::instant::{Polynomial, Powers};
use sum_tables::nutation_terms::NUTATION;
use sum_terms::instant::value_at;
use sum_terms::terms::{RowTerms, TermSums, angle_of, term_sums, weighted};

// X0, the mean elongation of the Moon from the Sun.
const MEAN_ELONGATION: Polynomial = Polynomial {
    c0: 29_785_036_000,
    c1: 44_526_711_148_000,
    c2: -191_420,
    s3: 1,
    k3: 189_474,
    s4: 0,
    k4: 1,
};

// X1.
const SUN_MEAN_ANOMALY: Polynomial = Polynomial {
    c0: 35_752_772_000,
    c1: 3_599_905_034_000,
    c2: -16_030,
    s3: -1,
    k3: 300_000,
    s4: 0,
    k4: 1,
};

// X2.
const MOON_MEAN_ANOMALY: Polynomial = Polynomial {
    c0: 13_496_298_000,
    c1: 47_719_886_739_800,
    c2: 869_720,
    s3: 1,
    k3: 56_250,
    s4: 0,
    k4: 1,
};

// X3.
const MOON_LATITUDE_ARGUMENT: Polynomial = Polynomial {
    c0: 9_327_191_000,
    c1: 48_320_201_753_800,
    c2: -368_250,
    s3: 1,
    k3: 327_270,
    s4: 0,
    k4: 1,
};

// X4, the Moon's.
const ASCENDING_NODE: Polynomial = Polynomial {
    c0: 12_504_452_000,
    c1: -193_413_626_100,
    c2: 207_080,
    s3: 1,
    k3: 450_000,
    s4: 0,
    k4: 1,
};

// Δψ and Δε, in 10⁻⁸ degree.
#[derive(Clone, Copy)]
pub struct Nutation {
    pub longitude: i64,
    pub obliquity: i64,
}

// X0 to X4. Five calls, as in `moon_sums`: with `map` over the five polynomials the proof did not close.
fn arguments(t: Powers) -> [i64; 5]
    requires { Reached t }
    ensures { result ≡ arguments t.n }
{
    [
        value_at(MEAN_ELONGATION, t),
        value_at(SUN_MEAN_ANOMALY, t),
        value_at(MOON_MEAN_ANOMALY, t),
        value_at(MOON_LATITUDE_ARGUMENT, t),
        value_at(ASCENDING_NODE, t),
    ]
}

fn row_angle(arguments: [i64; 5], row: [i32; 9]) -> i64
    requires { Turns arguments × SmallRow row }
    ensures { result ≡ row_angle arguments row }
{
    angle_of(arguments, [row[0], row[1], row[2], row[3], row[4]])
}

fn weight(u: i64, a: i32, b: i32) -> i64
    requires { (nat_abs u ≤ 2 ^ 20) × ((nat_abs a ≤ 2 ^ 18) × (nat_abs b ≤ 2 ^ 18)) }
    ensures { result ≡ weight u a b }
{
    10 * a as i64 + floor_div(b as i64 * u, 1_000_000)
}

// What the rows share: X0 to X4, and u.
#[derive(Clone, Copy)]
struct NutationTerms {
    arguments: [i64; 5],
    u: i64,
}

impl RowTerms<9> for NutationTerms {
    ghost takes = { λ s row. Turns s.arguments × ((nat_abs s.u ≤ 2 ^ 20) × SmallRow row) };

    ghost sine = { λ s. sine_term s.arguments s.u };

    ghost cosine = { λ s. cosine_term s.arguments s.u };

    fn row_terms(&self, row: [i32; 9]) -> TermSums
        requires { Turns self.now.arguments × ((nat_abs self.now.u ≤ 2 ^ 20) × SmallRow row) }
        ensures { (result.sine ≡ sine_term self.now.arguments self.now.u row)
            × (result.cosine ≡ cosine_term self.now.arguments self.now.u row) }
    {
        let angle = row_angle(self.arguments, row);
        let [.., a, b, c, d] = row;
        let first = weight(self.u, a, b);
        let second = weight(self.u, c, d);
        weighted(first, second, angle)
    }
}

// The nutation at TT, over the powers of the instant.
pub fn nutation_at(t: Powers) -> Nutation
    requires { Reached t }
    ensures { (result.longitude ≡ Δψ t.n) × (result.obliquity ≡ Δε t.n) }
{
    let terms = NutationTerms {
        arguments: arguments(t),
        u: t.u,
    };
    let sums = term_sums(&terms, &NUTATION);
    Nutation {
        longitude: floor_div(25 * sums.sine, 90_000_000_000),
        obliquity: floor_div(25 * sums.cosine, 90_000_000_000),
    }
}

// The obliquity of the ecliptic at TT, with the nutation Δε.
pub fn obliquity_at(t: Powers, nutation: i64) -> i64
    requires { Reached t × (nat_abs nutation ≤ 2 ^ 60) }
    ensures { result ≡ mean_obliquity t.n +ℤ nutation }
{
    84_381_448 * 250 / 9
        + floor_div(-468_093 * t.u, 360_000)
        + floor_div(-155 * t.p2, 36_000_000)
        + floor_div(199_925 * t.p3, 3_600_000_000)
        + nutation
}
