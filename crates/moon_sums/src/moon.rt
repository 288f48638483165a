// The Moon's sums: longitude, latitude and distance from the Earth's centre, before nutation.
ghost use Rattle.std.specs.Prelude.{◌≡◌, ◌≤◌, ◌^◌, nat_abs};
ghost use Rattle.sum_rules.specs.Instant.{furthest, Reached};
ghost use Rattle.sum_rules.specs.Accuracy.{MoonNear};
ghost use Rattle.sum_rules.specs.Moon.{arguments, eccentricity, weight, sine_term, cosine_term, added, longitude_added, latitude_added, longitude, latitude, metres};
ghost use Rattle.moon_sums.specs.MoonRange.{Slight, SmallRow};
ghost use Rattle.sum_terms.specs.TermRange.{Turns};

use numbers::angle::Angle;
use numbers::sine::sine;
use numbers::whole::floor_div;
use sum_rules::instant::{Polynomial, Powers};
use sum_rules::moon::Eccentricity;
use sum_tables::moon_terms::{LATITUDE, LONGITUDE_DISTANCE};
use sum_terms::instant::{powers_at, value_at};
use sum_terms::terms::{RowTerms, TermSums, angle_of, term_sums, weighted};

// L'.
const MEAN_LONGITUDE: Polynomial = Polynomial {
    c0: 21_831_644_770,
    c1: 48_126_788_123_421,
    c2: -157_860,
    s3: 1,
    k3: 538_841,
    s4: -1,
    k4: 65_194_000,
};

// D.
const ELONGATION: Polynomial = Polynomial {
    c0: 29_785_019_210,
    c1: 44_526_711_140_340,
    c2: -188_190,
    s3: 1,
    k3: 545_868,
    s4: -1,
    k4: 113_065_000,
};

// M.
const SUN_ANOMALY: Polynomial = Polynomial {
    c0: 35_752_910_920,
    c1: 3_599_905_029_090,
    c2: -15_360,
    s3: 1,
    k3: 24_490_000,
    s4: 0,
    k4: 1,
};

// M'.
const MOON_ANOMALY: Polynomial = Polynomial {
    c0: 13_496_339_640,
    c1: 47_719_886_750_550,
    c2: 874_140,
    s3: 1,
    k3: 69_699,
    s4: -1,
    k4: 14_712_000,
};

// F.
const LATITUDE_ARGUMENT: Polynomial = Polynomial {
    c0: 9_327_209_500,
    c1: 48_320_201_752_330,
    c2: -365_390,
    s3: -1,
    k3: 3_526_000,
    s4: 1,
    k4: 863_310_000,
};

// A1, from Venus.
const VENUS: Polynomial = Polynomial {
    c0: 11_975_000_000,
    c1: 13_184_900_000,
    c2: 0,
    s3: 0,
    k3: 1,
    s4: 0,
    k4: 1,
};

// A2, from Jupiter.
const JUPITER: Polynomial = Polynomial {
    c0: 5_309_000_000,
    c1: 47_926_429_000_000,
    c2: 0,
    s3: 0,
    k3: 1,
    s4: 0,
    k4: 1,
};

// A3.
const THIRD: Polynomial = Polynomial {
    c0: 31_345_000_000,
    c1: 48_126_648_400_000,
    c2: 0,
    s3: 0,
    k3: 1,
    s4: 0,
    k4: 1,
};

// Before nutation: longitude and latitude in 10⁻⁸ degree, and metres from the Earth's centre.
#[derive(Clone, Copy)]
pub struct MoonPlace {
    pub longitude: u64,
    pub latitude: i64,
    pub metres: i64,
}

// L', D, M, M', F. An array, held together as 01 says, so that its bound (`Turns`) is a clause.
// Five calls, as in `earth`: with `map` over the five polynomials the proof did not close.
pub fn arguments(t: Powers) -> [i64; 5]
    requires { Reached t }
    ensures { result ≡ arguments t.n }
{
    [
        value_at(MEAN_LONGITUDE, t),
        value_at(ELONGATION, t),
        value_at(SUN_ANOMALY, t),
        value_at(MOON_ANOMALY, t),
        value_at(LATITUDE_ARGUMENT, t),
    ]
}

fn eccentricity_at(t: Powers) -> Eccentricity
    requires { Reached t }
    ensures { result ≡ eccentricity t.n }
{
    let e = 1_000_000 + floor_div(-2516 * t.u, 1_000_000) + floor_div(-74 * t.p2, 10_000_000);
    let e2 = floor_div(e * e, 1_000_000);
    Eccentricity { e, e2 }
}

// A row's weight: l times E to the power of |m|.
fn weight(e: Eccentricity, m: i32, l: i32) -> i64
    requires { Slight e × ((nat_abs m ≤ 4) × (nat_abs l ≤ 2 ^ 25)) }
    ensures { result ≡ weight e (nat_abs m) l }
{
    let l = i64::from(l);
    match m.unsigned_abs() {
        0 => 100 * l,
        1 => floor_div(l * e.e, 10_000),
        _ => floor_div(l * e.e2, 10_000),
    }
}

// What the Moon's rows share: L', D, M, M', F, and E with E2.
#[derive(Clone, Copy)]
struct MoonTerms {
    arguments: [i64; 5],
    e: Eccentricity,
}

impl RowTerms<6> for MoonTerms {
    ghost takes = { λ s row. Turns s.arguments × (Slight s.e × SmallRow row) };

    ghost sine = { λ s. sine_term s.arguments s.e };

    ghost cosine = { λ s. cosine_term s.arguments s.e };

    // No row's angle has L' in it.
    fn row_terms(&self, row: [i32; 6]) -> TermSums
        requires { Turns self.now.arguments × (Slight self.now.e × SmallRow row) }
        ensures { (result.sine ≡ sine_term self.now.arguments self.now.e row)
            × (result.cosine ≡ cosine_term self.now.arguments self.now.e row) }
    {
        let [d, m, anomaly, f, by_sine, by_cosine] = row;
        let angle = angle_of(self.arguments, [0, d, m, anomaly, f]);
        let first = weight(self.e, m, by_sine);
        let second = weight(self.e, m, by_cosine);
        weighted(first, second, angle)
    }
}

// A term outside the tables, at weight 100.
fn added(weight: i64, angle: i64) -> i64
    requires { nat_abs weight ≤ 4_000 }
    ensures { result ≡ added weight angle }
{
    100 * weight * sine(angle)
}

// The longitude's rows and what is added to them.
fn longitude_added(sum: i64, arguments: [i64; 5], a1: i64, a2: i64) -> i64
    requires { (nat_abs sum ≤ 2 ^ 62) × Turns arguments }
    ensures { result ≡ longitude_added sum arguments a1 a2 }
{
    let [mean, _, _, _, node] = arguments;
    sum + added(3958, a1) + added(1962, mean - node) + added(318, a2)
}

// The latitude's rows and what is added to them: L' is the mean longitude, M' the anomaly, F is from the node.
fn latitude_added(sum: i64, arguments: [i64; 5], a1: i64, a3: i64) -> i64
    requires { (nat_abs sum ≤ 2 ^ 62) × (Turns arguments × (nat_abs a1 ≤ 2 ^ 36)) }
    ensures { result ≡ latitude_added sum arguments a1 a3 }
{
    let [mean, _, _, anomaly, node] = arguments;
    sum + added(-2235, mean)
        + added(382, a3)
        + added(175, a1 - node)
        + added(175, a1 + node)
        + added(127, mean - anomaly)
        + added(-115, mean + anomaly)
}

// The Moon at TT, over the powers of the instant.
pub fn moon_at(t: Powers) -> MoonPlace
    requires { Reached t }
    ensures { (result.longitude ≡ longitude t.n) × ((result.latitude ≡ latitude t.n) × ((result.metres ≡ metres t.n) × MoonNear t.n)) }
{
    let arguments = arguments(t);
    let e = eccentricity_at(t);
    let a1 = value_at(VENUS, t);
    let a2 = value_at(JUPITER, t);
    let a3 = value_at(THIRD, t);
    let terms = MoonTerms { arguments, e };
    let first = term_sums(&terms, &LONGITUDE_DISTANCE);
    let second = term_sums(&terms, &LATITUDE);
    let longitude_sum = longitude_added(first.sine, arguments, a1, a2);
    let latitude_sum = latitude_added(second.sine, arguments, a1, a3);
    MoonPlace {
        longitude: Angle::new(arguments[0] + floor_div(longitude_sum, 1_000_000_000)).units,
        latitude: floor_div(latitude_sum, 1_000_000_000),
        metres: 385_000_560 + floor_div(first.cosine, 100_000_000_000),
    }
}

// The Moon at TT.
pub fn moon(n: i64) -> MoonPlace
    requires { nat_abs n ≤ furthest }
    ensures { (result.longitude ≡ longitude n) × ((result.latitude ≡ latitude n) × ((result.metres ≡ metres n) × MoonNear n)) }
{
    moon_at(powers_at(n))
}
