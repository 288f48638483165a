// The unit of time, instants in both scales, their powers, and polynomials in them.
// The unit of time, a millisecond: so many to a second.
pub const SECOND: u64 = 1000;

pub const DAY: u64 = 86_400 * SECOND;

// A Julian century.
pub const CENTURY: u64 = 36_525 * DAY;

// No accepted instant lies further away.
pub const FURTHEST: u64 = CENTURY * 1011 / 1000;

// c0 + c1 T + c2 T² + s3 T³/k3 + s4 T⁴/k4.
#[derive(Clone, Copy)]
pub struct Polynomial {
    pub c0: i64,
    pub c1: i64,
    pub c2: i64,
    pub s3: i64,
    pub k3: u64,
    pub s4: i64,
    pub k4: u64,
}

// An instant n, and u, p2, p3, p4 from it.
#[derive(Clone, Copy)]
pub struct Powers {
    pub n: i64,
    pub u: i64,
    pub p2: i64,
    pub p3: i64,
    pub p4: i64,
}

// One moment in both scales: UT turns the Earth, TT moves the Sun and the Moon.
#[derive(Clone, Copy)]
pub struct Instant {
    pub ut: i64,
    pub tt: i64,
}
