// What the Moon's rows share.
// E and E2: the Earth's orbit is less and less eccentric.
#[derive(Clone, Copy)]
pub struct Eccentricity {
    pub e: i64,
    pub e2: i64,
}
