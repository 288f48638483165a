// One number in so many octets.
ghost use Rattle.std.specs.Prelude.{◌≡◌, ◌+◌, ◌≤◌, drop, length, take};
ghost use Rattle.octets.specs.Octets.{big_endian, number, widest};
ghost use Rattle.octets.specs.Put.{Put};

// The number that stands in so many octets from a place on.
pub fn number_at(octets: &[u8], at: usize, width: usize) -> u32
    requires { (at + width ≤ length octets.now) × (width ≤ widest) }
    ensures { result ≡ number (take width (drop at octets.now)) }
{
    let mut value = 0;
    for octet in &octets[at..at + width] {
        value = value * 256 + u32::from(*octet);
    }
    value
}

// A number into so many octets from a place on, the last octet first; the place behind them.
pub fn put_number(out: &mut [u8], at: usize, width: usize, number: u32) -> usize
    requires { at + width ≤ length out.old }
    ensures { Put out.old at (big_endian width number) out.new result }
{
    let mut rest = number;
    for place in (at..at + width).rev() {
        out[place] = (rest % 256) as u8;
        rest /= 256;
    }
    at + width
}
