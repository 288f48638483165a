// Numbers one after the other, each in a width of its own, or all in one.
ghost use Rattle.std.specs.Prelude.{true, ◌≡◌, ◌*◌, ◌+◌, ◌≤◌, length};
ghost use Rattle.octets.specs.Octets.{alike, are_narrow, joined, parted, total};
ghost use Rattle.octets.specs.Put.{Put};

use super::number::{number_at, put_number};

// The numbers that stand in fields of these widths, from the first octet on.
pub fn read_fields(octets: &[u8], widths: &[usize], numbers: &mut [u32])
    requires { (total widths.now ≤ length octets.now) × ((are_narrow widths.now ≡ true) × (length numbers.old ≡ length widths.now)) }
    ensures { numbers.new ≡ parted widths.now octets.now }
{
    let mut at = 0;
    for (field, width) in widths.iter().enumerate() {
        numbers[field] = number_at(octets, at, *width);
        at += *width;
    }
}

// Numbers into fields of these widths, from a place on; the place behind them.
pub fn put_fields(out: &mut [u8], at: usize, widths: &[usize], numbers: &[u32]) -> usize
    requires { (at + total widths.now ≤ length out.old) × (length numbers.now ≡ length widths.now) }
    ensures { Put out.old at (joined widths.now numbers.now) out.new result }
{
    let mut next = at;
    for (field, width) in widths.iter().enumerate() {
        next = put_number(out, next, *width, numbers[field]);
    }
    next
}

// Numbers into fields that are all of one width. A twin of `put_fields` that stays: its loop is one call, and a closure for the width would need more clauses than it saves.
pub fn put_alike(out: &mut [u8], at: usize, width: usize, numbers: &[u32]) -> usize
    requires { at + width * length numbers.now ≤ length out.old }
    ensures { Put out.old at (joined (alike (length numbers.now) width) numbers.now) out.new result }
{
    let mut next = at;
    for number in numbers {
        next = put_number(out, next, width, *number);
    }
    next
}
