// How a value is compared with a printed one, and what is written of it.
ghost use Rattle.std.specs.Prelude.{◌≡◌};
ghost use Rattle.cases.specs.Compare.{near, whole};

use numbers::angle::Angle;
use numbers::whole::is_between;
use std::io;

const TURN: i64 = Angle::FULL as i64;

// At most the tolerance away. A NaN is near nothing.
pub fn near(value: f64, expected: f64, tolerance: f64) -> bool
    ensures { result ≡ near value expected tolerance }
{
    expected - tolerance <= value && value <= expected + tolerance
}

// A whole number as a double, exactly; a NaN beyond a turn, where nothing compared here lies.
fn double(x: i64) -> f64
    ensures { result ≡ whole x }
{
    if is_between(-TURN, x, TURN) {
        x as f64
    } else {
        0.0 / 0.0
    }
}

// The same in whole units: as doubles their differences cannot wrap.
pub fn within(value: i64, expected: i64, tolerance: i64) -> bool
    ensures { result ≡ near (whole value) (whole expected) (whole tolerance) }
{
    near(double(value), double(expected), double(tolerance))
}

pub fn write(rt: &impl Print, words: &[u8]) -> io::Result<()> {
    rt.write_all(words)
}

// A value's name, marked where the value does not come out.
pub fn named(rt: &impl Print, name: &[u8], holds: bool) -> io::Result<()> {
    write(rt, b" ")?;
    write(rt, name)?;
    if holds {
        return Ok(());
    }
    write(rt, b" DEVIATES")
}

// A value in whole units, what is printed, and how far they may be apart.
#[derive(Clone, Copy)]
pub struct Row {
    pub value: i64,
    pub expected: i64,
    pub tolerance: i64,
}

// The names of the rows. Each that does not come out is told by its number.
pub fn compared(rt: &impl Print, names: &[u8], rows: &[Row]) -> io::Result<()> {
    write(rt, names)?;
    for (index, row) in rows.iter().enumerate() {
        if !within(row.value, row.expected, row.tolerance) {
            rt.print(" DEVIATES:")?;
            rt.print(index + 1)?;
        }
    }
    Ok(())
}
