// A line that begins with a body, `sun` or `moon`, and goes on with numbers: whose line it is, and its numbers.
ghost use Rattle.std.specs.Prelude.{◌≡◌};
ghost use Rattle.text.specs.Line.{answer};
ghost use Rattle.line_answers.specs.BodyLine.{body_line, body_numbers, body_request};

use calendar::refusal::Refusal;
use sky_vectors::geocentric::Body;
use text::line::{begins, line_numbers, short_numbers};

// The body, and where its numbers begin.
pub fn body_line(line: &[u8]) -> Option<(Body, usize)>
    ensures { result ≡ body_line line.now }
{
    if begins(b"sun ", line) {
        return Some((Body::Sun, 4));
    }
    if begins(b"moon ", line) {
        return Some((Body::Moon, 5));
    }
    None
}

// So many numbers, the first of them of 1 to 9 digits and all of 1 to 10.
pub fn body_numbers<const COUNT: usize>(line: &[u8], short: usize) -> Option<[i64; COUNT]>
    ensures { result ≡ answer (body_numbers short COUNT line.now) }
{
    if short_numbers(line, short) {
        line_numbers(line, 10)
    } else {
        None
    }
}

// The body and its numbers; any other line is refused.
pub fn body_request<const COUNT: usize>(
    line: &[u8],
    short: usize,
) -> Result<(Body, [i64; COUNT]), Refusal>
    ensures { result ≡ body_request short COUNT line.now }
{
    let (body, start) = body_line(line).ok_or(Refusal::NotALine)?;
    let numbers = body_numbers(&line[start..], short).ok_or(Refusal::NotALine)?;
    Ok((body, numbers))
}
