// Lines of whole numbers with single spaces, read.
ghost use Rattle.std.specs.Prelude.{true, ◌≡◌, ◌≤◌, length};
ghost use Rattle.text.specs.Line.{Filled, all, answer, begins, is_digit, is_natural, is_number, line_numbers, natural, sheet_numbers, short_numbers, value};

fn are_digits(word: &[u8]) -> bool
    ensures { result ≡ all is_digit word.now }
{
    word.iter().all(|byte| byte.is_ascii_digit())
}

fn is_natural(word: &[u8], most: usize) -> bool
    ensures { result ≡ is_natural most word.now }
{
    if word.is_empty() || word.len() > most {
        return false;
    }
    are_digits(word)
}

fn natural(word: &[u8]) -> u64
    requires { is_natural 10 word.now ≡ true }
    ensures { result ≡ natural word.now }
{
    let mut value = 0;
    for digit in word {
        value = value * 10 + u64::from(*digit - b'0');
    }
    value
}

pub fn is_number(word: &[u8], most: usize) -> bool
    ensures { result ≡ is_number most word.now }
{
    match word.strip_prefix(b"-") {
        Some(digits) => is_natural(digits, most),
        None => is_natural(word, most),
    }
}

// The value of a word that is a number.
pub fn value(word: &[u8]) -> i64
    requires { is_number 10 word.now ≡ true }
    ensures { result ≡ value word.now }
{
    match word.strip_prefix(b"-") {
        Some(digits) => -(natural(digits) as i64),
        None => natural(word) as i64,
    }
}

// Whether a line has these bytes first.
pub fn begins(first: &[u8], line: &[u8]) -> bool
    ensures { result ≡ begins first.now line.now }
{
    line.starts_with(first)
}

// The numbers of a line into as many places; nothing where it is no line of so many numbers. Over a slice: of this loop in a function with a const parameter today's prover makes no proof.
fn fill(values: &mut [i64], line: &[u8], most: usize) -> Option<()>
    requires { most ≤ 10 }
    ensures { Filled (line_numbers (length values.old) most line.now) values.new result }
{
    let mut found = 0;
    for word in line.split(|byte| *byte == b' ') {
        if found == values.len() || !is_number(word, most) {
            return None;
        }
        values[found] = value(word);
        found += 1;
    }
    if found < values.len() { None } else { Some(()) }
}

// The numbers of a line that has so many and nothing else.
pub fn line_numbers<const COUNT: usize>(line: &[u8], most: usize) -> Option<[i64; COUNT]>
    requires { most ≤ 10 }
    ensures { result ≡ answer (line_numbers COUNT most line.now) }
{
    let mut values = [0; COUNT];
    fill(&mut values, line, most)?;
    Some(values)
}

// Whether the first words of a line, so many of them, are numbers of at most nine digits.
pub fn short_numbers(line: &[u8], count: usize) -> bool
    ensures { result ≡ short_numbers count line.now }
{
    line.split(|byte| *byte == b' ')
        .take(count)
        .all(|word| is_number(word, 9))
}

// The nine numbers of a line of the sheet.
pub fn sheet_numbers(line: &[u8]) -> Option<[i64; 9]>
    ensures { result ≡ answer (sheet_numbers line.now) }
{
    if line.len() > 80 {
        return None;
    }
    line_numbers(line, 9)
}
