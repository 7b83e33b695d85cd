// Words that are spelled as numbers.
ghost use Rattle.std.specs.Prelude.{◌≡◌};
ghost use Rattle.std.specs.Char.{is_ascii_digit};
ghost use Rattle.std.specs.List.{list_all};
ghost use Rattle.jasmin_text.specs.Numbers as spec;

/// The number that decimal digits spell, where it is at most `most`.
fn at_most(most: u32, digits: &[u8]) -> Option<u32>
    ensures { result ≡ spec.at_most most digits.now }
{
    if digits.is_empty() {
        return None;
    }
    let mut number = 0;
    let mut rest = digits;
    while let [b, after @ ..] = rest {
        if !b.is_ascii_digit() {
            return None;
        }
        let more = 10 * (number as u64) + (*b - b'0') as u64;
        if more > most as u64 {
            return None;
        }
        number = more as u32;
        rest = after;
    }
    Some(number)
}

/// The number of 32 bits that a word spells, if it spells one.
pub fn number_of(word: &[u8]) -> Option<i32>
    ensures { result ≡ spec.number_of word.now }
{
    match word {
        [b'-', digits @ ..] => match at_most(1 << 31, digits) {
            Some(number) => Some((-(number as i64)) as i32),
            None => None,
        },
        _ => match at_most(0x7fff_ffff, word) {
            Some(number) => Some(number as i32),
            None => None,
        },
    }
}

fn are_digits(word: &[u8]) -> bool
    ensures { result ≡ list_all is_ascii_digit word.now }
{
    word.iter().all(|b| b.is_ascii_digit())
}

fn is_digits(word: &[u8]) -> bool
    ensures { result ≡ spec.is_digits word.now }
{
    !word.is_empty() && are_digits(word)
}

/// Whether a word is spelled as a number, of whatever size.
pub fn is_number(word: &[u8]) -> bool
    ensures { result ≡ spec.is_number word.now }
{
    match word {
        [b'-', digits @ ..] => is_digits(digits),
        _ => is_digits(word),
    }
}
