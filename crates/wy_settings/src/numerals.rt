ghost use Rattle.std.specs.Prelude.{◌≡◌, ◌≤◌, Some, None, nat_le, if◌then◌else◌};
ghost use Rattle.std.specs.List.{list_all};
ghost use Rattle.std.specs.Option.{IfSome};
ghost use Rattle.wy_settings.specs.Numerals.{is_digit, is_numeral, most_number, number_after, number_up_to};

/// The most digits of a number.
const MOST_DIGITS: usize = 13;

fn is_digit(byte: &u8) -> bool
    ensures { result ≡ is_digit byte.now }
{
    *byte >= 48 && *byte <= 57
}

/// Whether all bytes are digits.
fn all_digits(bytes: &[u8]) -> bool
    ensures { result ≡ list_all is_digit bytes.now }
{
    bytes.iter().all(is_digit)
}

/// Whether a word is one to thirteen digits.
fn is_numeral(word: &str) -> bool
    ensures { result ≡ is_numeral word.now }
{
    let digits = word.as_bytes();
    digits.len() >= 1 && digits.len() <= MOST_DIGITS && all_digits(digits)
}

/// The number that digits are, behind those that were read, where it is no greater than the most.
fn number_from(most: u64, read: u64, digits: &[u8]) -> Option<u64>
    requires most { most ≤ most_number }
    requires read { read ≤ most }
    ensures number { result ≡ (if nat_le (number_after read digits.now) most then Some (number_after read digits.now) else None) }
    ensures within { IfSome result (λ n. n ≤ most) }
{
    let Some((digit, rest)) = digits.split_first() else {
        return Some(read);
    };
    let next = 10 * read + u64::from(digit.saturating_sub(48));
    if next > most {
        return None;
    }
    number_from(most, next, rest)
}

/// The number that a word is, where it is a numeral and no greater than the most.
pub fn number_up_to(most: u64, word: &str) -> Option<u64>
    requires { most ≤ most_number }
    ensures number { result ≡ number_up_to most word.now }
    ensures within { IfSome result (λ n. n ≤ most) }
{
    if is_numeral(word) {
        number_from(most, 0, word.as_bytes())
    } else {
        None
    }
}
