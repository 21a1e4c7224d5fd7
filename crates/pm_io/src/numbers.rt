//! The number of a word, the same for every text of the project and for a command line.

ghost use Rattle.std.specs.Prelude.{◌≡◌, ◌+◌, ◌*◌, ◌-◌, ◌≤◌, Some};
ghost use Rattle.pm_io.specs.Numbers.{value_of, number_of, at_most};

/// The number that a word stands for: decimal digits, or `0x` and hexadecimal digits of either case.
/// Leading zeros change nothing.
///
/// `None` comes exactly if the word is no number, or its number is above `greatest`. It takes no
/// memory. One decimal digit or two, as most words are, are read without a loop.
pub fn number(word: &[u8], greatest: u64) -> Option<u64>
    ensures { result ≡ at_most greatest (number_of word.now) }
{
    match word {
        [ones @ b'0'..=b'9'] => within(digit(*ones), greatest),
        [tens @ b'0'..=b'9', ones @ b'0'..=b'9'] => {
            within(digit(*tens) * 10 + digit(*ones), greatest)
        }
        [b'0', b'x', digits @ ..] => value(digits, 16, greatest),
        _ => value(word, 10, greatest),
    }
}

/// The value of a decimal digit.
fn digit(byte: u8) -> u64
    requires least { 48 ≤ byte }
    requires most { byte ≤ 57 }
    ensures { result ≡ byte - 48 }
{
    u64::from(byte - b'0')
}

/// A value that is at most the greatest one.
fn within(value: u64, greatest: u64) -> Option<u64>
    ensures { result ≡ at_most greatest (Some value) }
{
    (value <= greatest).then_some(value)
}

/// The value of one digit or more in a base.
fn value(digits: &[u8], base: u32, greatest: u64) -> Option<u64>
    requires low { 2 ≤ base }
    requires high { base ≤ 36 }
    ensures { result ≡ at_most greatest (value_of base digits.now) }
{
    if digits.is_empty() {
        return None;
    }
    let mut total = 0;
    'digits: for byte in digits {
        let digit = char::from(*byte).to_digit(base)?;
        total = with_digit(total, base, digit, greatest)?;
    }
    Some(total)
}

/// A number with a digit more at its end, if it isn't too great.
fn with_digit(total: u64, base: u32, digit: u32, greatest: u64) -> Option<u64>
    ensures { result ≡ at_most greatest (Some (total * base + digit)) }
{
    let value = total
        .checked_mul(u64::from(base))?
        .checked_add(u64::from(digit))?;
    within(value, greatest)
}
