//! Numbers written in digits.
ghost use Rattle.std.specs.Prelude.{◌≡◌, ◌≤◌, length, IsTrue};
ghost use Rattle.quote_messages.specs.Texts.{number_of, number_up_to};
ghost use Rattle.std.specs.List.{list_all};
ghost use Rattle.std.specs.Char.{is_ascii_digit};
ghost use Rattle.std.specs.Str.Parse.{digits_value};

/// The number that 1 to 9 digits write, leading zeros allowed, or none for another text: a number
/// of a message.
pub fn read_number(text: &[u8]) -> Option<u64>
    ensures { result ≡ number_of text.now }
{
    read_digits(text, 9)
}

/// The number that 1 to 16 digits write, leading zeros allowed, or none for another text: room for
/// an exposure.
pub fn read_long_number(text: &[u8]) -> Option<u64>
    ensures { result ≡ number_up_to 16 text.now }
{
    read_digits(text, 16)
}

/// The number that 1 to `most` digits write.
fn read_digits(text: &[u8], most: usize) -> Option<u64>
    requires { most ≤ 16 }
    ensures { result ≡ number_up_to most text.now }
{
    if text.is_empty() || text.len() > most || !are_digits(text) {
        return None;
    }
    let number = number_of_digits(text);
    Some(number)
}

/// The number that digits write: 16 of them write a number of 64 bits.
pub(crate) fn number_of_digits(text: &[u8]) -> u64
    requires few { length text.now ≤ 16 }
    requires digits { IsTrue (list_all is_ascii_digit text.now) }
    ensures { result ≡ digits_value 10 text.now }
{
    let mut value: u64 = 0;
    for digit in text {
        value = value * 10 + u64::from(*digit) - u64::from(b'0');
    }
    value
}

/// Whether each byte is a digit.
pub(crate) fn are_digits(text: &[u8]) -> bool
    ensures { result ≡ list_all is_ascii_digit text.now }
{
    text.iter().all(|c| c.is_ascii_digit())
}
