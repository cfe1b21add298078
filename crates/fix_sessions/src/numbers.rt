//! Numbers written in digits.
ghost use Rattle.std.specs.Prelude.{◌≡◌, ◌≤◌, ◌<◌, true, length, take, IsTrue};
ghost use Rattle.std.specs.List.{list_all};
ghost use Rattle.std.specs.Char.{is_ascii_digit};
ghost use Rattle.std.specs.Str.Parse.{digits_value};
ghost use Rattle.fix_sessions.specs.Texts.{number_of};

/// The number that 1 to 9 digits write, leading zeros allowed, or none for another text.
pub(crate) fn read_number(text: &[u8]) -> Option<u64>
    ensures { result ≡ number_of text.now }
{
    if text.is_empty() || text.len() > 9 || !are_digits(text) {
        return None;
    }
    let number = number_of_digits(text);
    Some(number)
}

/// The number that digits write.
pub(crate) fn number_of_digits(text: &[u8]) -> u64
    requires few { length text.now ≤ 16 }
    requires digits { IsTrue (list_all is_ascii_digit text.now) }
    ensures { result ≡ digits_value 10 text.now }
{
    let mut value: u64 = 0;
    for digit in text {
        value = value * 10 + u64::from(*digit) - u64::from(b'0');
    }
    value
}

/// The number that the digits at the front of a text write, and how many these are: of more than
/// nine the first nine.
pub(crate) fn leading_number(text: &[u8]) -> (u64, usize)
    ensures few { result.1 ≤ 9 }
    ensures within { result.1 ≤ length text.now }
    ensures digits { list_all is_ascii_digit (take result.1 text.now) ≡ true }
    ensures value { result.0 ≡ digits_value 10 (take result.1 text.now) }
{
    let mut number: u64 = 0;
    let mut count = 0;
    while count < text.len() && count < 9 && text[count].is_ascii_digit() {
        number = number * 10 + u64::from(text[count]) - u64::from(b'0');
        count += 1;
    }
    (number, count)
}

/// The number that at most nine digits write.
#[tactic(auto, using(crate::proofs::NumberLemmas::of_nine))]
pub(crate) fn small_number(text: &[u8]) -> u64
    requires few { length text.now ≤ 9 }
    requires digits { IsTrue (list_all is_ascii_digit text.now) }
    ensures value { result ≡ digits_value 10 text.now }
    ensures small { result < 1000000000 }
{
    number_of_digits(text)
}

/// The number that at most four digits write.
#[tactic(auto, using(crate::proofs::NumberLemmas::of_four))]
pub(crate) fn short_number(text: &[u8]) -> u64
    requires few { length text.now ≤ 4 }
    requires digits { IsTrue (list_all is_ascii_digit text.now) }
    ensures value { result ≡ digits_value 10 text.now }
    ensures small { result < 10000 }
{
    number_of_digits(text)
}

/// Whether each byte is a digit.
pub(crate) fn are_digits(text: &[u8]) -> bool
    ensures { result ≡ list_all is_ascii_digit text.now }
{
    text.iter().all(|c| c.is_ascii_digit())
}
