//! Times of a message, and the days of the calendar.
ghost use Rattle.std.specs.Prelude.{◌≡◌, ◌≤◌, ◌<◌, ◌^◌, true, length, take, drop, IsTrue};
ghost use Rattle.std.specs.List.{list_all};
ghost use Rattle.std.specs.Char.{is_ascii_digit};
ghost use Rattle.fix_sessions.specs.Texts as spec;

use crate::numbers::{are_digits, short_number};
use crate::state::DAY_LENGTH;

/// The time that a text is, counted in milliseconds from the beginning of the calendar: a date and
/// a time of day with at most 12 digits of a second, of which three count.
#[tactic(auto, unfolding(crate::specs::Texts::time_of))]
pub(crate) fn read_time(text: &[u8]) -> Option<u64>
    ensures { result ≡ spec.time_of text.now }
{
    if text.len() < 17 {
        return None;
    }
    if !are_time_digits(text) {
        return None;
    }
    if !has_marks(text) {
        return None;
    }
    let (month, day) = (short_number(&text[4..6]), short_number(&text[6..8]));
    let hour = short_number(&text[9..11]);
    let minute = short_number(&text[12..14]);
    let second = short_number(&text[15..17]);
    if !are_in_range(month, day, hour, minute, second) {
        return None;
    }
    if !is_fraction(text) {
        return None;
    }
    let date = day_number(short_number(&text[..4]), month, day);
    Some(date * DAY_LENGTH + clock_number(hour, minute, second, fraction(text)))
}

/// Whether the digits of date and time stand in their places.
fn are_time_digits(text: &[u8]) -> bool
    requires { 17 ≤ length text.now }
    ensures value { result ≡ spec.are_time_digits text.now }
    ensures year { result ≡ true → list_all is_ascii_digit (take 4 text.now) ≡ true }
    ensures month { result ≡ true → list_all is_ascii_digit (spec.part text.now 4 2) ≡ true }
    ensures day { result ≡ true → list_all is_ascii_digit (spec.part text.now 6 2) ≡ true }
    ensures hour { result ≡ true → list_all is_ascii_digit (spec.part text.now 9 2) ≡ true }
    ensures minute { result ≡ true → list_all is_ascii_digit (spec.part text.now 12 2) ≡ true }
    ensures second { result ≡ true → list_all is_ascii_digit (spec.part text.now 15 2) ≡ true }
{
    are_digits(&text[..4])
        && are_digits(&text[4..6])
        && are_digits(&text[6..8])
        && are_digits(&text[9..11])
        && are_digits(&text[12..14])
        && are_digits(&text[15..17])
}

/// Whether numbers are those of a calendar and a clock.
fn are_in_range(month: u64, day: u64, hour: u64, minute: u64, second: u64) -> bool
    ensures { result ≡ spec.are_in_range month day hour minute second }
{
    1 <= month && month <= 12 && 1 <= day && day <= 31 && hour <= 23 && minute <= 59 && second <= 60
}

/// The milliseconds since midnight.
fn clock_number(hour: u64, minute: u64, second: u64, fraction: &[u8]) -> u64
    requires hour { hour < 10000 }
    requires minute { minute < 10000 }
    requires second { second < 10000 }
    requires fraction { IsTrue (list_all is_ascii_digit fraction.now) }
    ensures value { result ≡ spec.clock_number hour minute second fraction.now }
    ensures small { result < 2 ^ 40 }
{
    hour * 3_600_000 + minute * 60_000 + second * 1_000 + thousandths(fraction)
}

/// Whether the dash and the colons do.
fn has_marks(text: &[u8]) -> bool
    requires { 17 ≤ length text.now }
    ensures { result ≡ spec.has_marks text.now }
{
    text[8] == b'-' && text[11] == b':' && text[14] == b':'
}

/// Whether nothing stands behind the seconds, or a point and 1 to 12 digits.
fn is_fraction(text: &[u8]) -> bool
    requires { 17 ≤ length text.now }
    ensures value { result ≡ spec.is_fraction text.now }
    ensures digits { result ≡ true → list_all is_ascii_digit (drop 18 text.now) ≡ true }
{
    if text.len() == 17 {
        return true;
    }
    text[17] == b'.' && text.len() >= 19 && text.len() <= 30 && are_digits(&text[18..])
}

/// The milliseconds that digits of a second are: the first three, with zeros for those that lack.
#[tactic(auto, using(crate::proofs::NumberLemmas::front_digits))]
fn thousandths(digits: &[u8]) -> u64
    requires { IsTrue (list_all is_ascii_digit digits.now) }
    ensures value { result ≡ spec.thousandths digits.now }
    ensures small { result ≤ 1000000 }
{
    let three = &digits[..digits.len().min(3)];
    let value = short_number(three);
    match three.len() {
        0 => 0,
        1 => value * 100,
        2 => value * 10,
        _ => value,
    }
}

/// The digits of a second that stand behind a time.
fn fraction(text: &[u8]) -> &[u8]
    ensures { result.now ≡ drop 18 text.now }
{
    &text[text.len().min(18)..]
}

/// A date of eight digits, counted in days of the calendar.
#[tactic(auto, using(crate::proofs::NumberLemmas::part_digits))]
pub(crate) fn date_number(digits: &[u8]) -> u64
    requires len { length digits.now ≡ 8 }
    requires digits { IsTrue (list_all is_ascii_digit digits.now) }
    ensures value { result ≡ spec.date_number digits.now }
    ensures small { result < 2 ^ 23 }
{
    let year = short_number(&digits[..4]);
    let month = short_number(&digits[4..6]);
    let day = short_number(&digits[6..8]);
    day_number(year, month, day)
}

/// A day of the calendar, counted.
fn day_number(year: u64, month: u64, day: u64) -> u64
    requires year { year < 10000 }
    requires day { day < 10000 }
    ensures value { result ≡ spec.day_number year month day }
    ensures small { result < 2 ^ 23 }
{
    year * 365 + leaps_before(year, month) + days_before(month) + day
}

/// The leap days before a month.
fn leaps_before(year: u64, month: u64) -> u64
    requires { year < 10000 }
    ensures value { result ≡ spec.leaps_before year month }
    ensures small { result ≤ 3000 }
{
    if month <= 2 {
        return leap_days(year.saturating_sub(1));
    }
    leap_days(year)
}

/// The leap days up to the end of a year.
fn leap_days(year: u64) -> u64
    requires { year < 10000 }
    ensures value { result ≡ spec.leap_days year }
    ensures small { result ≤ 3000 }
{
    year / 4 + year / 400 - year / 100
}

/// The days of the months before a month, in a year that is no leap year.
fn days_before(month: u64) -> u64
    ensures value { result ≡ spec.days_before month }
    ensures small { result ≤ 334 }
{
    match month {
        0 | 1 => 0,
        2 => 31,
        3 => 59,
        4 => 90,
        5 => 120,
        6 => 151,
        7 => 181,
        8 => 212,
        9 => 243,
        10 => 273,
        11 => 304,
        _ => 334,
    }
}
