//! Moments of a day.
ghost use Rattle.std.specs.Prelude.{◌≡◌, ◌≢◌, ◌↔◌, ℕ, ◌+◌, ◌-◌, ◌*◌, ◌<◌, ◌≤◌, List, Ok, Err};
ghost use Rattle.std.specs.Prelude.{◌∷◌, ◌++◌, length, take, drop, slice_index, SomeIff};
ghost use Rattle.std.specs.Prelude.{MatchOption};
ghost use Rattle.std.specs.Str.{IsUtf8};
ghost use Rattle.fix_fields.specs.Frame.{IsValue};
ghost use Rattle.fix_fields.specs.UtcTimestamp.{UtcTimestamp, moment_of, timestamp_text};
ghost use Rattle.fix_fields.specs.UtcTimestamp.{two_digits};
ghost use Rattle.fix_fields.specs.TimeOfDay as time;
ghost use Rattle.fix_fields.specs.Clock.{IsClock, IsTwoDigits};
ghost use Rattle.fix_fields.specs.declared.fault.MomentFault.TheVariants.{Form, OtherDay};

use crate::dates::Date;
use crate::fault::MomentFault;
use crate::limits::A_DAY;
use arrayvec::ArrayString;
use std::marker::Model;

/// A moment of a day: a count of milliseconds since midnight, 0 to 86,399,999. A clause sees the
/// number.
#[derive(Clone, Copy, Debug, PartialEq, Eq, PartialOrd, Ord)]
pub struct Moment {
    milliseconds: u32,
}

impl Model for Moment {
    ghost use Rattle.std.specs.Prelude.{ℕ, ◌<◌};
    ghost use Rattle.fix_fields.specs.declared.limits.TheConstants.{A_DAY};

    ghost Value = { ℕ };

    ghost view = { λ moment. moment.milliseconds };

    ghost invariant = { λ moment. moment.milliseconds < A_DAY };

    ghost inverse = { λ n. record { milliseconds = n } };
}

impl Moment {
    /// The moment of this many milliseconds since midnight, where the day has so many.
    pub fn new(milliseconds: u32) -> Option<Moment>
        ensures { SomeIff result (milliseconds < A_DAY) milliseconds }
    {
        if milliseconds < A_DAY {
            Some(Moment { milliseconds })
        } else {
            None
        }
    }

    /// The milliseconds since midnight.
    pub fn get(self) -> u32
        ensures value { result ≡ self }
        ensures of_a_day { result < A_DAY }
    {
        self.milliseconds
    }
}

/// Reads a UTCTimestamp of this date, in either of its two spellings, `YYYYMMDD-HH:MM:SS` and
/// `YYYYMMDD-HH:MM:SS.sss`. It takes no memory.
pub fn read_moment(date: &Date, text: &[u8]) -> Result<Moment, MomentFault>
    // A text that spells a moment of the date is read as it, and no other text is.
    ensures read { (n : ℕ) → (result ≡ Ok n) ↔ UtcTimestamp date.now n text.now }

    // `Form` where no moment of any date is spelled so, `OtherDay` where one of another date is.
    ensures form { (result ≡ Err MomentFault.Form)
        ↔ ((day : List ℕ) (n : ℕ) → ¬ UtcTimestamp day n text.now) }
    ensures other_day { (result ≡ Err MomentFault.OtherDay)
        ↔ ((day : List ℕ) × (n : ℕ) × (day ≢ date.now) × UtcTimestamp day n text.now) }

    // The same as one function of the digits of the date and the text.
    ensures exact { result ≡ moment_of date.now text.now }
{
    read(date, text)
}

/// The moment of a date that a text spells, or why there is none. Most texts begin with the date,
/// whose digits are not tested again.
fn read(date: &Date, text: &[u8]) -> Result<Moment, MomentFault>
    ensures { result ≡ moment_of date.now text.now }
{
    if text.len() < 8 {
        return Err(MomentFault::Form);
    }
    let (day, time) = text.split_at(8);
    if date.digits().as_slice() != day {
        return Err(other_fault(day, time));
    }
    let Some(moment) = read_clock(time) else {
        return Err(MomentFault::Form);
    };
    Ok(moment)
}

/// Why a text that does not begin with the date spells no moment of it.
fn other_fault(day: &[u8], time: &[u8]) -> MomentFault
    ensures { (date text : List ℕ) → date ≢ day.now → take 8 text ≡ day.now → drop 8 text ≡ time.now
        → moment_of date text ≡ Err result }
{
    let Some(_) = Date::new(day) else {
        return MomentFault::Form;
    };
    let Some(_) = read_clock(time) else {
        return MomentFault::Form;
    };
    MomentFault::OtherDay
}

/// Reads a dash and a time of day, with milliseconds or without.
fn read_clock(text: &[u8]) -> Option<Moment>
    ensures { MatchOption result ((n : ℕ) → ¬ IsClock n text.now) (λ n. IsClock n text.now) }
{
    if text.len() != 9 && text.len() != 13 {
        return None;
    }
    if text[0] != b'-' || text[3] != b':' || text[6] != b':' {
        return None;
    }
    let hours = two_digits_at(text, 1)?;
    let minutes = two_digits_at(text, 4)?;
    let seconds = two_digits_at(text, 7)?;
    if hours > 23 || minutes > 59 || seconds > 59 {
        return None;
    }
    let whole = hours * 3_600_000 + minutes * 60_000 + seconds * 1_000;
    if text.len() == 9 {
        return Some(Moment {
            milliseconds: whole,
        });
    }
    if text[9] != b'.' || !text[10].is_ascii_digit() {
        return None;
    }
    let hundreds = (text[10] - b'0') as u32;
    let rest = two_digits_at(text, 11)?;
    Some(Moment {
        milliseconds: whole + hundreds * 100 + rest,
    })
}

/// The number that two digits write.
fn two_digits_at(text: &[u8], at: usize) -> Option<u32>
    requires { at + 2 ≤ length text.now }
    ensures { MatchOption result
        ((n : ℕ) → ¬ IsTwoDigits n (slice_index text.now at) (slice_index text.now (at + 1)))
        (λ n. IsTwoDigits n (slice_index text.now at) (slice_index text.now (at + 1))) }
{
    let tens = text[at];
    let units = text[at + 1];
    if tens < b'0' || tens > b'9' || units < b'0' || units > b'9' {
        return None;
    }
    Some((tens - b'0') as u32 * 10 + (units - b'0') as u32)
}

/// The text of a moment of a date, `YYYYMMDD-HH:MM:SS.sss`: always with milliseconds.
pub fn moment_text(date: &Date, moment: Moment) -> ArrayString<21>
    ensures text { result.bytes ≡ timestamp_text date.now moment }
    ensures read_back { moment_of date.now result.bytes ≡ Ok moment }
    ensures value { IsValue result.bytes }
{
    let bytes = moment_bytes(date, moment);
    let Ok(text) = ArrayString::from_byte_string(&bytes) else {
        unreachable!();
    };
    text
}

/// The bytes of [`moment_text`], for a field of a frame.
pub fn moment_bytes(date: &Date, moment: Moment) -> [u8; 21]
    ensures text { result ≡ timestamp_text date.now moment }
    ensures read_back { moment_of date.now result ≡ Ok moment }
    ensures value { IsValue result }
    ensures utf8 { IsUtf8 result }
{
    let d = date.digits();
    let t = time_bytes(moment);
    [
        d[0], d[1], d[2], d[3], d[4], d[5], d[6], d[7], b'-', t[0], t[1], t[2], t[3], t[4], t[5],
        t[6], t[7], t[8], t[9], t[10], t[11],
    ]
}

/// The time of day of a moment, `HH:MM:SS.sss`: always with milliseconds. It is what stands behind
/// the date and the dash in [`moment_text`].
pub fn time_text(moment: Moment) -> ArrayString<12>
    ensures text { result.bytes ≡ time.time_text moment }
    ensures of_a_timestamp { (date : List ℕ)
        → timestamp_text date moment ≡ date ++ 45 ∷ result.bytes }
{
    let bytes = time_bytes(moment);
    let Ok(text) = ArrayString::from_byte_string(&bytes) else {
        unreachable!();
    };
    text
}

/// The bytes of `HH:MM:SS.sss`.
fn time_bytes(moment: Moment) -> [u8; 12]
    ensures { result ≡ time.time_text moment }
{
    let n = moment.get();
    let h = digits_of(n / 3_600_000);
    let m = digits_of(n / 60_000 % 60);
    let s = digits_of(n / 1_000 % 60);
    let hundreds = b'0' + (n % 1_000 / 100) as u8;
    let rest = digits_of(n % 100);
    [
        h[0], h[1], b':', m[0], m[1], b':', s[0], s[1], b'.', hundreds, rest[0], rest[1],
    ]
}

/// The two digits of a number below 100.
fn digits_of(n: u32) -> [u8; 2]
    requires { n < 100 }
    ensures { result ≡ two_digits n }
{
    [b'0' + (n / 10) as u8, b'0' + (n % 10) as u8]
}
