//! Dates of eight digits.
ghost use Rattle.std.specs.Prelude.{◌≡◌, ℕ, ◌<◌, List, SomeIff, Some, None, if◌then◌else◌};
ghost use Rattle.fix_fields.specs.UtcTimestamp.{IsDate, is_date};

use crate::scan::leading_number;
use std::marker::Model;

/// A date as its eight digits, `YYYYMMDD`: a month from 01 to 12, and a day from 01 to 31 in any
/// month. A clause sees the list of its digits, as bytes.
#[derive(Clone, Copy, Debug, PartialEq, Eq)]
pub struct Date {
    digits: [u8; 8],
}

impl Model for Date {
    ghost use Rattle.std.specs.Prelude.{List, ℕ};
    ghost use Rattle.fix_fields.specs.UtcTimestamp.{IsDate};

    ghost Value = { List ℕ };

    ghost view = { λ date. date.digits };

    ghost invariant = { λ date. IsDate date.digits };

    ghost inverse = { λ digits. record { digits = digits } };
}

impl Date {
    /// The date that eight digits are.
    pub fn new(digits: &[u8]) -> Option<Date>
        ensures read { SomeIff result (IsDate digits.now) digits.now }

        // The same as one function of the digits.
        ensures exact { result ≡ (if is_date digits.now then Some digits.now else None) }
    {
        Self::read(digits)
    }

    /// The date that eight digits are.
    fn read(digits: &[u8]) -> Option<Date>
        ensures { SomeIff result (IsDate digits.now) digits.now }
    {
        let (_, count) = leading_number(digits, 8);
        if count != 8 || digits.len() != 8 {
            return None;
        }
        let (month, _) = leading_number(&digits[4..], 2);
        let (day, _) = leading_number(&digits[6..], 2);
        if month < 1 || month > 12 || day < 1 || day > 31 {
            return None;
        }
        let mut copy = [0; 8];
        copy.copy_from_slice(digits);
        Some(Date { digits: copy })
    }

    /// The eight digits, `YYYYMMDD`.
    pub fn digits(&self) -> &[u8; 8]
        ensures digits { result.now ≡ self.now }
        ensures date { IsDate self.now }
    {
        &self.digits
    }
}
