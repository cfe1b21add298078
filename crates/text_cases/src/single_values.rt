//! The places of single values.

use crate::beyond_days::call_beyond_days;
use crate::moments::call_moments;
use crate::prices::call_prices;
use crate::terms::call_terms;
use crate::values::call_message_values;
use case_lines::{Call, CaseFault, Place};

/// A place of single values: nothing is left of one call for the next.
#[derive(Clone, Copy)]
pub(crate) enum SingleValues {
    Moments,
    Prices,
    Terms,
    MessageValues,
    BeyondDays,
}

impl SingleValues {
    /// The place with this name.
    pub(crate) fn named(name: &str) -> Option<SingleValues> {
        match name {
            "moments" => Some(SingleValues::Moments),
            "prices" => Some(SingleValues::Prices),
            "terms" => Some(SingleValues::Terms),
            "message_values" => Some(SingleValues::MessageValues),
            "beyond_days" => Some(SingleValues::BeyondDays),
            _ => None,
        }
    }
}

impl Place for SingleValues {
    fn call(&mut self, call: &mut Call<'_>) -> Result<(), CaseFault> {
        match self {
            SingleValues::Moments => call_moments(call),
            SingleValues::Prices => call_prices(call),
            SingleValues::Terms => call_terms(call),
            SingleValues::MessageValues => call_message_values(call),
            SingleValues::BeyondDays => call_beyond_days(call),
        }
    }
}
