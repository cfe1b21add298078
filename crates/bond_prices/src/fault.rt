use thiserror::Error;

/// Why a text is no price.
///
/// The conditions are tried in the order of the variants, and the first that holds is the fault.
#[derive(Clone, Copy, Debug, PartialEq, Eq, Error)]
pub enum PriceFault {
    /// The text does not have the form of a price, such as the empty text, `-`, `.`, `9e1`,
    /// `1.2.3`, and 16 digits.
    #[error("a price is 1 to 15 digits with at most one point")]
    Form,

    /// The number has a minus sign, or is below 1/256 of a point or above 255,999/256 points, such
    /// as `0`, `-1`, `-0`, `0.001`, `1000`, `999.99609376`.
    #[error("a price is from 0.00390625 to 999.99609375")]
    Range,

    /// The number is no whole number of 256ths of a point, such as `99.501` and `0.1`.
    #[error("a price is a whole number of 256ths")]
    Grid,
}
