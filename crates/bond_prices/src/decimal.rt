ghost use Rattle.std.specs.Prelude.{◌≡◌, ◌<◌, ◌≤◌, ◌^◌, IfSome};
ghost use Rattle.bond_prices.specs.Decimal.{decimal_of};

/// An unsigned decimal number: `number / scale`.
#[derive(Clone, Copy)]
pub struct Decimal {
    /// The digits, read as one whole number.
    pub number: u64,
    /// Ten to the number of digits behind the point.
    pub scale: u64,
}

/// How many digits a price may have, before and behind the point together.
const MAX_DIGITS: u32 = 15;

/// The number that the text spells, if it is 1 to 15 digits with at most one point before, among or
/// behind them.
pub fn read_decimal(text: &[u8]) -> Option<Decimal>
    ensures spelled { result ≡ decimal_of text.now }
    ensures number_fits { IfSome result (λ decimal. decimal.number < 10 ^ 15) }
    ensures scale_is_positive { IfSome result (λ decimal. 1 ≤ decimal.scale) }
{
    let mut number: u64 = 0;
    let mut scale: u64 = 1;
    let mut digits: u32 = 0;
    let mut is_behind_point = false;
    for byte in text {
        if *byte == b'.' {
            if is_behind_point {
                return None;
            }
            is_behind_point = true;
            continue;
        }
        if *byte < b'0' || *byte > b'9' || digits == MAX_DIGITS {
            return None;
        }
        number = number * 10 + u64::from(*byte - b'0');
        digits += 1;
        if is_behind_point {
            scale *= 10;
        }
    }
    if digits == 0 {
        return None;
    }
    Some(Decimal { number, scale })
}
