ghost use Rattle.std.specs.Prelude.{◌≡◌, ◌<◌, ◌≤◌, ℕ, length};
ghost use Rattle.bond_prices.specs.Price.{price_of, price_digits, fraction_digits, IsShortest};

use crate::ticks::Ticks;
use arrayvec::ArrayString;
use itoa::Buffer;

/// The price as text in points, as `99.50390625`.
///
/// Whole points stand without leading zeros, and are `0` below one point. A point and the fraction
/// follow, without zeros at the end, unless the fraction is zero. `12` bytes hold three digits, the
/// point and eight digits.
pub fn price_text(price: Ticks) -> ArrayString<12>
    ensures exact { result.bytes ≡ price_digits price }
    ensures shortest { IsShortest result.bytes price }
    ensures short { length result.bytes ≤ 12 }

    // It is read back as this price, and so no other price prints the same text.
    ensures read_back { price_of result.bytes ≡ Ok price }
    ensures distinct { (n : ℕ) → (1 ≤ n) × (n ≤ 255999)
        → price_digits n ≡ result.bytes → n ≡ price }
{
    points_text(price)
}

/// `price_text`, by its one exact clause, with the range of the price.
fn points_text(price: Ticks) -> ArrayString<12>
    ensures exact { result.bytes ≡ price_digits price }
    ensures at_least_one { 1 ≤ price }
    ensures at_most { price ≤ 255999 }
{
    let count = price.get();
    let mut buffer = Buffer::new();
    let mut text = ArrayString::new();
    text.push_str(buffer.format(count / 256));
    let rest = count % 256;
    if rest == 0 {
        return text;
    }
    text.push('.');
    text.push_str(decimals(rest).as_str());
    text
}

/// The most digits behind the point: 256 divides 10^8.
const MAX_DECIMALS: usize = 8;

/// The decimals of `rest` ticks, without zeros at the end, by long division.
fn decimals(mut rest: u32) -> ArrayString<MAX_DECIMALS>
    requires { rest < 256 }
    ensures digits { result.bytes ≡ fraction_digits rest }
    ensures short { length result.bytes ≤ 8 }
{
    let mut text = ArrayString::new();
    for _ in 0..MAX_DECIMALS {
        if rest == 0 {
            break;
        }
        let tenths = rest * 10;
        text.push(char::from(b'0' + (tenths / 256) as u8));
        rest = tenths % 256;
    }
    text
}
