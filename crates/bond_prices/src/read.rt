ghost use Rattle.std.specs.Prelude.{◌≡◌, ◌<◌, ◌≤◌, ◌*◌, ◌^◌, ℕ, ◌↔◌};
ghost use Rattle.bond_prices.specs.Price.{price_of, price_at, IsReadAs, IsPriceForm, IsOutOfRange};
ghost use Rattle.bond_prices.specs.Price.{IsOffGrid};

use crate::decimal::{Decimal, read_decimal};
use crate::fault::PriceFault;
use crate::ticks::{MAX_COUNT, Ticks};

/// Reads the price that the whole text spells in points, as `99.50390625`.
///
/// Leading zeros, zeros at the end, and a point before or behind all digits are read too:
/// `099.5000`, `.5` and `5.` are prices.
pub fn read_price(text: &[u8]) -> Result<Ticks, PriceFault>
    // The text as a function, for callers that go on with the result.
    ensures exact { result ≡ price_of text.now }

    // The text by its parts. The four cover every text, and no two meet.
    ensures read { (n : ℕ) → (result ≡ Ok n) ↔ IsReadAs text.now n }
    ensures form { (result ≡ Err PriceFault.Form) ↔ (¬ IsPriceForm text.now) }
    ensures range { (result ≡ Err PriceFault.Range) ↔ IsOutOfRange text.now }
    ensures grid { (result ≡ Err PriceFault.Grid) ↔ IsOffGrid text.now }
{
    read_exactly(text)
}

/// `read_price`, by its one exact clause.
fn read_exactly(text: &[u8]) -> Result<Ticks, PriceFault>
    ensures exact { result ≡ price_of text.now }
{
    let Some((first, unsigned)) = text.split_first() else {
        return Err(PriceFault::Form);
    };
    if *first == b'-' {
        let Some(_) = read_decimal(unsigned) else {
            return Err(PriceFault::Form);
        };
        return Err(PriceFault::Range);
    }
    let Some(decimal) = read_decimal(text) else {
        return Err(PriceFault::Form);
    };
    ticks_of(decimal)
}

/// The price of a decimal number of points.
///
/// It divides by the scale, since 255,999 times the scale may pass 64 bits.
fn ticks_of(decimal: Decimal) -> Result<Ticks, PriceFault>
    requires number_fits { decimal.number < 10 ^ 15 }
    requires scale_is_positive { 1 ≤ decimal.scale }
    ensures { result ≡ price_at (256 * decimal.number) decimal.scale }
{
    let scaled = 256 * decimal.number;
    let count = scaled / decimal.scale;
    let remainder = scaled % decimal.scale;
    let highest = MAX_COUNT as u64;
    if count > highest {
        return Err(PriceFault::Range);
    }
    if count == highest && remainder > 0 {
        return Err(PriceFault::Range);
    }
    let Some(price) = Ticks::new(count as u32) else {
        return Err(PriceFault::Range);
    };
    if remainder > 0 {
        return Err(PriceFault::Grid);
    }
    Ok(price)
}
