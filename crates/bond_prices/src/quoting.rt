//! Prices in 32nds.
ghost use Rattle.std.specs.Prelude.{◌≡◌, ◌<◌, ◌≤◌, ◌+◌, ◌==◌, if◌then◌else◌};
ghost use Rattle.std.specs.Prelude.{[], ◌∷◌, ◌++◌, length, decimal};
ghost use Rattle.bond_prices.specs.ThirtySeconds as spec;

use crate::ticks::Ticks;
use arrayvec::ArrayString;
use itoa::Buffer;

/// The price as a trader says it, in 32nds of a point, as `99-161`.
///
/// Whole points without leading zeros, a dash, two digits of 32nds, and eighths of a 32nd: one
/// digit, but `+` for four and nothing for none. These are 4 to 7 characters.
pub fn thirty_seconds(price: Ticks) -> ArrayString<8>
    ensures exact { result.bytes ≡ spec.thirty_seconds price }
    ensures quoted { spec.IsQuoted result.bytes price }
    ensures short { length result.bytes ≤ 7 }
{
    quoted_text(price)
}

/// `thirty_seconds`, by its one exact clause.
fn quoted_text(price: Ticks) -> ArrayString<8>
    ensures exact { result.bytes ≡ spec.thirty_seconds price }
    ensures short { length result.bytes ≤ 7 }
{
    let count = price.get();
    let parts = count % 256 / 8;
    let eighths = count % 8;
    let mut text = points_text(count / 256);
    push_ascii(&mut text, b'-');
    push_ascii(&mut text, b'0' + (parts / 10) as u8);
    push_ascii(&mut text, b'0' + (parts % 10) as u8);
    if eighths == 0 {
        return text;
    }
    push_ascii(&mut text, eighths_sign(eighths));
    text
}

/// Whole points without leading zeros.
fn points_text(points: u32) -> ArrayString<8>
    requires { points < 1000 }
    ensures value { result.bytes ≡ decimal points }
    ensures short { length result.bytes ≤ 3 }
{
    let mut buffer = Buffer::new();
    let mut text = ArrayString::new();
    text.push_str(buffer.format(points));
    text
}

/// Puts one character behind a text.
fn push_ascii(text: &mut ArrayString<8>, character: u8)
    requires room { length text.old.bytes < 8 }
    requires ascii { character < 128 }
    ensures pushed { text.new.bytes ≡ text.old.bytes ++ character ∷ [] }
    ensures longer { length text.new.bytes ≡ length text.old.bytes + 1 }
{
    text.push(char::from(character));
}

/// How some eighths of a 32nd are written.
fn eighths_sign(eighths: u32) -> u8
    requires { eighths < 8 }
    ensures { result ≡ (if eighths == 4 then 43 else 48 + eighths) }
{
    if eighths == 4 {
        return b'+';
    }
    b'0' + eighths as u8
}
