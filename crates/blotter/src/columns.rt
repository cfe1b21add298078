//! Columns of a line, each with the space that divides it from the next one.
ghost use Rattle.std.specs.Prelude.{◌≡◌, [], ◌∷◌, ◌++◌, decimal, string_bytes, replicate, OnOk};
ghost use Rattle.blotter.specs.BlotterText as spec;

use fix_fields::Memory;
use itoa::Buffer;

/// Puts a text that is as wide as its column.
pub(crate) fn push_column(text: &mut String, value: &str) -> Result<(), Memory>
    ensures { OnOk result (string_bytes text.new
        ≡ string_bytes text.old ++ value.now ++ 32 ∷ []) }
{
    text.push_str(value)?;
    text.push(' ')?;
    Ok(())
}

/// Puts a text at the right of a column.
pub(crate) fn push_right(text: &mut String, width: usize, value: &str) -> Result<(), Memory>
    ensures { OnOk result (string_bytes text.new
        ≡ string_bytes text.old ++ spec.right_in width value.now ++ 32 ∷ []) }
{
    push_spaces(text, width.saturating_sub(value.len()))?;
    push_column(text, value)?;
    Ok(())
}

/// Puts a text at the left of a column.
pub(crate) fn push_left(text: &mut String, width: usize, value: &str) -> Result<(), Memory>
    ensures { OnOk result (string_bytes text.new
        ≡ string_bytes text.old ++ spec.left_in width value.now ++ 32 ∷ []) }
{
    text.push_str(value)?;
    push_spaces(text, width.saturating_sub(value.len()))?;
    text.push(' ')?;
    Ok(())
}

/// Puts a number at the right of a column.
pub(crate) fn push_number(text: &mut String, width: usize, number: u64) -> Result<(), Memory>
    ensures { OnOk result (string_bytes text.new
        ≡ string_bytes text.old ++ spec.right_in width (decimal number) ++ 32 ∷ []) }
{
    let mut digits = Buffer::new();
    push_right(text, width, digits.format(number))?;
    Ok(())
}

/// Puts so many spaces.
fn push_spaces(text: &mut String, count: usize) -> Result<(), Memory>
    ensures { OnOk result (string_bytes text.new
        ≡ string_bytes text.old ++ replicate count 32) }
{
    for _ in 0..count {
        text.push(' ')?;
    }
    Ok(())
}
