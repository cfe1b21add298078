//! Which characters may stand where.
ghost use Rattle.std.specs.Prelude.{◌≡◌};
ghost use Rattle.std.specs.List.{list_all};
ghost use Rattle.venue_rows.specs.Texts.{is_capital_or_digit};

/// Whether each byte is a capital letter or a digit.
pub(crate) fn are_capitals_or_digits(text: &[u8]) -> bool
    ensures { result ≡ list_all is_capital_or_digit text.now }
{
    text.iter()
        .all(|c| c.is_ascii_uppercase() || c.is_ascii_digit())
}
