//! Which characters may stand where.
ghost use Rattle.std.specs.Prelude.{◌≡◌};
ghost use Rattle.std.specs.List.{list_all};
ghost use Rattle.std.specs.Char.{is_ascii_alphanumeric};

/// Whether each byte is a letter or a digit.
pub(crate) fn are_letters_or_digits(text: &[u8]) -> bool
    ensures { result ≡ list_all is_ascii_alphanumeric text.now }
{
    text.iter().all(|c| c.is_ascii_alphanumeric())
}
