//! What a call answers.
ghost use Rattle.std.specs.Prelude.{◌≡◌};
ghost use Rattle.session_recovery_c.specs.Verdicts as spec;

use session_recovery::Refusal;

/// The step is taken.
pub(crate) const GOES_ON: u32 = 0;

/// The note is of no kind that there is.
pub(crate) const NO_KIND: u32 = 10;

/// The number of a reason.
pub(crate) fn code(why: Refusal) -> u32
    ensures { result ≡ spec.code why }
{
    match why {
        Refusal::Epoch => 1,
        Refusal::Given => 2,
        Refusal::Hash => 3,
        Refusal::Number => 4,
        Refusal::Had => 5,
        Refusal::Expected => 6,
        Refusal::Act => 7,
        Refusal::NotBehind => 8,
        Refusal::TooFar => 9,
    }
}
