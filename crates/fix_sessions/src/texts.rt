//! Short texts of a message.
ghost use Rattle.std.specs.Prelude.{◌≡◌, ◌≤◌, length, IsTrue, Option, Some, None};
ghost use Rattle.fix_fields.specs.Frame.{IsValue};
ghost use Rattle.fix_sessions.specs.Texts.{is_text, text_if_short};
ghost use Rattle.fix_sessions.specs.declared.texts.TheConstants.{MOST_NAME};

use fix_fields::is_value;
use std::marker::Model;

/// The longest text that is taken over into a message, in bytes.
pub const MOST_TEXT: usize = 1_024;

/// The longest name of a firm or a venue, in bytes.
pub const MOST_NAME: usize = 40;

/// A text of 1 to 1,024 bytes without SOH, as a name or a TestReqID (112).
#[derive(Debug, Drop)]
pub struct Text<'a> {
    bytes: &'a [u8],
}

impl<'a> Model for Text<'a> {
    ghost use Rattle.std.specs.Prelude.{List, ℕ, IsTrue};
    ghost use Rattle.fix_sessions.specs.Texts.{is_text};

    ghost Value = { List ℕ };

    ghost view = { λ t. t.bytes.now };

    ghost invariant = { λ t. IsTrue (is_text t.bytes.now) };
}

impl<'a> Text<'a> {
    /// The text that these bytes are, or none where they are none.
    pub fn new(bytes: &'a [u8]) -> Option<Self>
        ensures { result ≡ text_if_short bytes.now }
    {
        if bytes.is_empty() || bytes.len() > MOST_TEXT || !is_value(bytes) {
            return None;
        }
        Some(Text { bytes })
    }

    /// The bytes.
    #[tactic(auto, using(crate::proofs::ShortTexts::text_is_value))]
    pub fn as_bytes(&self) -> &'a [u8]
        ensures value { result.now ≡ self.now }
        ensures short { length self.now ≤ MOST_TEXT }
        ensures field { IsValue self.now }
    {
        self.bytes
    }
}

/// Whose session it is: the names that each message bears.
#[derive(Debug, Drop)]
pub struct Names<'a> {
    /// The firm's, SenderCompID (49) of its messages.
    pub firm: Text<'a>,
    /// The venue's, TargetCompID (56) of the firm's messages.
    pub venue: Text<'a>,
    /// Which of several venues the firm's Logon names by TargetSubID (57), if it has to.
    pub desk: Option<Text<'a>>,
    ghost firm_short: { length firm ≤ MOST_NAME },
    ghost venue_short: { length venue ≤ MOST_NAME },
}

impl<'a> Names<'a> {
    ghost use Rattle.std.specs.Prelude.{MatchOption};
    ghost use Rattle.fix_sessions.specs.Names.{AreLong, AreNames};

    /// Names of at most 40 bytes each.
    pub fn new(firm: Text<'a>, venue: Text<'a>, desk: Option<Text<'a>>) -> Option<Names<'a>>
        ensures { MatchOption result (AreLong firm.entry venue.entry) (λ names. AreNames firm.entry venue.entry desk.entry names) }
    {
        if firm.as_bytes().len() > MOST_NAME {
            return None;
        }
        if venue.as_bytes().len() > MOST_NAME {
            return None;
        }
        Some(Names { firm, venue, desk })
    }
}
