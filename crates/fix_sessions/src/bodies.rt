//! What is kept under a number.
ghost use Rattle.std.specs.Prelude.{◌≡◌, ◌≤◌, Option, Some, None, if◌then◌else◌, nat_le};
ghost use Rattle.fix_fields.specs.Frame.{fields_len, value_of};
ghost use Rattle.fix_sessions.specs.Texts.{has_text};

use fix_fields::Frame;
use std::marker::Model;

/// How many bytes the body of a message that is kept may have: the session's header fits before it.
pub const MOST_KEPT: usize = 3_800;

/// A message as it is kept under a number: MsgType (35) and what stands behind the session's header.
#[derive(Debug, Drop)]
pub struct Body<'a> {
    frame: Frame<'a>,
}

impl<'a> Model for Body<'a> {
    ghost use Rattle.std.specs.Prelude.{List, ◌≤◌};
    ghost use Rattle.fix_fields.specs.Frame.{Field, fields_len};
    ghost use Rattle.fix_sessions.specs.declared.bodies.TheConstants.{MOST_KEPT};

    ghost Value = { List Field };

    ghost view = { λ body. body.frame };

    ghost invariant = { λ body. fields_len body.frame ≤ MOST_KEPT };
}

impl<'a> Body<'a> {
    /// The message of a frame, where it leaves room for the session's header.
    #[tactic(auto, unfolding(fix_fields::specs::Frame::fields_len))]
    pub fn new(frame: Frame<'a>) -> Option<Body<'a>>
        ensures { result ≡ (if nat_le (fields_len frame.entry) MOST_KEPT then Some frame.entry else None) }
    {
        if frame.fields().as_bytes().len() > MOST_KEPT {
            return None;
        }
        Some(Body { frame })
    }

    /// The message as a frame.
    pub fn frame(&self) -> &Frame<'a>
        ensures fields { result.now ≡ self.now }
        ensures fits { fields_len self.now ≤ MOST_KEPT }
    {
        &self.frame
    }

    /// Whether its MsgType (35) is this one.
    pub fn is(&self, msg_type: &[u8]) -> bool
        ensures { result ≡ has_text 35 msg_type.now self.now }
    {
        let Some(value) = self.frame.get(35) else {
            return false;
        };
        value == msg_type
    }
}
