//! What holds of call after call.
ghost use Rattle.std.specs.Prelude.{◌≡◌};
ghost use Rattle.fix_sessions.specs.declared.state.Session.{Session};
ghost use Rattle.fix_sessions_c.specs.States.{read, shown};
ghost use Rattle.fix_sessions_c.specs.declared.parts.TheConstants as parts;
ghost use Rattle.wire_messages.specs.declared.limits.TheConstants as wire;

/// Each call of the library for C finds the session that the call before it left.
#[tactic(auto, using(crate::proofs::StateLemmas::read_shown))]
pub fn sessions_are_read_back()
    ensures { (s : Session) → read (shown s) ≡ s }
{}

/// The lengths of what the gateway hands in are the numbers of the pages: 200 bytes of what it says
/// of a message (`said`), 3,800 of a body (`body`). (Definitions name them by constants of the
/// code.)
pub fn lengths_are_as_written()
    // What the gateway says of a message that it does not take, and why it logs a firm out.
    ensures said { parts.MOST_SAID ≡ 200 }

    // The body of a message of the venue on the wire, without the session's header.
    ensures body { wire.MOST_WIRE_BODY ≡ 3800 }
{}
