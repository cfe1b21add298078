//! What is taken crosses.
ghost use Rattle.std.specs.Prelude.{◌≡◌, ℕ, Bool, List, Option, Some};
ghost use Rattle.fix_sessions.specs.Steps.{came};
ghost use Rattle.fix_sessions.specs.declared.state.Clock.{Clock};
ghost use Rattle.fix_sessions.specs.declared.state.Session.{Session};
ghost use Rattle.fix_sessions.specs.declared.texts.Names.{Names};
ghost use Rattle.fix_sessions.specs.declared.turns.Denial.{Denial};
ghost use Rattle.laws_wire.specs.Sound.{Crosses, IsNoLonger, IsSound};

/// What a session gives the venue is one whole message without a fault in its form, and bears the
/// number under which it is given (`sound`).
///
/// It *crosses*: unless memory is refused, the venue is given its frame, under each count of the
/// firm's messages that has no more digits than that number (`crosses`).
pub fn what_is_taken_crosses()
    ensures sound { (names : Names) (s : Session) (connection : ℕ) (clock : Clock) (bytes : List ℕ)
        (is_known : Bool) (denial : Option Denial) (number : ℕ)
        → (came names s connection clock bytes is_known denial).takes ≡ Some number
        → IsSound bytes number }
    ensures crosses { (names : Names) (s : Session) (connection : ℕ) (clock : Clock)
        (bytes : List ℕ) (is_known : Bool) (denial : Option Denial) (number count : ℕ)
        → (came names s connection clock bytes is_known denial).takes ≡ Some number
        → IsNoLonger count number
        → Crosses bytes count }
{}
