//! A resend comes to its end.
ghost use Rattle.std.specs.Prelude.{◌≡◌, ◌≤◌, ◌<◌, ◌+◌, ◌-◌, ℕ, List, false, length};
ghost use Rattle.fix_sessions.specs.Rows.{asked_of, highest_left, requested};
ghost use Rattle.fix_fields.specs.Frame.{Field};
ghost use Rattle.fix_sessions.specs.Sending.{wants};
ghost use Rattle.fix_sessions.specs.declared.requests.Asked.TheVariants as asked;
ghost use Rattle.fix_sessions.specs.declared.messages.Origin.{Origin};
ghost use Rattle.fix_sessions.specs.declared.messages.Reading.{Reading};
ghost use Rattle.fix_sessions.specs.declared.state.Line.{Line};
ghost use Rattle.fix_sessions.specs.declared.state.Live.{Live};
ghost use Rattle.fix_sessions.specs.declared.state.Phase.TheVariants as phase;
ghost use Rattle.fix_sessions.specs.declared.state.Session.{Session};
ghost use Rattle.fix_sessions.specs.declared.texts.Names.{Names};
ghost use Rattle.laws_sessions.specs.Days.{Event, after};
ghost use Rattle.laws_sessions.specs.Kept.{Entry, IsKept, Within};
ghost use Rattle.laws_sessions.specs.Fed.{IsDue, IsFed, MayResend, times_left, wants_number};

/// A resend comes to its end, if nothing else comes.
///
/// Where the session takes a ResendRequest for numbers that have left, it wants each of them again
/// (`asked`). If its connection has settled and holds no Reject back, it is handed what it wants,
/// and nothing else comes, it wants no number after as many turns as numbers are left (`ends`).
/// Each kept message that was asked for (except an answer to a TestRequest), and each that had not
/// left, has then left once (`leaves`). The premises: the session's numbers are not used up, and
/// its resend has not gone past what has left.
///
/// It ends at: which bytes are taken as a ResendRequest (the session's definition says it); a
/// connection that has not settled; whatever else comes meanwhile.
pub fn a_resend_comes_to_its_end()
    ensures asked { (a : Live) (now : ℕ) (m : Origin) (first last : Reading) (low high : ℕ)
        → asked_of (highest_left a.line) first last ≡ asked.Numbers low high
        → (line : Line) × ((requested a now m first last).session.phase ≡ phase.On line)
        × (line.again ≤ low) × (high < line.again_end) }
    ensures ends { (names : Names) (s : Session) (line : Line) (kept : List Entry)
        (events : List Event) → MayResend s line → IsFed names s kept events
        → length events ≤ (line.again_end - line.again) + (s.day.next - line.fresh) }
    ensures leaves { (names : Names) (s : Session) (line : Line) (kept : List Entry)
        (events : List Event) (number : ℕ) (body : List Field)
        → MayResend s line → Within 0 s.day.next kept → IsFed names s kept events
        → wants_number (wants (after names s events)) ≡ false
        → IsKept number body kept → IsDue line number body
        → times_left names s number events ≡ 1 }
{}
