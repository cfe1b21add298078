//! What is kept of the venue's messages, and what leaves.
ghost use Rattle.std.specs.Prelude.{◌≡◌, ℕ, List, [], Bool, Option, true};
ghost use Rattle.fix_fields.specs.Frame.{Field};
ghost use Rattle.fix_sessions.specs.Written.{said_fields};
ghost use Rattle.fix_sessions.specs.declared.state.Session.{Session};
ghost use Rattle.fix_sessions.specs.declared.texts.Names.{Names};
ghost use Rattle.fix_sessions.specs.declared.turns.Said.{Said};
ghost use Rattle.fix_sessions.specs.declared.turns.Word.TheVariants as word;
ghost use Rattle.laws_sessions.specs.Days.{Event, without_resets};
ghost use Rattle.laws_sessions.specs.Given.{given_bodies, of_venue};
ghost use Rattle.laws_sessions.specs.Kept.{all_kept};
ghost use Rattle.laws_sessions.specs.Stamps.{without_header};
ghost use Rattle.wire_messages.specs.ToFirm.{VenueMessage, to_firm};
ghost use Rattle.laws_wire.specs.Carried.{AreCarried, AreMade, AreRead, AreSame};

use laws_sessions::{what_is_kept_was_given, what_leaves_is_what_is_kept};

/// Until an operator's reset, what a session keeps of the venue's messages reads back as these,
/// each in its place, except 45 of a Reject, and 49 and 56, if none has a field that the wire adds
/// (`AreCarried`; `read`).
///
/// Two sessions that are given the same messages keep the same, whether they read back or not
/// (`same`). The premise: the session is given what `to_firm` gives of the venue's messages, in
/// their order.
pub fn what_is_kept_reads_back()
    ensures read { (names : Names) (s : Session) (events : List Event) (frames : List (List ℕ))
        (tolds : List (Option Field)) → without_resets events ≡ true
        → AreCarried 1 frames tolds (given_bodies names s events)
        → AreRead frames tolds (of_venue (all_kept names s [] events)) }
    ensures same { (names others : Names) (s other : Session) (events more : List Event)
        (frames : List (List ℕ)) (tolds : List (Option Field))
        → without_resets events ≡ true → without_resets more ≡ true
        → AreMade 1 frames tolds (given_bodies names s events)
        → AreMade 1 frames tolds (given_bodies others other more)
        → AreSame (of_venue (all_kept names s [] events))
        (of_venue (all_kept others other [] more)) }
{
    what_is_kept_was_given();
}

/// What leaves of a message of the venue is what is kept of it, field by field, for the first time
/// (`first`) and again (`again`), with the session's header: 49, 56, 34, 52, 43, 122 and 97.
pub fn what_leaves_is_the_venues()
    ensures first { (names : Names) (date : List ℕ) (moment reference : ℕ) (said : Said)
        (told : Option Field) (m : VenueMessage) (is_copy : Bool)
        → said.word ≡ word.Kept (to_firm reference told m) is_copy
        → without_header (said_fields names date moment said) ≡ to_firm reference told m }
    ensures again { (names : Names) (date : List ℕ) (moment reference first : ℕ) (said : Said)
        (told : Option Field) (m : VenueMessage) (is_copy : Bool)
        → said.word ≡ word.Again (to_firm reference told m) is_copy first
        → without_header (said_fields names date moment said) ≡ to_firm reference told m }
{
    what_leaves_is_what_is_kept();
}
