//! What holds of a session after every list of events.
ghost use Rattle.std.specs.Prelude.{◌≡◌, ◌≤◌, ◌⊎◌, ◌==◌, ◌++◌, length, Bool, ℕ, List, [], Option, Some, None, true, false, if◌then◌else◌};
ghost use Rattle.fix_fields.specs.Frame.{Field, frame_of};
ghost use Rattle.fix_sessions.specs.Outcomes.{is_spent, said};
ghost use Rattle.fix_sessions.specs.Sending.{hands, is_answer, is_resending};
ghost use Rattle.fix_sessions.specs.Steps.{came, given, gone, has, new_session};
ghost use Rattle.fix_sessions.specs.Written.{body_of, kept_fields, said_fields};
ghost use Rattle.fix_sessions.specs.declared.state.Clock.{Clock};
ghost use Rattle.fix_sessions.specs.declared.state.Line.{Line};
ghost use Rattle.fix_sessions.specs.declared.state.Phase.TheVariants as phase;
ghost use Rattle.fix_sessions.specs.declared.state.Session.{Session};
ghost use Rattle.fix_sessions.specs.declared.state.Waiting.{Waiting};
ghost use Rattle.fix_sessions.specs.declared.texts.Names.{Names};
ghost use Rattle.fix_sessions.specs.declared.turns.Denial.{Denial};
ghost use Rattle.fix_sessions.specs.declared.turns.Said.{Said};
ghost use Rattle.fix_sessions.specs.declared.turns.Stored.{Stored};
ghost use Rattle.fix_sessions.specs.declared.turns.Turn.{Turn};
ghost use Rattle.fix_sessions.specs.declared.turns.Way.TheVariants as way;
ghost use Rattle.fix_sessions.specs.declared.turns.Word.TheVariants as word;
ghost use Rattle.laws_sessions.specs.Bounds.{SessionFits, TurnFits, sent_by};
ghost use Rattle.laws_sessions.specs.Days.{Event, after, is_reset, turn, turns, without_resets};
ghost use Rattle.laws_sessions.specs.Given.{given_bodies, of_venue};
ghost use Rattle.laws_sessions.specs.Kept.{Entry, IsHanded, Within, all_kept, entered, kept_after};
ghost use Rattle.laws_sessions.specs.Logons.{CameOn, IsLoggedOn, IsLogon, sends};
ghost use Rattle.laws_sessions.specs.Moves.{IsMoved, IsStill, is_bytes};
ghost use Rattle.laws_sessions.specs.Numbers.{Rises, taken};
ghost use Rattle.laws_sessions.specs.Restarts.{restarted};
ghost use Rattle.laws_sessions.specs.Sent.{AreHanded, AreTurnsRight, Ascends, IsTurnRight, all_news};
ghost use Rattle.laws_sessions.specs.Stamps.{is_of_kept, leads_body, without_header};

/// Nothing reaches the venue, or leaves, before a Logon of the firm with right credentials.
///
/// From a session that no connection has, after every list of events: the venue is given nothing
/// from a connection until such a Logon has come on it, and only while it has the session since
/// (`taken`). Otherwise the session sends something there only in the turn of such a Logon
/// (`sent`), and bytes that come there move the expected number only if they are one (`moved`). The
/// premise: `question` was asked of the very bytes that `came` judges.
///
/// It ends at: the verdict on credentials, which is the gateway's.
pub fn nothing_without_a_logon()
    ensures sent { (names : Names) (s : Session) (events : List Event) (e : Event)
        → s.phase ≡ phase.Away
        → sends (turn names (after names s events) e) ≡ true
        → IsLoggedOn names s events (turn names (after names s events) e).connection
        ⊎ IsLogon names (turn names (after names s events) e).connection e }
    ensures taken { (names : Names) (s : Session) (events : List Event) (e : Event) (number : ℕ)
        → s.phase ≡ phase.Away
        → (turn names (after names s events) e).takes ≡ Some number
        → (connection : ℕ) × IsLoggedOn names s events connection × CameOn connection e }
    ensures moved { (names : Names) (s : Session) (events : List Event) (e : Event)
        (connection : ℕ) → s.phase ≡ phase.Away → CameOn connection e
        → ((turn names (after names s events) e).session.day.expected
        == (after names s events).day.expected) ≡ false
        → IsLoggedOn names s events connection ⊎ IsLogon names connection e }
{}

/// Between two resets by an operator, the numbers under which the venue is given messages rise, so
/// it is given none twice under one number.
pub fn each_message_is_taken_once()
    ensures { (names : Names) (s : Session) (events : List Event)
        → without_resets events ≡ true
        → 1 ≤ s.day.expected
        → Rises (if s.day.was_taken then s.day.expected else 1) (taken names s events) }
{}

/// Every message that uses up a number is passed on, answered, or the session's own. (One that is
/// read no further, because of its version or length, may end the connection instead.)
///
/// Bytes move the expected number by one, on a message that bears it; to a higher one, by the
/// firm's SequenceReset, in reset mode or as a gap fill; or to 1, by its Logon with 141=Y, which is
/// counted at once, while the venue has been given nothing of it. Else only an operator's reset
/// moves it (`bytes`, `others`). The message has the right length, the right sum and one readable
/// 34, or it has more than 65,536 bytes and such a 34 ends with SOH among the first 65,536. In the
/// turn that counts it, it is given to the venue, answered, or the session's own (35=A, 0, 2, 3, 4
/// or 5); or it is read no further and ends the connection. Any Logout answers; a Reject or a
/// BusinessMessageReject only if its RefSeqNum (45) is the message's number; a Heartbeat with its
/// 112 a TestRequest. An answer may be kept in that turn, and leave later. Where the day's mark
/// says that the venue has been given nothing, that is so since the last reset by an operator
/// (`marked`).
///
/// It ends at: what the session does with its own messages; when a kept answer leaves.
pub fn no_message_is_counted_and_dropped()
    ensures bytes { (names : Names) (s : Session) (connection : ℕ) (clock : Clock) (bytes : List ℕ)
        (is_known : Bool) (denial : Option Denial)
        → IsStill s.day (came names s connection clock bytes is_known denial)
        ⊎ IsMoved names bytes s.day (came names s connection clock bytes is_known denial) }
    ensures others { (names : Names) (s : Session) (e : Event)
        → is_bytes e ≡ false
        → is_reset e ≡ false
        → IsStill s.day (turn names s e) }
    ensures marked { (names : Names) (s : Session) (events : List Event)
        → without_resets events ≡ true
        → (after names s events).day.was_taken ≡ false
        → taken names s events ≡ [] }
{}

/// Between two resets by an operator, what is kept for the firm leaves for the first time in its
/// order and at most once (`in_order`). What leaves again was kept.
///
/// It is kept under numbers that rise (`kept`). A gap fill covers nothing that was kept except a
/// Heartbeat (an answer to a TestRequest), which is not sent again. Whatever leaves is kept under
/// its number, or is the session's own: in each turn (`right`), and so after every list of events
/// (`always`). The premise: what is kept is handed back as it was kept.
///
/// It ends at: whether what is kept leaves at all.
pub fn what_leaves_was_given()
    ensures in_order { (names : Names) (s : Session) (events : List Event)
        → s.phase ≡ phase.Away
        → without_resets events ≡ true
        → Ascends s.day.next (all_news names s events) }
    ensures kept { (names : Names) (s : Session) (kept : List Entry) (events : List Event)
        → without_resets events ≡ true
        → Within 0 s.day.next kept
        → Within 0 (after names s events).day.next (all_kept names s kept events) }
    ensures right { (names : Names) (s : Session) (kept : List Entry) (e : Event)
        → is_reset e ≡ false
        → Within 0 s.day.next kept
        → IsHanded kept s e
        → IsTurnRight (turn names s e) (kept_after kept (turn names s e)) }
    ensures always { (names : Names) (s : Session) (kept : List Entry) (events : List Event)
        → without_resets events ≡ true
        → Within 0 s.day.next kept
        → AreHanded names s kept events
        → AreTurnsRight names s kept events }
{}

/// What is kept of the venue's messages is what the venue gave, in its order: each once, and none
/// is lost.
///
/// Between two resets by an operator. The Rejects that a Logon with 141=Y drops are the session's
/// own.
pub fn what_is_kept_was_given()
    ensures { (names : Names) (s : Session) (kept : List Entry) (events : List Event)
        → without_resets events ≡ true
        → of_venue (all_kept names s kept events) ≡ of_venue kept ++ given_bodies names s events }
{}

/// What leaves of a kept message is what is kept, field by field, except the session's fields of
/// the header behind MsgType (35): 49, 56, 34, 43, 52, 122 and 97.
///
/// The premise: the body begins with none of these. (What the wire makes of a message of the venue
/// begins with 1181.)
pub fn what_leaves_is_what_is_kept()
    ensures { (names : Names) (date : List ℕ) (moment : ℕ) (said : Said)
        → is_of_kept said.word ≡ true
        → leads_body (body_of said.word) ≡ true
        → without_header (said_fields names date moment said) ≡ kept_fields said.word }
{}

/// A turn sends at most two messages (`two`), each number of a session is one that a message may
/// have (`numbers`, `said`, `begins`), and a frame has at most 4,096 bytes (`framed`).
///
/// So it is after every list of events, whatever a firm sends, and whatever an operator orders. By
/// its type a session has numbers and marks alone, so it holds no message of a firm.
pub fn a_session_is_bounded()
    ensures two { (t : Turn) → length (sent_by t) ≤ 2 }
    ensures numbers { (names : Names) (s : Session) (events : List Event)
        → SessionFits s → SessionFits (after names s events) }
    ensures said { (names : Names) (s : Session) (events : List Event) (e : Event)
        → SessionFits s → TurnFits (turn names (after names s events) e) }
    ensures begins { SessionFits new_session }
    ensures framed { (bytes : List ℕ) (fields : List Field)
        → frame_of bytes ≡ Some fields
        → length bytes ≤ 4096 }
{}

/// A session that is made of the day of another goes on as that one would have, once its
/// connections are gone (`one`, `two`, `waits`, `from_then_on`), and a resend gives what is kept
/// (`resent`).
///
/// It ends at: what is handed back, which is the gateway's; that a start has the whole day, of
/// which `expected` and `had` may be lower (`laws_sessions::recovered_is_the_session`).
pub fn a_restart_changes_nothing()
    ensures one { (s : Session) (connection : ℕ)
        → has s.phase connection ≡ true
        → s.waiting ≡ None
        → (gone s connection).session ≡ restarted s.day }
    ensures two { (s : Session) (connection : ℕ) (waiting : Waiting)
        → has s.phase connection ≡ true
        → s.waiting ≡ Some waiting
        → (gone (gone s connection).session waiting.connection).session ≡ restarted s.day }
    ensures waits { (s : Session) (waiting : Waiting)
        → s.phase ≡ phase.Away
        → s.waiting ≡ Some waiting
        → (gone s waiting.connection).session ≡ restarted s.day }
    ensures from_then_on { (names : Names) (s : Session) (connection : ℕ) (events : List Event)
        → has s.phase connection ≡ true
        → s.waiting ≡ None
        → turns names (gone s connection).session events
        ≡ turns names (restarted s.day) events }
    ensures resent { (s : Session) (line : Line) (moment next_kept : ℕ) (stored : Stored)
        → is_spent s ≡ false
        → s.phase ≡ phase.On line
        → is_resending line ≡ true
        → is_answer stored ≡ false
        → (hands s moment next_kept (Some stored)).first
        ≡ said line.again way.Leaves (word.Again stored.body stored.is_copy stored.first) }
{}

/// A message of the venue that a session made of what was kept is given again stands as before:
/// under the same number, with the same bytes (`kept`), and the day goes on as it did (`day`).
pub fn a_message_is_given_again_as_it_was()
    ensures day { (s : Session) (moment later : ℕ) (body : List Field)
        → is_spent s ≡ false
        → (given (restarted s.day) later body).session.day ≡ (given s moment body).session.day }
    ensures kept { (s : Session) (moment later : ℕ) (body : List Field)
        → is_spent s ≡ false
        → entered (given (restarted s.day) later body).first
        ≡ entered (given s moment body).first }
{}
