//! The steps at a dealer's desk.
ghost use Rattle.std.specs.Prelude.{◌≡◌, ◌<◌, ◌≤◌, ◌+◌, [], ◌++◌, length, IfOk, OnOk, OnErr, vec_len};
ghost use Rattle.std.specs.Prelude.{vec_capacity};
ghost use Rattle.std.specs.Option.{option_to_list};
ghost use Rattle.dealer_desk.specs.DealerDesk.{rooms_at, with_notice_in};
ghost use Rattle.dealer_desk.specs.DealerOutput.{number_in};
ghost use Rattle.venue_steps.specs.DealerSteps as spec;
ghost use Rattle.venue_steps.specs.Words.{AsksAtMost, settlement_in, has_word, word_to_ask};

use crate::Duties;
use crate::words::{ask, word_of_asked};
use dealer_desk::DealerDesk;
use fix_fields::{Memory, Moment};
use market_terms::{Ask, Close, Duty, RoomRef};
use quote_word::{Settled, Words};

/// A message comes to the desk of its dealer, whose first word is `first_word`. The word that it
/// asks, if it asks one, is withdrawn where it is open. What follows is the posting of an accepted
/// quote, the unpost of a withdrawn one, a decline, the first drop of a cancel of all, or nothing.
///
/// Where the row has no such word nothing changes. It fails for memory alone: then the desk is as
/// before, and the word was asked.
pub fn own_dealer<W: Words>(
    desk: &mut DealerDesk,
    words: &mut W,
    first_word: u32,
    moment: Moment,
    bytes: &[u8],
) -> Result<Duties, Memory>
    ensures words { AsksAtMost W.settles W.entry words.old
        (word_to_ask (W.count words.old) (spec.own_word first_word desk.old moment bytes.now))
        Settled.Withdrawn words.new }
    ensures ok { OnOk result (desk.new ≡ spec.desk_after_own desk.old moment bytes.now
        (has_word (W.count words.old) (spec.own_word first_word desk.old moment bytes.now))
        (settlement_in (W.entry words.new) (spec.own_word first_word desk.old moment bytes.now))) }
    ensures duties { IfOk result (λ duties. duties.items ≡
        spec.duties_of_own desk.old moment bytes.now
        (has_word (W.count words.old) (spec.own_word first_word desk.old moment bytes.now))
        (settlement_in (W.entry words.new) (spec.own_word first_word desk.old moment bytes.now))) }
    ensures few { IfOk result (λ duties. length duties.items ≤ 9) }
    ensures err { OnErr result (desk.new ≡ desk.old) }
{
    let verdict = desk.judge(moment, bytes);
    let word = word_of_asked(first_word, verdict.word_asked());
    let Some(settlement) = ask(words, word, Settled::Withdrawn) else {
        return Ok(Duties::new(desk.alloc()));
    };
    let duties = Duties::with_capacity(desk.alloc(), 1)?;
    let duty = desk.receive_judged(moment, bytes, verdict, settlement)?;
    Ok(with_duty(duties, duty))
}

/// The next quote of a cancel of all is dropped, of those up to `last`, at the desk of a dealer
/// whose first word is `first_word`: its word is withdrawn where it is open. What follows is its
/// unpost where it is withdrawn, and then the further drop where another quote is left.
///
/// Where the row has no such word nothing changes. It fails for memory alone: then the desk is as
/// before, and the word was asked.
pub fn do_drop<W: Words>(
    desk: &mut DealerDesk,
    words: &mut W,
    first_word: u32,
    last: u32,
    moment: Moment,
) -> Result<Duties, Memory>
    ensures words { AsksAtMost W.settles W.entry words.old
        (word_to_ask (W.count words.old) (spec.drop_word first_word desk.old last))
        Settled.Withdrawn words.new }
    ensures ok { OnOk result (desk.new ≡ spec.desk_after_drop desk.old last moment
        (has_word (W.count words.old) (spec.drop_word first_word desk.old last))
        (settlement_in (W.entry words.new) (spec.drop_word first_word desk.old last))) }
    ensures duties { IfOk result (λ duties. duties.items ≡
        spec.duties_of_drop desk.old last moment
        (has_word (W.count words.old) (spec.drop_word first_word desk.old last))
        (settlement_in (W.entry words.new) (spec.drop_word first_word desk.old last))) }
    ensures few { IfOk result (λ duties. length duties.items ≤ 9) }
    ensures err { OnErr result (desk.new ≡ desk.old) }
{
    let word = word_of_asked(first_word, desk.question_drop(last));
    let Some(settlement) = ask(words, word, Settled::Withdrawn) else {
        return Ok(Duties::new(desk.alloc()));
    };
    let duties = Duties::with_capacity(desk.alloc(), 2)?;
    let (unpost, further) = desk.drop_one(last, moment, settlement)?;
    Ok(with_duty(with_duty(duties, unpost), further))
}

/// A dealer is shown a request. A room is shown once: where it was shown before, nothing changes.
/// Nothing follows. It fails for memory alone, and then the desk is as before.
pub fn do_show(
    desk: &mut DealerDesk,
    room: RoomRef,
    ask: Ask,
    moment: Moment,
) -> Result<Duties, Memory>
    ensures ok { OnOk result (desk.new ≡ spec.desk_after_show desk.old room ask moment) }
    ensures duties { IfOk result (λ duties. duties.items ≡ []) }
    ensures err { OnErr result (desk.new ≡ desk.old) }
{
    if desk.was_shown(room) {
        return Ok(Duties::new(desk.alloc()));
    }
    desk.show(room, ask, moment)?;
    Ok(Duties::new(desk.alloc()))
}

/// A dealer is told how the request of a room ended for it, once: where the room was not shown to
/// it, or it was told already, nothing changes. Nothing follows. It fails for memory alone, and
/// then the desk is as before.
pub fn do_tell(
    desk: &mut DealerDesk,
    room: RoomRef,
    close: Close,
    moment: Moment,
) -> Result<Duties, Memory>
    ensures ok { OnOk result
        (desk.new ≡ with_notice_in desk.old (number_in (rooms_at desk.old) room) close moment) }
    ensures duties { IfOk result (λ duties. duties.items ≡ []) }
    ensures err { OnErr result (desk.new ≡ desk.old) }
{
    desk.tell(room, close, moment)?;
    Ok(Duties::new(desk.alloc()))
}

/// Puts a duty behind the others, where there is one: there is room for it.
pub(crate) fn with_duty(mut duties: Duties, duty: Option<Duty>) -> Duties
    requires { vec_len duties < vec_capacity duties }
    ensures items { result.items ≡ duties.items ++ option_to_list duty }
    ensures more { vec_len result ≤ vec_len duties + 1 }
    ensures room { vec_capacity result ≡ vec_capacity duties }
{
    let Some(duty) = duty else {
        return duties;
    };
    duties.push_reserved(duty);
    duties
}
