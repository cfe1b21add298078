//! Recorded days that are made by lines.
use super::answers::{put_count, put_steps, put_text};
use super::cycles::put_cycle;
use super::desk_events::{bring, comes_to_desk};
use super::empty_days::{empty_dealer, empty_investor, empty_room};
use super::events::{event_in, is_event};
use super::values::{actor_in, kind_in, message_of};
use super::venues::Venue;
use crate::terms::settled;
use case_lines::{Call, CaseFault, Place, Words, push_line};
use day_weaving::{WeaveFault, weave};
use dealer_desk::DealerEvent;
use investor_desk::InvestorDesk;
use quote_messages::SentMessage;
use recorded_days::{Action, DayRecord, DealerDay, Inbound, InvestorDay};
use std::alloc::Global;
use std::mem::replace;
use step_replay::{Actor, Step, alone, due};
use venue_text::due_lines;

/// A recorded day. Firms go by their numbers, the dealers from 0 on, behind them the investors, and
/// an action by its actor, the number of a firm or `CLOCK`, and its number among the actions of
/// that actor, from 1.
///
/// | call | what it does |
/// |---|---|
/// | `< LINE`, `open`, `- LINE`, `read` .. | as of the place `replay` |
/// | `begin` | the record of a day in which nothing happens, with a room for each request |
/// | `action ACTOR KIND TIME` | an action more of an actor |
/// | `action ACTOR KIND TIME WORD ANSWER` | one that asked a word, which is so then |
/// | `at FIRM ACTOR N` | that action is the next one at the desk of a firm |
/// | `room FIRM R ACTOR N` | it is the next one in the room of an investor's R-th request |
/// | `inbox FIRM TIME BODY` | a message more of a firm: the frame of a body |
/// | `own FIRM TIME ANSWER BODY` | an event more at a dealer's desk: a message |
/// | `shown FIRM INVESTOR N LINE` | a request is shown, as LINE behind `shown` in due text |
/// | `closed FIRM N CODE TIME` | the dealer is told |
/// | `drop FIRM LAST TIME ANSWER` | a quote is dropped |
/// | `replayed FIRM` | the dealer was sent what the steps of the day send it |
/// | `desk FIRM` | a desk of an investor, beside the record |
/// | `take TIME BODY`, `closes N TIME` | a message comes to it; a request of it closes |
/// | `quote_came N DEALER WORD PRICE TIME` | it is shown a quote, of a price in ticks of 1/256 |
/// | `quote_gone N WORD TIME` | it is told that one is gone |
/// | `answered N ID QUOTE REFUSAL TIME` | its hit of a quote is refused |
/// | `told FIRM` | the investor was sent what that desk sent |
/// | `without` | the record lacks the last investor |
/// | `more FIRM` | it has a room more of an investor |
/// | `end` | the record ends |
/// | `count FIRM` | answers how many messages a firm was sent |
/// | `due FIRM` | answers what was due to a dealer by the record, or `none` |
/// | `weave` | answers the steps, `malformed`, `cycle` and its actions, or `differs FIRM` |
/// | `woven` | the same, with the number of the steps in place of them |
///
/// An ANSWER is `lifted` or `withdrawn`, and of an event `-` where it asked no word.
#[derive(Drop)]
pub(crate) struct Records {
    venue: Venue,
    dealers: Vec<DealerDay>,
    investors: Vec<InvestorDay>,
    clock: Vec<Action>,
    desk: Option<InvestorDesk>,
    record: Option<DayRecord>,
}

impl Place for Records {
    fn call(&mut self, call: &mut Call<'_>) -> Result<(), CaseFault> {
        match call.name {
            "begin" => self.begin(call.alloc),
            "end" => self.end(call.alloc),
            "count" => self.tell_count(call.words.firm()?, &mut call.answer),
            "due" => self.tell_due(call.alloc, call.words.firm()?, &mut call.answer),
            "weave" | "woven" => self.tell_steps(call),
            _ => self.changes(call),
        }
    }
}

impl Records {
    /// Before the first call.
    pub(crate) fn new(alloc: Global) -> Result<Self, CaseFault> {
        Ok(Records {
            venue: Venue::new(alloc),
            dealers: Vec::new(alloc),
            investors: Vec::new(alloc),
            clock: Vec::new(alloc),
            desk: None,
            record: None,
        })
    }

    /// A call that puts something into the record.
    fn changes(&mut self, call: &mut Call<'_>) -> Result<(), CaseFault> {
        if is_event(call.name) {
            return self.put_event(call);
        }
        match call.name {
            "action" => self.put_action(&mut call.words),
            "at" => self.put_at_desk(&mut call.words),
            "room" => self.put_in_room(&mut call.words),
            "inbox" => self.put_message(call.alloc, &mut call.words),
            "without" => self.leave_out(),
            "more" => self.put_room(call.alloc, call.words.firm()?),
            _ => self.sends(call),
        }
    }

    /// A call about what firms were sent, or one that all places with a venue know.
    fn sends(&mut self, call: &mut Call<'_>) -> Result<(), CaseFault> {
        if comes_to_desk(call.name) {
            return self.come_to_desk(call);
        }
        match call.name {
            "replayed" => self.put_replayed(call.alloc, call.words.firm()?),
            "desk" => self.open_desk(call.alloc, call.words.firm()?),
            "take" => self.take(call.alloc, &mut call.words),
            "told" => self.put_told(call.words.firm()?),
            _ => self.venue.call(call),
        }
    }

    /// A day of the venue in which nothing happens.
    fn begin(&mut self, alloc: Global) -> Result<(), CaseFault> {
        let config = self.venue.config()?;
        for _ in config.dealers() {
            self.dealers.push(empty_dealer(alloc))?;
        }
        for row in config.investors() {
            let day = empty_investor(alloc, row.requests)?;
            self.investors.push(day)?;
        }
        Ok(())
    }

    /// The record ends.
    fn end(&mut self, alloc: Global) -> Result<(), CaseFault> {
        let dealers = replace(&mut self.dealers, Vec::new(alloc));
        let investors = replace(&mut self.investors, Vec::new(alloc));
        let clock = replace(&mut self.clock, Vec::new(alloc));
        self.record = Some(DayRecord::new(dealers, investors, clock));
        Ok(())
    }

    /// The record, where it has ended.
    fn record(&self) -> Result<&DayRecord, CaseFault> {
        self.record.as_ref().ok_or(CaseFault::NotOpen)
    }

    /// The day of a dealer.
    fn dealer(&mut self, firm: u16) -> Result<&mut DealerDay, CaseFault> {
        let Some(day) = self.dealers.get_mut(usize::from(firm)) else {
            return Err(CaseFault::Condition);
        };
        Ok(day)
    }

    /// The day of an investor.
    fn investor(&mut self, firm: u16) -> Result<&mut InvestorDay, CaseFault> {
        let Some(index) = usize::from(firm).checked_sub(self.dealers.len()) else {
            return Err(CaseFault::Condition);
        };
        let Some(day) = self.investors.get_mut(index) else {
            return Err(CaseFault::Condition);
        };
        Ok(day)
    }

    /// Whether this is the number of a dealer.
    fn is_dealer(&self, firm: u16) -> bool {
        usize::from(firm) < self.dealers.len()
    }

    /// An event at a dealer's desk.
    fn put_event(&mut self, call: &mut Call<'_>) -> Result<(), CaseFault> {
        let firm = call.words.firm()?;
        let event: DealerEvent = event_in(call)?;
        self.dealer(firm)?.events.push(event)?;
        Ok(())
    }

    /// `action ACTOR KIND TIME`, and the word and its settlement.
    fn put_action(&mut self, words: &mut Words<'_>) -> Result<(), CaseFault> {
        let by = actor_in(words)?;
        let action = action_in(words)?;
        let Actor::Firm(firm) = by else {
            self.clock.push(action)?;
            return Ok(());
        };
        if self.is_dealer(firm) {
            self.dealer(firm)?.actions.push(action)?;
            return Ok(());
        }
        self.investor(firm)?.actions.push(action)?;
        Ok(())
    }

    /// `at FIRM ACTOR N`.
    fn put_at_desk(&mut self, words: &mut Words<'_>) -> Result<(), CaseFault> {
        let firm = words.firm()?;
        let by = actor_in(words)?;
        let number = words.number()?;
        if self.is_dealer(firm) {
            self.dealer(firm)?.order.push((by, number))?;
            return Ok(());
        }
        self.investor(firm)?.order.push((by, number))?;
        Ok(())
    }

    /// `room FIRM R ACTOR N`.
    fn put_in_room(&mut self, words: &mut Words<'_>) -> Result<(), CaseFault> {
        let firm = words.firm()?;
        let room = words.short_number()?;
        let by = actor_in(words)?;
        let number = words.number()?;
        let Some(index) = (room as usize).checked_sub(1) else {
            return Err(CaseFault::Form);
        };
        let Some(room) = self.investor(firm)?.rooms.get_mut(index) else {
            return Err(CaseFault::Condition);
        };
        room.order.push((by, number))?;
        Ok(())
    }

    /// `inbox FIRM TIME BODY`.
    fn put_message(&mut self, alloc: Global, words: &mut Words<'_>) -> Result<(), CaseFault> {
        let firm = words.firm()?;
        let moment = words.moment()?;
        let bytes = message_of(alloc, words.rest())?;
        let inbound = Inbound { moment, bytes };
        if self.is_dealer(firm) {
            self.dealer(firm)?.inbox.push(inbound)?;
            return Ok(());
        }
        self.investor(firm)?.inbox.push(inbound)?;
        Ok(())
    }

    /// The record lacks the last investor.
    fn leave_out(&mut self) -> Result<(), CaseFault> {
        let Some(_day) = self.investors.pop() else {
            return Err(CaseFault::Condition);
        };
        Ok(())
    }

    /// It has a room more of an investor.
    fn put_room(&mut self, alloc: Global, firm: u16) -> Result<(), CaseFault> {
        let room = empty_room(alloc);
        self.investor(firm)?.rooms.push(room)?;
        Ok(())
    }

    /// The dealer was sent what the steps of the day send it.
    fn put_replayed(&mut self, alloc: Global, firm: u16) -> Result<(), CaseFault> {
        let sent = sent_by_steps(alloc, &self.venue, firm)?;
        self.dealer(firm)?.sent = sent;
        Ok(())
    }

    /// The desk of an investor at the start of the day.
    fn open_desk(&mut self, alloc: Global, firm: u16) -> Result<(), CaseFault> {
        let config = self.venue.config()?;
        if config.investor(firm).is_none() {
            return Err(CaseFault::Condition);
        }
        let desk = InvestorDesk::new(alloc, config, firm)?;
        self.desk = Some(desk);
        Ok(())
    }

    /// `take TIME BODY`.
    fn take(&mut self, alloc: Global, words: &mut Words<'_>) -> Result<(), CaseFault> {
        let moment = words.moment()?;
        let message = message_of(alloc, words.rest())?;
        let Some(desk) = &mut self.desk else {
            return Err(CaseFault::NotOpen);
        };
        let _duty = desk.take(moment, message.as_bytes())?;
        Ok(())
    }

    /// An event comes to the desk.
    fn come_to_desk(&mut self, call: &mut Call<'_>) -> Result<(), CaseFault> {
        let Some(desk) = &mut self.desk else {
            return Err(CaseFault::NotOpen);
        };
        bring(desk, call)
    }

    /// The investor was sent what the desk sent.
    fn put_told(&mut self, firm: u16) -> Result<(), CaseFault> {
        let Some(desk) = self.desk.take() else {
            return Err(CaseFault::NotOpen);
        };
        let (_events, sent, _lines) = desk.into_parts();
        self.investor(firm)?.sent = sent;
        Ok(())
    }

    /// How many messages a firm was sent.
    fn tell_count(&self, firm: u16, answer: &mut String) -> Result<(), CaseFault> {
        let Some(sent) = self.record()?.sent(firm) else {
            return push_line(answer, "none");
        };
        put_count(answer, sent.len(), "messages")
    }

    /// What was due to a dealer.
    fn tell_due(&self, alloc: Global, firm: u16, answer: &mut String) -> Result<(), CaseFault> {
        let config = self.venue.config()?;
        let dues = self.record()?.due(alloc, config, firm)?;
        let Some(dues) = &dues else {
            return push_line(answer, "none");
        };
        let text = due_lines(alloc, dues.as_slice())?;
        put_text(answer, text.as_slice())
    }

    /// The steps of the day, or how many there are; or why there are none.
    fn tell_steps(&self, call: &mut Call<'_>) -> Result<(), CaseFault> {
        let config = self.venue.config()?;
        let woven = weave(call.alloc, config, self.record()?);
        match &woven {
            Ok(steps) => put_woven(call, steps.as_slice()),
            Err(fault) => put_weave_fault(call.alloc, &mut call.answer, fault),
        }
    }
}

/// The steps that a day is woven into, or how many there are.
fn put_woven(call: &mut Call<'_>, steps: &[Step]) -> Result<(), CaseFault> {
    if call.name == "woven" {
        return put_count(&mut call.answer, steps.len(), "steps");
    }
    put_steps(&mut call.answer, steps)
}

/// Why a day is not woven.
fn put_weave_fault(
    alloc: Global,
    answer: &mut String,
    fault: &WeaveFault,
) -> Result<(), CaseFault> {
    match fault {
        WeaveFault::Malformed => push_line(answer, "malformed"),
        WeaveFault::Cycle(actions) => put_cycle(alloc, answer, actions.as_slice()),
        WeaveFault::Differs(firm) => {
            writeln!(answer, "differs {firm}")?;
            Ok(())
        }
        WeaveFault::Memory => Err(CaseFault::Memory),
    }
}

/// `KIND TIME`, and the word and its settlement.
fn action_in(words: &mut Words<'_>) -> Result<Action, CaseFault> {
    let kind = kind_in(words)?;
    let moment = words.moment()?;
    let word = word_in(words)?;
    Ok(Action { kind, moment, word })
}

/// The word that an action asked, and its settlement, where the call goes on.
fn word_in(words: &mut Words<'_>) -> Result<Option<(u32, quote_word::Settled)>, CaseFault> {
    if words.is_at_end() {
        return Ok(None);
    }
    let word = words.short_number()?;
    let settled = settled(words)?;
    Ok(Some((word, settled)))
}

/// What the steps of a day send a dealer.
fn sent_by_steps(alloc: Global, venue: &Venue, firm: u16) -> Result<Vec<SentMessage>, CaseFault> {
    let config = venue.config()?;
    let Some(row) = config.dealer(firm) else {
        return Err(CaseFault::Condition);
    };
    let Ok(dues) = due(alloc, config, venue.steps.as_slice(), firm) else {
        return Err(CaseFault::Condition);
    };
    let sent = alone(alloc, config.date(), row, dues.as_slice())?;
    Ok(sent)
}
