//! What the session makes of bytes that came from a firm.
ghost use Rattle.std.specs.Prelude.{◌≡◌, ◌+◌, ◌<◌, ◌^◌, IsTrue, is_some, option_and_then};
ghost use Rattle.fix_fields.specs.Frame.{frame_of, value_of};
ghost use Rattle.venue_rows.specs.Texts.{text_if};
ghost use Rattle.quote_messages.specs.Texts.{is_msg_type};
ghost use Rattle.quote_messages.specs.Arrivals as spec;
ghost use Rattle.quote_messages.specs.Turns as turns;
ghost use Rattle.quote_messages.specs.Arrivals.{dealer_arrival, investor_arrival, sequence_number};
ghost use Rattle.quote_messages.specs.Arrivals.{numbered, reject_of, out_of_sequence};
ghost use Rattle.quote_messages.specs.SessionChecks.{dealer_session_verdict};
ghost use Rattle.quote_messages.specs.SessionChecks.{investor_session_verdict};

use crate::dealer_checks::judge_dealer;
use crate::investor_checks::judge_investor;
use crate::slots::FieldSlots;
use crate::tag_reading::fault;
use crate::{
    DealerMessage, InvestorMessage, MsgType, Reject, SeqNum, SessionFault, SessionRejectReason,
};
use fix_fields::{Date, known_frame, read_frame};
use venue_rows::{DealerRow, InvestorRow};

/// What becomes of bytes that came from a firm, before the market looks at them.
#[derive(Drop)]
pub enum Arrival<'a, M: Drop> {
    /// The bytes are no frame, or have no readable MsgSeqNum (34): nothing is sent, and no number
    /// is used up.
    Dropped,
    /// MsgSeqNum (34) is not the expected one, which stays: the Reject (35=3) that answers.
    OutOfSequence(Reject<'a>),
    /// The message used up its number and met a session fault: the Reject (35=3) that answers.
    Rejected(Reject<'a>),
    /// The message used up its number, and says this.
    Taken(M),
}

/// What becomes of bytes that came from a dealer, whose next expected MsgSeqNum (34) is this.
#[tactic(auto, unfolding(crate::specs::Arrivals::dealer_arrival))]
pub fn receive_dealer<'a>(
    date: &Date,
    row: &DealerRow,
    expected: u64,
    bytes: &'a [u8],
) -> Arrival<'a, DealerMessage<'a>>
    ensures exact { result ≡ dealer_arrival date.now row.now expected bytes.now }
{
    let Ok(frame) = read_frame(bytes) else {
        return Arrival::Dropped;
    };
    let message = FieldSlots::of(&frame);
    let arrival = framed_dealer(date, row, expected, &message);
    arrival
}

/// The same of bytes that are known to be a frame: that is not tested again.
#[tactic(auto, unfolding(crate::specs::Arrivals::dealer_arrival))]
pub fn receive_dealer_frame<'a>(
    date: &Date,
    row: &DealerRow,
    expected: u64,
    bytes: &'a [u8],
) -> Arrival<'a, DealerMessage<'a>>
    requires { IsTrue (is_some (frame_of bytes.now)) }
    ensures exact { result ≡ dealer_arrival date.now row.now expected bytes.now }
{
    let frame = known_frame(bytes);
    let message = FieldSlots::of(&frame);
    let arrival = framed_dealer(date, row, expected, &message);
    arrival
}

/// The same of a frame whose fields were gone over.
#[inline(always)]
#[tactic(auto, using(crate::proofs::TurnLemmas::by_number))]
fn framed_dealer<'a>(
    date: &Date,
    row: &DealerRow,
    expected: u64,
    message: &FieldSlots<'a>,
) -> Arrival<'a, DealerMessage<'a>>
    ensures { result ≡ numbered expected message.now (sequence_number message.now)
        (dealer_session_verdict date.now row.now message.now) }
{
    match turn_of(expected, message) {
        Turn::Dropped => Arrival::Dropped,
        Turn::OutOfSequence(reject) => Arrival::OutOfSequence(reject),
        Turn::InSequence(number) => {
            in_sequence(message, number, judge_dealer(date, row, message))
        }
    }
}

/// What becomes of bytes that came from an investor, whose next expected MsgSeqNum (34) is this.
#[tactic(auto, unfolding(crate::specs::Arrivals::investor_arrival))]
pub fn receive_investor<'a>(
    date: &Date,
    row: &InvestorRow,
    expected: u64,
    bytes: &'a [u8],
) -> Arrival<'a, InvestorMessage<'a>>
    ensures exact { result ≡ investor_arrival date.now row.now expected bytes.now }
{
    let Ok(frame) = read_frame(bytes) else {
        return Arrival::Dropped;
    };
    let message = FieldSlots::of(&frame);
    let arrival = framed_investor(date, row, expected, &message);
    arrival
}

/// The same of a frame whose fields were gone over.
#[inline(always)]
#[tactic(auto, using(crate::proofs::TurnLemmas::by_number))]
fn framed_investor<'a>(
    date: &Date,
    row: &InvestorRow,
    expected: u64,
    message: &FieldSlots<'a>,
) -> Arrival<'a, InvestorMessage<'a>>
    ensures { result ≡ numbered expected message.now (sequence_number message.now)
        (investor_session_verdict date.now row.now message.now) }
{
    match turn_of(expected, message) {
        Turn::Dropped => Arrival::Dropped,
        Turn::OutOfSequence(reject) => Arrival::OutOfSequence(reject),
        Turn::InSequence(number) => {
            in_sequence(message, number, judge_investor(date, row, message))
        }
    }
}

/// Whether it is the turn of a message that came: it has the expected MsgSeqNum (34).
#[derive(Drop)]
pub(crate) enum Turn<'a> {
    /// The message has no readable MsgSeqNum.
    Dropped,
    /// MsgSeqNum is not the expected one.
    OutOfSequence(Reject<'a>),
    /// It is the message's turn, by this MsgSeqNum.
    InSequence(SeqNum<'a>),
}

/// Whether it is the turn of a message, where this MsgSeqNum (34) is expected.
#[inline(always)]
fn turn_of<'a>(expected: u64, message: &FieldSlots<'a>) -> Turn<'a>
    ensures { result ≡ turns.turn_of expected message.now }
{
    let Some(number) = sequence_number(message) else {
        return Turn::Dropped;
    };
    if number.get() != expected {
        return Turn::OutOfSequence(reject_of(message, number, out_of_sequence()));
    }
    Turn::InSequence(number)
}

/// What becomes of a message in its turn: it met a session fault, or says this.
fn in_sequence<'a, M: Drop>(
    message: &FieldSlots<'a>,
    number: SeqNum<'a>,
    read: Result<M, SessionFault>,
) -> Arrival<'a, M>
    ensures { result ≡ spec.in_sequence message.now number.entry read }
{
    match read {
        Ok(said) => Arrival::Taken(said),
        Err(fault) => Arrival::Rejected(reject_of(message, number, fault)),
    }
}

/// The MsgSeqNum (34) that is expected of a firm when so many of its messages have used up theirs.
pub fn expected_number(used: u64) -> u64
    requires { used + 1 < 2 ^ 64 }
    ensures { result ≡ spec.expected_number used }
{
    used + 1
}

/// MsgSeqNum (34), where it stands once and is readable.
fn sequence_number<'a>(message: &FieldSlots<'a>) -> Option<SeqNum<'a>>
    ensures { result ≡ sequence_number message.now }
{
    let slot = message.at(34);
    let value = slot.first?;
    if slot.is_repeated {
        return None;
    }
    SeqNum::new(value)
}

/// What a Reject says of a message with this MsgSeqNum.
fn reject_of<'a>(message: &FieldSlots<'a>, number: SeqNum<'a>, fault: SessionFault) -> Reject<'a>
    ensures { result ≡ reject_of message.now number.entry fault }
{
    Reject {
        number,
        fault,
        msg_type: msg_type(message),
    }
}

/// MsgType (35), where it may stand in a Reject.
fn msg_type<'a>(message: &FieldSlots<'a>) -> Option<MsgType<'a>>
    ensures { result ≡ option_and_then (text_if is_msg_type) (value_of 35 message.now) }
{
    let value = message.at(35).first?;
    MsgType::new(value)
}

/// The fault of a message that is out of sequence.
fn out_of_sequence() -> SessionFault
    ensures { result ≡ out_of_sequence }
{
    fault(34, SessionRejectReason::ValueIncorrect)
}
