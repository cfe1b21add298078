//! Pieces of one firm's stream as its messages.
ghost use Rattle.std.specs.Prelude.{◌≡◌, ◌++◌, IfOk, OnOk};
ghost use Rattle.std.specs.Result.{result_err};
ghost use Rattle.fix_fields.specs.Envelope.{cut_behind};
ghost use Rattle.day_checks.specs.Inbox as spec;

use fix_fields::{Memory, Messages, Moment, Splitter, StreamFault};
use quote_messages::Message;
use recorded_days::Inbound;
use std::alloc::Global;

/// The messages that pieces of one firm's stream bring, first to last, each at the moment of the
/// piece that ends it, and the fault of the stream, where it has one: the messages are those before
/// it. Bytes behind the last message that end none are left out. It fails for memory alone.
pub fn inbox_of(
    alloc: Global,
    pieces: &[Inbound],
) -> Result<(Vec<Inbound>, Option<StreamFault>), Memory>
    ensures messages { IfOk result (λ inbox.
        inbox.0.items ≡ (spec.arrivals_of pieces.now).messages) }
    ensures fault { IfOk result (λ inbox. inbox.1 ≡ (spec.arrivals_of pieces.now).fault) }
{
    let mut stream = Splitter::new(alloc);
    let mut inbox = Vec::new(alloc);
    let mut rest = pieces;
    while let Some((piece, later)) = rest.split_first() {
        take_piece(&mut inbox, &mut stream, piece)?;
        rest = later;
    }
    let fault = fault_of(&mut stream)?;
    Ok((inbox, fault))
}

/// Puts the messages that a piece ends behind the others.
fn take_piece(
    inbox: &mut Vec<Inbound>,
    stream: &mut Splitter,
    piece: &Inbound,
) -> Result<(), Memory>
    ensures messages { OnOk result (inbox.new.items ≡ inbox.old.items
        ++ spec.ended_at piece.now.moment (cut_behind stream.old piece.now.bytes).messages) }
    ensures rest { OnOk result (stream.new ≡ (cut_behind stream.old piece.now.bytes).rest) }
{
    let fault = match stream.feed(piece.bytes.as_bytes()) {
        Ok(messages) => {
            push_messages(inbox, piece.moment, messages)?;
            return Ok(());
        }
        Err(fault) => fault,
    };
    if fault == StreamFault::Memory {
        return Err(Memory);
    }
    Ok(())
}

/// Puts messages that came at this moment behind others.
fn push_messages(inbox: &mut Vec<Inbound>, moment: Moment, messages: Messages) -> Result<(), Memory>
    ensures { OnOk result
        (inbox.new.items ≡ inbox.old.items ++ spec.ended_at moment messages) }
{
    for bytes in messages.into_vec() {
        inbox.push(Inbound {
            moment,
            bytes: Message::new(bytes),
        })?;
    }
    Ok(())
}

/// The fault of a stream, which an empty piece finds.
fn fault_of(stream: &mut Splitter) -> Result<Option<StreamFault>, Memory>
    ensures { IfOk result (λ fault. fault ≡ result_err stream.old) }
{
    let Err(fault) = stream.feed(&[]) else {
        return Ok(None);
    };
    if fault == StreamFault::Memory {
        return Err(Memory);
    }
    Ok(Some(fault))
}
