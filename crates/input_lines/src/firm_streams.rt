//! What was heard of the firms, line by line.
ghost use Rattle.std.specs.Prelude.{◌≡◌, ◌≢◌, ◌≤◌, ◌+◌, ◌++◌, List, ℕ, Some, Ok, Err, map};
ghost use Rattle.std.specs.Prelude.{◌↔◌, IfOk, IfErr, IsErr, OnOk, OnErr};
ghost use Rattle.std.specs.List.{concat};
ghost use Rattle.fix_fields.specs.Envelope.{cut_behind, envelopes_of};
ghost use Rattle.input_lines.specs.StepLines as spec;
ghost use Rattle.input_lines.specs.StepReading.{messages_if, whole_cut, whole_messages};

use crate::faults::ProgramFault;
use fix_fields::{Memory, Messages, Splitter, StreamFault, envelopes_of_is_the_cutting};
use std::alloc::Global;
use std::marker::Model;

/// The greatest number of a firm's next `say` line. So many lines ask for more memory than any
/// machine has, so a caller can't tell this limit from memory that is refused.
const MOST_SAID: u64 = 1_000_000_000_000_000;

/// The bytes of a firm's pieces behind the last message that they end.
#[derive(Drop)]
struct Kept {
    bytes: Vec<u8>,
}

impl Model for Kept {
    ghost use Rattle.std.specs.Prelude.{List, ℕ};

    ghost Value = { List ℕ };

    ghost view = { λ kept. kept.bytes.items };
}

impl Kept {
    /// What a piece behind these bytes is cut into, or none where it has a fault: the messages, and
    /// the bytes behind them.
    fn cut(&self, piece: &[u8]) -> Result<Option<(Messages, Kept)>, Memory>
        ensures { IfOk result (λ cut. cut ≡ whole_cut (envelopes_of (self.now ++ piece.now))) }
    {
        let alloc = *self.bytes.allocator();
        let mut bytes = Vec::from_slice(alloc, &self.bytes)?;
        bytes.extend_from_slice(piece)?;
        let cut = cut_bytes(alloc, bytes.as_slice())?;
        Ok(cut)
    }
}

/// What was heard of the firms, each at its number.
#[derive(Drop)]
pub struct Heard {
    numbers: Vec<u64>,
    streams: Vec<Kept>,
}

impl Model for Heard {
    ghost use Rattle.input_lines.specs.StepLines.{Heard};

    ghost Value = { Heard };

    ghost view = { λ heard. record {
      numbers = heard.numbers.items;
      streams = heard.streams.items;
    } };
}

impl Heard {
    /// Nothing of so many firms. It fails for memory alone.
    pub fn nothing(alloc: Global, firms: usize) -> Result<Self, Memory>
        ensures { IfOk result (λ heard. heard ≡ spec.nothing_heard firms) }
    {
        let mut numbers = Vec::new(alloc);
        let mut streams = Vec::new(alloc);
        for _ in 0..firms {
            numbers.push(1)?;
            streams.push(Kept {
                bytes: Vec::new(alloc),
            })?;
        }
        Ok(Heard { numbers, streams })
    }

    /// The number of a firm's next `say` line.
    pub(crate) fn number_for(&self, firm: Option<u16>) -> u64
        ensures { result ≡ spec.number_for self.now firm }
    {
        let Some(firm) = firm else {
            return 1;
        };
        let Some(number) = self.numbers.get(usize::from(firm)) else {
            return 0;
        };
        *number
    }

    /// Counts a `say` line of a firm. It takes no memory. Where the line's number is 10^15, and
    /// nowhere else, it is refused, and then nothing was counted.
    pub(crate) fn count(&mut self, firm: u16) -> Result<(), Memory>
        ensures counts { OnOk result (self.new
            ≡ spec.with_number self.old firm (spec.number_for self.old (Some firm) + 1)) }
        ensures refused { IsErr result
            ↔ (1000000000000000 ≤ spec.number_for self.old (Some firm)) }
        ensures uncounted { OnErr result (self.new ≡ self.old) }
    {
        let Some(number) = self.numbers.get_mut(usize::from(firm)) else {
            return Ok(());
        };
        if *number >= MOST_SAID {
            return Err(Memory);
        }
        *number += 1;
        Ok(())
    }

    /// The messages that end in a piece of a firm's stream. Where it has a fault with the piece,
    /// nothing was heard.
    pub(crate) fn feed(
        &mut self,
        line: usize,
        firm: u16,
        piece: &[u8],
    ) -> Result<Messages, ProgramFault>
        ensures ok { IfOk result (λ messages.
            spec.cut_for self.old line firm piece.now ≡ Ok (messages, self.new)) }
        ensures err { IfErr result (λ fault. fault ≢ ProgramFault.Memory
            → spec.cut_for self.old line firm piece.now ≡ Err fault) }
        ensures unheard { OnErr result (self.new ≡ self.old) }
        ensures unwritten { IfErr result (λ fault. fault ≢ ProgramFault.Write) }
        ensures numbers { OnOk result (self.new.numbers ≡ self.old.numbers) }
    {
        let Some(stream) = self.streams.get_mut(usize::from(firm)) else {
            return Err(ProgramFault::UnknownFirm { line });
        };
        let Some(cut) = stream.cut(piece)? else {
            return Err(ProgramFault::Stream { line });
        };
        *stream = cut.1;
        Ok(cut.0)
    }
}

/// What bytes are cut into, or none where they have a fault: the messages, and the bytes behind them.
#[tactic(auto, using(crate::proofs::StreamLemmas::cut_found, crate::proofs::StreamLemmas::none_found))]
fn cut_bytes(alloc: Global, bytes: &[u8]) -> Result<Option<(Messages, Kept)>, Memory>
    ensures { IfOk result (λ cut. cut ≡ whole_cut (envelopes_of bytes.now)) }
{
    envelopes_of_is_the_cutting();
    let Some(messages) = messages_in(alloc, bytes)? else {
        return Ok(None);
    };
    let list = messages.into_vec();
    let behind = Vec::from_slice(alloc, behind_all(bytes, list.as_slice()))?;
    Ok(Some((Messages::new(list), Kept { bytes: behind })))
}

/// The messages that bytes are cut into, or none where these have a fault.
#[tactic(auto, unfolding(fix_fields::specs::Envelope::envelopes_of))]
fn messages_in(alloc: Global, bytes: &[u8]) -> Result<Option<Messages>, Memory>
    ensures { IfOk result (λ messages. messages ≡ whole_messages (envelopes_of bytes.now)) }
{
    let mut splitter = Splitter::new(alloc);
    let messages = feed_whole(&mut splitter, bytes)?;
    Ok(messages)
}

/// What stands behind messages at the front of bytes.
fn behind_all<'a>(bytes: &'a [u8], messages: &[Vec<u8>]) -> &'a [u8]
    ensures { (behind : List ℕ)
        → bytes.entry.now ≡ concat (map (λ message. message.items) messages.now) ++ behind
        → result.now ≡ behind }
{
    let mut rest = bytes;
    for message in messages {
        rest = &rest[message.len().min(rest.len())..];
    }
    rest
}

/// The messages that end in a piece, or none where the stream has a fault with it.
fn feed_whole(stream: &mut Splitter, piece: &[u8]) -> Result<Option<Messages>, Memory>
    ensures messages { IfOk result (λ messages.
        messages ≡ whole_messages (cut_behind stream.old piece.now)) }
    ensures rest { OnOk result (stream.new ≡ (cut_behind stream.old piece.now).rest) }
{
    let Some(messages) = feed_once(stream, piece)? else {
        return Ok(None);
    };
    // A fault is answered by the next call alone.
    let Some(_) = feed_once(stream, &[])? else {
        return Ok(None);
    };
    Ok(Some(messages))
}

/// The messages that end in a piece, or none where the stream had a fault before it.
fn feed_once(stream: &mut Splitter, piece: &[u8]) -> Result<Option<Messages>, Memory>
    ensures messages { IfOk result (λ messages.
        messages ≡ messages_if stream.old (cut_behind stream.old piece.now).messages) }
    ensures rest { OnOk result (stream.new ≡ (cut_behind stream.old piece.now).rest) }
{
    let fault = match stream.feed(piece) {
        Ok(messages) => return Ok(Some(messages)),
        Err(fault) => fault,
    };
    if fault == StreamFault::Memory {
        return Err(Memory);
    }
    Ok(None)
}
