//! Streams of bytes that are cut into messages.
ghost use Rattle.std.specs.Prelude.{◌≡◌, ◌<◌, ◌≤◌, ◌==◌, ◌⊎◌, [], ◌∷◌, length, take, map, Ok, Err};
ghost use Rattle.std.specs.Prelude.{vec_capacity, IfOk, IfErr, OnErr};
ghost use Rattle.fix_fields.specs.Envelope.{front_of as front, cut_behind};
ghost use Rattle.fix_fields.specs.Envelope.Front.{Begun};
ghost use Rattle.fix_fields.specs.Scan.{texts_of, cutting, cut_on, rest_of, IsKept};
ghost use Rattle.fix_fields.specs.declared.fault.StreamFault.{StreamFault};

use crate::Memory;
use crate::fault::StreamFault;
use crate::fronts::{Found, front_of};
use crate::limits::MOST_FRAME;
use std::alloc::Global;
use std::marker::Model;

/// Messages that were cut out of a stream, first to last. A contract sees the list of their bytes.
#[derive(Drop)]
pub struct Messages {
    list: Vec<Vec<u8>>,
}

impl Model for Messages {
    ghost use Rattle.std.specs.Prelude.{List, ℕ, map};

    ghost Value = { List (List ℕ) };

    ghost view = { λ messages. map (λ message. message.items) messages.list.items };
}

impl Messages {
    /// The messages of a list. It takes no memory.
    pub fn new(list: Vec<Vec<u8>>) -> Messages
        ensures { result ≡ map (λ message. message.items) list.items }
    {
        Messages { list }
    }

    /// The messages as the list that they are kept in. It takes no memory.
    pub fn into_vec(self) -> Vec<Vec<u8>>
        ensures { map (λ message. message.items) result.items ≡ self }
    {
        self.list
    }

    /// How many there are.
    pub fn len(&self) -> usize
        ensures { result ≡ length self.now }
    {
        self.list.len()
    }

    /// Whether there are none.
    pub fn is_empty(&self) -> bool
        ensures { result ≡ (length self.now == 0) }
    {
        self.list.is_empty()
    }
}

/// Cuts a stream of bytes into messages, in whatever pieces the bytes come. A contract sees the
/// bytes behind the last message, or the fault that they have.
#[derive(Drop)]
pub struct Splitter {
    kept: Vec<u8>,
    wait: usize,
    fault: Option<StreamFault>,
}

impl Model for Splitter {
    ghost use Rattle.std.specs.Prelude.{List, ℕ, Result};
    ghost use Rattle.fix_fields.specs.declared.fault.StreamFault.{StreamFault};
    ghost use Rattle.fix_fields.specs.Scan.{rest_of, IsKept};

    ghost Value = { Result (List ℕ) StreamFault };

    ghost view = { λ splitter. rest_of splitter.fault splitter.kept.items };

    ghost invariant = { λ splitter. IsKept splitter.fault splitter.wait splitter.kept.items };
}

impl Splitter {
    /// The splitter of a stream of which no byte came yet. It takes no memory.
    pub fn new(alloc: Global) -> Splitter
        ensures { result ≡ Ok [] }
    {
        Splitter {
            kept: Vec::new(alloc),
            wait: 0,
            fault: None,
        }
    }

    /// Takes the next piece of the stream, and gives the messages that it ends. The bytes of a
    /// message that has begun are kept for the next call, and no others. A fault is answered from
    /// the next call on, for ever. After [`StreamFault::Memory`] the splitter is as before, and the
    /// same piece may be fed again.
    pub fn feed(&mut self, piece: &[u8]) -> Result<Messages, StreamFault>
        // The messages are those that the piece is cut into behind what came before it.
        ensures ok { IfOk result (λ messages. let now = cut_behind self.old piece.now in
            (messages ≡ now.messages) × (self.new ≡ now.rest)) }
        ensures stands { (fault : StreamFault) → self.old ≡ Err fault → result ≡ Err fault }
        ensures err { IfErr result (λ fault. (self.new ≡ self.old)
            × ((fault ≡ StreamFault.Memory) ⊎ (self.old ≡ Err fault))) }
    {
        if let Some(fault) = self.fault {
            return Err(fault);
        }
        if self.kept.len() + piece.len() < self.wait {
            let alloc = *self.kept.allocator();
            self.kept.extend_from_slice(piece)?;
            return Ok(Messages::new(Vec::new(alloc)));
        }
        let cut = cut_piece(&mut self.kept, piece)?;
        self.wait = cut.wait;
        self.fault = cut.fault;
        Ok(Messages::new(cut.messages))
    }
}

/// What a piece was cut into.
#[derive(Drop)]
struct Cut {
    messages: Vec<Vec<u8>>,
    wait: usize,
    fault: Option<StreamFault>,
}

/// Cuts a piece behind bytes that are kept, and keeps the rest in their place. It first joins them
/// with as many of the piece as the longest message has.
fn cut_piece(kept: &mut Vec<u8>, piece: &[u8]) -> Result<Cut, Memory>
    requires begun { front kept.old.items ≡ Begun }
    requires short { length kept.old.items < MOST_FRAME }
    ensures ok { IfOk result (λ cut. (cut_on [] (Ok kept.old.items) piece.now
        ≡ cutting (texts_of cut.messages) (rest_of cut.fault kept.new.items))
        × IsKept cut.fault cut.wait kept.new.items) }
    ensures err { OnErr result (kept.new.items ≡ kept.old.items) }
{
    let alloc = *kept.allocator();
    let old = kept.len();
    let room = MOST_FRAME - old;
    kept.reserve(room)?;
    let joined = room.min(piece.len());
    kept.extend_from_slice(&piece[..joined])?;
    match front_of(kept) {
        Found::Begun(wait) => Ok(Cut {
            messages: Vec::new(alloc),
            wait,
            fault: None,
        }),
        Found::Faulty(fault) => Ok(Cut {
            messages: Vec::new(alloc),
            wait: 0,
            fault: Some(fault),
        }),
        Found::Message(len) => put_messages(kept, old, len, &piece[len - old..]),
    }
}

/// Cuts the bytes behind the first message, which is the first `len` of those that are kept, and
/// keeps the rest in their place; without memory those that were there before.
fn put_messages(kept: &mut Vec<u8>, old: usize, len: usize, behind: &[u8]) -> Result<Cut, Memory>
    requires inside { len ≤ length kept.old.items }
    requires room { MOST_FRAME ≤ vec_capacity kept.old }
    ensures ok { IfOk result (λ cut. (cut_on (take len kept.old.items ∷ []) (Ok []) behind.now
        ≡ cutting (texts_of cut.messages) (rest_of cut.fault kept.new.items))
        × IsKept cut.fault cut.wait kept.new.items) }
    ensures err { OnErr result (kept.new.items ≡ take old kept.old.items) }
{
    let alloc = *kept.allocator();
    let Ok(cut) = cut_messages(alloc, &kept[..len], behind) else {
        kept.truncate(old);
        return Err(Memory);
    };
    kept.clear();
    kept.extend_from_slice(cut.rest)?;
    Ok(Cut {
        messages: cut.messages,
        wait: cut.wait,
        fault: cut.fault,
    })
}

/// What bytes were cut into, and the bytes behind the last message.
#[derive(Drop)]
struct CutBytes<'a> {
    messages: Vec<Vec<u8>>,
    rest: &'a [u8],
    wait: usize,
    fault: Option<StreamFault>,
}

/// Cuts bytes behind a message.
fn cut_messages<'a>(alloc: Global, message: &[u8], bytes: &'a [u8]) -> Result<CutBytes<'a>, Memory>
    ensures cut { IfOk result (λ cut. cut_on (message.now ∷ []) (Ok []) bytes.now
        ≡ cutting (texts_of cut.messages) (rest_of cut.fault cut.rest.now)) }
    ensures kept { IfOk result (λ cut. IsKept cut.fault cut.wait cut.rest.now) }
    ensures fits { IfOk result (λ cut. length cut.rest.now ≤ MOST_FRAME) }
{
    let mut messages = Vec::new(alloc);
    messages.push(Vec::from_slice(alloc, message)?)?;
    let mut rest = bytes;
    loop {
        match front_of(rest) {
            Found::Begun(wait) => {
                return Ok(CutBytes {
                    messages,
                    rest,
                    wait,
                    fault: None,
                });
            }
            Found::Faulty(fault) => {
                return Ok(CutBytes {
                    messages,
                    rest: &[],
                    wait: 0,
                    fault: Some(fault),
                });
            }
            Found::Message(len) => {
                messages.push(Vec::from_slice(alloc, &rest[..len])?)?;
                rest = &rest[len..];
            }
        }
    }
}
