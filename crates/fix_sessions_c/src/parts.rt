//! Whose session it is, and the bytes of a turn.
ghost use Rattle.std.specs.Prelude.{◌≡◌, ◌++◌, IfOk, IfSome};
ghost use Rattle.fix_sessions_c.specs.Told as spec;

use crate::told::{is_kept, is_leaving};
use fix_fields::{Date, Memory, Moment};
use fix_sessions::{Clock, Denial, Names, Said, Text, Turn, keep, write};
use std::alloc::Global;

/// Whose session it is, and when.
#[derive(Debug, Drop)]
pub(crate) struct Setting<'a> {
    /// The names.
    pub(crate) names: Names<'a>,
    /// The day.
    pub(crate) date: Date,
    /// The moment.
    pub(crate) moment: Moment,
}

impl<'a> Setting<'a> {
    ghost use Rattle.std.specs.Prelude.{◌≡◌, IfSome};
    ghost use Rattle.fix_sessions_c.specs.Told as spec;

    /// The setting that C names: none where an argument is none.
    pub(crate) fn new(
        firm: &'a [u8],
        venue: &'a [u8],
        desk: &'a [u8],
        date: &[u8],
        moment: u32,
    ) -> Option<Setting<'a>>
        ensures names { IfSome result (λ s. spec.AreNamed firm.now venue.now desk.now s.names) }
        ensures date { IfSome result (λ s. s.date ≡ date.now) }
        ensures moment { IfSome result (λ s. s.moment ≡ moment) }
    {
        let firm = Text::new(firm)?;
        let venue = Text::new(venue)?;
        let names = Names::new(firm, venue, Text::new(desk))?;
        let date = Date::new(date)?;
        let moment = Moment::new(moment)?;
        Some(Setting {
            names,
            date,
            moment,
        })
    }

    /// Its clock.
    pub(crate) fn clock(&self) -> Clock
        ensures { spec.IsClock self.now.date self.now.moment result }
    {
        Clock::new(&self.date, self.moment)
    }
}

/// The longest text that the gateway gives, in bytes.
pub(crate) const MOST_SAID: usize = 200;

/// A text of the gateway's: none where it is empty or too long, or has SOH.
pub(crate) fn said_text(bytes: &[u8]) -> Option<Text<'_>>
    ensures { IfSome result (λ text. spec.IsSaid bytes.now text) }
{
    if bytes.len() > MOST_SAID {
        return None;
    }
    Text::new(bytes)
}

/// What the gateway says of a message that it does not take, and nothing where it takes it: none where
/// an argument is none.
#[tactic(auto, using(crate::proofs::ToldLemmas::empty_is))]
pub(crate) fn denial_of<'a>(
    is_denied: bool,
    reason: u64,
    id: &'a [u8],
    text: &'a [u8],
) -> Option<Option<Denial<'a>>>
    ensures { IfSome result (λ denial. spec.IsDenial is_denied reason id.now text.now denial) }
{
    if !is_denied {
        return Some(None);
    }
    let text = said_text(text)?;
    if id.is_empty() {
        return Some(Some(Denial {
            reason,
            id: None,
            text,
        }));
    }
    let id = said_text(id)?;
    Some(Some(Denial {
        reason,
        id: Some(id),
        text,
    }))
}

/// The bytes of a turn.
#[derive(Debug, Drop)]
pub(crate) struct Parts {
    /// What leaves first.
    pub(crate) first: Vec<u8>,
    /// What leaves behind it.
    pub(crate) second: Vec<u8>,
    /// What is kept.
    pub(crate) kept: Vec<u8>,
}

/// The frame of a message, where it leaves.
fn sent_bytes(alloc: Global, setting: &Setting, said: &Option<Said>) -> Result<Vec<u8>, Memory>
    ensures { IfOk result (λ bytes. bytes.items ≡ spec.sent_bytes setting.now.names setting.now.date setting.now.moment said.now) }
{
    let Some(said) = said else {
        return Ok(Vec::new(alloc));
    };
    if !is_leaving(said.way) {
        return Ok(Vec::new(alloc));
    }
    write(alloc, &setting.names, &setting.date, setting.moment, said)
}

/// The frame that is kept of a message, where it is.
fn kept_bytes(alloc: Global, said: &Option<Said>) -> Result<Vec<u8>, Memory>
    ensures { IfOk result (λ bytes. bytes.items ≡ spec.kept_bytes said.now) }
{
    let Some(said) = said else {
        return Ok(Vec::new(alloc));
    };
    if !is_kept(said.way) {
        return Ok(Vec::new(alloc));
    }
    keep(alloc, &said.word)
}

/// The bytes of a turn.
pub(crate) fn parts_of(alloc: Global, setting: &Setting, turn: &Turn) -> Result<Parts, Memory>
    ensures first { IfOk result (λ parts. parts.first.items ≡ spec.sent_bytes setting.now.names setting.now.date setting.now.moment turn.now.first) }
    ensures second { IfOk result (λ parts. parts.second.items ≡ spec.sent_bytes setting.now.names setting.now.date setting.now.moment turn.now.second) }
    ensures kept { IfOk result (λ parts. parts.kept.items ≡ spec.kept_bytes turn.now.first) }
{
    let first = sent_bytes(alloc, setting, &turn.first)?;
    let second = sent_bytes(alloc, setting, &turn.second)?;
    let kept = kept_bytes(alloc, &turn.first)?;
    Ok(Parts {
        first,
        second,
        kept,
    })
}

/// The bytes of a turn, one behind the other.
pub(crate) fn joined(alloc: Global, parts: &Parts) -> Result<Vec<u8>, Memory>
    ensures { IfOk result (λ all. all.items ≡ parts.now.first.items ++ parts.now.second.items ++ parts.now.kept.items) }
{
    let mut all = Vec::new(alloc);
    all.extend_from_slice(&parts.first)?;
    all.extend_from_slice(&parts.second)?;
    all.extend_from_slice(&parts.kept)?;
    Ok(all)
}
