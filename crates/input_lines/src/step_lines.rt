//! The lines of steps: what each spells.
ghost use Rattle.std.specs.Prelude.{◌≡◌, ◌≢◌, true, Ok, Err, IfOk, IfErr, IfSome, OnOk, OnErr};
ghost use Rattle.quote_messages.specs.Texts.{number_of};
ghost use Rattle.venue_rows.specs.Rows.{values_of};
ghost use Rattle.input_lines.specs.StepLines as spec;
ghost use Rattle.input_lines.specs.StepReading.{read_as, is_known, is_actor};

use crate::faults::ProgramFault;
use crate::firm_streams::Heard;
use crate::frame_lines::{read_hexed, read_received};
use crate::line_steps::Spelled;
use crate::parts::{cut_part, read_time, same_text};
use crate::say_made::made_by;
use crate::venue_parts::{firm_of, is_room};
use quote_messages::{RoomRef, read_number};
use std::alloc::Global;
use step_replay::Actor;
use venue_rows::VenueConfig;

/// How many turns a line asks for at most.
pub const MOST_TURNS: u64 = 1_000;

/// What a line spells, by its keyword, or its fault ([`ProgramFault::Form`],
/// [`ProgramFault::UnknownFirm`], [`ProgramFault::UnknownRoom`] or [`ProgramFault::Stream`]);
/// memory may be refused at any point. After a fault nothing was heard.
pub fn read_line(
    alloc: Global,
    config: &VenueConfig,
    heard: &mut Heard,
    line: usize,
    text: &[u8],
) -> Result<Spelled, ProgramFault>
    ensures ok { IfOk result (λ spelled. spec.steps_of_line (values_of config.now) heard.old line
        text.now ≡ read_as (values_of config.now) spelled heard.new) }
    ensures err { IfErr result (λ fault. fault ≢ ProgramFault.Memory
        → spec.steps_of_line (values_of config.now) heard.old line text.now ≡ Err fault) }
    ensures unwritten { IfErr result (λ fault. fault ≢ ProgramFault.Write) }
    ensures known { IfOk result (λ spelled. is_known config.now spelled ≡ true) }
    ensures unheard { OnErr result (heard.new ≡ heard.old) }
    ensures numbers { OnOk result (heard.new.numbers ≡ heard.old.numbers) }
{
    let (keyword, text) = cut_part(text);
    if same_text(keyword, b"say") {
        return read_say(alloc, config, heard, line, text);
    }
    if same_text(keyword, b"in") {
        return read_in(alloc, config, line, text);
    }
    if same_text(keyword, b"hex") {
        return read_hex(alloc, config, line, text);
    }
    if same_text(keyword, b"turn") {
        return read_turn(config, line, text);
    }
    if same_text(keyword, b"expire") {
        return read_expire(config, line, text);
    }
    if same_text(keyword, b"clock") {
        return read_clock(config, line, text);
    }
    if same_text(keyword, b"piece") {
        return read_piece(alloc, config, heard, line, text);
    }
    Err(ProgramFault::Form { line })
}

/// Behind `say`: `FIRM TRADER TIME TYPE BODY`.
#[tactic(auto, unfolding(crate::specs::StepLines::said_step))]
fn read_say(
    alloc: Global,
    config: &VenueConfig,
    heard: &Heard,
    line: usize,
    text: &[u8],
) -> Result<Spelled, ProgramFault>
    ensures ok { IfOk result (λ spelled. spec.said_step (values_of config.now) heard.now line
        text.now ≡ read_as (values_of config.now) spelled heard.now) }
    ensures err { IfErr result (λ fault. fault ≢ ProgramFault.Memory
        → spec.said_step (values_of config.now) heard.now line text.now ≡ Err fault) }
    ensures unwritten { IfErr result (λ fault. fault ≢ ProgramFault.Write) }
    ensures known { IfOk result (λ spelled. is_known config.now spelled ≡ true) }
{
    let (part, rest) = cut_part(text);
    if part.is_empty() {
        return Err(ProgramFault::Form { line });
    }
    let firm = firm_of(config, part);
    let number = heard.number_for(firm);
    let Some(made) = made_by(alloc, config.date(), part, number, rest)? else {
        return Err(ProgramFault::Form { line });
    };
    let Some(firm) = firm else {
        return Err(ProgramFault::UnknownFirm { line });
    };
    let is_counted = !made.is_numbered;
    let message = made.message.into_message();
    Ok(Spelled::Said(firm, made.moment, message, is_counted))
}

/// Behind `in`: `FIRM TIME FRAME`.
#[tactic(auto, unfolding(crate::specs::StepLines::in_step))]
fn read_in(
    alloc: Global,
    config: &VenueConfig,
    line: usize,
    text: &[u8],
) -> Result<Spelled, ProgramFault>
    ensures ok { IfOk result (λ spelled. (heard : spec.Heard) → spec.in_step (values_of config.now)
        heard line text.now ≡ read_as (values_of config.now) spelled heard) }
    ensures err { IfErr result (λ fault. fault ≢ ProgramFault.Memory → (heard : spec.Heard)
        → spec.in_step (values_of config.now) heard line text.now ≡ Err fault) }
    ensures unwritten { IfErr result (λ fault. fault ≢ ProgramFault.Write) }
    ensures known { IfOk result (λ spelled. is_known config.now spelled ≡ true) }
{
    let (part, rest) = cut_part(text);
    if part.is_empty() {
        return Err(ProgramFault::Form { line });
    }
    let Some((moment, message)) = read_received(alloc, config.date(), rest)? else {
        return Err(ProgramFault::Form { line });
    };
    let Some(firm) = firm_of(config, part) else {
        return Err(ProgramFault::UnknownFirm { line });
    };
    Ok(Spelled::Came(firm, moment, message))
}

/// Behind `hex`: `FIRM TIME HEX`.
#[tactic(auto, unfolding(crate::specs::StepLines::hex_step))]
fn read_hex(
    alloc: Global,
    config: &VenueConfig,
    line: usize,
    text: &[u8],
) -> Result<Spelled, ProgramFault>
    ensures ok { IfOk result (λ spelled. (heard : spec.Heard) → spec.hex_step (values_of config.now)
        heard line text.now ≡ read_as (values_of config.now) spelled heard) }
    ensures err { IfErr result (λ fault. fault ≢ ProgramFault.Memory → (heard : spec.Heard)
        → spec.hex_step (values_of config.now) heard line text.now ≡ Err fault) }
    ensures unwritten { IfErr result (λ fault. fault ≢ ProgramFault.Write) }
    ensures known { IfOk result (λ spelled. is_known config.now spelled ≡ true) }
{
    let (part, rest) = cut_part(text);
    if part.is_empty() {
        return Err(ProgramFault::Form { line });
    }
    let Some((moment, message)) = read_hexed(alloc, config.date(), rest)? else {
        return Err(ProgramFault::Form { line });
    };
    let Some(firm) = firm_of(config, part) else {
        return Err(ProgramFault::UnknownFirm { line });
    };
    Ok(Spelled::Came(firm, moment, message))
}

/// Behind `turn`: `ACTOR N`.
#[tactic(auto, unfolding(crate::specs::StepLines::turn_steps))]
fn read_turn(config: &VenueConfig, line: usize, text: &[u8]) -> Result<Spelled, ProgramFault>
    ensures ok { IfOk result (λ spelled. (heard : spec.Heard)
        → spec.turn_steps (values_of config.now) heard line text.now ≡ read_as (values_of config.now) spelled heard) }
    ensures err { IfErr result (λ fault. (heard : spec.Heard)
        → spec.turn_steps (values_of config.now) heard line text.now ≡ Err fault) }
    ensures unwritten { IfErr result (λ fault. fault ≢ ProgramFault.Write) }
    ensures known { IfOk result (λ spelled. is_known config.now spelled ≡ true) }
{
    let (part, count) = cut_part(text);
    if part.is_empty() {
        return Err(ProgramFault::Form { line });
    }
    let Some(count) = read_turns(count) else {
        return Err(ProgramFault::Form { line });
    };
    let Some(actor) = read_actor(config, part) else {
        return Err(ProgramFault::UnknownFirm { line });
    };
    Ok(Spelled::Turns(actor, count))
}

/// How many turns a line asks for.
fn read_turns(text: &[u8]) -> Option<u64>
    ensures { result ≡ spec.turns_of text.now }
{
    let count = read_number(text)?;
    if count < 1 || count > MOST_TURNS {
        return None;
    }
    Some(count)
}

/// The actor that a part names: the clock or a firm.
fn read_actor(config: &VenueConfig, part: &[u8]) -> Option<Actor>
    ensures value { result ≡ spec.actor_named (values_of config.now) part.now }
    ensures known { IfSome result (λ actor. is_actor config.now actor ≡ true) }
{
    if same_text(part, b"CLOCK") {
        return Some(Actor::Clock);
    }
    let firm = firm_of(config, part)?;
    Some(Actor::Firm(firm))
}

/// Behind `expire`: `FIRM N TIME`.
#[tactic(auto, unfolding(crate::specs::StepLines::expire_step))]
fn read_expire(config: &VenueConfig, line: usize, text: &[u8]) -> Result<Spelled, ProgramFault>
    ensures ok { IfOk result (λ spelled. (heard : spec.Heard)
        → spec.expire_step (values_of config.now) heard line text.now ≡ read_as (values_of config.now) spelled heard) }
    ensures err { IfErr result (λ fault. (heard : spec.Heard)
        → spec.expire_step (values_of config.now) heard line text.now ≡ Err fault) }
    ensures unwritten { IfErr result (λ fault. fault ≢ ProgramFault.Write) }
    ensures known { IfOk result (λ spelled. is_known config.now spelled ≡ true) }
{
    let (part, rest) = cut_part(text);
    let (number, time) = cut_part(rest);
    if part.is_empty() {
        return Err(ProgramFault::Form { line });
    }
    let Some(n) = read_request(number) else {
        return Err(ProgramFault::Form { line });
    };
    let Some(moment) = read_time(config.date(), time) else {
        return Err(ProgramFault::Form { line });
    };
    let Some(investor) = firm_of(config, part) else {
        return Err(ProgramFault::UnknownFirm { line });
    };
    if !is_room(config, investor, n) {
        return Err(ProgramFault::UnknownRoom { line });
    }
    Ok(Spelled::Sweep(RoomRef { investor, n }, moment))
}

/// The number of a request, in 1 to 9 digits.
fn read_request(text: &[u8]) -> Option<u32>
    ensures { result ≡ number_of text.now }
{
    let n = read_number(text)?;
    Some(n as u32)
}

/// Behind `clock`: `TIME`.
#[tactic(auto, unfolding(crate::specs::StepLines::clock_steps))]
fn read_clock(config: &VenueConfig, line: usize, text: &[u8]) -> Result<Spelled, ProgramFault>
    ensures ok { IfOk result (λ spelled. (heard : spec.Heard)
        → spec.clock_steps (values_of config.now) heard line text.now
        ≡ read_as (values_of config.now) spelled heard) }
    ensures err { IfErr result (λ fault. (heard : spec.Heard)
        → spec.clock_steps (values_of config.now) heard line text.now ≡ Err fault) }
    ensures unwritten { IfErr result (λ fault. fault ≢ ProgramFault.Write) }
    ensures known { IfOk result (λ spelled. is_known config.now spelled ≡ true) }
{
    let Some(moment) = read_time(config.date(), text) else {
        return Err(ProgramFault::Form { line });
    };
    Ok(Spelled::Sweeps(moment))
}

/// Behind `piece`: `FIRM TIME BYTES`.
#[tactic(auto, unfolding(crate::specs::StepLines::piece_steps))]
fn read_piece(
    alloc: Global,
    config: &VenueConfig,
    heard: &mut Heard,
    line: usize,
    text: &[u8],
) -> Result<Spelled, ProgramFault>
    ensures ok { IfOk result (λ spelled. spec.piece_steps (values_of config.now) heard.old line
        text.now ≡ read_as (values_of config.now) spelled heard.new) }
    ensures err { IfErr result (λ fault. fault ≢ ProgramFault.Memory
        → spec.piece_steps (values_of config.now) heard.old line text.now ≡ Err fault) }
    ensures unwritten { IfErr result (λ fault. fault ≢ ProgramFault.Write) }
    ensures known { IfOk result (λ spelled. is_known config.now spelled ≡ true) }
    ensures unheard { OnErr result (heard.new ≡ heard.old) }
    ensures numbers { OnOk result (heard.new.numbers ≡ heard.old.numbers) }
{
    let (part, rest) = cut_part(text);
    if part.is_empty() {
        return Err(ProgramFault::Form { line });
    }
    let Some((moment, bytes)) = read_received(alloc, config.date(), rest)? else {
        return Err(ProgramFault::Form { line });
    };
    let Some(firm) = firm_of(config, part) else {
        return Err(ProgramFault::UnknownFirm { line });
    };
    let messages = heard.feed(line, firm, bytes.as_bytes())?;
    Ok(Spelled::Pieces(firm, moment, messages))
}
