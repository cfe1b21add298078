//! A day of the venue on threads: the messages that come from each firm, and the sweeps of the
//! clock.
ghost use Rattle.std.specs.Prelude.{◌≡◌, ◌≢◌, length, map, None, Ok, Err, IfOk, IfErr};
ghost use Rattle.step_replay.specs.StepFaults.{first_fault};
ghost use Rattle.venue_rows.specs.Rows.{KeepsLimits, values_of};
ghost use Rattle.venue_text.specs.ArrivingDays as spec;
ghost use Rattle.input_lines.specs.StepLines.{names_of_firms};

use fix_fields::Memory;
use input_lines::{
    Heard, MOST_INPUT, NumberedLines, ProgramFault, cut_part, day_parts, push_spelled, read_line,
    read_venue, same_text,
};
use quote_messages::Message;
use recorded_days::{Inbound, Sweep};
use std::alloc::Global;
use step_replay::Step;
use venue_rows::VenueConfig;

/// What comes to a venue on one day: it is for `run_day` of `session_worker`.
#[derive(Drop)]
pub struct ArrivingDay {
    /// The configuration of the venue.
    pub config: VenueConfig,
    /// The messages that come from each firm, in the order of their numbers.
    pub inboxes: Vec<Vec<Inbound>>,
    /// The sweeps of the clock.
    pub sweeps: Vec<Sweep>,
}

/// What the bytes of an input spell that is a day on threads: a configuration, a line `%%`, and
/// lines of steps without turns. Or the first fault of these: [`ProgramFault::Input`],
/// [`ProgramFault::Parts`], [`ProgramFault::Config`], or that of the first line at fault. Memory may
/// be refused at any point.
pub fn read_arriving_day(alloc: Global, input: &[u8]) -> Result<ArrivingDay, ProgramFault>
    ensures ok { IfOk result (λ day. spec.arriving_day input.now ≡ Ok (record {
      config = values_of day.config;
      inboxes = map (λ inbox. inbox.items) day.inboxes.items;
      sweeps = day.sweeps.items;
    })) }
    ensures err { IfErr result (λ fault. fault ≢ ProgramFault.Memory
        → spec.arriving_day input.now ≡ Err fault) }
    ensures unwritten { IfErr result (λ fault. fault ≢ ProgramFault.Write) }
    ensures limits { IfOk result (λ day. KeepsLimits day.config) }
{
    if input.len() > MOST_INPUT {
        return Err(ProgramFault::Input);
    }
    let parts = day_parts(input)?;
    let config = read_venue(alloc, parts.config)?;
    let steps = read_arrivals(alloc, &config, parts.steps)?;
    let day = arriving(alloc, config, &steps)?;
    Ok(day)
}

/// What these steps bring to a venue.
fn arriving(alloc: Global, config: VenueConfig, steps: &[Step]) -> Result<ArrivingDay, Memory>
    ensures inboxes { IfOk result (λ day. map (λ inbox. inbox.items) day.inboxes.items
        ≡ spec.inboxes_of steps.now (length (names_of_firms (values_of config)))) }
    ensures sweeps { IfOk result (λ day. day.sweeps.items ≡ spec.sweeps_of steps.now) }
    ensures config { IfOk result (λ day. day.config ≡ config) }
{
    let inboxes = inboxes_of(alloc, steps, count_firms(&config))?;
    let sweeps = sweeps_of(alloc, steps)?;
    Ok(ArrivingDay {
        config,
        inboxes,
        sweeps,
    })
}

/// How many firms a venue has.
#[tactic(auto, using(crate::proofs::ArrivalLemmas::names_count))]
fn count_firms(config: &VenueConfig) -> u16
    ensures { result ≡ length (names_of_firms (values_of config.now)) }
{
    (config.dealers().len() + config.investors().len()) as u16
}

/// Reads the lines of a day on threads, or gives their first fault, as
/// [`read_steps`](input_lines::read_steps); a line of turns is not of its form.
fn read_arrivals(
    alloc: Global,
    config: &VenueConfig,
    lines: NumberedLines<'_>,
) -> Result<Vec<Step>, ProgramFault>
    ensures ok { IfOk result (λ steps.
        spec.arrivals_of (values_of config.now) lines.entry ≡ Ok steps.items) }
    ensures err { IfErr result (λ fault. fault ≢ ProgramFault.Memory
        → spec.arrivals_of (values_of config.now) lines.entry ≡ Err fault) }
    ensures unwritten { IfErr result (λ fault. fault ≢ ProgramFault.Write) }
    ensures known { IfOk result (λ steps. first_fault config.now steps.items ≡ None) }
{
    let firms = config.dealers().len() + config.investors().len();
    let mut heard = Heard::nothing(alloc, firms)?;
    let mut steps = Vec::new(alloc);
    for (line, text) in lines {
        if is_of_turns(text) {
            return Err(ProgramFault::Form { line });
        }
        let spelled = read_line(alloc, config, &mut heard, line, text)?;
        push_spelled(config, &mut steps, &mut heard, spelled)?;
    }
    Ok(steps)
}

/// Whether a line gives turns.
fn is_of_turns(text: &[u8]) -> bool
    ensures { result ≡ spec.is_of_turns text.now }
{
    let (keyword, _) = cut_part(text);
    same_text(keyword, b"turn")
}

/// The inboxes of so many firms.
fn inboxes_of(alloc: Global, steps: &[Step], firms: u16) -> Result<Vec<Vec<Inbound>>, Memory>
    ensures { IfOk result (λ inboxes.
        map (λ inbox. inbox.items) inboxes.items ≡ spec.inboxes_of steps.now firms) }
{
    let mut inboxes = Vec::new(alloc);
    for firm in 0..firms {
        inboxes.push(inbox_of(alloc, steps, firm)?)?;
    }
    Ok(inboxes)
}

/// The messages of a firm.
fn inbox_of(alloc: Global, steps: &[Step], firm: u16) -> Result<Vec<Inbound>, Memory>
    ensures { IfOk result (λ inbox. inbox.items ≡ spec.inbox_of steps.now firm) }
{
    let mut inbox = Vec::new(alloc);
    let mut rest = steps;
    while let Some((step, later)) = rest.split_first() {
        rest = later;
        let Some(inbound) = message_of(alloc, firm, step)? else {
            continue;
        };
        inbox.push(inbound)?;
    }
    Ok(inbox)
}

/// The message of a firm that a step brings.
fn message_of(alloc: Global, firm: u16, step: &Step) -> Result<Option<Inbound>, Memory>
    ensures { IfOk result (λ inbound. inbound ≡ spec.message_of firm step.now) }
{
    let Step::In(by, moment, message) = step else {
        return Ok(None);
    };
    if *by != firm {
        return Ok(None);
    }
    let bytes = Message::copy_of(alloc, message.as_bytes())?;
    Ok(Some(Inbound {
        moment: *moment,
        bytes,
    }))
}

/// The sweeps among steps.
fn sweeps_of(alloc: Global, steps: &[Step]) -> Result<Vec<Sweep>, Memory>
    ensures { IfOk result (λ sweeps. sweeps.items ≡ spec.sweeps_of steps.now) }
{
    steps
        .iter()
        .filter_map(|step| sweep_of(step))
        .collect(alloc)
}

/// The sweep that a step is.
fn sweep_of(step: &Step) -> Option<Sweep>
    ensures { result ≡ spec.sweep_of step.now }
{
    match step {
        Step::Expire(room, moment) => Some(Sweep {
            room: *room,
            moment: *moment,
        }),
        _ => None,
    }
}
