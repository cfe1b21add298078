//! Days as texts: a configuration, a line `%%` and the lines of a day, and what each firm is sent.
use day_checks::DayFault;
use day_weaving::weave;
use input_lines::{MOST_INPUT, day_parts, read_steps, read_venue};
use quote_messages::SentMessage;
use recorded_days::{DayRecord, Inbound, Sweep};
use session_worker::{Gate, Point, run_day};
use std::alloc::Global;
use std::process::Abort;
use std::sync::Wait;
use std::test::Fail;
use std::thread::Threads;
use step_replay::{Step, alone, run};
use venue_rows::{Name, VenueConfig};
use venue_text::messages_text;

/// The venue: two bonds, the dealers DLR1, DLR2 and DLR3, firms 0 to 2, and the investors INV1 and
/// INV2, firms 3 and 4; and the line that divides it from the lines of a day.
pub(crate) const VENUE: &str = "version = 1
date = \"20250314\"
bond = [{ id = \"BONDA0000001\" }, { id = \"BONDB0000002\" }]
dealer = [
  { name = \"DLR1\", traders = [\"T1\"], quotes = 4, exposure = 10000000 },
  { name = \"DLR2\", traders = [\"T2\"], quotes = 4, exposure = 10000000 },
  { name = \"DLR3\", traders = [\"T3\"], quotes = 4, exposure = 10000000 },
]
investor = [
  { name = \"INV1\", traders = [\"T8\"], requests = 3, open = 2, quantity = 5000000 },
  { name = \"INV2\", traders = [\"T9\"], requests = 3, open = 2, quantity = 5000000 },
]
%%
";

/// A gate that holds nobody.
pub(crate) struct Open;

impl Gate for Open {
    fn at(&self, _point: Point) {}
}

/// What comes to a venue in a day.
#[derive(Drop)]
pub(crate) struct Arrivals {
    pub(crate) config: VenueConfig,
    pub(crate) inboxes: Vec<Vec<Inbound>>,
    pub(crate) sweeps: Vec<Sweep>,
}

/// What comes in a day of this text; or what the text lacks, or that memory was refused.
pub(crate) fn arrivals_of(alloc: Global, input: &str) -> Result<Arrivals, &'static str> {
    if input.len() > MOST_INPUT {
        return Err("a day that is no longer than an input");
    }
    let Ok(parts) = day_parts(input.as_bytes()) else {
        return Err("the parts of a day");
    };
    let Ok(config) = read_venue(alloc, parts.config) else {
        return Err("a configuration");
    };
    let Ok(steps) = read_steps(alloc, &config, parts.steps) else {
        return Err("the lines of a day");
    };
    let firms = config.dealers().len() + config.investors().len();
    let mut inboxes = Vec::with_capacity(alloc, firms).or(Err("memory"))?;
    for _ in 0..firms {
        inboxes.push(Vec::new(alloc)).or(Err("memory"))?;
    }
    let mut sweeps = Vec::new(alloc);
    for step in steps {
        match step {
            Step::In(firm, moment, bytes) => {
                let Some(inbox) = inboxes.get_mut(usize::from(firm)) else {
                    return Err("a message of a firm of the venue");
                };
                inbox.push(Inbound { moment, bytes }).or(Err("memory"))?;
            }
            Step::Expire(room, moment) => {
                sweeps.push(Sweep { room, moment }).or(Err("memory"))?;
            }
            Step::Turn(_) => return Err("a day on threads has no turns"),
        }
    }
    Ok(Arrivals {
        config,
        inboxes,
        sweeps,
    })
}

/// What comes in a day of this text.
pub(crate) fn read_day<T: Abort + AllocGlobal>(rt: &T, input: &str) -> Result<Arrivals, Fail> {
    let arrivals = arrivals_of(rt.alloc(), input)?;
    Ok(arrivals)
}

/// The name of a firm.
pub(crate) fn name_of(config: &VenueConfig, firm: u16) -> Option<Name> {
    if let Some(row) = config.dealer(firm) {
        return Some(row.name.copy());
    }
    let row = config.investor(firm)?;
    Some(row.name.copy())
}

/// The messages of all firms, a line each.
pub(crate) fn day_text<T: AllocGlobal>(
    rt: &T,
    config: &VenueConfig,
    record: &DayRecord,
) -> Result<String, Fail> {
    let alloc = rt.alloc();
    let mut text = Vec::new(alloc);
    let firms = (config.dealers().len() + config.investors().len()) as u16;
    for firm in 0..firms {
        let name = name_of(config, firm).ok_or("a firm")?;
        let sent = record.sent(firm).ok_or("what a firm was sent")?;
        let lines = messages_text(alloc, false, &name, sent)?;
        text.extend_from_slice(lines.as_slice())?;
    }
    let text = String::from_utf8(text).or(Err("a text"))?;
    Ok(text)
}

/// Runs a day of this text, with this gate.
pub(crate) fn runs<T: Threads + Wait + Sync + Abort + AllocGlobal, G: Gate>(
    rt: &T,
    input: &str,
    gate: &G,
) -> Result<(VenueConfig, DayRecord), Fail> {
    let alloc = rt.alloc();
    let arrivals = read_day(rt, input)?;
    let Arrivals {
        config,
        inboxes,
        sweeps,
    } = arrivals;
    let copy = config.copy(alloc)?;
    match run_day(rt, alloc, copy, inboxes, sweeps, gate) {
        Ok(record) => Ok((config, record)),
        Err(fault) => Err(Fail::from(fault_name(fault))),
    }
}

/// The name of a fault.
fn fault_name(fault: DayFault) -> &'static str {
    match fault {
        DayFault::Memory => "memory",
        DayFault::Inbox(_) => "an inbox",
        DayFault::Told(_) => "a notice",
        DayFault::Sweep(_) => "a sweep",
        DayFault::Shown(_) => "a request that is shown",
        DayFault::Relayed(_) => "a quote that is relayed",
        DayFault::Answered(_) => "a reply",
        DayFault::Acted(_) => "an action",
    }
}

/// Runs a day of these lines of [`VENUE`], and compares what is sent.
pub(crate) fn sends<T: Threads + Wait + Sync + Abort + AllocGlobal, G: Gate>(
    rt: &T,
    lines: &str,
    gate: &G,
    sent: &str,
) -> Result<(), Fail> {
    let input = format!(in rt.alloc(); "{VENUE}{lines}")?;
    let (config, record) = runs(rt, input.as_str(), gate)?;
    let text = day_text(rt, &config, &record)?;
    assert_eq!(rt; text.as_str(), sent);
    Ok(())
}

/// A firm's messages, with all fields, a line each.
fn frames_of<T: AllocGlobal>(
    rt: &T,
    config: &VenueConfig,
    firm: u16,
    sent: &[SentMessage],
) -> Result<Vec<u8>, Fail> {
    let name = name_of(config, firm).ok_or("a firm")?;
    Ok(messages_text(rt.alloc(), true, &name, sent)?)
}

/// Looks whether a day is woven, into steps that send every firm what it was sent.
pub(crate) fn is_woven<T: Abort + AllocGlobal>(
    rt: &T,
    config: &VenueConfig,
    record: &DayRecord,
) -> Result<(), Fail> {
    let woven = weave(rt.alloc(), config, record);
    let Ok(steps) = &woven else {
        return Err(Fail::from("a day that is woven"));
    };
    let world = run(rt.alloc(), config, steps.as_slice())?;
    let firms = (config.dealers().len() + config.investors().len()) as u16;
    for firm in 0..firms {
        let recorded = record.sent(firm).ok_or("what a firm was sent")?;
        let replayed = world.sent(firm).ok_or("what the steps send a firm")?;
        let recorded = frames_of(rt, config, firm, recorded)?;
        let replayed = frames_of(rt, config, firm, replayed)?;
        assert!(rt; recorded.as_slice() == replayed.as_slice());
    }
    Ok(())
}

/// Looks whether each dealer was sent the view of what was due to it.
pub(crate) fn are_views<T: Abort + AllocGlobal>(
    rt: &T,
    config: &VenueConfig,
    record: &DayRecord,
) -> Result<(), Fail> {
    for dealer in 0..config.dealer_count() {
        is_its_view(rt, config, record, dealer)?;
    }
    Ok(())
}

/// The same of one dealer.
fn is_its_view<T: Abort + AllocGlobal>(
    rt: &T,
    config: &VenueConfig,
    record: &DayRecord,
    dealer: u16,
) -> Result<(), Fail> {
    let row = config.dealer(dealer).ok_or("a dealer")?;
    let dues = record.due(rt.alloc(), config, dealer)?.ok_or("a due list")?;
    let view = alone(rt.alloc(), config.date(), row, dues.as_slice())?;
    let sent = record.sent(dealer).ok_or("what a dealer was sent")?;
    let view = frames_of(rt, config, dealer, view.as_slice())?;
    let sent = frames_of(rt, config, dealer, sent)?;
    assert!(rt; view.as_slice() == sent.as_slice());
    Ok(())
}
