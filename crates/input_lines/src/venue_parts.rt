//! The parts of an input that lines `%%` divide, and the configuration that one spells.
ghost use Rattle.std.specs.Prelude.{◌≡◌, ◌≢◌, ◌≤◌, ◌++◌, true, nat_lt, length, map, position};
ghost use Rattle.std.specs.Prelude.{Ok, Err, IfOk, IfErr, IfSome};
ghost use Rattle.step_replay.specs.StepFaults.{firms_of};
ghost use Rattle.venue_rows.specs.Rows as rows;
ghost use Rattle.venue_rows.specs.Rows.{KeepsLimits, has_room, values_of};
ghost use Rattle.venue_rows.specs.Texts.{same_text};
ghost use Rattle.input_lines.specs.StepLines as lines;
ghost use Rattle.input_lines.specs.VenueParts as spec;

use crate::faults::ProgramFault;
use crate::input_parts::InputPart;
use crate::lines::{MOST_INPUT, NumberedLines};
use std::alloc::Global;
use venue_config::{ConfigFault, read_config};
use venue_rows::{DealerRow, InvestorRow, VenueConfig};

/// The parts of an input that are one day of a venue.
#[derive(Drop)]
pub struct DayParts<'a> {
    /// The text of the configuration.
    pub config: &'a [u8],
    /// The lines of the steps, with their numbers in the whole input.
    pub steps: NumberedLines<'a>,
}

/// The parts of an input that is one day: a configuration, a line `%%`, and the lines of steps.
/// Where they are not two, the fault is [`ProgramFault::Parts`]. It takes no memory.
pub fn day_parts(input: &[u8]) -> Result<DayParts<'_>, ProgramFault>
    requires { length input.now ≤ MOST_INPUT }
    ensures ok { IfOk result (λ day. spec.day_parts_of input.now
        ≡ Ok (record { config = day.config.now; steps = day.steps })) }
    ensures err { IfErr result (λ fault. spec.day_parts_of input.now ≡ Err fault) }
{
    let (config, behind) = InputPart::whole(input).divide()?;
    let steps = behind.last()?;
    Ok(DayParts {
        config: config.text(),
        steps: steps.spoken(),
    })
}

/// The parts of an input that is two days, one behind the other and a line `%%` between them.
/// Where they are not four, the fault is [`ProgramFault::Parts`]. It takes no memory.
pub fn two_days_parts(input: &[u8]) -> Result<(DayParts<'_>, DayParts<'_>), ProgramFault>
    requires { length input.now ≤ MOST_INPUT }
    ensures ok { IfOk result (λ days. spec.two_days_parts_of input.now
        ≡ Ok (
          record { config = days.0.config.now; steps = days.0.steps },
          record { config = days.1.config.now; steps = days.1.steps },
        )) }
    ensures err { IfErr result (λ fault. spec.two_days_parts_of input.now ≡ Err fault) }
{
    let (config, behind) = InputPart::whole(input).divide()?;
    let (steps, behind) = behind.divide()?;
    let (other_config, behind) = behind.divide()?;
    let other_steps = behind.last()?;
    let day = DayParts {
        config: config.text(),
        steps: steps.spoken(),
    };
    let other = DayParts {
        config: other_config.text(),
        steps: other_steps.spoken(),
    };
    Ok((day, other))
}

/// The configuration that a part spells, or its first fault, which is a
/// [`ProgramFault::Config`]; bytes that are no UTF-8 are no TOML. Memory may be refused at any
/// point.
#[tactic(auto, unfolding(crate::specs::VenueParts::venue_of), using(crate::proofs::PartLemmas::is_no_text, crate::proofs::PartLemmas::is_text))]
pub fn read_venue(alloc: Global, text: &[u8]) -> Result<VenueConfig, ProgramFault>
    ensures ok { IfOk result (λ config. spec.venue_of text.now ≡ Ok (values_of config)) }
    ensures err { IfErr result (λ fault. fault ≢ ProgramFault.Memory
        → spec.venue_of text.now ≡ Err fault) }
    ensures unwritten { IfErr result (λ fault. fault ≢ ProgramFault.Write) }
    ensures limits { IfOk result (λ config. KeepsLimits config) }
{
    let Ok(text) = str::from_utf8(text) else {
        return Err(ProgramFault::Config(ConfigFault::Toml));
    };
    let fault = match read_config(alloc, text) {
        Ok(config) => return Ok(config),
        Err(fault) => fault,
    };
    if fault == ConfigFault::Memory {
        return Err(ProgramFault::Memory);
    }
    Err(ProgramFault::Config(fault))
}

/// The number of the firm with this name, or none where no firm has it.
#[tactic(auto, using(crate::specs::FirmLemmas::same_firm, crate::specs::FirmLemmas::firm_is_known))]
pub fn firm_of(config: &VenueConfig, name: &[u8]) -> Option<u16>
    ensures value { result ≡ rows.firm_number config.now name.now }
    ensures by_values { result ≡ lines.firm_named (values_of config.now) name.now }
    ensures known { IfSome result (λ firm. nat_lt firm (firms_of config.now) ≡ true) }
{
    let firm = number_of(config, name)?;
    Some(firm)
}

/// The same by its rows.
fn number_of(config: &VenueConfig, name: &[u8]) -> Option<u16>
    ensures { result ≡ rows.firm_number config.now name.now }
{
    firm_number(config.dealers(), config.investors(), name)
}

/// The number of the firm with this name.
fn firm_number(dealers: &[DealerRow], investors: &[InvestorRow], name: &[u8]) -> Option<u16>
    requires dealers_most { length dealers.now ≤ VenueConfig.MOST_DEALERS }
    requires investors_most { length investors.now ≤ VenueConfig.MOST_INVESTORS }
    ensures { result ≡ position (λ own. same_text own name.now)
        (map (λ row. row.name) dealers.now ++ map (λ row. row.name) investors.now) }
{
    if let Some(place) = place_of_dealer(dealers, name) {
        return Some(place as u16);
    }
    let place = place_of_investor(investors, name)?;
    Some((dealers.len() + place) as u16)
}

/// The place of the dealer with this name.
fn place_of_dealer(dealers: &[DealerRow], name: &[u8]) -> Option<usize>
    ensures { result ≡ position (λ row. same_text row.name name.now) dealers.now }
{
    dealers.iter().position(|row| row.name.as_bytes() == name)
}

/// The place of the investor with this name.
fn place_of_investor(investors: &[InvestorRow], name: &[u8]) -> Option<usize>
    ensures { result ≡ position (λ row. same_text row.name name.now) investors.now }
{
    investors.iter().position(|row| row.name.as_bytes() == name)
}

/// Whether there is a room for this request of the firm with that number.
#[tactic(auto, using(crate::specs::FirmLemmas::same_room))]
pub(crate) fn is_room(config: &VenueConfig, firm: u16, n: u32) -> bool
    ensures value { result ≡ lines.is_room (values_of config.now) firm n }
    ensures known { result ≡ has_room config.now firm n }
{
    config.has_room(firm, n)
}

/// The number of the firm that an argument names, or [`ProgramFault::Firm`].
pub fn asked_firm(config: &VenueConfig, argument: &[u8]) -> Result<u16, ProgramFault>
    ensures { result ≡ lines.asked (lines.firm_named (values_of config.now) argument.now) }
{
    let Some(firm) = firm_of(config, argument) else {
        return Err(ProgramFault::Firm);
    };
    Ok(firm)
}

/// The number of the dealer that an argument names, or [`ProgramFault::Firm`].
#[tactic(auto, using(crate::specs::FirmLemmas::same_dealer))]
pub fn asked_dealer(config: &VenueConfig, argument: &[u8]) -> Result<u16, ProgramFault>
    ensures { result ≡ lines.asked (lines.dealer_named (values_of config.now) argument.now) }
{
    let Some(dealer) = config.dealer_named(argument) else {
        return Err(ProgramFault::Firm);
    };
    Ok(dealer)
}
