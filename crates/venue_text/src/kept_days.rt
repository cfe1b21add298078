//! A day that comes line by line, and of which something is printed at its end.
ghost use Rattle.std.specs.Prelude.{◌≡◌, ◌≢◌, ◌++◌, List, Err, IfOk, IfErr, OnOk};
ghost use Rattle.std.specs.List.{flat_map};
ghost use Rattle.step_replay.specs.LiveDays.{live_trail};
ghost use Rattle.step_replay.specs.LiveStanding.{IsAt};
ghost use Rattle.step_replay.specs.declared.steps.Step.{Step};
ghost use Rattle.venue_rows.specs.Rows.{Configuration, values_of};
ghost use Rattle.venue_text.specs.DueCommand.{dealer_text, numbered_dealers};
ghost use Rattle.venue_text.specs.KeptDays as spec;
ghost use Rattle.venue_text.specs.LiveLines.{Taken};
ghost use Rattle.venue_text.specs.ReplayText.{one_at};

use crate::blotter_command::lines_text;
use crate::day_arguments::{asked_dealers, asked_firms};
use crate::due_command::push_due_text;
use crate::live_form::LiveForm;
use crate::live_lines::LiveDay;
use crate::live_notes::noted_days_text;
use crate::replay_command::days_text;
use fix_fields::Memory;
use input_lines::{ProgramFault, asked_firm};
use std::alloc::Global;
use venue_rows::VenueConfig;

/// What is asked for at the end of a day.
#[derive(Clone, Copy)]
pub enum Wanted<'a> {
    /// The messages of all firms, or of the firm with this name, as whole frames or as lines.
    Messages(Option<&'a [u8]>, bool),
    /// The same messages, each with the line of what its desk notes beside it.
    Noted(Option<&'a [u8]>, bool),
    /// What was due to each dealer, or to the dealer with this name, as due text.
    Due(Option<&'a [u8]>),
    /// The blotter of the firm with this name.
    Blotter(&'a [u8]),
}

/// The same, by the numbers of the firms.
#[derive(Clone, Copy)]
pub(crate) enum Asked {
    /// The messages of all firms or of one, as whole frames or as lines.
    Messages(Option<u16>, bool),
    /// The same messages, each with the line of what its desk notes beside it.
    Noted(Option<u16>, bool),
    /// What was due to each dealer, or to one.
    Due(Option<u16>),
    /// The blotter of a firm.
    Blotter(u16),
}

/// A day of a venue, line by line, and what is asked for at its end.
#[derive(Drop)]
pub struct KeptDay {
    pub(crate) day: LiveDay,
    pub(crate) asked: Asked,
}

impl KeptDay {
    /// The day of the venue that a configuration spells, before its first line of steps; or the
    /// first fault: one of the configuration, or [`ProgramFault::Firm`]. Memory may be refused at
    /// any point.
    pub fn open(alloc: Global, wanted: Wanted<'_>, text: &[u8]) -> Result<Self, ProgramFault>
        ensures ok { IfOk result (spec.OpensKept (spec.meant wanted.entry) text.now) }
        ensures err { IfErr result (λ fault. fault ≢ ProgramFault.Memory
            → spec.asked_venue (spec.meant wanted.entry) text.now ≡ Err fault) }
        ensures unwritten { IfErr result (λ fault. fault ≢ ProgramFault.Write) }
    {
        let form = LiveForm {
            frames: false,
            marks: false,
            notes: false,
        };
        let day = LiveDay::open(alloc, form, text)?;
        let asked = asked_of(&day.config, wanted)?;
        Ok(KeptDay { day, asked })
    }

    /// The line with this number comes, and is taken. It gives its fault, if it has one, and then
    /// it brings nothing else. After an error the day can't go on.
    pub fn keep(
        &mut self,
        alloc: Global,
        line: usize,
        text: &[u8],
    ) -> Result<Option<ProgramFault>, Memory>
        ensures { IfOk result (λ fault. (config : Configuration) (wanted : spec.Wanted)
            (taken : Taken) → spec.Keeps wanted config taken self.old
            → spec.KeepsMore wanted config taken line text.now self.new fault) }
    {
        let told = self.day.send(alloc, line, text)?;
        Ok(told.fault)
    }

    /// What is asked for, at the end of the day. It fails for memory alone.
    pub fn into_text(self, alloc: Global) -> Result<Vec<u8>, Memory>
        ensures { IfOk result (λ text. (config : Configuration) (wanted : spec.Wanted)
            (taken : Taken) → spec.Keeps wanted config taken self
            → text.items ≡ spec.kept_text wanted config taken.steps) }
    {
        match self.asked {
            Asked::Messages(only, frames) => {
                let text = messages_of(alloc, self.day, only, frames)?;
                Ok(text)
            }
            Asked::Noted(only, frames) => {
                let text = noted_days_text(alloc, frames, &self.day, only)?;
                Ok(text)
            }
            Asked::Due(only) => {
                let text = texts_of_dues(alloc, &self.day, only)?;
                Ok(text)
            }
            Asked::Blotter(firm) => {
                let text = blotter_of(alloc, self.day, firm)?;
                Ok(text)
            }
        }
    }
}

/// What is asked for in a venue, by the numbers of its firms; or [`ProgramFault::Firm`].
fn asked_of(config: &VenueConfig, wanted: Wanted<'_>) -> Result<Asked, ProgramFault>
    ensures is { result ≡ spec.asked_in (spec.meant wanted.entry) (values_of config.now) }
    ensures unwritten { IfErr result (λ fault. fault ≢ ProgramFault.Write) }
{
    match wanted {
        Wanted::Messages(name, frames) => {
            let only = asked_firms(config, name)?;
            Ok(Asked::Messages(only, frames))
        }
        Wanted::Noted(name, frames) => {
            let only = asked_firms(config, name)?;
            Ok(Asked::Noted(only, frames))
        }
        Wanted::Due(name) => {
            let only = asked_dealers(config, name)?;
            Ok(Asked::Due(only))
        }
        Wanted::Blotter(name) => {
            let firm = asked_firm(config, name)?;
            Ok(Asked::Blotter(firm))
        }
    }
}

/// The messages of a day's firms, or of one.
fn messages_of(
    alloc: Global,
    day: LiveDay,
    only: Option<u16>,
    frames: bool,
) -> Result<Vec<u8>, Memory>
    ensures { IfOk result (λ text. (steps : List Step) → IsAt day.config steps day.venue
        → text.items ≡ spec.text_of_asked day.config steps (Asked.Messages only frames)) }
{
    let LiveDay { config, venue, .. } = day;
    let world = venue.into_world();
    let text = days_text(alloc, frames, &config, &world, only)?;
    Ok(text)
}

/// The due texts of the dealers that are asked for.
fn texts_of_dues(alloc: Global, day: &LiveDay, only: Option<u16>) -> Result<Vec<u8>, Memory>
    ensures { IfOk result (λ text. (steps : List Step) → IsAt day.now.config steps day.now.venue
        → text.items ≡ spec.text_of_asked day.now.config steps (Asked.Due only)) }
{
    let mut text = Vec::new(alloc);
    let Some(dealer) = only else {
        push_dealers(&mut text, day)?;
        return Ok(text);
    };
    push_dealer(&mut text, day, dealer)?;
    Ok(text)
}

/// The due texts of all dealers.
fn push_dealers(text: &mut Vec<u8>, day: &LiveDay) -> Result<(), Memory>
    ensures { OnOk result ((steps : List Step) → IsAt day.now.config steps day.now.venue
        → text.new.items ≡ text.old.items
        ++ flat_map (dealer_text day.now.config (live_trail day.now.config steps))
        (numbered_dealers day.now.config)) }
{
    for dealer in 0..day.config.dealer_count() {
        push_dealer(text, day, dealer)?;
    }
    Ok(())
}

/// The due text of the dealer with this number: nothing where no dealer has it.
fn push_dealer(text: &mut Vec<u8>, day: &LiveDay, dealer: u16) -> Result<(), Memory>
    ensures { OnOk result ((steps : List Step) → IsAt day.now.config steps day.now.venue
        → text.new.items ≡ text.old.items
        ++ flat_map (dealer_text day.now.config (live_trail day.now.config steps))
        (one_at dealer (numbered_dealers day.now.config))) }
{
    let Some(row) = day.config.dealer(dealer) else {
        return Ok(());
    };
    let dues = day.venue.due(*text.allocator(), dealer)?;
    push_due_text(text, day.config.date(), row, dues.as_slice())?;
    Ok(())
}

/// The blotter of a firm.
fn blotter_of(alloc: Global, day: LiveDay, firm: u16) -> Result<Vec<u8>, Memory>
    ensures { IfOk result (λ text. (steps : List Step) → IsAt day.config steps day.venue
        → text.items ≡ spec.text_of_asked day.config steps (Asked.Blotter firm)) }
{
    let world = day.venue.into_world();
    let text = lines_text(alloc, &world, firm)?;
    Ok(text.into_bytes())
}
