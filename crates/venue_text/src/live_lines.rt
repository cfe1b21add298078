//! A day that is read line by line, and what is printed for each line.
ghost use Rattle.std.specs.Prelude.{◌≡◌, ◌≢◌, ◌++◌, [], List};
ghost use Rattle.std.specs.Prelude.{Ok, Err, Some, None, IfOk, IfErr, OnOk};
ghost use Rattle.step_replay.specs.LiveStanding.{IsAt};
ghost use Rattle.step_replay.specs.declared.steps.Step.{Step};
ghost use Rattle.venue_rows.specs.Rows.{Configuration, values_of};
ghost use Rattle.venue_text.specs.LiveAnswers as spec;
ghost use Rattle.venue_text.specs.LiveLines as lines;
ghost use Rattle.venue_text.specs.LiveLines.{Taken};
ghost use Rattle.input_lines.specs.StepLines.{sweeps_at, venue_rooms};
ghost use Rattle.input_lines.specs.StepReading.{steps_in};
ghost use Rattle.input_lines.specs.VenueParts.{venue_of};

use crate::live_form::LiveForm;
use crate::live_marks::{fault_mark, push_done_mark};
use crate::live_notes::push_noted;
use crate::message_lines::{Pushed, push_sent_line};
use crate::replay_command::firm_name;
use fix_fields::{Memory, Moment};
use input_lines::{
    Heard, ProgramFault, Spelled, count_line, cut_part, is_skipped, push_steps, read_line,
    read_venue, same_text,
};
use std::alloc::Global;
use step_replay::{LiveVenue, SentTo, Step};
use venue_rows::VenueConfig;

/// How many bytes the text of a line has room for at first: most lines need no more.
const USUAL_ANSWER: usize = 512;

/// The messages that steps bring, unless memory is refused.
type Told = Result<Vec<SentTo>, Memory>;

/// What a line brings.
#[derive(Drop)]
pub struct LineSent {
    /// The messages that are sent in its steps, in their order.
    pub messages: Vec<SentTo>,
    /// What is wrong with it, if it is at fault.
    pub fault: Option<ProgramFault>,
}

/// What is printed of a line.
#[derive(Drop)]
pub struct LineOutput {
    /// What is printed for it: its messages, and its mark.
    pub text: Vec<u8>,
    /// What is wrong with it, if it is at fault.
    pub fault: Option<ProgramFault>,
}

/// A day of a venue that goes on, line by line.
#[derive(Drop)]
pub struct LiveDay {
    pub(crate) form: LiveForm,
    pub(crate) config: VenueConfig,
    pub(crate) venue: LiveVenue,
    pub(crate) heard: Heard,
}

impl LiveDay {
    /// The day of the venue that a configuration spells, before its first line of steps; or the
    /// configuration's first fault, which is a [`ProgramFault::Config`]. It will be printed in this
    /// form. Memory may be refused at any point.
    pub fn open(alloc: Global, form: LiveForm, text: &[u8]) -> Result<Self, ProgramFault>
        ensures ok { IfOk result (spec.Opens form text.now) }
        ensures err { IfErr result (λ fault. fault ≢ ProgramFault.Memory
            → venue_of text.now ≡ Err fault) }
        ensures unwritten { IfErr result (λ fault. fault ≢ ProgramFault.Write) }
    {
        let config = read_venue(alloc, text)?;
        let venue = LiveVenue::open(alloc, &config)?;
        let firms = config.dealers().len() + config.investors().len();
        let heard = Heard::nothing(alloc, firms)?;
        Ok(LiveDay {
            form,
            config,
            venue,
            heard,
        })
    }

    /// The line with this number comes: its steps are done, each with all duties that it leaves,
    /// and the messages that are sent for them are given, in their order. A line at fault
    /// ([`ProgramFault::Form`], [`ProgramFault::UnknownFirm`], [`ProgramFault::UnknownRoom`] or
    /// [`ProgramFault::Stream`]) changes nothing, and the day goes on; so does an empty line or a
    /// comment. After an error it can't: memory was refused, or 10^15 `say` lines are the firm's.
    pub fn send(&mut self, alloc: Global, line: usize, text: &[u8]) -> Result<LineSent, Memory>
        ensures { IfOk result (λ told. (form : LiveForm) (config : Configuration)
            (taken : Taken) → spec.Goes form config taken self.old
            → spec.Sends form config taken line text.now self.new told.messages.items
            told.fault) }
    {
        if is_skipped(text) {
            return Ok(LineSent {
                messages: Vec::new(alloc),
                fault: None,
            });
        }
        let spelled = match read_live_line(alloc, &self.config, &mut self.heard, line, text) {
            Ok(spelled) => spelled,
            Err(fault) => return refused(alloc, fault),
        };
        let messages = done(alloc, &self.config, &mut self.venue, spelled)?;
        Ok(LineSent {
            messages,
            fault: None,
        })
    }

    /// The same, and the messages are printed, a line each, with the line of what its desk notes
    /// beside it where the form has notes, and behind them the line's mark where it has marks; of a
    /// line at fault its mark alone.
    pub fn output(&mut self, alloc: Global, line: usize, text: &[u8]) -> Result<LineOutput, Memory>
        ensures { IfOk result (λ output. (form : LiveForm) (config : Configuration)
            (taken : Taken) → spec.Goes form config taken self.old
            → spec.Gives form config taken line text.now self.new output.text.items
            output.fault) }
    {
        let told = self.send(alloc, line, text)?;
        let output = self.printed(alloc, line, &told)?;
        Ok(output)
    }

    /// The text of what was sent for the line with this number.
    fn printed(&self, alloc: Global, line: usize, told: &LineSent) -> Result<LineOutput, Memory>
        ensures fault { IfOk result (λ output. output.fault ≡ told.now.fault) }
        ensures text { IfOk result (λ output. (steps : List Step)
            → IsAt self.now.config steps self.now.venue → output.text.items
            ≡ lines.told_text self.now.form self.now.config steps line told.now.messages.items
            told.now.fault) }
    {
        let Some(fault) = &told.fault else {
            let mut text = Vec::with_capacity(alloc, USUAL_ANSWER)?;
            push_told(&mut text, self, told.messages.as_slice())?;
            push_done_mark(&mut text, self.form, line, self.venue.next_deadline())?;
            return Ok(LineOutput { text, fault: None });
        };
        let text = fault_mark(alloc, self.form, line, fault)?;
        Ok(LineOutput {
            text,
            fault: Some(*fault),
        })
    }
}

/// A line at fault: nothing is sent.
fn refused(alloc: Global, fault: ProgramFault) -> Result<LineSent, Memory>
    ensures told { IfOk result (λ told. told.fault ≡ Some fault) }
    ensures none { IfOk result (λ told. told.messages.items ≡ []) }
    ensures other { IfOk result (λ _. fault ≢ ProgramFault.Memory) }
{
    if matches!(fault, ProgramFault::Memory) {
        return Err(Memory);
    }
    Ok(LineSent {
        messages: Vec::new(alloc),
        fault: Some(fault),
    })
}

/// What a line spells. Turns are none of a day that goes on: they follow of themselves.
pub fn read_live_line(
    alloc: Global,
    config: &VenueConfig,
    heard: &mut Heard,
    line: usize,
    text: &[u8],
) -> Result<Spelled, ProgramFault>
    ensures ok { IfOk result (λ spelled. lines.live_steps_of (values_of config.now) heard.old line
        text.now ≡ Ok (steps_in (values_of config.now) spelled, heard.new)) }
    ensures err { IfErr result (λ fault. fault ≢ ProgramFault.Memory
        → lines.live_steps_of (values_of config.now) heard.old line text.now ≡ Err fault) }
    ensures unheard { IfErr result (λ fault. fault ≢ ProgramFault.Memory
        → heard.new ≡ heard.old) }
    ensures unwritten { IfErr result (λ fault. fault ≢ ProgramFault.Write) }
{
    let (keyword, _) = cut_part(text);
    if same_text(keyword, b"turn") {
        return Err(ProgramFault::Form { line });
    }
    let spelled = read_line(alloc, config, heard, line, text)?;
    count_line(heard, &spelled)?;
    Ok(spelled)
}

/// What a line spells is done, and the messages that are sent for it are given. Its steps name what
/// the venue has. A sweep of every room looks at those alone that are due.
fn done(alloc: Global, config: &VenueConfig, venue: &mut LiveVenue, spelled: Spelled) -> Told
    ensures { IfOk result (λ told. (taken : List Step) → IsAt config.now taken venue.old
        → spec.AreTold config.now taken (steps_in (values_of config.now) spelled) venue.new
        told.items) }
{
    match spelled {
        Spelled::Sweeps(moment) => {
            let told = swept(alloc, config, venue, moment)?;
            Ok(told)
        }
        other => {
            let told = stepped(alloc, config, venue, other)?;
            Ok(told)
        }
    }
}

/// A sweep of every room is done.
fn swept(alloc: Global, config: &VenueConfig, venue: &mut LiveVenue, moment: Moment) -> Told
    ensures { IfOk result (λ told. (taken : List Step) → IsAt config.now taken venue.old
        → spec.AreTold config.now taken (sweeps_at moment (venue_rooms (values_of config.now)))
        venue.new told.items) }
{
    let _ = config;
    let told = venue.sweep(alloc, moment)?;
    Ok(told)
}

/// The steps of a line are done, one behind the other.
fn stepped(alloc: Global, config: &VenueConfig, venue: &mut LiveVenue, spelled: Spelled) -> Told
    ensures { IfOk result (λ told. (taken : List Step) → IsAt config.now taken venue.old
        → spec.AreTold config.now taken (steps_in (values_of config.now) spelled) venue.new
        told.items) }
{
    let mut steps = Vec::new(alloc);
    push_steps(config, &mut steps, spelled)?;
    let told = taken_all(alloc, config, venue, steps.as_slice())?;
    Ok(told)
}

/// Steps are done, each with all duties that it leaves. Each step names what the venue has.
fn taken_all(alloc: Global, config: &VenueConfig, venue: &mut LiveVenue, steps: &[Step]) -> Told
    ensures { IfOk result (λ told. (taken : List Step) → IsAt config.now taken venue.old
        → spec.AreTold config.now taken steps.now venue.new told.items) }
{
    let mut told = Vec::new(alloc);
    for step in steps {
        let Ok(mut sent) = venue.step(alloc, config, step) else {
            return Err(Memory);
        };
        told.append(&mut sent)?;
    }
    Ok(told)
}

/// Puts the line of a message behind a text.
pub(crate) fn push_one(
    text: &mut Vec<u8>,
    with_frames: bool,
    config: &VenueConfig,
    sent: &SentTo,
) -> Pushed
    ensures { OnOk result (text.new.items
        ≡ text.old.items ++ lines.sent_line with_frames config.now sent.now) }
{
    let Some(name) = firm_name(config, sent.firm()) else {
        return Ok(());
    };
    push_sent_line(text, with_frames, name, sent)?;
    Ok(())
}

/// Puts the lines of messages behind a text.
fn push_sent(text: &mut Vec<u8>, with_frames: bool, config: &VenueConfig, sent: &[SentTo]) -> Pushed
    ensures { OnOk result (text.new.items
        ≡ text.old.items ++ lines.sent_text with_frames config.now sent.now) }
{
    for message in sent {
        push_one(text, with_frames, config, message)?;
    }
    Ok(())
}

/// Puts the lines of what was told of a line behind a text.
fn push_told(text: &mut Vec<u8>, day: &LiveDay, told: &[SentTo]) -> Pushed
    ensures { OnOk result ((steps : List Step) → IsAt day.now.config steps day.now.venue
        → text.new.items ≡ text.old.items
        ++ lines.told_lines day.now.form day.now.config steps told.now) }
{
    if day.form.notes {
        push_noted(text, day, told)?;
        return Ok(());
    }
    push_sent(text, day.form.frames, &day.config, told)?;
    Ok(())
}
