//! A day that comes line by line, and of which something is printed at its end, of a firm or of
//! all.
ghost use Rattle.std.specs.Prelude.{◌≡◌, ◌≢◌, List, ℕ, Err, IfOk, IfErr};
ghost use Rattle.investor_texts.specs.SoughtDays as spec;
ghost use Rattle.venue_rows.specs.Rows.{Configuration};
ghost use Rattle.venue_text.specs.LiveLines.{Taken};

use crate::line_days::{InvestorDay, LineFault, investors_compared_text};
use fix_fields::Memory;
use input_lines::ProgramFault;
use std::alloc::Global;
use venue_text::{KeptDay, Wanted, compared_text};

/// What is asked for at the end of a day.
#[derive(Clone, Copy)]
pub enum Sought<'a> {
    /// The messages, the due text or the blotter of firms.
    Firms(Wanted<'a>),
    /// What was due to the investor with this name, as due text.
    Investor(&'a [u8]),
}

/// For whom two days are compared.
#[derive(Clone, Copy)]
pub enum Whom<'a> {
    /// The dealer with this name.
    Dealer(&'a [u8]),
    /// The investor with this name.
    Investor(&'a [u8]),
}

impl<'a> Whom<'a> {
    /// What is kept of each of the days: the due text.
    fn sought(self) -> Sought<'a>
        ensures { spec.meant result ≡ spec.sought_of (spec.whom_meant self.entry) }
    {
        match self {
            Whom::Dealer(name) => Sought::Firms(Wanted::Due(Some(name))),
            Whom::Investor(name) => Sought::Investor(name),
        }
    }
}

/// A day of a venue, line by line, and what is asked for at its end.
pub enum SoughtDay {
    /// Of firms.
    Firms(KeptDay),
    /// Of an investor.
    Investor(InvestorDay),
}

/// As a derived one; but a day is dropped by a call. A derived drop is taken apart down to each
/// list wherever a day ends.
impl Drop for SoughtDay {
    fn drop(self) {
        match self {
            SoughtDay::Firms(day) => drop(day),
            SoughtDay::Investor(day) => drop(day),
        }
    }
}

impl SoughtDay {
    /// The day of the venue that a configuration spells, before its first line of steps; or the
    /// first fault: one of the configuration, or [`ProgramFault::Firm`]. Memory may be refused at
    /// any point.
    pub fn open(alloc: Global, sought: Sought<'_>, text: &[u8]) -> Result<Self, ProgramFault>
        ensures ok { IfOk result (spec.OpensSought (spec.meant sought.entry) text.now) }
        ensures err { IfErr result (λ fault. fault ≢ ProgramFault.Memory
            → spec.asked_venue (spec.meant sought.entry) text.now ≡ Err fault) }
        ensures unwritten { IfErr result (λ fault. fault ≢ ProgramFault.Write) }
    {
        match sought {
            Sought::Firms(wanted) => {
                let day = KeptDay::open(alloc, wanted, text)?;
                Ok(SoughtDay::Firms(day))
            }
            Sought::Investor(name) => {
                let day = InvestorDay::open(alloc, name, text)?;
                Ok(SoughtDay::Investor(day))
            }
        }
    }

    /// The same of one of two days that are compared: the due text of the firm is asked for.
    pub fn open_for(alloc: Global, whom: Whom<'_>, text: &[u8]) -> Result<Self, ProgramFault>
        ensures ok { IfOk result
            (spec.OpensSought (spec.sought_of (spec.whom_meant whom.entry)) text.now) }
        ensures err { IfErr result (λ fault. fault ≢ ProgramFault.Memory
            → spec.asked_venue (spec.sought_of (spec.whom_meant whom.entry)) text.now
            ≡ Err fault) }
        ensures unwritten { IfErr result (λ fault. fault ≢ ProgramFault.Write) }
    {
        let day = SoughtDay::open(alloc, whom.sought(), text)?;
        Ok(day)
    }

    /// The line with this number comes, and is taken. Its fault is answered, if it has one, and
    /// then it brings nothing else. After an error the day can't go on.
    pub fn keep(&mut self, alloc: Global, line: usize, text: &[u8]) -> Result<LineFault, Memory>
        ensures { IfOk result (λ fault. (config : Configuration) (sought : spec.Sought)
            (taken : Taken) → spec.Keeps sought config taken self.old
            → spec.KeepsMore sought config taken line text.now self.new fault) }
    {
        match self {
            SoughtDay::Firms(day) => {
                let fault = day.keep(alloc, line, text)?;
                Ok(fault)
            }
            SoughtDay::Investor(day) => {
                let fault = day.keep(alloc, line, text)?;
                Ok(fault)
            }
        }
    }

    /// What is asked for, at the end of the day.
    pub fn into_text(self, alloc: Global) -> Result<Vec<u8>, Memory>
        ensures { IfOk result (λ text. (config : Configuration) (sought : spec.Sought)
            (taken : Taken) → spec.Keeps sought config taken self
            → text.items ≡ spec.sought_text sought config taken.steps) }
    {
        match self {
            SoughtDay::Firms(day) => {
                let text = day.into_text(alloc)?;
                Ok(text)
            }
            SoughtDay::Investor(day) => {
                let text = day.into_text(alloc)?;
                Ok(text)
            }
        }
    }

    /// How two days differ for the firm whose due text was asked for of both, in three lines.
    pub fn compared_text(self, alloc: Global, other: Self) -> Result<Vec<u8>, Memory>
        ensures { IfOk result (λ text. (whom : spec.Whom) (config other_config : Configuration)
            (taken other_taken : Taken) → spec.Keeps (spec.sought_of whom) config taken self
            → spec.Keeps (spec.sought_of whom) other_config other_taken other
            → spec.IsComparison whom config taken.steps other_config other_taken.steps
            text.items) }
    {
        match self {
            SoughtDay::Firms(one) => {
                let text = other.dealers_compared(alloc, one)?;
                Ok(text)
            }
            SoughtDay::Investor(one) => {
                let text = other.investors_compared(alloc, one)?;
                Ok(text)
            }
        }
    }

    /// The same of a dealer: this is the second of the days.
    fn dealers_compared(self, alloc: Global, one: KeptDay) -> Result<Vec<u8>, Memory>
        ensures { IfOk result (λ text. (whom : spec.Whom) (config other_config : Configuration)
            (taken other_taken : Taken)
            → spec.Keeps (spec.sought_of whom) config taken (SoughtDay.Firms one)
            → spec.Keeps (spec.sought_of whom) other_config other_taken self
            → spec.IsComparison whom config taken.steps other_config other_taken.steps
            text.items) }
    {
        let SoughtDay::Firms(second) = self else {
            drop(one);
            return Err(Memory);
        };
        let text = compared_text(alloc, one, second)?;
        Ok(text)
    }

    /// The same of an investor.
    fn investors_compared(self, alloc: Global, one: InvestorDay) -> Result<Vec<u8>, Memory>
        ensures { IfOk result (λ text. (whom : spec.Whom) (config other_config : Configuration)
            (taken other_taken : Taken)
            → spec.Keeps (spec.sought_of whom) config taken (SoughtDay.Investor one)
            → spec.Keeps (spec.sought_of whom) other_config other_taken self
            → spec.IsComparison whom config taken.steps other_config other_taken.steps
            text.items) }
    {
        let SoughtDay::Investor(second) = self else {
            drop(one);
            return Err(Memory);
        };
        let text = investors_compared_text(alloc, one, second)?;
        Ok(text)
    }
}
