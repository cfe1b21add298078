//! A file of cases that is run at its place.
use crate::call::Call;
use crate::expanded::expanded;
use crate::faults::CaseFault;
use crate::place::Place;
use crate::report::Report;
use crate::running::{Running, Step};
use crate::words::Words;
use std::alloc::Global;

/// A file of cases, and the place that they are for.
#[derive(Drop)]
pub struct CaseFile<'a> {
    alloc: Global,
    place: &'a str,
    text: &'a str,
}

impl<'a> CaseFile<'a> {
    /// The file of this text: the first of its lines that say something names its place.
    pub fn of(alloc: Global, text: &'a str) -> Option<CaseFile<'a>> {
        let place = text.lines().find_map(|line| line.strip_prefix("place "))?;
        Some(CaseFile { alloc, place, text })
    }

    /// The name of its place.
    pub fn place(&self) -> &'a str {
        self.place
    }

    /// Runs its cases, each with a place that is made for it, and answers that they were run.
    pub fn run<P: Place, M: Fn(Global) -> Result<P, CaseFault>>(
        &self,
        make: M,
        report: &mut Report,
    ) -> Result<bool, CaseFault>
        requires { M.IsAlwaysCallable make }
    {
        let Some(text) = self.lines(report)? else {
            return Ok(true);
        };
        let mut running = Running::new(self.alloc);
        let mut place = None;
        for line in text.as_str().lines() {
            match running.take(line, report)? {
                Step::Nothing => {}
                Step::Begin => place = Some(make(self.alloc)?),
                Step::Call(line) => running.hear(made(self.alloc, line, &mut place)),
            }
        }
        running.end(report)?;
        Ok(true)
    }

    /// Its lines, without comments, names and blocks. A file at fault is told, and has none.
    pub fn lines(&self, report: &mut Report) -> Result<Option<String>, CaseFault> {
        let mut at = String::new(self.alloc);
        match expanded(self.alloc, self.text, &mut at) {
            Ok(text) => Ok(Some(text)),
            Err(fault) => {
                report.refuse(at.as_str(), fault.word())?;
                Ok(None)
            }
        }
    }
}

/// What a place answers to the call that a line is.
fn made<P: Place>(alloc: Global, line: &str, place: &mut Option<P>) -> Result<String, CaseFault> {
    let Some(place) = place else {
        return Err(CaseFault::NotOpen);
    };
    if let Some(repeated) = line.strip_prefix("repeat ") {
        return made_often(alloc, repeated, place);
    }
    made_once(alloc, line, place)
}

/// `FROM TO CALL`: makes CALL once for each number from FROM to TO, which stands in it for `<n>`. It
/// gives what the last one answers.
fn made_often<P: Place>(alloc: Global, line: &str, place: &mut P) -> Result<String, CaseFault> {
    let mut words = Words::of(line);
    let from = words.number()?;
    let to = words.number()?;
    let call = words.rest();
    let mut last = String::new(alloc);
    for n in from..=to {
        let number = format!(in alloc; "{n}")?;
        let call = call.replace(alloc, "<n>", number.as_str())?;
        last = made_once(alloc, call.as_str(), place)?;
    }
    Ok(last)
}

/// What a place answers to one call, each word of which it has to read.
fn made_once<P: Place>(alloc: Global, line: &str, place: &mut P) -> Result<String, CaseFault> {
    let mut call = Call::of(alloc, line);
    place.call(&mut call)?;
    call.words.end()?;
    let Call { answer, .. } = call;
    Ok(answer)
}
