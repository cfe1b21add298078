//! The lines of a file of cases, as far as they were run.
use crate::answers::push_line;
use crate::faults::CaseFault;
use crate::report::Report;
use std::alloc::Global;

/// How far a case has come.
#[derive(Clone, Copy, Debug, PartialEq, Eq)]
enum Stage {
    /// No case has begun, or the last one has ended.
    Outside,
    Going,
    /// A call of it has failed; those behind it are not made.
    Failed,
}

/// What a line asks for.
#[derive(Clone, Copy, Debug, PartialEq, Eq)]
pub enum Step<'a> {
    /// Nothing.
    Nothing,
    /// A case begins: nothing is left of the case before it.
    Begin,
    /// The call that this line is has to be made: what comes of it goes to [`Running::hear`].
    Call(&'a str),
}

/// The lines of a [`CaseFile`](crate::CaseFile) that are run one by one, by it or by whoever makes the
/// calls without a [`Place`](crate::Place).
#[derive(Drop)]
pub struct Running<'a> {
    stage: Stage,
    name: &'a str,
    /// The last call, empty before the first one, and why it could not be made.
    call: &'a str,
    fault: Option<CaseFault>,
    answer: String,
    wanted: String,
}

impl<'a> Running<'a> {
    /// Before the first line.
    pub fn new(alloc: Global) -> Running<'a> {
        Running {
            stage: Stage::Outside,
            name: "",
            call: "",
            fault: None,
            answer: String::new(alloc),
            wanted: String::new(alloc),
        }
    }

    /// What the last call answered, or why it could not be made.
    pub fn hear(&mut self, made: Result<String, CaseFault>) {
        match made {
            Ok(answer) => self.answer = answer,
            Err(fault) => self.fault = Some(fault),
        }
    }

    /// The next line, and what it asks for.
    pub fn take(&mut self, line: &'a str, report: &mut Report) -> Result<Step<'a>, CaseFault> {
        if line.is_empty() {
            self.end(report)?;
            return Ok(Step::Nothing);
        }
        if let Some(name) = line.strip_prefix("case ") {
            self.end(report)?;
            self.stage = Stage::Going;
            self.name = name;
            return Ok(Step::Begin);
        }
        match self.stage {
            Stage::Outside => refuse_outside(line, report),
            Stage::Going => self.go_on(line, report),
            Stage::Failed => Ok(Step::Nothing),
        }
    }

    /// A line of a case: a line of an answer, or a call.
    fn go_on(&mut self, line: &'a str, report: &mut Report) -> Result<Step<'a>, CaseFault> {
        if line == ">" {
            return self.want("");
        }
        if let Some(answer) = line.strip_prefix("> ") {
            return self.want(answer);
        }
        self.settle(report)?;
        if self.stage != Stage::Going {
            return Ok(Step::Nothing);
        }
        self.call = line;
        Ok(Step::Call(line))
    }

    /// A line of the answer that the last call should give.
    fn want(&mut self, answer: &str) -> Result<Step<'a>, CaseFault> {
        push_line(&mut self.wanted, answer)?;
        Ok(Step::Nothing)
    }

    /// The last call's answer is wanted whole: it is held against what came.
    fn settle(&mut self, report: &mut Report) -> Result<(), CaseFault> {
        if let Some(fault) = self.fault {
            report.fault(self.name, self.call, fault)?;
            self.stage = Stage::Failed;
        } else if self.answer.as_str() != self.wanted.as_str() {
            let came = self.answer.as_str();
            report.differ(self.name, self.call, self.wanted.as_str(), came)?;
            self.stage = Stage::Failed;
        }
        self.fault = None;
        self.answer.clear();
        self.wanted.clear();
        Ok(())
    }

    /// The case ends, where one goes on.
    pub fn end(&mut self, report: &mut Report) -> Result<(), CaseFault> {
        if self.stage == Stage::Going {
            self.settle(report)?;
        }
        if self.stage == Stage::Going {
            self.judge(report)?;
        }
        self.stage = Stage::Outside;
        self.call = "";
        Ok(())
    }

    /// Each call answered what was wanted; a case without a call says nothing.
    fn judge(&mut self, report: &mut Report) -> Result<(), CaseFault> {
        if self.call.is_empty() {
            report.refuse(self.name, "a case without a call")?;
            return Ok(());
        }
        report.pass();
        Ok(())
    }
}

/// A line in no case: only the one that names the place may stand there.
fn refuse_outside<'a>(line: &str, report: &mut Report) -> Result<Step<'a>, CaseFault> {
    if !line.starts_with("place ") {
        report.refuse(line, CaseFault::Form.word())?;
    }
    Ok(Step::Nothing)
}
