//! The driver of the program's commands: runs over an input that is given line by line.
use crate::in_step::ran_in_step;
use crate::inputs::Inputs;
use crate::process::ended_process;
use crate::runs::{Ended, Program, first_lines, words_of};
use case_lines::{Call, CaseFault, Report, Running, Step, Words};
use std::alloc::Global;
use std::marker::Sync;
use std::sync::Wait;
use std::thread::Threads;

/// The commands of the program, as far as a case has come. They hold a handle of the process, so they
/// are no [`Place`](case_lines::Place): no call of a trait may ask that the handle can be shared between
/// threads.
#[derive(Drop)]
pub(crate) struct Commands<'h, H: Threads + Wait + Sync> {
    rt: &'h H,
    inputs: Inputs,
    /// The arguments of the last `run`, or `ends`.
    words: String,
    /// How the last run ended.
    last: Ended,
}

impl<'h, H: Threads + Wait + Sync> Commands<'h, H> {
    /// Before the first call.
    pub(crate) fn new(rt: &'h H, alloc: Global) -> Self {
        Commands {
            rt,
            inputs: Inputs::new(alloc),
            words: String::new(alloc),
            last: Ended::nothing(alloc),
        }
    }

    /// A case begins: nothing is left of the case before it.
    fn begin(&mut self, alloc: Global) {
        self.inputs = Inputs::new(alloc);
        self.words = String::new(alloc);
        self.last = Ended::nothing(alloc);
    }

    /// Runs the cases that these lines are.
    pub(crate) fn run_lines(
        &mut self,
        alloc: Global,
        text: &str,
        report: &mut Report,
    ) -> Result<(), CaseFault> {
        let mut running = Running::new(alloc);
        for line in text.lines() {
            match running.take(line, report)? {
                Step::Nothing => {}
                Step::Begin => self.begin(alloc),
                Step::Call(line) => running.hear(self.made(alloc, line)),
            }
        }
        running.end(report)
    }

    /// What the program answers to the call that a line is.
    fn made(&mut self, alloc: Global, line: &str) -> Result<String, CaseFault> {
        if let Some(repeated) = line.strip_prefix("repeat ") {
            return self.made_often(alloc, repeated);
        }
        self.made_once(Call::of(alloc, line))
    }

    /// `FROM TO CALL`: makes CALL once for each number from FROM to TO, which stands in it for `<n>`,
    /// and its double for `<2n>`. It gives what the last one answers.
    fn made_often(&mut self, alloc: Global, line: &str) -> Result<String, CaseFault> {
        let mut words = Words::of(line);
        let from = words.number()?;
        let to = words.number()?;
        let call = words.rest();
        let mut last = String::new(alloc);
        for n in from..=to {
            let number = format!(in alloc; "{n}")?;
            let double = format!(in alloc; "{}", n.saturating_mul(2))?;
            let call = call.replace(alloc, "<n>", number.as_str())?;
            let call = call.as_str().replace(alloc, "<2n>", double.as_str())?;
            last = self.made_once(Call::of(alloc, call.as_str()))?;
        }
        Ok(last)
    }

    /// What the program answers to a call, each word of which has to be read.
    fn made_once(&mut self, mut call: Call<'_>) -> Result<String, CaseFault> {
        self.call(&mut call)?;
        call.words.end()?;
        let Call { answer, .. } = call;
        Ok(answer)
    }

    /// Makes one call, and appends the lines of its answer, each with its line feed.
    fn call(&mut self, call: &mut Call<'_>) -> Result<(), CaseFault> {
        match call.name {
            "run" => self.show(call),
            "next" => self.show_next(call),
            "ends" => self.show_ends(call),
            "in_step" => self.show_in_step(call),
            "process" => self.show_process(call),
            "told" => self.told(call),
            "each" => self.program(call.alloc).each(call),
            "same" => self.program(call.alloc).same(call),
            "noted" => self.program(call.alloc).noted(call),
            _ => self.inputs.take(call),
        }
    }

    /// The program over the input.
    fn program(&self, alloc: Global) -> Program<'_, H> {
        Program {
            rt: self.rt,
            alloc,
            input: self.inputs.bytes.as_slice(),
        }
    }

    /// Runs the program with these arguments.
    fn run(&mut self, alloc: Global, words: &str) -> Result<(), CaseFault> {
        self.words = String::from_str(alloc, words)?;
        let words = words_of(alloc, words)?;
        let ended = self.program(alloc).ran(words.as_slice(), self.inputs.paces);
        self.last = ended;
        Ok(())
    }

    /// `run ARGUMENTS`: the status, what was told, and what was printed.
    fn show(&mut self, call: &mut Call<'_>) -> Result<(), CaseFault> {
        self.run(call.alloc, call.words.rest())?;
        self.last.show(&mut call.answer)
    }

    /// `next LINE`: the last `run` or `ends` again, over an input with one more line: what it prints
    /// behind what it printed before.
    fn show_next(&mut self, call: &mut Call<'_>) -> Result<(), CaseFault> {
        self.inputs.put(call.alloc, call.words.rest(), "\n")?;
        let line = String::from_str(call.alloc, self.words.as_str())?;
        let words = words_of(call.alloc, line.as_str())?;
        let ended = self
            .program(call.alloc)
            .ran(words.as_slice(), self.inputs.paces);
        ended.show_behind(self.last.out.as_slice(), &mut call.answer)?;
        self.last = ended;
        Ok(())
    }

    /// `ends FIRST LAST ARGUMENTS`: the same with the first and the last lines of what was printed.
    fn show_ends(&mut self, call: &mut Call<'_>) -> Result<(), CaseFault> {
        let first = call.words.number()?;
        let last = call.words.number()?;
        self.run(call.alloc, call.words.rest())?;
        self.last.show_ends(first, last, &mut call.answer)
    }

    /// `in_step ARGUMENTS`: the same where each line of steps is given once the answer of the one
    /// before it was flushed.
    fn show_in_step(&mut self, call: &mut Call<'_>) -> Result<(), CaseFault> {
        let words = words_of(call.alloc, call.words.rest())?;
        let input = self.inputs.bytes.as_slice();
        self.last = ran_in_step(self.rt, call.alloc, words.as_slice(), input);
        self.last.show(&mut call.answer)
    }

    /// `process ARGUMENTS`: the same of a process with these arguments, which may be any bytes.
    fn show_process(&mut self, call: &mut Call<'_>) -> Result<(), CaseFault> {
        let input = self.inputs.bytes.as_slice();
        self.last = ended_process(self.rt, call.alloc, call.words.rest(), input)?;
        self.last.show(&mut call.answer)
    }

    /// `told LINES`: the first lines that the last run told on standard error.
    fn told(&self, call: &mut Call<'_>) -> Result<(), CaseFault> {
        let lines = call.words.number()?;
        first_lines(self.last.err.as_slice(), lines, &mut call.answer)
    }
}
