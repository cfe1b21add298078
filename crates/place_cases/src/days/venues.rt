//! A configuration, and steps that lines of a day spell.
use super::answers::{put_count, put_fault};
use super::steps::put_spelled;
use super::values::{actor_in, message_of};
use case_lines::{Call, CaseFault, Words, push_line};
use market_terms::RoomRef;
use std::alloc::Global;
use step_replay::Step;
use venue_config::read_config;
use venue_rows::VenueConfig;

/// A venue and the steps of a day that is to be.
#[derive(Drop)]
pub(crate) struct Venue {
    /// The lines of the configuration.
    text: String,
    /// The lines of the day that were not read yet.
    lines: String,
    config: Option<VenueConfig>,
    /// The steps so far.
    pub(crate) steps: Vec<Step>,
}

impl Venue {
    /// A venue without a line.
    pub(crate) fn new(alloc: Global) -> Self {
        Venue {
            text: String::new(alloc),
            lines: String::new(alloc),
            config: None,
            steps: Vec::new(alloc),
        }
    }

    /// The configuration, where one was read.
    pub(crate) fn config(&self) -> Result<&VenueConfig, CaseFault> {
        self.config.as_ref().ok_or(CaseFault::NotOpen)
    }

    /// Makes a call that all places with a venue know.
    pub(crate) fn call(&mut self, call: &mut Call<'_>) -> Result<(), CaseFault> {
        match call.name {
            "<" => push_line(&mut self.text, call.words.rest()),
            "-" => push_line(&mut self.lines, call.words.rest()),
            "open" => self.open(call.alloc, &mut call.answer),
            "read" => self.read(call.alloc, &mut call.answer),
            _ => self.put_step(call),
        }
    }

    /// A call that puts a step behind the others.
    fn put_step(&mut self, call: &mut Call<'_>) -> Result<(), CaseFault> {
        match call.name {
            "in" => self.comes(call.alloc, &mut call.words),
            "turn" => self.turns(&mut call.words),
            "expire" => self.sweeps(&mut call.words),
            _ => Err(CaseFault::Form),
        }
    }

    /// Reads the configuration.
    fn open(&mut self, alloc: Global, answer: &mut String) -> Result<(), CaseFault> {
        match read_config(alloc, self.text.as_str()) {
            Ok(config) => {
                self.config = Some(config);
                Ok(())
            }
            Err(fault) => push_line(answer, fault.name()),
        }
    }

    /// Reads the lines of the day, and puts their steps behind the others.
    fn read(&mut self, alloc: Global, answer: &mut String) -> Result<(), CaseFault> {
        let Some(config) = &self.config else {
            return Err(CaseFault::NotOpen);
        };
        let before = self.steps.len();
        let lines = self.lines.as_str().as_bytes();
        let fault = put_spelled(alloc, config, lines, &mut self.steps)?;
        self.lines.clear();
        if let Some(fault) = fault {
            return put_fault(answer, &fault);
        }
        put_count(answer, self.steps.len().saturating_sub(before), "steps")
    }

    /// `in FIRM TIME BODY`: the frame of a body comes.
    fn comes(&mut self, alloc: Global, words: &mut Words<'_>) -> Result<(), CaseFault> {
        let firm = words.firm()?;
        let moment = words.moment()?;
        let message = message_of(alloc, words.rest())?;
        self.steps.push(Step::In(firm, moment, message))?;
        Ok(())
    }

    /// `turn FIRM` or `turn CLOCK`.
    fn turns(&mut self, words: &mut Words<'_>) -> Result<(), CaseFault> {
        let by = actor_in(words)?;
        self.steps.push(Step::Turn(by))?;
        Ok(())
    }

    /// `expire FIRM N TIME`.
    fn sweeps(&mut self, words: &mut Words<'_>) -> Result<(), CaseFault> {
        let investor = words.firm()?;
        let n = words.short_number()?;
        let moment = words.moment()?;
        self.steps
            .push(Step::Expire(RoomRef { investor, n }, moment))?;
        Ok(())
    }
}
