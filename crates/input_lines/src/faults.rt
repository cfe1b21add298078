//! Why a run of the program prints no messages, and the lines that tell it.
ghost use Rattle.std.specs.Prelude.{◌≡◌, ◌≤◌, ◌++◌, ◌∷◌, [], codes, decimal, length, Some};
ghost use Rattle.input_lines.specs.Faults as spec;
ghost use Rattle.input_lines.specs.declared.faults.ProgramFault.TheVariants.{Memory};

use arrayvec::ArrayString;
use fix_fields::Memory;
use itoa::Buffer;
use std::alloc::AllocFailed;
use std::error::Error;
use std::fmt;
use venue_config::ConfigFault;

/// What does not agree after a day on threads: a fault of the venue, and none of its input.
#[derive(Clone, Copy, Debug, PartialEq, Eq)]
pub enum UnkeptDay {
    /// A firm's own messages are not its inbox, or an investor was answered other responses than
    /// its messages left, or no action belongs to an event at the firm's desk or in a room of its
    /// requests.
    Inbox,
    /// A dealer's closing notices do not agree with how the rooms that name it ended.
    Told,
    /// A room was not swept as the clock was told.
    Sweep,
    /// The requests that a dealer was shown are not those that name it, each once and as it was
    /// asked.
    Shown,
    /// The quotes that took effect in a room are not those that came to its investor, each dealer's
    /// in order and as they were posted.
    Relayed,
    /// The replies to the hits and passes in a room are not those that its investor was answered,
    /// in their order, or it was not told once that its request expired, where it did.
    Answered,
}

impl UnkeptDay {
    /// Its name, as the program prints it.
    pub fn name(self) -> &'static str
        ensures text { result.now ≡ spec.unkept_name self }
        ensures short { length result.now ≤ 16 }
    {
        match self {
            UnkeptDay::Inbox => "Inbox",
            UnkeptDay::Told => "Told",
            UnkeptDay::Sweep => "Sweep",
            UnkeptDay::Shown => "Shown",
            UnkeptDay::Relayed => "Relayed",
            UnkeptDay::Answered => "Answered",
        }
    }
}

/// Why a day on threads is not woven into steps: a fault of the venue, and none of its input.
#[derive(Clone, Copy, Debug, PartialEq, Eq)]
pub enum UnwovenDay {
    /// The record is not that of a day of the venue.
    Malformed,
    /// No order keeps what came before what.
    Cycle,
    /// A firm was sent other messages than the steps send it.
    Differs,
}

impl UnwovenDay {
    /// Its name, as the program prints it.
    pub fn name(self) -> &'static str
        ensures text { result.now ≡ spec.unwoven_name self }
        ensures short { length result.now ≤ 16 }
    {
        match self {
            UnwovenDay::Malformed => "Malformed",
            UnwovenDay::Cycle => "Cycle",
            UnwovenDay::Differs => "Differs",
        }
    }
}

/// A fault of a run, which ends with status 1 and one line on standard error.
///
/// Where several could be told, the one that comes first here is told, but `memory` wherever it
/// is met. Of an input of several parts, each part is read to its end before the next one; of its
/// lines the first that is at fault is told, and on one line the fault that comes first here.
#[derive(Clone, Copy, Debug, PartialEq, Eq)]
pub enum ProgramFault {
    /// Standard input could not be read to its end.
    Read,
    /// The input has more than 16,777,216 bytes.
    Input,
    /// Lines `%%` divide the input into another number of parts than is asked for: due text has
    /// one.
    Parts,
    /// The configuration is none.
    Config(ConfigFault),
    /// An argument is the name of no firm, or of no dealer where a dealer is asked for. The
    /// argument belongs to the line that tells the fault.
    Firm,
    /// Line K is not of its form, or lacks the keyword of its place (a `turn` in `day`, `live` and
    /// with `--live`). K counts all lines from 1, and a missing line of the date or the firm is one
    /// past the last: the empty input is `line 1: form`.
    Form {
        /// Its number, from 1 over all lines of the input.
        line: usize,
    },
    /// Line K names a firm that the configuration does not have, or `CLOCK` where a firm is asked.
    UnknownFirm {
        /// Its number.
        line: usize,
    },
    /// Line K sweeps a room that no investor has: that of a dealer, the 0th, or one past the
    /// investor's requests.
    UnknownRoom {
        /// Its number.
        line: usize,
    },
    /// Line K brings the byte that shows a fault of its firm's stream.
    Stream {
        /// Its number.
        line: usize,
    },
    /// What lies under the locks after a day on threads does not agree.
    Day(UnkeptDay),
    /// The record of a day on threads is not woven into steps.
    Weave(UnwovenDay),
    /// Memory was refused.
    Memory,
    /// Standard output refused the messages, or took only some of them.
    Write,
}

impl fmt::Display for ProgramFault {
    ghost use Rattle.input_lines.specs.Faults.{fault_text};

    ghost output = { λ fault. Some (fault_text fault) };

    fn fmt<W: fmt::Write>(&self, f: &mut fmt::Formatter<W>) -> fmt::Result {
        match self {
            ProgramFault::Read => write!(f, "read"),
            ProgramFault::Input => write!(f, "input"),
            ProgramFault::Parts => write!(f, "parts"),
            ProgramFault::Config(fault) => write!(f, "config: {}", fault.name()),
            ProgramFault::Firm => write!(f, "firm"),
            ProgramFault::Form { line } => write!(f, "line {line}: form"),
            ProgramFault::UnknownFirm { line } => write!(f, "line {line}: unknown firm"),
            ProgramFault::UnknownRoom { line } => write!(f, "line {line}: unknown room"),
            ProgramFault::Stream { line } => write!(f, "line {line}: stream"),
            ProgramFault::Day(what) => write!(f, "day: {}", what.name()),
            ProgramFault::Weave(why) => write!(f, "weave: {}", why.name()),
            ProgramFault::Memory => write!(f, "memory"),
            ProgramFault::Write => write!(f, "write"),
        }
    }
}

impl Error for ProgramFault {}

impl From<Memory> for ProgramFault {
    ghost from_gives = { λ _ fault. fault ≡ Memory };

    fn from(_error: Memory) -> ProgramFault {
        ProgramFault::Memory
    }
}

impl<T: Drop> From<AllocFailed<T>> for ProgramFault {
    ghost from_gives = { λ _ fault. fault ≡ Memory };

    fn from(_error: AllocFailed<T>) -> ProgramFault {
        ProgramFault::Memory
    }
}

/// The line that tells a fault, whole, with its line feed; of [`ProgramFault::Firm`] what stands
/// before the argument, which is to be written behind it with a line feed. It takes no
/// memory.
pub fn fault_line(fault: &ProgramFault) -> ArrayString<64>
    ensures { result.bytes ≡ spec.fault_line fault.now }
{
    match fault {
        ProgramFault::Read => short_line("read\n"),
        ProgramFault::Input => short_line("input\n"),
        ProgramFault::Parts => short_line("parts\n"),
        ProgramFault::Config(fault) => named_line("config: ", fault.name()),
        ProgramFault::Firm => short_line("firm: "),
        ProgramFault::Form { line } => numbered_line(*line, ": form"),
        ProgramFault::UnknownFirm { line } => numbered_line(*line, ": unknown firm"),
        ProgramFault::UnknownRoom { line } => numbered_line(*line, ": unknown room"),
        ProgramFault::Stream { line } => numbered_line(*line, ": stream"),
        ProgramFault::Day(what) => named_line("day: ", what.name()),
        ProgramFault::Weave(why) => named_line("weave: ", why.name()),
        ProgramFault::Memory => short_line("memory\n"),
        ProgramFault::Write => short_line("write\n"),
    }
}

/// A line of one word.
fn short_line(text: &str) -> ArrayString<64>
    requires { length text.now ≤ 16 }
    ensures { result.bytes ≡ text.now }
{
    let mut line = ArrayString::new();
    line.push_str(text);
    line
}

/// The line of a fault with this name, of a kind that stands in front of it.
fn named_line(kind: &str, name: &str) -> ArrayString<64>
    requires kind { length kind.now ≤ 16 }
    requires name { length name.now ≤ 16 }
    ensures { result.bytes ≡ (kind.now ++ name.now) ++ 10 ∷ [] }
{
    let mut line = ArrayString::new();
    line.push_str(kind);
    line.push_str(name);
    line.push_str("\n");
    line
}

/// The line of a fault of the line with this number.
fn numbered_line(number: usize, what: &str) -> ArrayString<64>
    requires { length what.now ≤ 16 }
    ensures { result.bytes ≡ codes "line " ++ decimal number ++ what.now ++ 10 ∷ [] }
{
    let mut digits = Buffer::new();
    let mut line = ArrayString::new();
    line.push_str("line ");
    line.push_str(digits.format(number));
    line.push_str(what);
    line.push_str("\n");
    line
}
