//! The short texts of the help: of the program, its commands, and their flags and arguments.

/// The version of all programs of the repository, which the file `VERSION` at its top has too.
pub(crate) const VERSION: &str = "1.2.0";

pub(crate) const ABOUT: &str = "A blind multi-dealer RFQ venue for bonds";

pub(crate) const ALONE: &str =
    "Prints the messages that one firm is sent, from its due text on standard input";

pub(crate) const REPLAY: &str =
    "Prints the messages of all firms, or of FIRM, on a day of the venue";

pub(crate) const THREADED: &str =
    "Runs a day of the venue on threads, and prints the messages of all firms";

pub(crate) const LIVE: &str = "Answers each line of a day of the venue as it comes";

pub(crate) const DUE: &str = "Prints the due text of FIRM on a day of the venue";

pub(crate) const DUES: &str =
    "Prints the due text of each dealer, one behind the other, on a day of the venue";

pub(crate) const COMPARE: &str = "Says where two days of the venue differ for FIRM";

pub(crate) const BLOTTER: &str = "Prints the blotter of FIRM on a day of the venue";

pub(crate) const FRAMES: &str =
    "Prints each message as its whole frame, with a vertical bar for each SOH";

pub(crate) const WOVEN: &str =
    "Prints behind the messages `woven N`: N steps in a row send every firm the same";

pub(crate) const MARKS: &str =
    "Prints behind the messages of each line of steps a mark, `done K` or `fault K NAME`";

pub(crate) const NOTES: &str =
    "Prints behind each message why it refuses, or the name of the trade that it tells of";

pub(crate) const LINE_BY_LINE: &str =
    "Takes the day as `live` does: each step with its turns, and no line `turn`";

pub(crate) const INVESTOR: &str = "The name is that of an investor, and not of a dealer";

pub(crate) const FIRM: &str = "The name of a dealer or of an investor of the configuration";

pub(crate) const DEALER: &str =
    "The name of a dealer of the configuration, or with --investor of an investor";

pub(crate) const READS: &str = "\
Everything is read from standard input, at most 16,777,216 bytes: due text for `alone`; a day of the
venue for `replay`, `due`, `dues` and `blotter`, and one without turns for `day`; two days for
`compare`. For `live`, and with --live, a day is read line by line, without this limit. The help of
a command tells its form, and has an example. No arguments at all mean `alone`.

The status is 0 when done, 1 for a fault, which is one line on standard error, and 2 for wrong
arguments. The faults are
  read           standard input gave an error
  input          it, or a line of it where it is read line by line, has more than 16,777,216 bytes
  parts          it does not have the parts that are read, with a line %% between two
  config: NAME   the configuration is at fault: Toml, Missing, Name, Limit or Twice
  firm: FIRM     FIRM is no firm of the configuration, or none of the role that is asked
  line K: NAME   line K is at fault: form, unknown firm, unknown room or stream
  day: NAME      the record of a day on threads does not agree: a fault of the venue
  weave: NAME    such a day is not woven: a fault of the venue, too
  memory         memory was refused
  write          standard output gave an error";
