//! The table of the commands, as clap is told of them.
use crate::help::{
    ALONE, BLOTTER, COMPARE, DEALER, DUE, DUES, FIRM, FRAMES, INVESTOR, LINE_BY_LINE, LIVE, MARKS,
    NOTES, REPLAY, THREADED, WOVEN,
};
use crate::inputs::{BLOTTER_DAY, DAY, DAYS, DUE_DAY, DUE_TEXT, DUES_DAY, LIVE_DAY, THREADS};

/// A command: its arguments, and the texts of its help.
pub(crate) struct CommandLine {
    /// Its name.
    pub(crate) name: &'static str,
    /// What it does, in one line.
    pub(crate) about: &'static str,
    /// What it reads and prints, with an example.
    pub(crate) input: &'static str,
    /// Its flags.
    pub(crate) flags: &'static [FlagLine],
    /// Its argument, where it takes one.
    pub(crate) argument: Option<ArgumentLine>,
}

/// A flag of a command.
pub(crate) struct FlagLine {
    /// Its name, which stands behind `--`.
    pub(crate) name: &'static str,
    /// What it asks for.
    pub(crate) help: &'static str,
}

/// The argument of a command, which names a firm.
pub(crate) struct ArgumentLine {
    /// How the help calls it.
    pub(crate) shown: &'static str,
    /// Whether it has to be there.
    pub(crate) required: bool,
    /// What the help says of it.
    pub(crate) help: &'static str,
}

const WITH_FRAMES: FlagLine = FlagLine {
    name: "frames",
    help: FRAMES,
};

const WITH_WOVEN: FlagLine = FlagLine {
    name: "woven",
    help: WOVEN,
};

const WITH_LIVE: FlagLine = FlagLine {
    name: "live",
    help: LINE_BY_LINE,
};

const WITH_MARKS: FlagLine = FlagLine {
    name: "marks",
    help: MARKS,
};

const WITH_NOTES: FlagLine = FlagLine {
    name: "notes",
    help: NOTES,
};

const OF_INVESTOR: FlagLine = FlagLine {
    name: "investor",
    help: INVESTOR,
};

const OF_DEALER: ArgumentLine = ArgumentLine {
    shown: "FIRM",
    required: true,
    help: DEALER,
};

const OF_FIRM: ArgumentLine = ArgumentLine {
    shown: "FIRM",
    required: true,
    help: FIRM,
};

const OF_ANY_FIRM: ArgumentLine = ArgumentLine {
    shown: "FIRM",
    required: false,
    help: FIRM,
};

/// The commands, in the order in which the help lists them.
pub(crate) const COMMANDS: [CommandLine; 8] = [
    CommandLine {
        name: "alone",
        about: ALONE,
        input: DUE_TEXT,
        flags: &[WITH_FRAMES, WITH_NOTES],
        argument: None,
    },
    CommandLine {
        name: "replay",
        about: REPLAY,
        input: DAY,
        flags: &[WITH_FRAMES, WITH_LIVE, WITH_NOTES],
        argument: Some(OF_ANY_FIRM),
    },
    CommandLine {
        name: "day",
        about: THREADED,
        input: THREADS,
        flags: &[WITH_FRAMES, WITH_WOVEN],
        argument: None,
    },
    CommandLine {
        name: "due",
        about: DUE,
        input: DUE_DAY,
        flags: &[WITH_LIVE, OF_INVESTOR],
        argument: Some(OF_DEALER),
    },
    CommandLine {
        name: "dues",
        about: DUES,
        input: DUES_DAY,
        flags: &[WITH_LIVE],
        argument: None,
    },
    CommandLine {
        name: "compare",
        about: COMPARE,
        input: DAYS,
        flags: &[WITH_LIVE, OF_INVESTOR],
        argument: Some(OF_DEALER),
    },
    CommandLine {
        name: "blotter",
        about: BLOTTER,
        input: BLOTTER_DAY,
        flags: &[WITH_LIVE],
        argument: Some(OF_FIRM),
    },
    CommandLine {
        name: "live",
        about: LIVE,
        input: LIVE_DAY,
        flags: &[WITH_FRAMES, WITH_MARKS, WITH_NOTES],
        argument: None,
    },
];
