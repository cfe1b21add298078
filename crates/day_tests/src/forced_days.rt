//! Days that a script forces whole, with what each firm is sent and what each actor did. The words of
//! DLR2 are 4 to 7, behind those of DLR1.
/// A day of the venue.
pub(crate) struct ForcedDay {
    /// What happens in it.
    pub(crate) name: &'static str,
    /// The order that is forced.
    pub(crate) marks: &'static [&'static str],
    /// Its lines.
    pub(crate) lines: &'static [&'static str],
    /// What the firms are sent.
    pub(crate) sent: &'static [&'static str],
    /// What each actor did, with the word that an action asked and its settlement; and the
    /// order of the actions at each desk and in each room.
    pub(crate) done: &'static [&'static str],
}

pub(crate) const INV1_ASKS_DLR2: &str =
    "say INV1 T8 09:00:00 R 131=A|146=1|48=BONDA0000001|22=4|54=1|38=2000000|126=20250314-09:05:00|453=1|448=DLR2|447=D|452=35";

pub(crate) const DLR2_QUOTES: &str =
    "say DLR2 T2 09:00:10 S 117=a1|131=R1|48=BONDA0000001|22=4|133=99.5";

const DLR2_REPLACES: &str = "say DLR2 T2 09:00:20 S 117=a2|131=R1|48=BONDA0000001|22=4|133=99.25";

pub(crate) const DLR2_IS_SHOWN: &str =
    "DLR2 1 09:00:00.000 R 131=R1|146=1|55=[N/A]|48=BONDA0000001|22=4|54=1|38=2000000|126=20250314-09:05:00.000|453=1|448=INV1|447=D|452=13";

pub(crate) const DLR2_IS_ACCEPTED: &str = "DLR2 2 09:00:10.000 AI 131=R1|117=a1|297=0";

pub(crate) const INV1_IS_ACCEPTED: &str = "INV1 1 09:00:00.000 AI 131=A|297=0";

pub(crate) const INV1_IS_QUOTED: &str =
    "INV1 2 09:00:10.000 S 131=A|117=Q1|55=[N/A]|48=BONDA0000001|22=4|54=1|133=99.5|135=2000000|537=1|453=1|448=DLR2|447=D|452=35";

/// What they are sent where DLR2 quotes twice and then cancels, up to the end of the second quote.
const DLR2_QUOTES_TWICE: &str =
    "DLR2 1 09:00:00.000 R 131=R1|146=1|55=[N/A]|48=BONDA0000001|22=4|54=1|38=2000000|126=20250314-09:05:00.000|453=1|448=INV1|447=D|452=13
DLR2 2 09:00:10.000 AI 131=R1|117=a1|297=0
DLR2 3 09:00:20.000 AI 131=R1|117=a2|297=0
DLR2 4 09:00:30.000 AI 117=a2|297=17";

const INV1_IS_QUOTED_TWICE: &str = "INV1 1 09:00:00.000 AI 131=A|297=0
INV1 2 09:00:10.000 S 131=A|117=Q1|55=[N/A]|48=BONDA0000001|22=4|54=1|133=99.5|135=2000000|537=1|453=1|448=DLR2|447=D|452=35
INV1 3 09:00:20.000 AI 131=A|117=Q1|297=17
INV1 4 09:00:20.000 S 131=A|117=Q2|55=[N/A]|48=BONDA0000001|22=4|54=1|133=99.25|135=2000000|537=1|453=1|448=DLR2|447=D|452=35";

/// What they do in such a day.
const DLR2_QUOTED_TWICE_AND_CANCELLED: &str = "DLR2 1 In 09:00:10.000
DLR2 2 Post 09:00:10.000
DLR2 3 Relay 09:00:10.000
DLR2 4 In 09:00:20.000 4 withdrawn
DLR2 5 Post 09:00:20.000
DLR2 6 Relay 09:00:20.000
DLR2 7 In 09:00:30.000 5 withdrawn
DLR2 8 Unpost 09:00:30.000
DLR2 9 Gone 09:00:30.000";

const INV1_ASKED_AND_RESPONDED: &str = "INV1 1 In 09:00:00.000
INV1 2 Open 09:00:00.000
INV1 3 Show 09:00:00.000
INV1 4 Ready 09:00:00.000
INV1 5 In 09:01:00.000";

const REPLACED_THEN_CANCELLED: &[&str] = &[
    INV1_ASKS_DLR2,
    DLR2_QUOTES,
    DLR2_REPLACES,
    "say DLR2 T2 09:00:30 Z 298=5|117=a2",
    "say INV1 T8 09:01:00 AJ 693=h1|694=1|117=Q2",
];

/// The second quote of the second dealer is withdrawn while a hit of it stands before its word.
pub(crate) const WITHDRAWN_BEFORE_A_HIT: ForcedDay = ForcedDay {
    name: "a second quote is withdrawn before a hit",
    marks: &[
        "before INV1 In",
        "after INV1 Ready",
        "before DLR2 In",
        "after DLR2 In",
        "after DLR2 Relay",
        "before DLR2 In",
        "after DLR2 In",
        "after DLR2 Relay",
        "before INV1 In",
        "asks INV1",
        "before DLR2 In",
        "after DLR2 In",
        "goes_on INV1",
        "after INV1 Answer",
        "before DLR2 Unpost",
    ],
    lines: REPLACED_THEN_CANCELLED,
    sent: &[
        DLR2_QUOTES_TWICE,
        INV1_IS_QUOTED_TWICE,
        "INV1 5 09:01:00.000 AI 693=h1|131=A|117=Q2|297=5|300=4|58=Withdrawn",
        "INV1 6 09:00:30.000 AI 131=A|117=Q2|297=17",
    ],
    done: &[
        DLR2_QUOTED_TWICE_AND_CANCELLED,
        INV1_ASKED_AND_RESPONDED,
        "INV1 6 Hit 09:01:00.000 5 withdrawn",
        "INV1 7 Answer 09:01:00.000",
        "desk DLR2: INV1 3, DLR2 1, DLR2 4, DLR2 7",
        "desk INV1: INV1 1, DLR2 3, DLR2 6, INV1 5, INV1 7, DLR2 9",
        "room INV1 1: INV1 2, INV1 4, DLR2 2, DLR2 5, INV1 6, DLR2 8",
    ],
};

/// The second quote of the second dealer is out of the book when it is hit.
pub(crate) const GONE_BEFORE_A_HIT: ForcedDay = ForcedDay {
    name: "a second quote is out of the book before a hit",
    marks: &[
        "before INV1 In",
        "after INV1 Ready",
        "before DLR2 In",
        "after DLR2 Gone",
        "before INV1 In",
    ],
    lines: REPLACED_THEN_CANCELLED,
    sent: &[
        DLR2_QUOTES_TWICE,
        INV1_IS_QUOTED_TWICE,
        "INV1 5 09:00:30.000 AI 131=A|117=Q2|297=17",
        "INV1 6 09:01:00.000 AI 693=h1|131=A|117=Q2|297=5|300=4|58=Gone",
    ],
    done: &[
        DLR2_QUOTED_TWICE_AND_CANCELLED,
        INV1_ASKED_AND_RESPONDED,
        "INV1 6 Hit 09:01:00.000",
        "INV1 7 Answer 09:01:00.000",
        "desk DLR2: INV1 3, DLR2 1, DLR2 4, DLR2 7",
        "desk INV1: INV1 1, DLR2 3, DLR2 6, DLR2 9, INV1 5, INV1 7",
        "room INV1 1: INV1 2, INV1 4, DLR2 2, DLR2 5, DLR2 8, INV1 6",
    ],
};

/// A quote of the second dealer is hit while its cancel stands before the quote's word.
pub(crate) const HIT_BEFORE_A_CANCEL: ForcedDay = ForcedDay {
    name: "a quote of the second dealer is hit before its cancel",
    marks: &[
        "before INV1 In",
        "after INV1 Ready",
        "before DLR2 In",
        "after DLR2 Relay",
        "before DLR2 In",
        "asks DLR2",
        "before INV1 In",
        "after INV1 Hit",
        "goes_on DLR2",
    ],
    lines: &[
        INV1_ASKS_DLR2,
        DLR2_QUOTES,
        "say DLR2 T2 09:00:20 Z 298=5|117=a1",
        "say INV1 T8 09:01:00 AJ 693=h1|694=1|117=Q1",
    ],
    sent: &[
        DLR2_IS_SHOWN,
        DLR2_IS_ACCEPTED,
        "DLR2 3 09:00:20.000 AI 117=a1|297=5|300=4",
        "DLR2 4 09:01:00.000 AJ 693=N1|131=R1|117=a1|694=1|55=[N/A]|48=BONDA0000001|22=4|54=1|38=2000000|133=99.5",
        INV1_IS_ACCEPTED,
        INV1_IS_QUOTED,
        "INV1 3 09:01:00.000 AI 693=h1|131=A|117=Q1|297=0",
    ],
    done: &[
        "DLR2 1 In 09:00:10.000",
        "DLR2 2 Post 09:00:10.000",
        "DLR2 3 Relay 09:00:10.000",
        "DLR2 4 In 09:00:20.000 4 lifted",
        INV1_ASKED_AND_RESPONDED,
        "INV1 6 Hit 09:01:00.000 4 lifted",
        "INV1 7 Answer 09:01:00.000",
        "INV1 8 Tell 09:01:00.000",
        "desk DLR2: INV1 3, DLR2 1, DLR2 4, INV1 8",
        "desk INV1: INV1 1, DLR2 3, INV1 5, INV1 7",
        "room INV1 1: INV1 2, INV1 4, DLR2 2, INV1 6",
    ],
};
