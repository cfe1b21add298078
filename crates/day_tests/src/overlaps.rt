//! Days whose messages no schedule changes, one of them with sessions that a gate makes overlap.
use super::fixtures::{Open, sends};
use super::flags::Flag;
use recorded_days::Kind;
use session_worker::{Gate, Point};
use std::test::Fail;
use step_replay::Actor;

/// Holds DLR1 at its first exchange until DLR2's message was taken, which comes while DLR1 stands
/// there; and the first message of each until it was shown its request.
#[derive(Drop)]
struct Overlap {
    first_shown: Flag,
    second_shown: Flag,
    asked: Flag,
    taken: Flag,
    ran_out: Flag,
}

impl Overlap {
    fn hold(&self, flag: &Flag) {
        if !flag.wait() {
            self.ran_out.raise();
        }
    }
}

const DLR1: u16 = 0;

const DLR2: u16 = 1;

const INV1: u16 = 3;

const INV2: u16 = 4;

impl Gate for Overlap {
    fn at(&self, point: Point) {
        match point {
            Point::Before(Actor::Firm(DLR1), Kind::In) => self.hold(&self.first_shown),
            Point::Before(Actor::Firm(DLR2), Kind::In) => {
                self.hold(&self.second_shown);
                self.hold(&self.asked);
            }
            Point::Asked(Actor::Firm(DLR1)) => {
                self.asked.raise();
                self.hold(&self.taken);
            }
            Point::After(Actor::Firm(DLR2), Kind::In) => self.taken.raise(),
            Point::After(Actor::Firm(INV1), Kind::Show) => self.first_shown.raise(),
            Point::After(Actor::Firm(INV2), Kind::Show) => self.second_shown.raise(),
            _ => (),
        }
    }
}

const TWO_REQUESTS: &str =
    "say INV1 T8 09:00:00 R 131=A|146=1|48=BONDA0000001|22=4|54=1|38=2000000|126=20250314-09:05:00|453=1|448=DLR1|447=D|452=35
say INV2 T9 09:00:00 R 131=B|146=1|48=BONDA0000001|22=4|54=1|38=2000000|126=20250314-09:05:00|453=1|448=DLR2|447=D|452=35
say DLR1 T1 09:00:10 S 117=a1|131=R1|55=[N/A]|48=BONDA0000001|22=4|54=1|38=2000000|133=99.5
say DLR1 T1 09:00:20 Z 298=5|117=a1
say DLR2 T2 09:00:10 S 117=b1|131=R1|55=[N/A]|48=BONDA0000001|22=4|54=1|38=2000000|133=99.5
";

// DLR1's quote is accepted and withdrawn, DLR2's is accepted, each by the dealer's own numbers.
const TWO_REQUESTS_ANSWERED: &str =
    "DLR1 1 09:00:00.000 R 131=R1|146=1|55=[N/A]|48=BONDA0000001|22=4|54=1|38=2000000|126=20250314-09:05:00.000|453=1|448=INV1|447=D|452=13
DLR1 2 09:00:10.000 AI 131=R1|117=a1|297=0
DLR1 3 09:00:20.000 AI 117=a1|297=17
DLR2 1 09:00:00.000 R 131=R1|146=1|55=[N/A]|48=BONDA0000001|22=4|54=1|38=2000000|126=20250314-09:05:00.000|453=1|448=INV2|447=D|452=13
DLR2 2 09:00:10.000 AI 131=R1|117=b1|297=0
INV1 1 09:00:00.000 AI 131=A|297=0
INV1 2 09:00:10.000 S 131=A|117=Q1|55=[N/A]|48=BONDA0000001|22=4|54=1|133=99.5|135=2000000|537=1|453=1|448=DLR1|447=D|452=35
INV1 3 09:00:20.000 AI 131=A|117=Q1|297=17
INV2 1 09:00:00.000 AI 131=B|297=0
INV2 2 09:00:10.000 S 131=B|117=Q1|55=[N/A]|48=BONDA0000001|22=4|54=1|133=99.5|135=2000000|537=1|453=1|448=DLR2|447=D|452=35
";

#[test]
fn sessions_overlap(rt: HostRuntime) -> Result<(), Fail> {
    let gate = Overlap {
        first_shown: Flag::new(),
        second_shown: Flag::new(),
        asked: Flag::new(),
        taken: Flag::new(),
        ran_out: Flag::new(),
    };
    sends(&rt, TWO_REQUESTS, &gate, TWO_REQUESTS_ANSWERED)?;
    assert!(rt; !gate.ran_out.is_up(), "no hold runs out");
    Ok(())
}

/// Ten messages with nothing shown: a sequence number out of order, one that is not readable, an
/// unknown trader, an unknown type, a field twice, an empty one, one left out, a number used again,
/// a cancel of another type and one of an unknown quote.
const SESSION_FAULTS: &str = "say DLR1 T1 09:00:00 Z 34=2|298=5|117=x
say DLR1 T1 09:00:01 Z 34=x|298=5|117=x
say DLR1 T7 09:00:02 Z 298=5|117=x
say DLR1 T1 09:00:03 R 131=q
say DLR1 T1 09:00:04 Z 298=5|117=x|117=y
say DLR1 T1 09:00:05 Z 298=5|117=
say DLR1 T1 09:00:06 Z 298=5
say DLR1 T1 09:00:07 Z 34=5|298=5|117=x
say DLR1 T1 09:00:08 Z 298=1|117=x
say DLR1 T1 09:00:09 Z 298=5|117=x
";

/// What DLR1 is sent for them: the second of them is not answered.
const SESSION_FAULTS_ANSWERS: &str = "DLR1 1 09:00:00.000 3 45=2|371=34|372=Z|373=5
DLR1 2 09:00:02.000 3 45=1|371=50|372=Z|373=5
DLR1 3 09:00:03.000 3 45=2|371=35|372=R|373=11
DLR1 4 09:00:04.000 3 45=3|371=117|372=Z|373=13
DLR1 5 09:00:05.000 3 45=4|371=117|372=Z|373=4
DLR1 6 09:00:06.000 3 45=5|371=117|372=Z|373=1
DLR1 7 09:00:07.000 3 45=5|371=34|372=Z|373=5
DLR1 8 09:00:08.000 AI 117=x|297=5|300=99
DLR1 9 09:00:09.000 AI 117=x|297=9
";

#[test]
fn one_session_answers_its_dealer(rt: HostRuntime) -> Result<(), Fail> {
    sends(&rt, SESSION_FAULTS, &Open, SESSION_FAULTS_ANSWERS)?;
    // a sweep of a vacant room sends nothing
    sends(&rt, "expire INV1 1 09:06:00\n", &Open, "")
}
