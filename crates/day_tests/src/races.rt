//! Races between a dealer, its investor and the clock, each forced by a gate. Each day is woven into
//! steps that send every firm the same bytes, and each dealer's list gives the dealer's.
use super::fixtures::{VENUE, are_views, day_text, is_woven, runs};
use super::flags::Flag;
use recorded_days::Kind;
use session_worker::{Gate, Point};
use std::process::Abort;
use std::sync::Wait;
use std::sync::atomic::{AtomicU64, Ordering};
use std::test::Fail;
use std::thread::Threads;
use step_replay::Actor;

const DLR1: u16 = 0;

const INV1: u16 = 3;

/// A place at which one of the racing actors may stand.
#[derive(Clone, Copy, PartialEq)]
enum Place {
    /// The dealer's first message, a quote, is about to come.
    Quotes,
    /// Its second is about to come: a cancel or a replacement.
    Comes,
    /// Its second has come.
    Came,
    /// It is about to ask the word of its quote.
    DealerAsks,
    /// The investor has shown the dealer its request.
    RequestShown,
    /// The investor's second message is about to come: a hit.
    Hits,
    /// The investor's hit is about to reach the room.
    BeforeHit,
    /// It is about to ask the word of the quote.
    InvestorAsks,
    /// It is done.
    AfterHit,
    /// The room is about to be made ready.
    BeforeReady,
    /// The dealer has shown the investor its quote.
    QuoteShown,
    /// The clock is about to sweep the room.
    BeforeSweep,
    /// It has swept it.
    AfterSweep,
    /// None of these.
    Elsewhere,
}

/// Who stands where until what: the place at which an actor is held, until another has been at the
/// second one, who for its part is held at the third one until the first stands at its place.
#[derive(Clone, Copy)]
struct Race(Place, Place, Place);

/// A gate that forces a race. It holds a dealer's quote until the request was shown, and a hit until
/// the quote was.
#[derive(Drop)]
struct Starter {
    race: Race,
    quotes: AtomicU64,
    asks: AtomicU64,
    request_shown: Flag,
    quote_shown: Flag,
    standing: Flag,
    passed: Flag,
    ran_out: Flag,
}

/// Counts one more, where one thread alone counts, and answers how many there are.
fn count(counter: &AtomicU64) -> u64 {
    let more = counter.load(Ordering::SeqCst).wrapping_add(1);
    counter.store(more, Ordering::SeqCst);
    more
}

impl Starter {
    fn new(race: Race) -> Self {
        Starter {
            race,
            quotes: AtomicU64::new(0),
            asks: AtomicU64::new(0),
            request_shown: Flag::new(),
            quote_shown: Flag::new(),
            standing: Flag::new(),
            passed: Flag::new(),
            ran_out: Flag::new(),
        }
    }

    /// Which place a point is.
    fn place(&self, point: Point) -> Place {
        match point {
            Point::Before(by, kind) => self.place_before(by, kind),
            Point::After(by, kind) => self.place_after(by, kind),
            Point::Asked(Actor::Firm(DLR1)) => Place::DealerAsks,
            Point::Asked(Actor::Firm(INV1)) => Place::InvestorAsks,
            Point::Asked(_) => Place::Elsewhere,
        }
    }

    fn place_before(&self, by: Actor, kind: Kind) -> Place {
        match (by, kind) {
            (Actor::Firm(DLR1), Kind::In) if count(&self.quotes) == 1 => Place::Quotes,
            (Actor::Firm(DLR1), Kind::In) => Place::Comes,
            (Actor::Firm(INV1), Kind::In) if count(&self.asks) == 2 => Place::Hits,
            (Actor::Firm(INV1), Kind::Hit) => Place::BeforeHit,
            (Actor::Firm(INV1), Kind::Ready) => Place::BeforeReady,
            (Actor::Clock, Kind::Expire) => Place::BeforeSweep,
            _ => Place::Elsewhere,
        }
    }

    fn place_after(&self, by: Actor, kind: Kind) -> Place {
        match (by, kind) {
            (Actor::Firm(DLR1), Kind::In) if self.quotes.load(Ordering::SeqCst) == 2 => Place::Came,
            (Actor::Firm(DLR1), Kind::Relay) => Place::QuoteShown,
            (Actor::Firm(INV1), Kind::Show) => Place::RequestShown,
            (Actor::Firm(INV1), Kind::Hit) => Place::AfterHit,
            (Actor::Clock, Kind::Expire) => Place::AfterSweep,
            _ => Place::Elsewhere,
        }
    }

    /// Holds whoever stands here until a flag is up.
    fn hold(&self, flag: &Flag) {
        if !flag.wait() {
            self.ran_out.raise();
        }
    }
}

impl Gate for Starter {
    fn at(&self, point: Point) {
        let place = self.place(point);
        match place {
            Place::Quotes => self.hold(&self.request_shown),
            Place::Hits => self.hold(&self.quote_shown),
            Place::RequestShown => self.request_shown.raise(),
            Place::QuoteShown => self.quote_shown.raise(),
            _ => (),
        }
        let Race(held, until, other) = self.race;
        if place == other {
            self.hold(&self.standing);
        }
        if place == held {
            self.standing.raise();
            self.hold(&self.passed);
        }
        if place == until {
            self.passed.raise();
        }
    }
}

// Each day begins with a request of INV1 to DLR1, and DLR1's quote a1 on it.
const ASKED_AND_QUOTED: &str =
    "say INV1 T8 09:00:00 R 131=A|146=1|48=BONDA0000001|22=4|54=1|38=2000000|126=20250314-09:05:00|453=1|448=DLR1|447=D|452=35
say DLR1 T1 09:00:10 S 117=a1|131=R1|55=[N/A]|48=BONDA0000001|22=4|54=1|38=2000000|133=99.5
";

const DLR1_IS_SHOWN_AND_ACCEPTED: &str =
    "DLR1 1 09:00:00.000 R 131=R1|146=1|55=[N/A]|48=BONDA0000001|22=4|54=1|38=2000000|126=20250314-09:05:00.000|453=1|448=INV1|447=D|452=13
DLR1 2 09:00:10.000 AI 131=R1|117=a1|297=0
";

const INV1_IS_ACCEPTED_AND_QUOTED: &str = "INV1 1 09:00:00.000 AI 131=A|297=0
INV1 2 09:00:10.000 S 131=A|117=Q1|55=[N/A]|48=BONDA0000001|22=4|54=1|133=99.5|135=2000000|537=1|453=1|448=DLR1|447=D|452=35
";

const HITS: &str = "say INV1 T8 09:01:00 AJ 693=h1|694=1|117=Q1\n";

const CANCELS: &str = "say DLR1 T1 09:00:20 Z 298=5|117=a1\n";

const CANCELS_ALL: &str = "say DLR1 T1 09:00:20 Z 298=4\n";

const REPLACES: &str =
    "say DLR1 T1 09:00:20 S 117=a2|131=R1|55=[N/A]|48=BONDA0000001|22=4|54=1|38=2000000|133=99.25\n";

const EXPIRES: &str = "expire INV1 1 09:05:00\n";

const TRADED: &str =
    "09:01:00.000 AJ 693=N1|131=R1|117=a1|694=1|55=[N/A]|48=BONDA0000001|22=4|54=1|38=2000000|133=99.5";

const EXPIRED: &str =
    "09:05:00.000 AJ 693=N1|131=R1|694=3|55=[N/A]|48=BONDA0000001|22=4|54=1|38=2000000";

const HIT_ACCEPTED: &str = "09:01:00.000 AI 693=h1|131=A|117=Q1|297=0";

const HIT_REFUSED: &str = "09:01:00.000 AI 693=h1|131=A|117=Q1|297=5|300=4|58=Withdrawn";

const HIT_TOO_LATE: &str = "09:01:00.000 AI 693=h1|131=A|117=Q1|297=5|300=4|58=NotOpen";

const REQUEST_EXPIRED: &str = "09:05:00.000 AI 131=A|297=7";

const QUOTE_GONE: &str = "09:00:20.000 AI 131=A|117=Q1|297=17";

const SECOND_QUOTE: &str =
    "09:00:20.000 S 131=A|117=Q2|55=[N/A]|48=BONDA0000001|22=4|54=1|133=99.25|135=2000000|537=1|453=1|448=DLR1|447=D|452=35";

/// What DLR1 and INV1 are sent behind the first messages of the day: lines without the firm's name
/// and number. Where two actors tell the investor, either may come first.
#[derive(Clone, Copy)]
struct Ends {
    dealer: &'static [&'static str],
    investor: &'static [&'static str],
    or_else: &'static [&'static str],
}

/// The day's text, where it ends so.
fn ending<T: AllocGlobal>(rt: &T, dealer: &[&str], investor: &[&str]) -> Result<String, Fail> {
    let mut text = String::new(rt.alloc());
    text.push_str(DLR1_IS_SHOWN_AND_ACCEPTED)?;
    push_lines(rt, &mut text, "DLR1", dealer)?;
    text.push_str(INV1_IS_ACCEPTED_AND_QUOTED)?;
    push_lines(rt, &mut text, "INV1", investor)?;
    Ok(text)
}

/// Puts the lines of a firm, numbered from 3, behind a text.
fn push_lines<T: AllocGlobal>(
    rt: &T,
    text: &mut String,
    firm: &str,
    lines: &[&str],
) -> Result<(), Fail> {
    let mut number: u32 = 3;
    for line in lines {
        let moment_and_message = *line;
        let whole = format!(in rt.alloc(); "{firm} {number} {moment_and_message}\n")?;
        text.push_str(whole.as_str())?;
        number = number.wrapping_add(1);
    }
    Ok(())
}

/// Looks whether a text is that of a day that ends so.
fn ends_so<T: Abort + AllocGlobal>(rt: &T, text: &str, ends: Ends) -> Result<(), Fail> {
    let one = ending(rt, ends.dealer, ends.investor)?;
    if text == one.as_str() {
        return Ok(());
    }
    let other = ending(rt, ends.dealer, ends.or_else)?;
    assert_eq!(rt; text, other.as_str());
    Ok(())
}

/// Runs a race over these lines of the day, and looks what it ends in.
fn race_ends<T: Threads + Wait + Sync + Abort + AllocGlobal>(
    rt: &T,
    race: Race,
    lines: &[&str],
    ends: Ends,
) -> Result<(), Fail> {
    let gate = Starter::new(race);
    let mut day = format!(in rt.alloc(); "{VENUE}{ASKED_AND_QUOTED}")?;
    for line in lines {
        day.push_str(*line)?;
    }
    let (config, record) = runs(rt, day.as_str(), &gate)?;
    assert!(rt; !gate.ran_out.is_up(), "no hold runs out");
    let text = day_text(rt, &config, &record)?;
    ends_so(rt, text.as_str(), ends)?;
    is_woven(rt, &config, &record)?;
    are_views(rt, &config, &record)
}

/// The investor, about to ask the word, is held until the dealer's second message has come.
const DEALER_FIRST: Race = Race(Place::InvestorAsks, Place::Came, Place::Comes);

/// The dealer, about to ask the word, is held until the investor has hit.
const INVESTOR_FIRST: Race = Race(Place::DealerAsks, Place::AfterHit, Place::Hits);

/// The sweep is held until the investor has hit.
const HIT_BEFORE_SWEEP: Race = Race(Place::BeforeSweep, Place::AfterHit, Place::Hits);

/// The hit is held until the clock has swept.
const SWEEP_BEFORE_HIT: Race = Race(Place::BeforeHit, Place::AfterSweep, Place::BeforeSweep);

/// The room is kept opening until the clock has swept.
const SWEEP_BEFORE_READY: Race = Race(Place::BeforeReady, Place::AfterSweep, Place::BeforeSweep);

/// A race, the lines of its day behind the quote, and what the firms are sent.
type Raced = (Race, &'static [&'static str], Ends);

const RACES: &[Raced] = &[
    // a cancel comes before a hit
    (
        DEALER_FIRST,
        &[CANCELS, HITS],
        Ends {
            dealer: &["09:00:20.000 AI 117=a1|297=17"],
            investor: &[HIT_REFUSED, QUOTE_GONE],
            or_else: &[QUOTE_GONE, HIT_REFUSED],
        },
    ),
    // a hit comes before a cancel
    (
        INVESTOR_FIRST,
        &[CANCELS, HITS],
        Ends {
            dealer: &["09:00:20.000 AI 117=a1|297=5|300=4", TRADED],
            investor: &[HIT_ACCEPTED],
            or_else: &[HIT_ACCEPTED],
        },
    ),
    // a hit comes before a replacement
    (
        INVESTOR_FIRST,
        &[REPLACES, HITS],
        Ends {
            dealer: &["09:00:20.000 AI 131=R1|117=a2|297=5|300=4", TRADED],
            investor: &[HIT_ACCEPTED],
            or_else: &[HIT_ACCEPTED],
        },
    ),
    // a replacement comes before a hit
    (
        DEALER_FIRST,
        &[REPLACES, HITS],
        Ends {
            dealer: &["09:00:20.000 AI 131=R1|117=a2|297=0"],
            investor: &[HIT_REFUSED, QUOTE_GONE, SECOND_QUOTE],
            or_else: &[QUOTE_GONE, SECOND_QUOTE, HIT_REFUSED],
        },
    ),
    // a hit comes before a cancel of all
    (
        INVESTOR_FIRST,
        &[CANCELS_ALL, HITS],
        Ends {
            dealer: &["09:00:20.000 AI 117=a1|297=5|300=4", TRADED],
            investor: &[HIT_ACCEPTED],
            or_else: &[HIT_ACCEPTED],
        },
    ),
    // a hit comes before a sweep
    (
        HIT_BEFORE_SWEEP,
        &[HITS, EXPIRES],
        Ends {
            dealer: &[TRADED],
            investor: &[HIT_ACCEPTED],
            or_else: &[HIT_ACCEPTED],
        },
    ),
    // a sweep comes before a hit
    (
        SWEEP_BEFORE_HIT,
        &[HITS, EXPIRES],
        Ends {
            dealer: &[EXPIRED],
            investor: &[HIT_TOO_LATE, REQUEST_EXPIRED],
            or_else: &[REQUEST_EXPIRED, HIT_TOO_LATE],
        },
    ),
    // a sweep of an opening room does nothing
    (
        SWEEP_BEFORE_READY,
        &[EXPIRES],
        Ends {
            dealer: &[],
            investor: &[],
            or_else: &[],
        },
    ),
];

#[test]
fn either_may_come_first(rt: HostRuntime) -> Result<(), Fail> {
    for (race, lines, ends) in RACES {
        race_ends(&rt, *race, lines, *ends)?;
    }
    Ok(())
}
