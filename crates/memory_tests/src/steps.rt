//! The steps of a day: desks, a room and the words.
use super::lines::{Line, leaves};
use super::values::{ask, at, name, offer, response};
use case_lines::VENUE;
use dealer_desk::DealerDesk;
use fix_fields::{Memory, Moment};
use investor_desk::InvestorDesk;
use market_terms::{AskedDealers, Close, HitRefusal, Reply, RoomRef};
use quote_word::{PlainWords, Settled, Words};
use request_room::Room;
use std::alloc::Global;
use std::process::Abort;
use std::test::Fail;
use venue_config::read_config;
use venue_rows::VenueConfig;
use venue_steps::{
    Duties, do_answer, do_close, do_decline, do_declined, do_drop, do_expire, do_gone, do_hit,
    do_open, do_pass, do_post, do_ready, do_relay, do_show, do_tell, do_unpost, own_dealer,
    own_investor,
};

/// The room of the first request of INV1.
const ROOM: RoomRef = RoomRef { investor: 2, n: 1 };

/// A step, and what it is given beside its place and its moment.
enum Step {
    /// A message of DLR1.
    First(&'static [u8]),
    /// A message of DLR2.
    Second(&'static [u8]),
    /// A message of INV1.
    Investor(&'static [u8]),
    /// The dealers.
    Open(&'static [u16]),
    /// The dealer, 0 or 1, and the number of the request.
    Show(u16, u32),
    Ready,
    /// The dealer, its name, the word and the price.
    Post(u16, &'static str, u32, u32),
    /// The request, the dealer's name, the word and the price.
    Relay(u32, &'static str, u32, u32),
    /// The dealer and the word.
    Unpost(u16, u32),
    /// The request and the word.
    Gone(u32, u32),
    /// The dealer.
    Decline(u16),
    /// The request and the dealer's name.
    Declined(u32, &'static str),
    /// The QuoteRespID (693), the number of the quote, and its word.
    Hit(&'static str, u64, u32),
    /// The QuoteRespID (693).
    Pass(&'static str),
    Expire,
    /// The request, the QuoteRespID (693), the number of the quote or 0 for a pass, and the reply.
    Answer(u32, &'static str, u64, Reply),
    /// The request.
    Close(u32),
    /// The dealer, 0 or 1, the number of the request, and how it ended.
    Tell(u16, u32, Close),
    /// How many quotes DLR1 had when it cancelled all.
    Drop(u32),
}

/// A step at a moment, in seconds behind 09:00, and what it leaves.
type Turn = (u32, Step, &'static [Line]);

/// INV1 asks DLR1 and DLR2 for 2,000,000 of BONDA0000001, until 09:05.
const ASKS: &[u8] = b"8=FIXT.1.1\x019=175\x0135=R\x0149=INV1\x0156=VENUE\x0134=1\x01\
    52=20250314-09:00:00\x0150=T8\x01131=A\x01146=1\x0148=BONDA0000001\x0122=4\x01\
    54=1\x0138=2000000\x01126=20250314-09:05:00\x01453=2\x01448=DLR1\x01447=D\x01\
    452=35\x01448=DLR2\x01447=D\x01452=35\x0110=133\x01";

/// DLR1 quotes 99.50390625.
const FIRST_QUOTES: &[u8] = b"8=FIXT.1.1\x019=105\x0135=S\x0149=DLR1\x0156=VENUE\x0134=1\x01\
    52=20250314-09:00:00\x0150=T1\x01117=a1\x01131=R1\x0148=BONDA0000001\x0122=4\x01\
    133=99.50390625\x0110=100\x01";

/// DLR2 quotes 99.515625.
const SECOND_QUOTES: &[u8] = b"8=FIXT.1.1\x019=103\x0135=S\x0149=DLR2\x0156=VENUE\x0134=1\x01\
    52=20250314-09:00:00\x0150=T2\x01117=b1\x01131=R1\x0148=BONDA0000001\x0122=4\x01\
    133=99.515625\x0110=255\x01";

/// DLR1 cancels its quote.
const FIRST_CANCELS: &[u8] = b"8=FIXT.1.1\x019=67\x0135=Z\x0149=DLR1\x0156=VENUE\x0134=2\x01\
    52=20250314-09:00:00\x0150=T1\x01298=5\x01117=a1\x0110=187\x01";

/// It quotes once more, 99.5.
const FIRST_QUOTES_AGAIN: &[u8] = b"8=FIXT.1.1\x019=98\x0135=S\x0149=DLR1\x0156=VENUE\x0134=3\x01\
    52=20250314-09:00:00\x0150=T1\x01117=a2\x01131=R1\x0148=BONDA0000001\x0122=4\x01\
    133=99.5\x0110=217\x01";

/// It cancels all.
const FIRST_CANCELS_ALL: &[u8] = b"8=FIXT.1.1\x019=60\x0135=Z\x0149=DLR1\x0156=VENUE\x0134=4\x01\
    52=20250314-09:00:00\x0150=T1\x01298=4\x0110=076\x01";

/// INV1 hits the quote of DLR2.
const HITS_THE_SECOND: &[u8] = b"8=FIXT.1.1\x019=75\x0135=AJ\x0149=INV1\x0156=VENUE\x0134=2\x01\
    52=20250314-09:00:00\x0150=T8\x01693=h2\x01117=Q2\x01694=1\x0110=100\x01";

/// DLR1 declines.
const FIRST_DECLINES: &[u8] = b"8=FIXT.1.1\x019=69\x0135=AG\x0149=DLR1\x0156=VENUE\x0134=5\x01\
    52=20250314-09:00:00\x0150=T1\x01131=R1\x01658=10\x0110=007\x01";

/// INV1 asks two dealers, and both quote.
const QUOTED: &[Turn] = &[
    (0, Step::Investor(ASKS), &[("open", 1, 2, 2_000_000)]),
    (
        0,
        Step::Open(&[0, 1]),
        &[
            ("show", 1, 0, 2_000_000),
            ("show", 1, 1, 2_000_000),
            ("ready", 1, 0, 0),
        ],
    ),
    (0, Step::Show(0, 1), &[]),
    (0, Step::Show(1, 1), &[]),
    (0, Step::Ready, &[]),
    (10, Step::First(FIRST_QUOTES), &[("post", 1, 1, 25_473)]),
    (
        10,
        Step::Post(0, "DLR1", 0, 25_473),
        &[("relay", 1, 0, 25_473)],
    ),
    (10, Step::Relay(1, "DLR1", 0, 25_473), &[]),
    (20, Step::Second(SECOND_QUOTES), &[("post", 1, 1, 25_476)]),
    (
        20,
        Step::Post(1, "DLR2", 4, 25_476),
        &[("relay", 1, 4, 25_476)],
    ),
    (20, Step::Relay(1, "DLR2", 4, 25_476), &[]),
];

/// DLR1 cancels its quote: its word is withdrawn.
const CANCELLED: &[Turn] = &[(30, Step::First(FIRST_CANCELS), &[("unpost", 1, 1, 0)])];

/// It quotes once more, and cancels all.
const QUOTES_AGAIN: &[Turn] = &[
    (
        40,
        Step::First(FIRST_QUOTES_AGAIN),
        &[("post", 1, 2, 25_472)],
    ),
    (50, Step::First(FIRST_CANCELS_ALL), &[("drop", 0, 2, 0)]),
];

/// The second quote is dropped.
const DROPPED: &[Turn] = &[(50, Step::Drop(2), &[("unpost", 1, 2, 0)])];

/// INV1 hits the quote of DLR2.
const HITS: &[Turn] = &[(60, Step::Investor(HITS_THE_SECOND), &[("hit", 1, 2, 4)])];

/// The room awards, where the withdrawn quote still stands as the cover. It is the fifth event
/// there, for which the room takes memory.
const AWARDED: &[Turn] = &[(
    60,
    Step::Hit("h2", 2, 4),
    &[("awarded", 1, 2, 0), ("tell", 1, 0, 4), ("tell", 1, 1, 1)],
)];

/// The first quote is taken out of the room, which has ended, and DLR1 declines before it is told.
/// All are told, INV1 passes too late, and the room is swept.
const ENDED: &[Turn] = &[
    (30, Step::Unpost(0, 0), &[]),
    (30, Step::Gone(1, 0), &[]),
    (61, Step::First(FIRST_DECLINES), &[("decline", 1, 0, 0)]),
    (61, Step::Decline(0), &[]),
    (61, Step::Declined(1, "DLR1"), &[]),
    (60, Step::Answer(1, "h2", 2, Reply::Awarded), &[]),
    (60, Step::Tell(0, 1, Close::Cover), &[]),
    (60, Step::Tell(1, 1, Close::Hit), &[]),
    (70, Step::Pass("p1"), &[("not open", 1, 0, 0)]),
    (
        70,
        Step::Answer(1, "p1", 0, Reply::Refused(HitRefusal::NotOpen)),
        &[],
    ),
    (300, Step::Expire, &[]),
    (300, Step::Close(1), &[]),
];

/// A part of the day, and the word that its step asks, with how it is settled.
type Part = (&'static [Turn], Option<(u32, Settled)>);

const DAY: &[Part] = &[
    (QUOTED, None),
    (CANCELLED, Some((0, Settled::Withdrawn))),
    (QUOTES_AGAIN, None),
    (DROPPED, Some((1, Settled::Withdrawn))),
    (HITS, None),
    (AWARDED, Some((4, Settled::Lifted))),
    (ENDED, None),
];

/// The desks of a venue, and the room of one request.
#[derive(Drop)]
struct Floor {
    /// The desk of DLR1, whose words stand from 0 on.
    first: DealerDesk,
    /// The desk of DLR2, whose words stand from 4 on.
    second: DealerDesk,
    /// The desk of INV1.
    investor: InvestorDesk,
    /// The room.
    room: Room,
}

/// The venue at the start of the day, or none where memory is refused.
fn try_floor(alloc: Global) -> Option<Floor> {
    let config = read_config(alloc, VENUE).ok()?;
    let first = dealer(alloc, &config, 0)?;
    let second = dealer(alloc, &config, 1)?;
    if config.investor(ROOM.investor).is_none() {
        return None;
    }
    let investor = InvestorDesk::new(alloc, &config, ROOM.investor).ok()?;
    let room = Room::vacant(alloc);
    Some(Floor {
        first,
        second,
        investor,
        room,
    })
}

/// The venue, at the second try where memory is refused at the first.
fn new_floor(alloc: Global) -> Option<Floor> {
    if let Some(floor) = try_floor(alloc) {
        return Some(floor);
    }
    try_floor(alloc)
}

/// The desk of a dealer.
fn dealer(alloc: Global, config: &VenueConfig, firm: u16) -> Option<DealerDesk> {
    let row = config.dealer(firm)?.copy();
    DealerDesk::new(alloc, *config.date(), row).ok()
}

/// What the places show: how many events at the desks of DLR1, DLR2 and INV1 and in the room, and
/// how many messages at each of the desks.
fn seen(floor: &Floor) -> [usize; 7] {
    [
        floor.first.events().len(),
        floor.second.events().len(),
        floor.investor.events().len(),
        floor.room.events().len(),
        floor.first.sent().len(),
        floor.second.sent().len(),
        floor.investor.sent().len(),
    ]
}

/// Asserts that a word is settled so, where one is asked: the other exchange comes too late.
fn is_settled<W: Words>(rt: &impl Abort, words: &mut W, asked: Option<(u32, Settled)>) {
    let Some((word, settled)) = asked else {
        return;
    };
    assert!(rt; word < words.len(), "the words");
    match settled {
        Settled::Withdrawn => assert!(rt; words.lift(word) == settled, "it was not withdrawn"),
        Settled::Lifted => assert!(rt; words.withdraw(word) == settled, "it was not lifted"),
    }
}

/// Does a step, and where memory was refused looks at the places, and at the word that it asks, and
/// does it again.
fn does_again(
    rt: &impl Abort,
    floor: &mut Floor,
    words: &mut PlainWords,
    moment: Moment,
    step: &Step,
    asked: Option<(u32, Settled)>,
) -> Result<Duties, Memory> {
    let before = seen(floor);
    let left = does(rt, floor, words, moment, step);
    if left.is_ok() {
        return left;
    }
    assert!(rt; seen(floor) == before, "a refused step changed a place");
    is_settled(rt, words, asked);
    does(rt, floor, words, moment, step)
}

/// The moment so many seconds behind 09:00.
fn behind_nine(rt: &impl Abort, seconds: u32) -> Moment {
    at(rt, seconds.saturating_mul(1_000).saturating_add(32_400_000))
}

/// Does the steps of a part.
fn plays(
    rt: &impl Abort,
    floor: &mut Floor,
    words: &mut PlainWords,
    part: &Part,
) -> Result<(), Fail> {
    let (turns, asked) = part;
    for (seconds, step, wanted) in *turns {
        let moment = behind_nine(rt, *seconds);
        let left = does_again(rt, floor, words, moment, step, *asked);
        leaves(rt, left, ROOM.investor, moment, wanted)?;
    }
    Ok(())
}

#[test]
fn a_refused_step_leaves_its_place(rt: HostRuntime) -> Result<(), Fail> {
    let mut words = match PlainWords::new(rt.alloc(), 8) {
        Ok(words) => words,
        Err(_) => PlainWords::new(rt.alloc(), 8)?,
    };
    let mut floor = new_floor(rt.alloc()).ok_or("a venue")?;
    for part in DAY {
        plays(&rt, &mut floor, &mut words, part)?;
    }
    assert!(rt; seen(&floor) == [8, 3, 9, 9, 7, 3, 8], "what was done");
    Ok(())
}

/// Does a step.
fn does<W: Words>(
    rt: &impl Abort,
    floor: &mut Floor,
    words: &mut W,
    moment: Moment,
    step: &Step,
) -> Result<Duties, Memory> {
    match step {
        Step::First(bytes) => own_dealer(&mut floor.first, words, 0, moment, bytes),
        Step::Second(bytes) => own_dealer(&mut floor.second, words, 4, moment, bytes),
        Step::Drop(last) => do_drop(&mut floor.first, words, 0, *last, moment),
        Step::Hit(id, quote, word) => {
            let response = response(rt, id, *quote);
            do_hit(&mut floor.room, words, ROOM, response, *word, moment)
        }
        Step::Show(0, n) => do_show(&mut floor.first, room_of(*n), ask(rt), moment),
        Step::Show(_, n) => do_show(&mut floor.second, room_of(*n), ask(rt), moment),
        Step::Tell(0, n, close) => do_tell(&mut floor.first, room_of(*n), *close, moment),
        Step::Tell(_, n, close) => do_tell(&mut floor.second, room_of(*n), *close, moment),
        other => does_elsewhere(rt, floor, moment, other),
    }
}

/// Does a step that is at no dealer's desk, and asks no word.
fn does_elsewhere(
    rt: &impl Abort,
    floor: &mut Floor,
    moment: Moment,
    step: &Step,
) -> Result<Duties, Memory> {
    let room = &mut floor.room;
    match step {
        Step::Open(named) => {
            let dealers = AskedDealers::new(named).expect(rt, "dealers");
            do_open(room, ROOM, ask(rt), dealers, moment)
        }
        Step::Ready => do_ready(room),
        Step::Post(dealer, name, word, price) => {
            do_post(room, ROOM, *dealer, offer(rt, name, *word, *price), moment)
        }
        Step::Unpost(dealer, word) => do_unpost(room, ROOM, *dealer, *word, moment),
        Step::Decline(dealer) => do_decline(room, ROOM, *dealer, moment),
        Step::Pass(id) => do_pass(room, ROOM, response(rt, id, 0), moment),
        Step::Expire => do_expire(room, ROOM, moment),
        other => does_at_investor(rt, &mut floor.investor, moment, other),
    }
}

/// Does a step at the desk of INV1.
fn does_at_investor(
    rt: &impl Abort,
    desk: &mut InvestorDesk,
    moment: Moment,
    step: &Step,
) -> Result<Duties, Memory> {
    match step {
        Step::Investor(bytes) => own_investor(desk, moment, bytes),
        Step::Relay(n, dealer, word, price) => {
            do_relay(desk, *n, &offer(rt, dealer, *word, *price), moment)
        }
        Step::Gone(n, word) => do_gone(desk, *n, *word, moment),
        Step::Declined(n, dealer) => do_declined(desk, *n, name(rt, dealer), moment),
        Step::Answer(n, id, quote, reply) => {
            do_answer(desk, *n, &response(rt, id, *quote), *reply, moment)
        }
        Step::Close(n) => do_close(desk, *n, moment),
        _ => Ok(Duties::new(desk.alloc())),
    }
}

/// The room of a request of INV1.
fn room_of(n: u32) -> RoomRef {
    RoomRef {
        investor: ROOM.investor,
        n,
    }
}
