//! The steps of the venue.
mod at_investor;
mod at_room;
mod desks;

ghost use Rattle.std.specs.Prelude.{◌≡◌};

use crate::duties::{push_duties, push_sent};
use crate::floor::{Counts, Floor, INVESTOR, ROOM, counts_of, new_floor};
use crate::terms::{request, response};
use at_room::does_in_room;
use case_lines::{Call, CaseFault, Place, Words, close_of, frame_of, piped_bytes_of, push_line};
use dealer_desk::DealerDesk;
use desks::push_desk;
use fix_fields::{Memory, Moment};
use market_terms::RoomRef;
use quote_word::{Board, BoardPass, BoardSeen, PlainWords};
use std::alloc::Global;
use venue_steps::{Duties, do_drop, do_hit, do_show, do_tell, own_dealer, own_investor};

/// The desks of DLR1, DLR2 and INV1, the room of the first request of INV1, and a row of words, of
/// which there are none before the first call. The words of DLR1 stand from 0 on, those of DLR2
/// from 4 on. Its request is an offer of 2,000,000 of BONDA0000001, until 09:05.
///
/// A step answers `done` where one event came to one place, and `undone` where none did, then a
/// line for each duty that follows, and one for each message that a desk has sent.
///
/// | call | what it is |
/// |---|---|
/// | `words N`, `board N` | a new row of open words: in a list, or a board |
/// | `own FIRM MOMENT BODY` | a message comes, with a bar for SOH |
/// | `show FIRM MOMENT N`, `tell FIRM MOMENT N CLOSE` | the request N, and how it ended: `hit`, `expired`, `cover`, `away`, `pass` |
/// | `drop FIRM MOMENT LAST` | the next quote of a cancel of all |
/// | `open MOMENT DEALER ..`, `ready`, `expire MOMENT` | the room |
/// | `post MOMENT DEALER NAME WORD TICKS`, `unpost MOMENT DEALER WORD`, `decline MOMENT DEALER` | the room |
/// | `hit MOMENT ID QUOTE WORD`, `pass MOMENT ID` | the room |
/// | `relay MOMENT N NAME WORD TICKS`, `gone MOMENT N WORD`, `declined MOMENT N NAME` | the desk of INV1 |
/// | `answer MOMENT N ID QUOTE REPLY`, `close MOMENT N` | the desk of INV1; QUOTE is `pass` where a pass is answered |
/// | `seen` | how many events each place has, and how many messages each desk has sent |
/// | `desk FIRM` | the exposure of a dealer and the state of each of its quotes, or that of each request of INV1 |
#[derive(Drop)]
pub(crate) struct StepPlace {
    floor: Floor,
    row: Row,
}

/// The words that steps ask.
#[derive(Drop)]
enum Row {
    Plain(PlainWords),
    Shared(SharedRow),
}

/// A board, with the token of its opening.
#[derive(Drop)]
struct SharedRow {
    board: Board,
    opening: BoardSeen,
    ghost ours: { opening.board ≡ board },
}

impl SharedRow {
    /// A board of open words.
    fn new(alloc: Global, count: u32) -> Result<Self, CaseFault> {
        let (board, opening) = Board::open(alloc, count)?;
        Ok(SharedRow { board, opening })
    }

    /// Its words, for one call.
    fn pass(&self) -> BoardPass<'_> {
        BoardPass::new(&self.board, self.opening.again())
    }
}

impl Place for StepPlace {
    fn call(&mut self, call: &mut Call<'_>) -> Result<(), CaseFault> {
        match call.name {
            "words" => self.plain(call.alloc, &mut call.words),
            "board" => self.shared(call.alloc, &mut call.words),
            "seen" => push_seen(&mut call.answer, &counts_of(&self.floor)),
            "desk" => push_desk(&mut call.answer, &self.floor, call.words.word()?),
            _ => self.step(call),
        }
    }
}

impl StepPlace {
    /// Before the first call.
    pub(crate) fn new(alloc: Global) -> Result<Self, CaseFault> {
        let row = PlainWords::new(alloc, 0)?;
        let floor = new_floor(alloc)?;
        Ok(StepPlace {
            floor,
            row: Row::Plain(row),
        })
    }

    fn plain(&mut self, alloc: Global, words: &mut Words) -> Result<(), CaseFault> {
        let count = words.short_number()?;
        let row = PlainWords::new(alloc, count)?;
        self.row = Row::Plain(row);
        Ok(())
    }

    fn shared(&mut self, alloc: Global, words: &mut Words) -> Result<(), CaseFault> {
        let count = words.short_number()?;
        let row = SharedRow::new(alloc, count)?;
        self.row = Row::Shared(row);
        Ok(())
    }

    /// A step, with all that it leaves.
    fn step(&mut self, call: &mut Call<'_>) -> Result<(), CaseFault> {
        let before = counts_of(&self.floor);
        let duties = self.does(call.alloc, call.name, &mut call.words)?;
        let answer = &mut call.answer;
        push_done(answer, &before, &counts_of(&self.floor))?;
        push_duties(answer, duties.as_slice())?;
        push_all_sent(call.alloc, answer, &self.floor, &before)
    }

    /// Does a step.
    fn does(&mut self, alloc: Global, name: &str, words: &mut Words) -> Result<Duties, CaseFault> {
        match name {
            "own" => self.own(alloc, words),
            "drop" => self.drop_one(words),
            "hit" => self.hit(words),
            "show" => self.show(words),
            "tell" => self.tell(words),
            other => does_in_room(alloc, &mut self.floor, other, words),
        }
    }

    fn own(&mut self, alloc: Global, words: &mut Words) -> Result<Duties, CaseFault> {
        let firm = words.word()?;
        let moment = words.moment()?;
        let bytes = framed(alloc, words.rest())?;
        if firm == "INV1" {
            return done(own_investor(&mut self.floor.investor, moment, bytes.as_slice()));
        }
        self.own_of_dealer(firm, moment, bytes.as_slice())
    }

    /// Bytes come to the desk of a dealer.
    fn own_of_dealer(
        &mut self,
        firm: &str,
        moment: Moment,
        bytes: &[u8],
    ) -> Result<Duties, CaseFault> {
        let (desk, first) = dealer_at(&mut self.floor, firm)?;
        match &mut self.row {
            Row::Plain(row) => done(own_dealer(desk, row, first, moment, bytes)),
            Row::Shared(row) => done(own_dealer(desk, &mut row.pass(), first, moment, bytes)),
        }
    }

    fn drop_one(&mut self, words: &mut Words) -> Result<Duties, CaseFault> {
        let (desk, first) = dealer_at(&mut self.floor, words.word()?)?;
        let moment = words.moment()?;
        let last = words.short_number()?;
        match &mut self.row {
            Row::Plain(row) => done(do_drop(desk, row, first, last, moment)),
            Row::Shared(row) => done(do_drop(desk, &mut row.pass(), first, last, moment)),
        }
    }

    fn hit(&mut self, words: &mut Words) -> Result<Duties, CaseFault> {
        let moment = words.moment()?;
        let response = response(words)?;
        let word = words.short_number()?;
        let room = &mut self.floor.room;
        match &mut self.row {
            Row::Plain(row) => done(do_hit(room, row, ROOM, response, word, moment)),
            Row::Shared(row) => done(do_hit(room, &mut row.pass(), ROOM, response, word, moment)),
        }
    }

    fn show(&mut self, words: &mut Words) -> Result<Duties, CaseFault> {
        let (desk, _) = dealer_at(&mut self.floor, words.word()?)?;
        let moment = words.moment()?;
        let room = room(words)?;
        done(do_show(desk, room, request()?, moment))
    }

    fn tell(&mut self, words: &mut Words) -> Result<Duties, CaseFault> {
        let (desk, _) = dealer_at(&mut self.floor, words.word()?)?;
        let moment = words.moment()?;
        let room = room(words)?;
        done(do_tell(desk, room, close_of(words)?, moment))
    }
}

/// The frame of a body, in which a bar stands for each SOH.
fn framed(alloc: Global, body: &str) -> Result<Vec<u8>, CaseFault> {
    let body = piped_bytes_of(alloc, body)?;
    frame_of(alloc, body.as_slice())
}

/// The room of a request of INV1.
fn room(words: &mut Words) -> Result<RoomRef, CaseFault> {
    let n = words.short_number()?;
    Ok(RoomRef {
        investor: INVESTOR,
        n,
    })
}

/// The desk of a dealer, and its first word.
fn dealer_at<'a>(floor: &'a mut Floor, firm: &str) -> Result<(&'a mut DealerDesk, u32), CaseFault> {
    match firm {
        "DLR1" => Ok((&mut floor.first, 0)),
        "DLR2" => Ok((&mut floor.second, 4)),
        _ => Err(CaseFault::Form),
    }
}

/// What a step leaves, where memory was not refused.
fn done(left: Result<Duties, Memory>) -> Result<Duties, CaseFault> {
    let duties = left?;
    Ok(duties)
}

/// Whether a step was done: one event came to one place.
fn push_done(answer: &mut String, before: &Counts, after: &Counts) -> Result<(), CaseFault> {
    let came = events(after).saturating_sub(events(before));
    match came {
        0 => push_line(answer, "undone"),
        1 => push_line(answer, "done"),
        _ => push_line(answer, "more than one event"),
    }
}

/// How many events there were.
fn events(seen: &Counts) -> usize {
    seen.first
        .saturating_add(seen.second)
        .saturating_add(seen.investor)
        .saturating_add(seen.room)
}

/// The messages that the desks have sent since.
fn push_all_sent(
    alloc: Global,
    answer: &mut String,
    floor: &Floor,
    before: &Counts,
) -> Result<(), CaseFault> {
    push_sent(alloc, answer, floor.first.sent(), before.to_first)?;
    push_sent(alloc, answer, floor.second.sent(), before.to_second)?;
    push_sent(alloc, answer, floor.investor.sent(), before.to_investor)
}

/// What the places have seen: the events of DLR1, DLR2, INV1 and the room, then the messages.
fn push_seen(answer: &mut String, seen: &Counts) -> Result<(), CaseFault> {
    let (first, second, investor, room) = (seen.first, seen.second, seen.investor, seen.room);
    write!(answer, "events {first} {second} {investor} {room}")?;
    let (first, second, investor) = (seen.to_first, seen.to_second, seen.to_investor);
    writeln!(answer, " messages {first} {second} {investor}")?;
    Ok(())
}
