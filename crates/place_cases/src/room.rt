//! A room.
use crate::events::{push_event, push_request, room_again};
use crate::replies::{refusal_name, reply_name};
use crate::terms::{dealers, last_moment, request, settled};
use bond_prices::Ticks;
use case_lines::{Call, CaseFault, Place, Words, price_of, push_line, push_truth, side_of};
use fix_fields::Moment;
use market_terms::{Ask, AskedDealers, Reply};
use quote_word::Settled;
use request_room::{End, EndKind, Room};
use std::alloc::Global;

/// A room, vacant before the first call.
///
/// | call | answer |
/// |---|---|
/// | `open SIDE DEADLINE DEALER ..` | nothing |
/// | `ready` | nothing |
/// | `post DEALER WORD TICKS`, also with the moment at which its validity ends | whether it took effect |
/// | `unpost DEALER WORD` | the same |
/// | `decline DEALER` | the same |
/// | `question_hit WORD MOMENT` | `asks` and the word, or the refusal |
/// | `hit WORD MOMENT`, and the settlement of the word, where it is asked | the reply |
/// | `pass MOMENT`, `expire MOMENT` | whether it ended the room |
/// | `state` | `vacant`, `opening`, or `neither` |
/// | `named DEALER`, `request_names DEALER` | whether it is, by the room and by its request |
/// | `request` | what was asked of whom, or `none` |
/// | `end` | its kind, winner and cover, or `none` |
/// | `length` | how many events there are |
/// | `events` | the events as calls, a line each |
/// | `book WORD ..` | each of these words that may be hit in the open room, with the winner and the cover of its award, a line each |
#[derive(Drop)]
pub(crate) struct RoomPlace {
    room: Room,
}

impl Place for RoomPlace {
    fn call(&mut self, call: &mut Call<'_>) -> Result<(), CaseFault> {
        let answer = &mut call.answer;
        match call.name {
            "open" => self.open(call.alloc, &mut call.words),
            "ready" => readied(&mut self.room),
            "post" => self.post(&mut call.words, answer),
            "unpost" => self.unpost(&mut call.words, answer),
            "decline" => self.decline(&mut call.words, answer),
            "hit" => self.hit(&mut call.words, answer),
            "pass" => self.pass(&mut call.words, answer),
            "expire" => self.expire(&mut call.words, answer),
            _ => self.reads(call),
        }
    }
}

impl RoomPlace {
    /// Before the first call.
    pub(crate) fn new(alloc: Global) -> Result<Self, CaseFault> {
        let room = Room::vacant(alloc);
        Ok(RoomPlace { room })
    }

    /// What changes nothing.
    fn reads(&self, call: &mut Call<'_>) -> Result<(), CaseFault> {
        let answer = &mut call.answer;
        match call.name {
            "question_hit" => self.question_hit(&mut call.words, answer),
            "state" => self.state(answer),
            "named" => self.named(&mut call.words, answer),
            "request_names" => self.request_names(&mut call.words, answer),
            "request" => self.request(answer),
            "end" => push_end(answer, &self.room.end()),
            "length" => self.length(answer),
            "events" => self.events(answer),
            "book" => self.book(call.alloc, &mut call.words, answer),
            _ => Err(CaseFault::Form),
        }
    }

    fn open(&mut self, alloc: Global, words: &mut Words) -> Result<(), CaseFault> {
        let mut ask = request()?;
        ask.side = side_of(words)?;
        ask.deadline = words.moment()?;
        let dealers = dealers(alloc, words)?;
        opened(&mut self.room, ask, dealers)
    }

    fn post(&mut self, words: &mut Words, answer: &mut String) -> Result<(), CaseFault> {
        let dealer = words.firm()?;
        let word = words.short_number()?;
        let price = price_of(words)?;
        let until = last_moment(words)?;
        push_truth(answer, posted(&mut self.room, dealer, word, price, until)?)
    }

    fn unpost(&mut self, words: &mut Words, answer: &mut String) -> Result<(), CaseFault> {
        let dealer = words.firm()?;
        let word = words.short_number()?;
        push_truth(answer, unposted(&mut self.room, dealer, word)?)
    }

    fn decline(&mut self, words: &mut Words, answer: &mut String) -> Result<(), CaseFault> {
        let dealer = words.firm()?;
        push_truth(answer, declined(&mut self.room, dealer)?)
    }

    fn hit(&mut self, words: &mut Words, answer: &mut String) -> Result<(), CaseFault> {
        let word = words.short_number()?;
        let moment = words.moment()?;
        let told = last_settled(words)?;
        push_line(answer, reply_name(hit(&mut self.room, word, moment, told)?))
    }

    fn pass(&mut self, words: &mut Words, answer: &mut String) -> Result<(), CaseFault> {
        let moment = words.moment()?;
        push_truth(answer, self.room.pass(moment)?)
    }

    fn expire(&mut self, words: &mut Words, answer: &mut String) -> Result<(), CaseFault> {
        let moment = words.moment()?;
        push_truth(answer, self.room.expire(moment)?)
    }

    fn question_hit(&self, words: &mut Words, answer: &mut String) -> Result<(), CaseFault> {
        let word = words.short_number()?;
        let moment = words.moment()?;
        match self.room.question_hit(word, moment) {
            Ok(asked) => push_asked(answer, asked),
            Err(refused) => push_line(answer, refusal_name(refused)),
        }
    }

    fn state(&self, answer: &mut String) -> Result<(), CaseFault> {
        if self.room.is_vacant() {
            return push_line(answer, "vacant");
        }
        if self.room.is_opening() {
            return push_line(answer, "opening");
        }
        push_line(answer, "neither")
    }

    fn named(&self, words: &mut Words, answer: &mut String) -> Result<(), CaseFault> {
        let dealer = words.firm()?;
        push_truth(answer, self.room.named(dealer))
    }

    fn request_names(&self, words: &mut Words, answer: &mut String) -> Result<(), CaseFault> {
        let dealer = words.firm()?;
        let Some(request) = self.room.request() else {
            return push_line(answer, "none");
        };
        push_truth(answer, request.names(dealer))
    }

    fn request(&self, answer: &mut String) -> Result<(), CaseFault> {
        let Some(request) = self.room.request() else {
            return push_line(answer, "none");
        };
        answer.push_str("request")?;
        push_request(answer, request)?;
        push_line(answer, "")
    }

    fn length(&self, answer: &mut String) -> Result<(), CaseFault> {
        let count = self.room.events().len();
        writeln!(answer, "events {count}")?;
        Ok(())
    }

    fn events(&self, answer: &mut String) -> Result<(), CaseFault> {
        for event in self.room.events() {
            push_event(answer, event)?;
        }
        Ok(())
    }

    fn book(&self, alloc: Global, words: &mut Words, answer: &mut String) -> Result<(), CaseFault> {
        let moment = Moment::new(0).ok_or(CaseFault::Form)?;
        for text in words.rest().split(' ') {
            let Ok(word) = text.parse::<u32>() else {
                return Err(CaseFault::Form);
            };
            push_award(alloc, &self.room, word, moment, answer)?;
        }
        Ok(())
    }
}

/// Opens a vacant room.
pub(crate) fn opened(room: &mut Room, ask: Ask, dealers: AskedDealers) -> Result<(), CaseFault> {
    if !room.is_vacant() {
        return Err(CaseFault::Condition);
    }
    room.open(ask, dealers)?;
    Ok(())
}

/// Makes an opening room open.
pub(crate) fn readied(room: &mut Room) -> Result<(), CaseFault> {
    if !room.is_opening() {
        return Err(CaseFault::Condition);
    }
    room.ready()?;
    Ok(())
}

/// Posts a quote of a dealer that the room hears.
pub(crate) fn posted(
    room: &mut Room,
    dealer: u16,
    word: u32,
    price: Ticks,
    until: Option<Moment>,
) -> Result<bool, CaseFault> {
    if !room.is_vacant() && !room.named(dealer) {
        return Err(CaseFault::Condition);
    }
    let effect = room.post(dealer, word, price, until)?;
    Ok(effect)
}

/// Takes a quote of a dealer out that the room hears.
pub(crate) fn unposted(room: &mut Room, dealer: u16, word: u32) -> Result<bool, CaseFault> {
    if !room.is_vacant() && !room.named(dealer) {
        return Err(CaseFault::Condition);
    }
    let effect = room.unpost(dealer, word)?;
    Ok(effect)
}

/// A dealer declines that the room hears.
pub(crate) fn declined(room: &mut Room, dealer: u16) -> Result<bool, CaseFault> {
    if !room.is_vacant() && !room.named(dealer) {
        return Err(CaseFault::Condition);
    }
    let effect = room.decline(dealer)?;
    Ok(effect)
}

/// A hit, with a settlement exactly where the room has the word asked.
pub(crate) fn hit(
    room: &mut Room,
    word: u32,
    moment: Moment,
    told: Option<Settled>,
) -> Result<Reply, CaseFault> {
    if room.question_hit(word, moment).is_err() {
        return refused_hit(room, word, moment, told.is_some());
    }
    let Some(told) = told else {
        return Err(CaseFault::Condition);
    };
    let reply = room.hit(word, moment, Some(told))?;
    Ok(reply)
}

/// A hit that the room refuses before the word is asked.
fn refused_hit(
    room: &mut Room,
    word: u32,
    moment: Moment,
    is_told: bool,
) -> Result<Reply, CaseFault> {
    if is_told || room.question_hit(word, moment).is_ok() {
        return Err(CaseFault::Condition);
    }
    let reply = room.hit(word, moment, None)?;
    Ok(reply)
}

/// The settlement of a word, where the line goes on.
fn last_settled(words: &mut Words) -> Result<Option<Settled>, CaseFault> {
    if words.is_at_end() {
        return Ok(None);
    }
    let settlement = settled(words)?;
    Ok(Some(settlement))
}

/// The word that a hit asks.
fn push_asked(answer: &mut String, word: u32) -> Result<(), CaseFault> {
    writeln!(answer, "asks {word}")?;
    Ok(())
}

/// How a room ended, if it has.
fn push_end(answer: &mut String, end: &Option<End>) -> Result<(), CaseFault> {
    let Some(end) = end else {
        return push_line(answer, "none");
    };
    answer.push_str(kind_name(end.kind))?;
    push_winner(answer, end.winner)?;
    push_cover(answer, end.cover)?;
    push_line(answer, "")
}

/// What an end is called in a line.
fn kind_name(kind: EndKind) -> &'static str {
    match kind {
        EndKind::Awarded => "awarded",
        EndKind::Passed => "passed",
        EndKind::Expired => "expired",
    }
}

/// The winner and its word, where there is one.
fn push_winner(answer: &mut String, winner: Option<(u16, u32)>) -> Result<(), CaseFault> {
    let Some((dealer, word)) = winner else {
        return Ok(());
    };
    write!(answer, " to {dealer} word {word}")?;
    Ok(())
}

/// The cover, where there is one.
fn push_cover(answer: &mut String, cover: Option<u16>) -> Result<(), CaseFault> {
    let Some(dealer) = cover else {
        return Ok(());
    };
    write!(answer, " cover {dealer}")?;
    Ok(())
}

/// What a room ends in where this word is hit and lifted. It is tried on a room of its own.
fn push_award(
    alloc: Global,
    room: &Room,
    word: u32,
    moment: Moment,
    answer: &mut String,
) -> Result<(), CaseFault> {
    let mut room = room_again(alloc, room)?;
    push_award_in(&mut room, word, moment, answer)
}

/// The same in this room, which is made open where it is opening.
fn push_award_in(
    room: &mut Room,
    word: u32,
    moment: Moment,
    answer: &mut String,
) -> Result<(), CaseFault> {
    if room.is_opening() {
        readied(room)?;
    }
    if room.question_hit(word, moment).is_err() {
        return Ok(());
    }
    if hit(room, word, moment, Some(Settled::Lifted))? != Reply::Awarded {
        return Err(CaseFault::Condition);
    }
    push_end(answer, &room.end())
}
