//! The room of one request.
ghost use Rattle.std.specs.Prelude.{◌≡◌, [], ◌∷◌, ◌++◌, is_some, is_ok, option_map};
ghost use Rattle.std.specs.Prelude.{IsTrue, IfOk, OnOk, OnErr};
ghost use Rattle.request_room.specs.RoomFacts as facts;
ghost use Rattle.request_room.specs.Book as spec;
ghost use Rattle.request_room.specs.Book.{room_after};

use crate::book::RoomBook;
use crate::hits::{is_expired, is_past_deadline, settled};
use crate::{End, EndKind, KeptRequest, PostedQuote, RoomEvent, RoomRequest};
use bond_prices::Ticks;
use fix_fields::{Memory, Moment};
use market_terms::{Ask, AskedDealers, HitRefusal, Reply, Side};
use quote_word::Settled;
use std::alloc::Global;
use std::marker::Model;

/// The room of one request: where the quotes of its dealers stand until the investor hits one of
/// them, passes, or the deadline comes.
///
/// Some calls require that the room is vacant or opening, or that it hears a dealer. The steps of
/// the venue, which know for whom they act, test that; no rule of the room does.
///
/// A contract sees the list of what was tried on the room; `room_after` that list is what became of
/// it: whether the room is vacant, opening, open or ended, its book and its end.
#[derive(Drop)]
pub struct Room {
    events: Vec<RoomEvent>,
    request: Option<RoomRequest>,
    ready: bool,
    book: RoomBook,
    end: Option<End>,
}

impl Model for Room {
    ghost use Rattle.std.specs.Prelude.{List, length};
    ghost use Rattle.request_room.specs.declared.events.RoomEvent.{RoomEvent};
    ghost use Rattle.request_room.specs.Book.{room_after};
    ghost use Rattle.request_room.specs.Kept.{KeepsRoom};

    ghost Value = { List RoomEvent };

    ghost view = { λ room. room.events.items };

    ghost invariant = { λ room.
        KeepsRoom (room_after room.events.items) (length room.events.items)
        room.request room.ready room.book.side room.book.quotes.items room.end };
}

impl Room {
    /// A room that no request has opened yet. It takes no memory.
    pub fn vacant(alloc: Global) -> Self
        ensures { result ≡ [] }
    {
        Room {
            events: Vec::new(alloc),
            request: None,
            ready: false,
            book: RoomBook::empty(alloc, Side::Buy),
            end: None,
        }
    }

    /// What its memory comes from.
    pub fn alloc(&self) -> Global {
        *self.events.allocator()
    }

    /// Opens a vacant room for a request (QuoteRequest 35=R) of these dealers, named by their
    /// numbers among the firms. It fails for memory alone, and then the room is as before.
    pub fn open(&mut self, ask: Ask, dealers: AskedDealers) -> Result<(), Memory>
        requires { IsTrue (facts.is_vacant (room_after self.old)) }
        ensures ok { OnOk result
            (self.new ≡ self.old ++ RoomEvent.Open (record { ask = ask; dealers = dealers }) ∷ []) }
        ensures err { OnErr result (self.new ≡ self.old) }
    {
        let side = ask.side;
        let request = RoomRequest { ask, dealers };
        let kept = KeptRequest::new(self.alloc(), request.copy())?;
        self.events.reserve(1)?;
        self.events.push(RoomEvent::Open(kept))?;
        self.book.side = side;
        self.request = Some(request);
        Ok(())
    }

    /// Makes an opening room open for hits, a pass and its expiry: each named dealer was shown the
    /// request. It fails for memory alone, and then the room is as before.
    pub fn ready(&mut self) -> Result<(), Memory>
        requires { IsTrue (facts.is_opening (room_after self.old)) }
        ensures ok { OnOk result (self.new ≡ self.old ++ RoomEvent.Ready ∷ []) }
        ensures err { OnErr result (self.new ≡ self.old) }
    {
        self.events.reserve(1)?;
        self.events.push(RoomEvent::Ready)?;
        self.ready = true;
        Ok(())
    }

    /// Posts a quote of a named dealer (Quote 35=S) with its word, its price in ticks of 1/256
    /// point on the asked side, and the moment from which on it can't be hit (ValidUntilTime 62),
    /// in the place of the quote that the dealer has in the book. It returns whether it took
    /// effect: it does where the room is opening or open, and in a vacant room it does not. It
    /// fails for memory alone, and then the room is as before.
    pub fn post(
        &mut self,
        dealer: u16,
        w: u32,
        price: Ticks,
        until: Option<Moment>,
    ) -> Result<bool, Memory>
        requires { IsTrue (facts.hears (room_after self.old) dealer) }
        ensures effect { IfOk result (λ effect. effect ≡ facts.takes_quotes (room_after self.old)) }
        ensures ok { OnOk result (self.new ≡ self.old ++ RoomEvent.Post dealer w price until ∷ []) }
        ensures err { OnErr result (self.new ≡ self.old) }
    {
        let quote = PostedQuote {
            dealer,
            word: w,
            price,
            valid_until: until,
        };
        let takes = self.takes_quotes();
        let posting = self.events.len();
        self.events.reserve(1)?;
        self.book.reserve()?;
        self.events.push(quote.posting())?;
        if !takes {
            return Ok(false);
        }
        self.book.post(posting, quote)?;
        Ok(true)
    }

    /// Takes the quote of a named dealer with this word out of the book, once its dealer withdrew
    /// it (QuoteCancel 35=Z). It returns whether it took effect: it does where that quote of that
    /// dealer stands in a room that has not ended. It fails for memory alone, and then the room is
    /// as before.
    pub fn unpost(&mut self, dealer: u16, w: u32) -> Result<bool, Memory>
        requires { IsTrue (facts.hears (room_after self.old) dealer) }
        ensures effect { IfOk result
            (λ effect. effect ≡ spec.may_unpost (room_after self.old) dealer w) }
        ensures ok { OnOk result (self.new ≡ self.old ++ RoomEvent.Unpost dealer w ∷ []) }
        ensures err { OnErr result (self.new ≡ self.old) }
    {
        let standing = self.may_unpost(dealer, w);
        self.events.reserve(1)?;
        self.events.push(RoomEvent::Unpost { dealer, word: w })?;
        if !standing {
            return Ok(false);
        }
        self.book.unpost(dealer, w);
        Ok(true)
    }

    /// Notes that a named dealer declined (QuoteRequestReject 35=AG). It returns whether it took
    /// effect: it does where the room is opening or open, also a second time. The book stays as it
    /// is. It fails for memory alone, and then the room is as before.
    pub fn decline(&mut self, dealer: u16) -> Result<bool, Memory>
        requires { IsTrue (facts.hears (room_after self.old) dealer) }
        ensures effect { IfOk result (λ effect. effect ≡ facts.takes_quotes (room_after self.old)) }
        ensures ok { OnOk result (self.new ≡ self.old ++ RoomEvent.Decline dealer ∷ []) }
        ensures err { OnErr result (self.new ≡ self.old) }
    {
        let takes = self.takes_quotes();
        self.events.reserve(1)?;
        self.events.push(RoomEvent::Decline { dealer })?;
        Ok(takes)
    }

    /// The word that has to be asked before the quote with this word is hit at this moment, or else
    /// the first of these refusals: `NotOpen` where the room is not open, `Deadline` where the
    /// moment is at or past the deadline (ExpireTime 126), `Gone` where no quote in the book bears
    /// the word, `Expired` where the quote's validity (ValidUntilTime 62) ends at or before the
    /// moment. It takes no memory.
    pub fn question_hit(&self, w: u32, moment: Moment) -> Result<u32, HitRefusal>
        ensures { result ≡ spec.hit_question (room_after self.now) w moment }
    {
        if let Some(refused) = self.hit_refusal(w, moment) {
            return Err(refused);
        }
        Ok(w)
    }

    /// The investor hits the quote with this word (QuoteResponse 35=AJ, QuoteRespType 694=1), with
    /// the settlement of the word where it is asked. A lifted word awards the request to the
    /// earliest posted quote that bears it, and ends the room. Else the hit is refused as
    /// [`Room::question_hit`] says, or as `Withdrawn` where the word was withdrawn, and the room
    /// stays as it was but for the event. It fails for memory alone, and then the room is as
    /// before.
    pub fn hit(
        &mut self,
        w: u32,
        moment: Moment,
        settlement: Option<Settled>,
    ) -> Result<Reply, Memory>
        requires { is_some settlement ≡ is_ok (spec.hit_question (room_after self.old) w moment) }
        ensures reply { IfOk result
            (λ reply. reply
            ≡ spec.reply_of (spec.hit_outcome (room_after self.old) w moment settlement)) }
        ensures ok { OnOk result (self.new ≡ self.old ++ RoomEvent.Hit w moment settlement ∷ []) }
        ensures err { OnErr result (self.new ≡ self.old) }
    {
        let outcome = settled(self.hit_refusal(w, moment), settlement, self.award_of(w));
        self.events.reserve(1)?;
        self.events.push(RoomEvent::Hit {
            word: w,
            moment,
            settlement,
        })?;
        let award = match outcome {
            Ok(award) => award,
            Err(refused) => return Ok(Reply::Refused(refused)),
        };
        self.end = Some(award);
        Ok(Reply::Awarded)
    }

    /// The investor passes at this moment (QuoteResponse 35=AJ, QuoteRespType 694=6). It answers
    /// whether that ended the room: it does where the room is open. It fails for memory alone, and
    /// then the room is as before.
    pub fn pass(&mut self, moment: Moment) -> Result<bool, Memory>
        ensures ended { IfOk result (λ ended. ended ≡ facts.is_open (room_after self.old)) }
        ensures ok { OnOk result (self.new ≡ self.old ++ RoomEvent.Pass moment ∷ []) }
        ensures err { OnErr result (self.new ≡ self.old) }
    {
        let open = self.is_open();
        self.events.reserve(1)?;
        self.events.push(RoomEvent::Pass { moment })?;
        if !open {
            return Ok(false);
        }
        self.end = Some(End {
            kind: EndKind::Passed,
            winner: None,
            cover: None,
        });
        Ok(true)
    }

    /// A sweep at this moment. It returns whether it ended the room: it does where the room is open
    /// and the moment is at or past the deadline of the request (ExpireTime 126). It fails for
    /// memory alone, and then the room is as before.
    pub fn expire(&mut self, moment: Moment) -> Result<bool, Memory>
        ensures ended { IfOk result
            (λ ended. ended ≡ spec.may_expire (room_after self.old) moment) }
        ensures ok { OnOk result (self.new ≡ self.old ++ RoomEvent.Expire moment ∷ []) }
        ensures err { OnErr result (self.new ≡ self.old) }
    {
        let due = self.may_expire(moment);
        self.events.reserve(1)?;
        self.events.push(RoomEvent::Expire { moment })?;
        if !due {
            return Ok(false);
        }
        self.end = Some(End {
            kind: EndKind::Expired,
            winner: None,
            cover: None,
        });
        Ok(true)
    }

    /// What was tried on the room, the first one first.
    pub fn events(&self) -> &[RoomEvent]
        ensures { result.now ≡ self.now }
    {
        self.events.as_slice()
    }

    /// The same events, taken out of the room. It takes no memory.
    pub fn into_events(self) -> Vec<RoomEvent>
        ensures { result.items ≡ self }
    {
        let Self { events, .. } = self;
        events
    }

    /// Whether no request has opened the room yet.
    pub fn is_vacant(&self) -> bool
        ensures { result ≡ facts.is_vacant (room_after self.now) }
    {
        self.request.is_none() && self.end.is_none()
    }

    /// Whether the room was opened and not every named dealer was shown its request yet.
    pub fn is_opening(&self) -> bool
        ensures { result ≡ facts.is_opening (room_after self.now) }
    {
        self.request.is_some() && !self.ready && self.end.is_none()
    }

    /// Whether the room's request names a dealer.
    pub fn named(&self, dealer: u16) -> bool
        ensures { result ≡ facts.is_named (room_after self.now) dealer }
    {
        let Some(request) = &self.request else {
            return false;
        };
        request.names(dealer)
    }

    /// What the room was opened for, if it was: what is asked, and the dealers in their order.
    pub fn request(&self) -> Option<&RoomRequest>
        ensures { option_map (λ request. request.now) result
            ≡ facts.request_of (room_after self.now) }
    {
        self.request.as_ref()
    }

    /// How the room ended, if it has.
    pub fn end(&self) -> Option<End>
        ensures { result ≡ facts.end_of (room_after self.now) }
    {
        self.end
    }

    /// Whether the room takes hits, a pass and its expiry.
    fn is_open(&self) -> bool
        ensures { result ≡ facts.is_open (room_after self.now) }
    {
        self.ready && self.end.is_none()
    }

    /// Whether the room takes posts, unposts and declines.
    fn takes_quotes(&self) -> bool
        ensures { result ≡ facts.takes_quotes (room_after self.now) }
    {
        self.request.is_some() && self.end.is_none()
    }

    /// Whether a sweep at this moment ends the room.
    fn may_expire(&self, moment: Moment) -> bool
        ensures { result ≡ spec.may_expire (room_after self.now) moment }
    {
        self.is_open() && is_past_deadline(&self.request, moment)
    }

    /// Whether an unpost of this quote of this dealer takes effect.
    fn may_unpost(&self, dealer: u16, w: u32) -> bool
        ensures { result ≡ spec.may_unpost (room_after self.now) dealer w }
    {
        self.takes_quotes() && self.book.stands(dealer, w)
    }

    /// Why a hit is refused before the word is asked, if it is.
    #[tactic(auto, unfolding(crate::specs::Book::hit_refusal))]
    fn hit_refusal(&self, w: u32, moment: Moment) -> Option<HitRefusal>
        ensures { result ≡ spec.hit_refusal (room_after self.now) w moment }
    {
        if !self.is_open() {
            return Some(HitRefusal::NotOpen);
        }
        if is_past_deadline(&self.request, moment) {
            return Some(HitRefusal::Deadline);
        }
        let Some(quote) = self.quote_meant(w) else {
            return Some(HitRefusal::Gone);
        };
        if is_expired(quote, moment) {
            return Some(HitRefusal::Expired);
        }
        None
    }

    /// The end by an award of the quote that this word means.
    #[tactic(auto, using(crate::proofs::KeptBookLemmas::no_cover))]
    fn award_of(&self, w: u32) -> End
        ensures { result ≡ spec.award_of (room_after self.now) w }
    {
        let Some(quote) = self.quote_meant(w) else {
            return End {
                kind: EndKind::Awarded,
                winner: None,
                cover: None,
            };
        };
        End {
            kind: EndKind::Awarded,
            winner: Some((quote.dealer, quote.word)),
            cover: self.cover_for(&quote),
        }
    }

    /// The quote that a hit of this word means.
    fn quote_meant(&self, w: u32) -> Option<PostedQuote>
        ensures { result ≡ spec.quote_meant (spec.book_of (room_after self.now)) w }
    {
        self.book.hit(w)
    }

    /// The dealer of the cover of an award of this quote, where there is one.
    fn cover_for(&self, winner: &PostedQuote) -> Option<u16>
        ensures { result ≡ option_map (λ quote. quote.dealer)
            (spec.cover_for (facts.request_of (room_after self.now)) (Some winner.now)
            (spec.book_of (room_after self.now))) }
    {
        self.book.cover(winner.dealer)
    }
}
