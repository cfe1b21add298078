//! The places of a venue while it replays a day: the desks, the rooms and the words.
ghost use Rattle.std.specs.Prelude.{◌≡◌, []};

use dealer_desk::DealerDesk;
use investor_desk::InvestorDesk;
use quote_word::PlainWords;
use request_room::Room;
use venue_rows::VenueConfig;
use venue_steps::Duties;

/// The place of a dealer.
#[derive(Drop)]
pub(crate) struct DealerPlace {
    /// Its desk.
    pub(crate) desk: DealerDesk,
    /// The word of its first quote.
    pub(crate) first_word: u32,
    /// The liftings of its quotes, in their order.
    pub(crate) liftings: Vec<Lifting>,
}

/// A lifting of a quote of a dealer: an investor hit it.
#[derive(Clone, Copy)]
pub(crate) struct Lifting {
    /// The dealer's own number of the quote.
    pub(crate) quote: u32,
    /// How many events had come to the dealer's desk by then.
    pub(crate) after: usize,
}

/// The place of an investor.
#[derive(Drop)]
pub(crate) struct InvestorPlace {
    /// Its desk.
    pub(crate) desk: InvestorDesk,
    /// The rooms of its requests, as many as it may make in its day.
    pub(crate) rooms: Vec<Room>,
}

/// The places of a venue, and the words of all quotes.
#[derive(Drop)]
pub(crate) struct Floor {
    /// The venue's rows, by which what comes is placed.
    pub(crate) config: VenueConfig,
    /// The dealers, in the order of their numbers as firms.
    pub(crate) dealers: Vec<DealerPlace>,
    /// The investors, whose numbers follow those of the dealers.
    pub(crate) investors: Vec<InvestorPlace>,
    /// The words: those of the first dealer, behind them those of the next.
    pub(crate) words: PlainWords,
    /// The number of the dealer whose quote has a word, for each word.
    pub(crate) owners: Vec<u16>,
}

impl Floor {
    /// No duties.
    pub(crate) fn nothing(&self) -> Duties
        ensures { result.items ≡ [] }
    {
        Duties::new(*self.dealers.allocator())
    }
}
