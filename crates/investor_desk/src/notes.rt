//! What a desk notes beside a message that its investor is sent.
ghost use Rattle.std.specs.Prelude.{◌≡◌};

use crate::RequestRefusal;
use venue_rows::Name;

/// What a desk notes beside a message, where the message itself does not say it.
#[derive(Drop)]
pub enum InvestorNote {
    /// The message refuses a request, and this is why.
    Refused(RequestRefusal),
    /// The message tells the investor of a trade of its own.
    Trade {
        /// The dealer that it traded with.
        dealer: Name,
    },
}

/// What is noted of an event, once more.
pub(crate) fn note_again(note: &Option<InvestorNote>) -> Option<InvestorNote>
    ensures { result ≡ note.now }
{
    match note {
        None => None,
        Some(InvestorNote::Refused(refusal)) => Some(InvestorNote::Refused(*refusal)),
        Some(InvestorNote::Trade { dealer }) => Some(InvestorNote::Trade {
            dealer: dealer.copy(),
        }),
    }
}
