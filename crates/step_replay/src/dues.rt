//! What is due to one dealer.
use fix_fields::Moment;
use quote_messages::{Ask, Close, FirmMessage};

/// One item of what is due to a dealer. Quotes and requests have the dealer's own numbers, from 1.
#[derive(Drop)]
pub enum Due {
    /// A message of the dealer's own, and the moment at which it comes.
    Own(Moment, FirmMessage),
    /// A request that the dealer is shown, and the moment at which it is.
    Shown(Ask, Moment),
    /// A lifting of a quote of the dealer: an investor hit it.
    Lifted(u32),
    /// The dealer is told how a request ended (QuoteResponse 35=AJ), and the moment of the notice.
    Closed(u64, Close, Moment),
    /// A drop of a cancel of all quotes (QuoteCancel 35=Z with 298=4): of the dealer's quotes up to
    /// this one, the first that can still be dropped is dropped. The moment is that of the cancel.
    Drop(u32, Moment),
}
