//! Laws of what firms can tell of others: a dealer of other dealers nothing until an investor hits a
//! quote, and behind a hit nothing but who was the cover; one side of a venue nothing of the other.
//! Each is a public function that does nothing, and its contract is the law.
//!
//! A dealer's list of what is due to it names no other dealer. What others do might still show in
//! it: by which of its quotes go through, by when it is told of something, or by what it is told.
//! It does not, as long as nobody hits:
//!
//! - [`dealers_are_silent_to_each_other`]: two days that are one but for what other dealers do,
//!   their messages, of whatever kind, and their turns, and in which nobody hits, are one to a
//!   dealer: one list is due to it in both, and it is sent the same bytes.
//! - [`a_hit_takes_a_message`]: nobody hits in a day to which no message comes that is a hit.
//!
//! So until a request ends by a hit, no dealer can tell whether anyone else quoted. Behind a hit it
//! can tell who was the cover, and nothing else:
//!
//! - [`presence_is_not_told`]: two days that are one but for what other dealers do, and for the
//!   quotes that hits name, and in which the same requests are awarded to the same dealers, step by
//!   step, are one to a dealer: its due lists are the same, but that Cover (694=4) may stand against
//!   Done Away (694=5).
//! - [`presence_is_not_told_on_live_days`]: the same of live days, whichever messages leave a hit.
//!
//! A *side* is a set of firms. Where each request that is accepted names dealers of its investor's
//! side alone, a side has with a dealer every investor that asks it, and with an investor every
//! dealer that it asks. Two sides of a venue still share its clock, the order of the steps and the
//! row of words. Nothing of that shows, as long as the steps come one by one, each answered before
//! the next:
//!
//! - [`investors_are_apart`]: two days that have the same steps on one side are one to each firm of
//!   that side: one list is due to it in both, and it is sent the same bytes.
//!
//! That two investors ask no dealer in common is not enough: a third one that asks a dealer of each
//! carries what one does to the other, by the exposure of the dealers.
//!
//! On threads, what was due to an investor stands in the events at its desk (`investor_dues_of`), by
//! its own numbers of requests and quotes, as in a day that is replayed. The *desk view*
//! (`investor_views`) of that list takes each item as it stands:
//!
//! - [`investors_of_a_day_are_sent_their_view`]: an investor was sent the desk view of the market
//!   that it sees and of that list, however the threads ran; where each event fits what stood at
//!   the desk, its investor view; and on a day that is woven into steps, the investor view of what
//!   was due to it by these.
//! - [`investors_are_isolated_on_threads`]: two days on threads, or one and a list of steps, on
//!   which an investor sees one market and one list was due to it, sent it the same bytes.
//! - [`lists_of_a_replay_fit`]: for what is due to an investor in a list of steps the desk view and
//!   the investor view are one.
//! - [`words_of_a_day_have_one_settlement`]: all who asked a word on a day on threads, at desks and
//!   in rooms, were told the same; and where its quote won, that it is lifted.
//!
//! No code stands on this crate.
#![tactic(auto)]

mod presence;
mod sides;
mod silence;
mod threads;
mod words;

pub use presence::{presence_is_not_told, presence_is_not_told_on_live_days};
pub use sides::investors_are_apart;
pub use silence::{a_hit_takes_a_message, dealers_are_silent_to_each_other};
pub use threads::{
    investors_are_isolated_on_threads, investors_of_a_day_are_sent_their_view,
    lists_of_a_replay_fit,
};
pub use words::words_of_a_day_have_one_settlement;
