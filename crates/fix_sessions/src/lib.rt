//! One firm's FIXT.1.1 session for one trading day, as a pure state machine: `docs/SESSIONS.md` row
//! by row. A caller hands in events, and does what the [`Turn`] of each says.
//!
//! - [`next_message`] cuts a stream into messages, and goes on behind what is garbled.
//! - [`a_stream_is_cut_where_messages_stand`] is the law of that: it does nothing.
//! - [`question`] says whose credentials the first message of a connection asks for.
//! - [`came`], [`given`], [`hands`], [`tick`], [`gone`], [`log_out`] and the operator's [`ordered`] are
//!   the events; [`wants`] says what the session asks of its caller. By a [`Denial`] the caller answers a
//!   message that it does not take.
//! - [`write`] gives the bytes of a message, and [`keep`] those that are kept.
//! - [`is_first_late`], [`is_parting_over`] and [`is_logout`] end connections that have no session.
//!
//! The state is numbers. What is kept under them is the caller's to keep, and to hand back as it was
//! kept. The definitions are in `specs/`: `Cuts`, `Heard`, `Outcomes`, `Logons`, `Rows`, `Sending`,
//! `Steps`, `Visits` and `Written`.
//!
//! What a message says ([`Heard`] and its parts), [`Asked`], [`Front`] and [`Live`] are named here for
//! the laws of `laws_sessions`: no caller needs them.
#![tactic(auto)]

mod accepting;
mod bodies;
mod cuts;
mod denials;
mod fields;
mod flaws;
mod heard;
mod holding;
mod logons;
mod messages;
mod numbers;
mod orders;
mod outcomes;
mod requests;
mod rows;
mod scanned;
mod sending;
mod settling;
mod state;
mod steps;
mod stream_laws;
mod texts;
mod ticks;
mod times;
mod turns;
mod visits;
mod words;
mod writing;

pub use bodies::{Body, MOST_KEPT};
pub use cuts::{Found, Front, What, next_message};
pub use heard::{Logon, is_logout, question};
pub use messages::{Heard, Incoming, Kind, Origin, Reading, Terms, TestId};
pub use orders::{Order, log_out, ordered};
pub use requests::Asked;
pub use sending::{hands, wants};
pub use state::{Clock, Day, Line, Live, Phase, Session, Waiting};
pub use steps::{came, given, gone, new_session, tick};
pub use stream_laws::a_stream_is_cut_where_messages_stand;
pub use texts::{Names, Text};
pub use turns::{Denial, Ending, Fault, Notice, Said, Stored, Turn, Want, Way, Why, Word};
pub use visits::{is_first_late, is_parting_over};
pub use writing::{keep, write};
