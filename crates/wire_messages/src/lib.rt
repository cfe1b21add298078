//! The venue's messages as firms have them on the wire, and the firms' messages as the venue is given
//! them. The body stays the same, byte for byte and in its order, except for the named fields.
//!
//! - [`to_firm`]: MsgSeqNum (34) of the venue stands in ApplSeqNum (1181), SendingTime (52) in
//!   TransactTime (60), RefSeqNum (45) of a Reject names the session's number, and what the firm is
//!   [`Told`] beside the message stands last.
//! - [`to_venue`]: MsgSeqNum (34) is the venue's count, SendingTime (52) is cut to milliseconds, and
//!   PossDupFlag (43), PossResend (97) and OrigSendingTime (122) are left out.
//!
//! Each is proved to give what its definition says (`specs/ToFirm`, `specs/ToVenue`). A message that
//! does not cross has the fault that is told, the first in the order of [`Untranslated`], and each
//! message without one crosses, unless memory is refused. Laws of the definitions:
//!
//! - [`the_wire_reads_back`]: the wire's message without what the wire adds is the venue's.
//! - [`the_wire_tells_messages_apart`]: two messages that are one on the wire are one.
//! - [`the_rest_is_the_firms`]: what the venue is given has the firm's fields, and no others.
#![tactic(auto)]

mod faults;
mod fields;
mod for_firms;
mod for_venue;
mod laws;
mod limits;
mod told;
mod venue_messages;
mod writing;

pub use faults::Untranslated;
pub use for_firms::to_firm;
pub use for_venue::to_venue;
pub use laws::{the_rest_is_the_firms, the_wire_reads_back, the_wire_tells_messages_apart};
pub use limits::MOST_WIRE_BODY;
pub use told::Told;
