//! Frames of FIXT.1.1, UTCTimestamps and dates: read from bytes and written to bytes, exactly; and
//! streams of bytes, which are cut into messages.
//!
//! A frame is `8=FIXT.1.1`, SOH, `9=`, the length of the body, SOH, the body, `10=`, the sum of all
//! bytes before it modulo 256 in three digits, and SOH. The body is one or more fields `tag=value`
//! SOH, the first with tag 35 (MsgType). SOH is the byte 1. A frame has at most 4,096 bytes.
//!
//! ```text
//! let frame = read_frame(bytes)?;
//! let quote_id = frame.get(117);
//!
//! let mut writer = FrameWriter::new(alloc, b"S")?;
//! writer.text(117, b"a1")?;
//! writer.number(34, 7)?;
//! let bytes = writer.finish()?;
//!
//! let mut stream = Splitter::new(alloc);
//! let messages = stream.feed(piece)?; // those that this piece ends
//!
//! let date = Date::new(b"20250314")?;
//! let moment = read_moment(&date, b"20250314-09:05:00")?;
//! let text = moment_text(&date, moment);
//! ```
//!
//! What is promised, and proved of every input:
//!
//! - [`read_frame`] reads exactly the frames, and gives the fields that a frame was built from. No
//!   bytes are a frame of two lists of fields. Other bytes have one fault, the first in the order
//!   of [`Garbled`]. Reading takes no memory and copies nothing. [`known_frame`] gives the frame of
//!   bytes that are known to be one, and tests nothing.
//! - [`Frame::get`] is the value of the first field with a tag, [`Frame::times`] how many have it,
//!   and [`Frame::fields`] goes over all of them in order.
//! - [`FrameWriter::spelled`] adds a field that is written already, where it is a lawful one, and
//!   gives its tag.
//! - What [`FrameWriter::finish`] returns is the frame of the fields that were written, with the
//!   length in decimal without leading zeros, so it is read back as these fields. [`is_tag`],
//!   [`is_value`] and [`fits`] are the tests of what a writer asks for, and [`FrameWriter::left`]
//!   tells how much still fits. A call whose memory is refused leaves the writer as it was.
//! - [`Splitter::feed`] cuts a stream into [`Messages`] by their lengths alone: a message is what
//!   has the form of a frame, whatever its body and its sum are. Bytes are cut in one way
//!   ([`envelopes_of_is_the_cutting`]), whatever the pieces in which they come
//!   ([`pieces_make_no_difference`]), and frames come out whole ([`frames_are_cut`]). Bytes that
//!   can't begin a message have one [`StreamFault`], and no more messages come behind it
//!   ([`stream_faults_are_for_ever`]). A piece for which memory is refused leaves the splitter as
//!   it was, so that it may be fed again.
//! - [`read_moment`] reads exactly the two spellings of a moment of its date, and tells what is no
//!   spelling at all from what is one of another date. What [`moment_text`] returns is read back;
//!   [`moment_bytes`] are its bytes, and [`time_text`] is its part behind the date.
//!
//! Not promised: that memory is there; calendar arithmetic, since a [`Date`] is any month from 01
//! to 12 with any day from 01 to 31.
//!
//! A contract sees a [`Frame`] and a [`FrameWriter`] as the list of their fields, a tag and the
//! bytes of a value each, [`Messages`] as the list of their bytes, a [`Splitter`] as the bytes
//! behind the last message or their fault, a [`Date`] as the list of its digits, and a [`Moment`]
//! as a number. The definitions are in `specs/`: `Frame`, `Garbled`, `Envelope`, `UtcTimestamp` and
//! `TimeOfDay`.
#![tactic(auto)]

mod dates;
mod fault;
mod frames;
mod fronts;
mod laws;
mod limits;
mod moments;
mod scan;
mod stream_laws;
mod streams;
mod sums;
mod writer;

pub use dates::Date;
pub use fault::{Garbled, MomentFault, StreamFault};
pub use frames::{Fields, Frame, known_frame, read_frame};
pub use laws::{
    decimal_len_is_the_length, frame_of_is_the_reading, frames_have_one_reading,
    moment_of_is_the_reading,
};
pub use limits::{MOST_BODY, MOST_FRAME};
pub use moments::{Moment, moment_bytes, moment_text, read_moment, time_text};
pub use stream_laws::{
    envelopes_of_is_the_cutting, frames_are_cut, pieces_make_no_difference,
    stream_faults_are_for_ever,
};
pub use streams::{Messages, Splitter};
pub use writer::{FrameWriter, decimal_len, fits, is_tag, is_value};

/// An allocation that was refused.
pub use std::alloc::AllocError as Memory;
