//! Limits that contracts name.

/// How many bytes the body of a message on the wire may have, but for the session's header: what
/// the session keeps of a message has no more.
pub const MOST_WIRE_BODY: usize = 3_800;
