//! How a day that goes on is printed.

/// What is printed of a day that goes on, line by line.
#[derive(Clone, Copy)]
pub struct LiveForm {
    /// Whether a message is printed as its whole frame, or as a line of its fields.
    pub frames: bool,
    /// Whether a mark stands behind the messages of each line of steps.
    pub marks: bool,
    /// Whether behind a message stands what its firm's desk noted beside it.
    pub notes: bool,
}
