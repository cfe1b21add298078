//! What a day that is taken line by line is printed as.
use investor_texts::{Sought, Whom};
use venue_text::LiveForm;

/// What is printed of a day that is taken line by line, and when.
#[derive(Clone, Copy)]
pub enum LineForm<'a> {
    /// The messages of each line as it comes.
    Answered(LiveForm),
    /// What is asked for, at the end.
    Kept(Sought<'a>),
    /// Two days, and at the end of the second what differs for the firm that is named.
    Compared(Whom<'a>),
}
