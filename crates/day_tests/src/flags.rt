//! A flag that one actor raises and another waits for, at most for a while.
use std::sync::atomic::{AtomicU64, Ordering};
use std::thread::yield_now;

// How often an actor that is held looks whether it may go on.
const MOST_LOOKS: u32 = 1_000_000;

/// A flag.
#[derive(Drop)]
pub(crate) struct Flag {
    raised: AtomicU64,
}

impl Flag {
    /// A flag that is down.
    pub(crate) fn new() -> Self {
        Flag {
            raised: AtomicU64::new(0),
        }
    }

    /// Raises it for good.
    pub(crate) fn raise(&self) {
        self.raised.store(1, Ordering::SeqCst);
    }

    /// Whether it is up.
    pub(crate) fn is_up(&self) -> bool {
        self.raised.load(Ordering::SeqCst) == 1
    }

    /// Waits until it is up, and answers whether it is: the looks may run out before.
    pub(crate) fn wait(&self) -> bool {
        for _ in 0..MOST_LOOKS {
            if self.is_up() {
                return true;
            }
            yield_now();
        }
        false
    }
}
