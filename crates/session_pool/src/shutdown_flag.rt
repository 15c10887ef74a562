//! A flag that threads share, to stop something for good.

use std::sync::atomic::{AtomicU64, Ordering};

/// Whether something is to stop for good: that connections are taken, or that further requests are read.
#[derive(Drop)]
pub struct ShutdownFlag {
    flag: AtomicU64,
}

impl ShutdownFlag {
    /// A flag that isn't set.
    pub fn new() -> ShutdownFlag {
        ShutdownFlag {
            flag: AtomicU64::new(0),
        }
    }

    /// Sets the flag, for good.
    pub fn close(&self) {
        self.flag.store(1, Ordering::SeqCst);
    }

    /// Whether the flag is set.
    pub fn is_closed(&self) -> bool {
        self.flag.load(Ordering::SeqCst) != 0
    }
}
