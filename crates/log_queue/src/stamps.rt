//! The time and the level before a line.

use crate::log_message::Level;
use jiff::Timestamp;
use std::alloc::{AllocError, Global};
use std::time::SystemTime;

/// When something was logged, and how much it matters.
#[derive(Clone, Copy, Debug)]
pub(crate) struct Stamp {
    /// `None` where the clock couldn't be read.
    pub(crate) moment: Option<SystemTime>,
    pub(crate) level: Level,
}

impl Stamp {
    /// The moment in UTC, to the millisecond (RFC 3339, section 5.6), and the level, with a blank after each. `-` stands for a
    /// moment that can't be told.
    fn text(self, alloc: Global) -> Result<String, AllocError> {
        let level = self.level.name();
        let moment = self
            .moment
            .and_then(|moment| Timestamp::try_from(moment).ok());
        match moment {
            Some(moment) => format!(in alloc; "{moment:.3} {level} "),
            None => format!(in alloc; "- {level} "),
        }
    }

    /// These lines, each of them after the stamp and with a line feed.
    pub(crate) fn on(self, alloc: Global, lines: &str) -> Result<String, AllocError> {
        let front = self.text(alloc)?;
        let mut text = String::new(alloc);
        for line in lines.lines() {
            text.push_str(front.as_str())?;
            text.push_str(line)?;
            text.push_str("\n")?;
        }
        Ok(text)
    }
}
