//! What a line of a script is answered.

use commands::Order;
use message_words::{Sheet, push_no_answer};
use request_handlers::Stop;
use std::alloc::AllocError;

/// Where the answers to a script's lines come from.
pub(crate) trait Answers {
    /// Appends the answer to an order, under it. Gives the stop, if the script ends there; else `None`.
    fn push_answer(&mut self, sheet: &mut Sheet, order: Order) -> Result<Option<Stop>, AllocError>;
}

/// For a script without settings, of which only the requests are shown.
#[derive(Drop)]
pub(crate) struct NoAnswers;

impl Answers for NoAnswers {
    /// Appends nothing.
    fn push_answer(
        &mut self,
        _sheet: &mut Sheet,
        order: Order,
    ) -> Result<Option<Stop>, AllocError> {
        drop(order);
        Ok(None)
    }
}

/// Appends that an order isn't answered, since the broker stops at it, and why.
pub(crate) fn push_stop(sheet: &mut Sheet, stop: Stop) -> Result<(), AllocError> {
    let why = format!(in sheet.alloc(); "none, the broker stops: {stop}")?;
    push_no_answer(sheet, why.as_str())
}
