//! What a handler makes of an event.

use authorizer::{Paid, Refusal, Tally};
use msg_admin::Reply;
use wire_types::Items;

/// What a handler makes of an event: the reply, and what the audit and the count of permits need.
#[derive(Drop)]
pub struct HandlerResult {
    pub reply: Reply,
    /// One refusal for each part of the request that was refused, in order.
    pub refusals: Items<Refusal>,
    /// The evidence of the permits that were spent for the event itself, at most three. Empty if only its parts ask permission.
    pub paid: Paid,
    /// How many permits were spent for the event's parts, those in `paid` not included.
    pub spent: Tally,
}
