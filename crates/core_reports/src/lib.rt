//! What is told of a core: what it begins with, its state, how many events and refusals its trail has of each kind, what is new
//! there, whole or as a log has it, and what it was asked that isn't served.
#![tactic(auto)]

mod counts;
mod logged;
mod report_text;
mod starting;
mod state_report;
mod trail_delta;
mod unserved;

pub use counts::{Counts, counts_line, counts_of};
pub use logged::{LoggedRefusal, LoggedRefusals, refusals_to_log, text_of};
pub use report_text::{front_text, moment_text, state_text};
pub use starting::{Started, start_line};
pub use state_report::{
    CommittedOffset, GroupReport, LogEnds, StateReport, TickReport, TopicReport, front_of,
    open_ones, state_report_of, tick_report_of,
};
pub use trail_delta::{TrailDelta, delta_since, lines_of};
pub use unserved::{api_name, asked, unserved_words};
