//! Requests, replies and frames in words: each field by its name in the Kafka protocol guide.
//!
//! Responses are read back as a client reads them, and where a frame's first fault stands is found by reading less of it. Each
//! message and each part of one implements `Fields`, one file for each family of apis, and `Sheet` lays the fields out. The
//! layout is under no contract.
#![tactic(auto)]

mod acls;
mod codes;
mod data;
mod fault_place;
mod groups;
mod logins;
mod names;
mod reading;
mod records;
mod reply;
mod request;
mod response;
mod sheet;
mod topics;
mod transactions;

pub use fault_place::fault_end;
pub use names::{api_name, key_name};
pub use reading::read_reply;
pub use reply::push_reply;
pub use request::push_request;
pub use response::{
    push_closed, push_no_answer, push_response, push_sent_reply, push_served_versions, push_silence,
};
pub use sheet::Sheet;
