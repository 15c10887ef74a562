//! Who may log in, by which message, and what is answered meanwhile: SASL PLAIN (RFC 4616), as a Kafka session has it.
//!
//! `Fresh`, `Offered` and `Known` are how far a login went. The call that leaves a state uses it up, so nobody asks before a login,
//! and no session tries two passwords. `Known::ask` makes the event of a request, asked by the user who is known. All that is
//! answered before that needs no core: the mechanism, the password, and which versions are served.
#![tactic(auto)]

mod compare;
mod laws;
mod listed;
mod login;
mod login_answers;
mod login_message;
mod users;

pub use laws::{login_is_exact, no_login_is_longer, versions_are_listed};
pub use listed::ListedVersions;
pub use login::{Closed, Fresh, Known, LoginFault, Offered, SessionState};
pub use login_answers::{write_handshake, write_login, write_versions};
pub use login_message::name_in;
pub use users::longest_login;
