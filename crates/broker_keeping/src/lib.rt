//! What gives the keeper of a served broker its steps, by the clock or by lines that steer it, and the log for an operator.
#![tactic(auto)]

mod asking;
mod control;
mod control_command;
mod keeping;
mod operator_log;
mod refused;
mod ticks;
mod watch;

pub use asking::{Attendant, Steering};
pub use control::Control;
pub use core_reports::Started;
pub use keeping::Timekeeper;
pub use log_queue::LogWriter;
pub use operator_log::OperatorLog;
pub use ticks::Ticks;
pub use watch::Watch;
