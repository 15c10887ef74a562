//! Tests of what serves: that sessions run at once, what is settled and what isn't; a server over loopback, and one whose operator is
//! gone; what an operator is told, and what not; what strangers leave of a server; commands whose reader or writer fails.
#![tactic(auto)]

#[cfg(test)]
mod command_devices;
#[cfg(test)]
mod hold;
#[cfg(test)]
mod operator_log;
#[cfg(test)]
mod served;
#[cfg(test)]
mod settled;
#[cfg(test)]
mod strangers;
#[cfg(test)]
mod together;
