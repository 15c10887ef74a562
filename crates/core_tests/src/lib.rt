//! Tests of the core and of what is read before there is one: what no script of `tests/` can show of an answer, since no line prints
//! it; what settings and the words of the command line mean where they leave something out; which users settings may have.
#![tactic(auto)]

#[cfg(test)]
mod command_lines;
#[cfg(test)]
mod cores;
#[cfg(test)]
mod defaults;
#[cfg(test)]
mod users;
