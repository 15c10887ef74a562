//! Tests of the layers below the handlers, which see what the callers of each see: what travels (primitives, batches and
//! whole frames), partitions' logs and their producers, bindings and the policy over them. They are of what no script of
//! `tests/` can show: checksums, faults by their names, and devices; all small logs beside a plain list, and what a consumer
//! shows of a log; how often names are looked up; and what no request that is served asks for.
#![tactic(auto)]

#[cfg(test)]
mod batches;
#[cfg(test)]
mod checksums;
#[cfg(test)]
mod codes;
#[cfg(test)]
mod frames;
#[cfg(test)]
mod logins;
#[cfg(test)]
mod logs;
#[cfg(test)]
mod look_ups;
#[cfg(test)]
mod permission;
#[cfg(test)]
mod primitives;
#[cfg(test)]
mod producers;
