//! Which records a reader may see.

use std::alloc::Global;
use wire_types::{Cursor, Malformed, ReadFault, Wire, WriteFault, deduct, write_i8};

/// The isolation level of a reader, with its number on the wire: read_committed hides records of aborted and of open
/// transactions. Any other number is read as `Malformed::Range`.
#[derive(Clone, Copy, Debug, PartialEq, Eq)]
pub enum Isolation {
    ReadUncommitted = 0,
    ReadCommitted = 1,
}

impl Wire for Isolation {
    ghost use Rattle.msg_data.specs.Isolation.{isolation};

    ghost grammar = { isolation };

    #[tactic(auto, unfolding(wire_types::specs::CodedLaws::coded_at, wire_types::specs::CodedLaws::named_or, crate::specs::Isolation::isolation_of))]
    fn read(_alloc: Global, cursor: &mut Cursor<'_>) -> Result<Isolation, ReadFault> {
        match cursor.read_i8()? {
            0 => Ok(Isolation::ReadUncommitted),
            1 => Ok(Isolation::ReadCommitted),
            _ => Err(ReadFault::Malformed(Malformed::Range)),
        }
    }

    fn put(&self, out: &mut Vec<u8>) -> Result<(), WriteFault> {
        write_i8(out, *self as i8)?;
        Ok(())
    }

    fn deduct_from(&self, budget: usize) -> Option<usize> {
        deduct(1, budget)
    }
}
