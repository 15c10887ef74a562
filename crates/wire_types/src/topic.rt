//! A topic with what a message holds for each of its partitions.

use crate::arrays::{deduct_array, read_array, write_array};
use crate::cursor::Cursor;
use crate::fault::{ReadFault, WriteFault};
use crate::items::Items;
use crate::text::Text;
use crate::texts::{deduct_string, write_string};
use crate::wire::Wire;
use std::alloc::Global;

/// A topic's name, and a value of the message's own for each partition that it names. As `Wire`: a STRING and an ARRAY, as in the
/// versions that aren't flexible.
#[derive(Clone, Debug, Drop, PartialEq, Eq)]
pub struct Topic<P> {
    pub name: Text,
    pub partitions: Items<P>,
}

impl<P: Wire> Wire for Topic<P> {
    ghost use Rattle.wire_types.specs.Topic.{topic_of};

    ghost grammar = { topic_of P.grammar };

    fn read(alloc: Global, cursor: &mut Cursor<'_>) -> Result<Topic<P>, ReadFault> {
        let name = cursor.read_string(alloc)?;
        let partitions = read_array(alloc, cursor)?;
        Ok(Topic { name, partitions })
    }

    fn put(&self, out: &mut Vec<u8>) -> Result<(), WriteFault> {
        write_string(out, &self.name)?;
        write_array(out, &self.partitions)?;
        Ok(())
    }

    fn deduct_from(&self, budget: usize) -> Option<usize> {
        let budget = deduct_string(&self.name, budget)?;
        deduct_array(&self.partitions, budget)
    }
}
