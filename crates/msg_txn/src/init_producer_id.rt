//! InitProducerId, version 0: a producer id and its epoch.

use std::alloc::Global;
use wire_types::{
    Cursor, ErrorCode, ReadFault, Text, Wire, WriteFault, deduct, deduct_nullable, write_i16,
    write_i32, write_i64, write_nullable,
};

/// Asks for a producer id and epoch: those of this transactional id, or new ones for an idempotent producer where it is
/// null. The timeout of the transaction is in milliseconds.
#[derive(Drop, PartialEq, Eq)]
pub struct InitProducerIdRequest {
    pub transactional_id: Option<Text>,
    pub timeout: i32,
}

/// The producer id and its epoch, or an error and -1 for both.
#[derive(Drop, PartialEq, Eq)]
pub struct InitProducerIdReply {
    pub throttle: i32,
    pub error: ErrorCode,
    pub producer: i64,
    pub epoch: i16,
}

impl Wire for InitProducerIdRequest {
    ghost use Rattle.msg_txn.specs.InitProducerId.{init_producer_id_request};

    ghost grammar = { init_producer_id_request };

    fn read(alloc: Global, cursor: &mut Cursor<'_>) -> Result<InitProducerIdRequest, ReadFault> {
        let transactional_id = cursor.read_nullable(alloc)?;
        let timeout = cursor.read_i32()?;
        Ok(InitProducerIdRequest {
            transactional_id,
            timeout,
        })
    }

    fn put(&self, out: &mut Vec<u8>) -> Result<(), WriteFault> {
        write_nullable(out, &self.transactional_id)?;
        write_i32(out, self.timeout)?;
        Ok(())
    }

    fn deduct_from(&self, budget: usize) -> Option<usize> {
        let budget = deduct_nullable(&self.transactional_id, budget)?;
        deduct(4, budget)
    }
}

impl Wire for InitProducerIdReply {
    ghost use Rattle.msg_txn.specs.InitProducerId.{init_producer_id_reply};

    ghost grammar = { init_producer_id_reply };

    fn read(alloc: Global, cursor: &mut Cursor<'_>) -> Result<InitProducerIdReply, ReadFault> {
        let throttle = cursor.read_i32()?;
        let error = ErrorCode::read(alloc, cursor)?;
        let producer = cursor.read_i64()?;
        let epoch = cursor.read_i16()?;
        Ok(InitProducerIdReply {
            throttle,
            error,
            producer,
            epoch,
        })
    }

    fn put(&self, out: &mut Vec<u8>) -> Result<(), WriteFault> {
        write_i32(out, self.throttle)?;
        self.error.write(out)?;
        write_i64(out, self.producer)?;
        write_i16(out, self.epoch)?;
        Ok(())
    }

    fn deduct_from(&self, budget: usize) -> Option<usize> {
        let budget = deduct(4, budget)?;
        let budget = self.error.deduct_from(budget)?;
        let budget = deduct(8, budget)?;
        deduct(2, budget)
    }
}
