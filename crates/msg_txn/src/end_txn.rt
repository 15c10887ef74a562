//! EndTxn, versions 0 to 5: a transaction is committed or aborted. From version 3 on its messages are flexible, and
//! version 5 answers the pair that the transactional id has from then on (KIP-890).

ghost use Rattle.std.specs.Prelude.{◌≡◌};
ghost use Rattle.wire_types.specs.Reading.{Reads};
ghost use Rattle.msg_txn.specs.EndTxn.{end_txn_of, error_of, version_asked, version_answered, end_txn_request, end_txn_reply};

use std::alloc::Global;
use wire_types::{
    Cursor, ErrorCode, ReadFault, Text, Wire, WriteFault, deduct, deduct_compact_string,
    deduct_string, write_bool, write_compact_string, write_i16, write_i32, write_i64,
    write_no_tags, write_string,
};

/// The request's fields, which are the same in all versions; as `Wire` in the form of versions 0 to 2.
#[derive(Drop, PartialEq, Eq)]
pub struct EndTxn {
    pub transactional_id: Text,
    pub producer: i64,
    pub epoch: i16,
    /// True to commit, false to abort.
    pub committed: bool,
}

/// The request's fields in the flexible form of versions 3 to 5 (KIP-482).
#[derive(Drop, PartialEq, Eq)]
pub struct FlexibleEndTxn {
    pub asked: EndTxn,
}

/// Asks to commit or abort a producer's transaction, in one of the versions 0 to 5.
#[derive(Drop, PartialEq, Eq)]
pub enum EndTxnRequest {
    Version0(EndTxn),
    Version1(EndTxn),
    Version2(EndTxn),
    Version3(FlexibleEndTxn),
    Version4(FlexibleEndTxn),
    Version5(FlexibleEndTxn),
}

/// Whether the transaction is ended (error code 0), in the form of versions 0 to 2.
#[derive(Drop, PartialEq, Eq)]
pub struct Ended {
    pub throttle: i32,
    pub error: ErrorCode,
}

/// Whether the transaction is ended (error code 0), in the flexible form of versions 3 and 4 (KIP-482).
#[derive(Drop, PartialEq, Eq)]
pub struct FlexibleEnded {
    pub throttle: i32,
    pub error: ErrorCode,
}

/// Whether the transaction is ended (error code 0), in the form of version 5, which also gives the producer id and epoch to
/// go on with (KIP-890). With an error both are -1.
#[derive(Drop, PartialEq, Eq)]
pub struct EndedWithPair {
    pub throttle: i32,
    pub error: ErrorCode,
    pub producer: i64,
    pub epoch: i16,
}

/// Whether the transaction is ended, in the version of the request.
#[derive(Drop, PartialEq, Eq)]
pub enum EndTxnReply {
    Version0(Ended),
    Version1(Ended),
    Version2(Ended),
    Version3(FlexibleEnded),
    Version4(FlexibleEnded),
    Version5(EndedWithPair),
}

impl EndTxnRequest {
    /// Reads the body of an EndTxn request in this version, which has to be 0 to 5. Bytes after the body are left to the caller.
    pub fn read(
        alloc: Global,
        version: i16,
        cursor: &mut Cursor<'_>,
    ) -> Result<EndTxnRequest, ReadFault>
        ensures { Reads ((end_txn_request version).reading cursor.old) result cursor.new }
    {
        Ok(match version {
            0 => EndTxnRequest::Version0(Wire::read(alloc, cursor)?),
            1 => EndTxnRequest::Version1(Wire::read(alloc, cursor)?),
            2 => EndTxnRequest::Version2(Wire::read(alloc, cursor)?),
            3 => EndTxnRequest::Version3(Wire::read(alloc, cursor)?),
            4 => EndTxnRequest::Version4(Wire::read(alloc, cursor)?),
            _ => EndTxnRequest::Version5(Wire::read(alloc, cursor)?),
        })
    }

    /// The request's version, 0 to 5.
    pub fn version(&self) -> i16
        ensures { result ≡ version_asked self.now }
    {
        match self {
            EndTxnRequest::Version0(_) => 0,
            EndTxnRequest::Version1(_) => 1,
            EndTxnRequest::Version2(_) => 2,
            EndTxnRequest::Version3(_) => 3,
            EndTxnRequest::Version4(_) => 4,
            EndTxnRequest::Version5(_) => 5,
        }
    }

    /// The request's fields, whatever its version.
    pub fn asked(&self) -> &EndTxn
        ensures { result.now ≡ end_txn_of self.now }
    {
        match self {
            EndTxnRequest::Version0(body) => body,
            EndTxnRequest::Version1(body) => body,
            EndTxnRequest::Version2(body) => body,
            EndTxnRequest::Version3(body) => &body.asked,
            EndTxnRequest::Version4(body) => &body.asked,
            EndTxnRequest::Version5(body) => &body.asked,
        }
    }
}

impl EndTxnReply {
    /// Reads the body of an EndTxn reply in this version, which has to be 0 to 5. Bytes after the body are left to the caller.
    pub fn read(
        alloc: Global,
        version: i16,
        cursor: &mut Cursor<'_>,
    ) -> Result<EndTxnReply, ReadFault>
        ensures { Reads ((end_txn_reply version).reading cursor.old) result cursor.new }
    {
        Ok(match version {
            0 => EndTxnReply::Version0(Wire::read(alloc, cursor)?),
            1 => EndTxnReply::Version1(Wire::read(alloc, cursor)?),
            2 => EndTxnReply::Version2(Wire::read(alloc, cursor)?),
            3 => EndTxnReply::Version3(Wire::read(alloc, cursor)?),
            4 => EndTxnReply::Version4(Wire::read(alloc, cursor)?),
            _ => EndTxnReply::Version5(Wire::read(alloc, cursor)?),
        })
    }

    /// The reply's version, 0 to 5.
    pub fn version(&self) -> i16
        ensures { result ≡ version_answered self.now }
    {
        match self {
            EndTxnReply::Version0(_) => 0,
            EndTxnReply::Version1(_) => 1,
            EndTxnReply::Version2(_) => 2,
            EndTxnReply::Version3(_) => 3,
            EndTxnReply::Version4(_) => 4,
            EndTxnReply::Version5(_) => 5,
        }
    }

    /// The reply's error code, whatever its version.
    pub fn error(&self) -> ErrorCode
        ensures { result ≡ error_of self.now }
    {
        match self {
            EndTxnReply::Version0(body) => body.error,
            EndTxnReply::Version1(body) => body.error,
            EndTxnReply::Version2(body) => body.error,
            EndTxnReply::Version3(body) => body.error,
            EndTxnReply::Version4(body) => body.error,
            EndTxnReply::Version5(body) => body.error,
        }
    }
}

impl Wire for EndTxn {
    ghost use Rattle.msg_txn.specs.EndTxn.{end_txn};

    ghost grammar = { end_txn };

    fn read(alloc: Global, cursor: &mut Cursor<'_>) -> Result<EndTxn, ReadFault> {
        let transactional_id = cursor.read_string(alloc)?;
        let producer = cursor.read_i64()?;
        let epoch = cursor.read_i16()?;
        let committed = cursor.read_bool()?;
        Ok(EndTxn {
            transactional_id,
            producer,
            epoch,
            committed,
        })
    }

    fn put(&self, out: &mut Vec<u8>) -> Result<(), WriteFault> {
        write_string(out, &self.transactional_id)?;
        write_i64(out, self.producer)?;
        write_i16(out, self.epoch)?;
        write_bool(out, self.committed)?;
        Ok(())
    }

    fn deduct_from(&self, budget: usize) -> Option<usize> {
        let budget = deduct_string(&self.transactional_id, budget)?;
        let budget = deduct(8, budget)?;
        let budget = deduct(2, budget)?;
        deduct(1, budget)
    }
}

impl Wire for FlexibleEndTxn {
    ghost use Rattle.msg_txn.specs.EndTxn.{flexible_end_txn};

    ghost grammar = { flexible_end_txn };

    fn read(alloc: Global, cursor: &mut Cursor<'_>) -> Result<FlexibleEndTxn, ReadFault> {
        let transactional_id = cursor.read_compact_string(alloc)?;
        let producer = cursor.read_i64()?;
        let epoch = cursor.read_i16()?;
        let committed = cursor.read_bool()?;
        cursor.skip_tags()?;
        Ok(FlexibleEndTxn {
            asked: EndTxn {
                transactional_id,
                producer,
                epoch,
                committed,
            },
        })
    }

    fn put(&self, out: &mut Vec<u8>) -> Result<(), WriteFault> {
        write_compact_string(out, &self.asked.transactional_id)?;
        write_i64(out, self.asked.producer)?;
        write_i16(out, self.asked.epoch)?;
        write_bool(out, self.asked.committed)?;
        write_no_tags(out)?;
        Ok(())
    }

    fn deduct_from(&self, budget: usize) -> Option<usize> {
        let budget = deduct_compact_string(&self.asked.transactional_id, budget)?;
        let budget = deduct(8, budget)?;
        let budget = deduct(2, budget)?;
        let budget = deduct(1, budget)?;
        deduct(1, budget)
    }
}

impl Wire for Ended {
    ghost use Rattle.msg_txn.specs.EndTxn.{end_txn_answer};

    ghost grammar = { end_txn_answer };

    fn read(alloc: Global, cursor: &mut Cursor<'_>) -> Result<Ended, ReadFault> {
        let throttle = cursor.read_i32()?;
        let error = ErrorCode::read(alloc, cursor)?;
        Ok(Ended { throttle, error })
    }

    fn put(&self, out: &mut Vec<u8>) -> Result<(), WriteFault> {
        write_i32(out, self.throttle)?;
        self.error.write(out)?;
        Ok(())
    }

    fn deduct_from(&self, budget: usize) -> Option<usize> {
        let budget = deduct(4, budget)?;
        self.error.deduct_from(budget)
    }
}

impl Wire for FlexibleEnded {
    ghost use Rattle.msg_txn.specs.EndTxn.{flexible_end_txn_answer};

    ghost grammar = { flexible_end_txn_answer };

    fn read(alloc: Global, cursor: &mut Cursor<'_>) -> Result<FlexibleEnded, ReadFault> {
        let throttle = cursor.read_i32()?;
        let error = ErrorCode::read(alloc, cursor)?;
        cursor.skip_tags()?;
        Ok(FlexibleEnded { throttle, error })
    }

    fn put(&self, out: &mut Vec<u8>) -> Result<(), WriteFault> {
        write_i32(out, self.throttle)?;
        self.error.write(out)?;
        write_no_tags(out)?;
        Ok(())
    }

    fn deduct_from(&self, budget: usize) -> Option<usize> {
        let budget = deduct(4, budget)?;
        let budget = self.error.deduct_from(budget)?;
        deduct(1, budget)
    }
}

impl Wire for EndedWithPair {
    ghost use Rattle.msg_txn.specs.EndTxn.{end_txn_answer_with_producer};

    ghost grammar = { end_txn_answer_with_producer };

    fn read(alloc: Global, cursor: &mut Cursor<'_>) -> Result<EndedWithPair, ReadFault> {
        let throttle = cursor.read_i32()?;
        let error = ErrorCode::read(alloc, cursor)?;
        let producer = cursor.read_i64()?;
        let epoch = cursor.read_i16()?;
        cursor.skip_tags()?;
        Ok(EndedWithPair {
            throttle,
            error,
            producer,
            epoch,
        })
    }

    fn put(&self, out: &mut Vec<u8>) -> Result<(), WriteFault> {
        write_i32(out, self.throttle)?;
        self.error.write(out)?;
        write_i64(out, self.producer)?;
        write_i16(out, self.epoch)?;
        write_no_tags(out)?;
        Ok(())
    }

    fn deduct_from(&self, budget: usize) -> Option<usize> {
        let budget = deduct(4, budget)?;
        let budget = self.error.deduct_from(budget)?;
        let budget = deduct(8, budget)?;
        let budget = deduct(2, budget)?;
        deduct(1, budget)
    }
}
