//! DeleteAcls, version 1: filters whose bindings are to be deleted.

use crate::entries::{BindingEntry, FilterEntry};
use std::alloc::Global;
use wire_types::{
    Cursor, ErrorCode, Items, ReadFault, Text, Wire, WriteFault, deduct, deduct_array,
    deduct_nullable, read_array, write_array, write_i32, write_nullable,
};

/// Asks for all bindings (ACLs) that match any of the filters to be deleted.
#[derive(Drop, PartialEq, Eq)]
pub struct DeleteAclsRequest {
    pub filters: Items<FilterEntry>,
}

/// A binding that matched the filter and was deleted. This broker sends error code 0 and no message (null) with each.
#[derive(Drop, PartialEq, Eq)]
pub struct DeletedAcl {
    pub error: ErrorCode,
    pub message: Option<Text>,
    pub binding: BindingEntry,
}

/// What became of one filter: an error without bindings, or the bindings that it matched and that were deleted. This broker sends
/// no message (null).
#[derive(Drop, PartialEq, Eq)]
pub struct DeletedAcls {
    pub error: ErrorCode,
    pub message: Option<Text>,
    pub matches: Items<DeletedAcl>,
}

/// What became of each filter, in the order of the request.
#[derive(Drop, PartialEq, Eq)]
pub struct DeleteAclsReply {
    pub throttle: i32,
    pub results: Items<DeletedAcls>,
}

impl Wire for DeleteAclsRequest {
    ghost use Rattle.msg_acl.specs.DeleteAcls.{delete_acls_request};

    ghost grammar = { delete_acls_request };

    fn read(alloc: Global, cursor: &mut Cursor<'_>) -> Result<DeleteAclsRequest, ReadFault> {
        let filters = read_array(alloc, cursor)?;
        Ok(DeleteAclsRequest { filters })
    }

    fn put(&self, out: &mut Vec<u8>) -> Result<(), WriteFault> {
        write_array(out, &self.filters)?;
        Ok(())
    }

    fn deduct_from(&self, budget: usize) -> Option<usize> {
        deduct_array(&self.filters, budget)
    }
}

impl Wire for DeletedAcl {
    ghost use Rattle.msg_acl.specs.DeleteAcls.{deleted_acl};

    ghost grammar = { deleted_acl };

    fn read(alloc: Global, cursor: &mut Cursor<'_>) -> Result<DeletedAcl, ReadFault> {
        let error = ErrorCode::read(alloc, cursor)?;
        let message = cursor.read_nullable(alloc)?;
        let binding = BindingEntry::read(alloc, cursor)?;
        Ok(DeletedAcl {
            error,
            message,
            binding,
        })
    }

    fn put(&self, out: &mut Vec<u8>) -> Result<(), WriteFault> {
        self.error.write(out)?;
        write_nullable(out, &self.message)?;
        self.binding.write(out)?;
        Ok(())
    }

    fn deduct_from(&self, budget: usize) -> Option<usize> {
        let budget = self.error.deduct_from(budget)?;
        let budget = deduct_nullable(&self.message, budget)?;
        self.binding.deduct_from(budget)
    }
}

impl Wire for DeletedAcls {
    ghost use Rattle.msg_acl.specs.DeleteAcls.{deleted_acls};

    ghost grammar = { deleted_acls };

    fn read(alloc: Global, cursor: &mut Cursor<'_>) -> Result<DeletedAcls, ReadFault> {
        let error = ErrorCode::read(alloc, cursor)?;
        let message = cursor.read_nullable(alloc)?;
        let matches = read_array(alloc, cursor)?;
        Ok(DeletedAcls {
            error,
            message,
            matches,
        })
    }

    fn put(&self, out: &mut Vec<u8>) -> Result<(), WriteFault> {
        self.error.write(out)?;
        write_nullable(out, &self.message)?;
        write_array(out, &self.matches)?;
        Ok(())
    }

    fn deduct_from(&self, budget: usize) -> Option<usize> {
        let budget = self.error.deduct_from(budget)?;
        let budget = deduct_nullable(&self.message, budget)?;
        deduct_array(&self.matches, budget)
    }
}

impl Wire for DeleteAclsReply {
    ghost use Rattle.msg_acl.specs.DeleteAcls.{delete_acls_reply};

    ghost grammar = { delete_acls_reply };

    fn read(alloc: Global, cursor: &mut Cursor<'_>) -> Result<DeleteAclsReply, ReadFault> {
        let throttle = cursor.read_i32()?;
        let results = read_array(alloc, cursor)?;
        Ok(DeleteAclsReply { throttle, results })
    }

    fn put(&self, out: &mut Vec<u8>) -> Result<(), WriteFault> {
        write_i32(out, self.throttle)?;
        write_array(out, &self.results)?;
        Ok(())
    }

    fn deduct_from(&self, budget: usize) -> Option<usize> {
        let budget = deduct(4, budget)?;
        deduct_array(&self.results, budget)
    }
}
