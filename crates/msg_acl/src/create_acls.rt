//! CreateAcls, version 1: bindings that are to be created.

use crate::entries::BindingEntry;
use std::alloc::Global;
use wire_types::{
    Cursor, ErrorCode, Items, ReadFault, Text, Wire, WriteFault, deduct, deduct_array,
    deduct_nullable, read_array, write_array, write_i32, write_nullable,
};

/// Asks for bindings (ACLs) to be created.
#[derive(Drop, PartialEq, Eq)]
pub struct CreateAclsRequest {
    pub creations: Items<BindingEntry>,
}

/// What became of one binding of the request: error code 0 where it was created or an equal one stood already, else an error.
/// This broker sends no message (null).
#[derive(Drop, PartialEq, Eq)]
pub struct CreatedAcl {
    pub error: ErrorCode,
    pub message: Option<Text>,
}

/// What became of each binding, in the order of the request.
#[derive(Drop, PartialEq, Eq)]
pub struct CreateAclsReply {
    pub throttle: i32,
    pub results: Items<CreatedAcl>,
}

impl Wire for CreateAclsRequest {
    ghost use Rattle.msg_acl.specs.CreateAcls.{create_acls_request};

    ghost grammar = { create_acls_request };

    fn read(alloc: Global, cursor: &mut Cursor<'_>) -> Result<CreateAclsRequest, ReadFault> {
        let creations = read_array(alloc, cursor)?;
        Ok(CreateAclsRequest { creations })
    }

    fn put(&self, out: &mut Vec<u8>) -> Result<(), WriteFault> {
        write_array(out, &self.creations)?;
        Ok(())
    }

    fn deduct_from(&self, budget: usize) -> Option<usize> {
        deduct_array(&self.creations, budget)
    }
}

impl Wire for CreatedAcl {
    ghost use Rattle.msg_acl.specs.CreateAcls.{created_acl};

    ghost grammar = { created_acl };

    fn read(alloc: Global, cursor: &mut Cursor<'_>) -> Result<CreatedAcl, ReadFault> {
        let error = ErrorCode::read(alloc, cursor)?;
        let message = cursor.read_nullable(alloc)?;
        Ok(CreatedAcl { error, message })
    }

    fn put(&self, out: &mut Vec<u8>) -> Result<(), WriteFault> {
        self.error.write(out)?;
        write_nullable(out, &self.message)?;
        Ok(())
    }

    fn deduct_from(&self, budget: usize) -> Option<usize> {
        let budget = self.error.deduct_from(budget)?;
        deduct_nullable(&self.message, budget)
    }
}

impl Wire for CreateAclsReply {
    ghost use Rattle.msg_acl.specs.CreateAcls.{create_acls_reply};

    ghost grammar = { create_acls_reply };

    fn read(alloc: Global, cursor: &mut Cursor<'_>) -> Result<CreateAclsReply, ReadFault> {
        let throttle = cursor.read_i32()?;
        let results = read_array(alloc, cursor)?;
        Ok(CreateAclsReply { throttle, results })
    }

    fn put(&self, out: &mut Vec<u8>) -> Result<(), WriteFault> {
        write_i32(out, self.throttle)?;
        write_array(out, &self.results)?;
        Ok(())
    }

    fn deduct_from(&self, budget: usize) -> Option<usize> {
        let budget = deduct(4, budget)?;
        deduct_array(&self.results, budget)
    }
}
