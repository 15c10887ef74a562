//! DescribeAcls, version 1: the bindings that match a filter.

use crate::entries::FilterEntry;
use std::alloc::Global;
use wire_types::{
    Cursor, ErrorCode, Items, ReadFault, Text, Wire, WriteFault, deduct, deduct_array,
    deduct_nullable, deduct_string, read_array, write_array, write_i8, write_i32, write_nullable,
    write_string,
};

/// Asks for the bindings (ACLs) that match a filter.
#[derive(Drop, PartialEq, Eq)]
pub struct DescribeAclsRequest {
    pub filter: FilterEntry,
}

/// A binding in the list of its resource: who may or may not do what, from which host. Operation and permission are the
/// protocol's numbers.
#[derive(Drop, PartialEq, Eq)]
pub struct DescribedAcl {
    pub principal: Text,
    pub host: Text,
    pub operation: i8,
    pub permission: i8,
}

/// A resource pattern (kind, name and pattern type, by the protocol's numbers) with its bindings.
#[derive(Drop, PartialEq, Eq)]
pub struct DescribedResource {
    pub kind: i8,
    pub name: Text,
    pub pattern: i8,
    pub acls: Items<DescribedAcl>,
}

/// The bindings that match the filter, by resource pattern; or an error. This broker sends no message (null).
#[derive(Drop, PartialEq, Eq)]
pub struct DescribeAclsReply {
    pub throttle: i32,
    pub error: ErrorCode,
    pub message: Option<Text>,
    pub resources: Items<DescribedResource>,
}

impl Wire for DescribeAclsRequest {
    ghost use Rattle.msg_acl.specs.DescribeAcls.{describe_acls_request};

    ghost grammar = { describe_acls_request };

    fn read(alloc: Global, cursor: &mut Cursor<'_>) -> Result<DescribeAclsRequest, ReadFault> {
        let filter = FilterEntry::read(alloc, cursor)?;
        Ok(DescribeAclsRequest { filter })
    }

    fn put(&self, out: &mut Vec<u8>) -> Result<(), WriteFault> {
        self.filter.write(out)?;
        Ok(())
    }

    fn deduct_from(&self, budget: usize) -> Option<usize> {
        self.filter.deduct_from(budget)
    }
}

impl Wire for DescribedAcl {
    ghost use Rattle.msg_acl.specs.DescribeAcls.{described_acl};

    ghost grammar = { described_acl };

    fn read(alloc: Global, cursor: &mut Cursor<'_>) -> Result<DescribedAcl, ReadFault> {
        let principal = cursor.read_string(alloc)?;
        let host = cursor.read_string(alloc)?;
        let operation = cursor.read_i8()?;
        let permission = cursor.read_i8()?;
        Ok(DescribedAcl {
            principal,
            host,
            operation,
            permission,
        })
    }

    fn put(&self, out: &mut Vec<u8>) -> Result<(), WriteFault> {
        write_string(out, &self.principal)?;
        write_string(out, &self.host)?;
        write_i8(out, self.operation)?;
        write_i8(out, self.permission)?;
        Ok(())
    }

    fn deduct_from(&self, budget: usize) -> Option<usize> {
        let budget = deduct_string(&self.principal, budget)?;
        let budget = deduct_string(&self.host, budget)?;
        let budget = deduct(1, budget)?;
        deduct(1, budget)
    }
}

impl Wire for DescribedResource {
    ghost use Rattle.msg_acl.specs.DescribeAcls.{described_resource};

    ghost grammar = { described_resource };

    fn read(alloc: Global, cursor: &mut Cursor<'_>) -> Result<DescribedResource, ReadFault> {
        let kind = cursor.read_i8()?;
        let name = cursor.read_string(alloc)?;
        let pattern = cursor.read_i8()?;
        let acls = read_array(alloc, cursor)?;
        Ok(DescribedResource {
            kind,
            name,
            pattern,
            acls,
        })
    }

    fn put(&self, out: &mut Vec<u8>) -> Result<(), WriteFault> {
        write_i8(out, self.kind)?;
        write_string(out, &self.name)?;
        write_i8(out, self.pattern)?;
        write_array(out, &self.acls)?;
        Ok(())
    }

    fn deduct_from(&self, budget: usize) -> Option<usize> {
        let budget = deduct(1, budget)?;
        let budget = deduct_string(&self.name, budget)?;
        let budget = deduct(1, budget)?;
        deduct_array(&self.acls, budget)
    }
}

impl Wire for DescribeAclsReply {
    ghost use Rattle.msg_acl.specs.DescribeAcls.{describe_acls_reply};

    ghost grammar = { describe_acls_reply };

    fn read(alloc: Global, cursor: &mut Cursor<'_>) -> Result<DescribeAclsReply, ReadFault> {
        let throttle = cursor.read_i32()?;
        let error = ErrorCode::read(alloc, cursor)?;
        let message = cursor.read_nullable(alloc)?;
        let resources = read_array(alloc, cursor)?;
        Ok(DescribeAclsReply {
            throttle,
            error,
            message,
            resources,
        })
    }

    fn put(&self, out: &mut Vec<u8>) -> Result<(), WriteFault> {
        write_i32(out, self.throttle)?;
        self.error.write(out)?;
        write_nullable(out, &self.message)?;
        write_array(out, &self.resources)?;
        Ok(())
    }

    fn deduct_from(&self, budget: usize) -> Option<usize> {
        let budget = deduct(4, budget)?;
        let budget = self.error.deduct_from(budget)?;
        let budget = deduct_nullable(&self.message, budget)?;
        deduct_array(&self.resources, budget)
    }
}
