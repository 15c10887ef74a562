//! Bindings and filters as they stand in the messages about access control.

use std::alloc::Global;
use wire_types::{
    Cursor, ReadFault, Text, Wire, WriteFault, deduct, deduct_nullable, deduct_string, write_i8,
    write_nullable, write_string,
};

/// A binding (ACL) as it stands in a message: kind (resource type), pattern type, operation and permission are still the
/// protocol's numbers, of which some may be unknown. `acl_binding` checks them.
#[derive(Clone, Drop, PartialEq, Eq)]
pub struct BindingEntry {
    pub kind: i8,
    pub name: Text,
    pub pattern: i8,
    pub principal: Text,
    pub host: Text,
    pub operation: i8,
    pub permission: i8,
}

/// A filter of bindings as it stands in a message: kind, pattern type, operation and permission are still the protocol's numbers,
/// where 1 is ANY. A null text matches any.
#[derive(Drop, PartialEq, Eq)]
pub struct FilterEntry {
    pub kind: i8,
    pub name: Option<Text>,
    pub pattern: i8,
    pub principal: Option<Text>,
    pub host: Option<Text>,
    pub operation: i8,
    pub permission: i8,
}

impl Wire for BindingEntry {
    ghost use Rattle.msg_acl.specs.Entries.{binding_entry};

    ghost grammar = { binding_entry };

    fn read(alloc: Global, cursor: &mut Cursor<'_>) -> Result<BindingEntry, ReadFault> {
        let kind = cursor.read_i8()?;
        let name = cursor.read_string(alloc)?;
        let pattern = cursor.read_i8()?;
        let principal = cursor.read_string(alloc)?;
        let host = cursor.read_string(alloc)?;
        let operation = cursor.read_i8()?;
        let permission = cursor.read_i8()?;
        Ok(BindingEntry {
            kind,
            name,
            pattern,
            principal,
            host,
            operation,
            permission,
        })
    }

    fn put(&self, out: &mut Vec<u8>) -> Result<(), WriteFault> {
        write_i8(out, self.kind)?;
        write_string(out, &self.name)?;
        write_i8(out, self.pattern)?;
        write_string(out, &self.principal)?;
        write_string(out, &self.host)?;
        write_i8(out, self.operation)?;
        write_i8(out, self.permission)?;
        Ok(())
    }

    fn deduct_from(&self, budget: usize) -> Option<usize> {
        let budget = deduct(1, budget)?;
        let budget = deduct_string(&self.name, budget)?;
        let budget = deduct(1, budget)?;
        let budget = deduct_string(&self.principal, budget)?;
        let budget = deduct_string(&self.host, budget)?;
        let budget = deduct(1, budget)?;
        deduct(1, budget)
    }
}

impl Wire for FilterEntry {
    ghost use Rattle.msg_acl.specs.Entries.{filter_entry};

    ghost grammar = { filter_entry };

    fn read(alloc: Global, cursor: &mut Cursor<'_>) -> Result<FilterEntry, ReadFault> {
        let kind = cursor.read_i8()?;
        let name = cursor.read_nullable(alloc)?;
        let pattern = cursor.read_i8()?;
        let principal = cursor.read_nullable(alloc)?;
        let host = cursor.read_nullable(alloc)?;
        let operation = cursor.read_i8()?;
        let permission = cursor.read_i8()?;
        Ok(FilterEntry {
            kind,
            name,
            pattern,
            principal,
            host,
            operation,
            permission,
        })
    }

    fn put(&self, out: &mut Vec<u8>) -> Result<(), WriteFault> {
        write_i8(out, self.kind)?;
        write_nullable(out, &self.name)?;
        write_i8(out, self.pattern)?;
        write_nullable(out, &self.principal)?;
        write_nullable(out, &self.host)?;
        write_i8(out, self.operation)?;
        write_i8(out, self.permission)?;
        Ok(())
    }

    fn deduct_from(&self, budget: usize) -> Option<usize> {
        let budget = deduct(1, budget)?;
        let budget = deduct_nullable(&self.name, budget)?;
        let budget = deduct(1, budget)?;
        let budget = deduct_nullable(&self.principal, budget)?;
        let budget = deduct_nullable(&self.host, budget)?;
        let budget = deduct(1, budget)?;
        deduct(1, budget)
    }
}
