//! ApiVersions, version 0: the apis that a broker serves. Its request has no body.

use std::alloc::Global;
use wire_types::{
    Cursor, ErrorCode, Items, ReadFault, Wire, WriteFault, deduct, deduct_array, read_array,
    write_array, write_i16,
};

/// An API by its key, with the first and the last version in which it is served.
#[derive(Drop, PartialEq, Eq)]
pub struct ServedVersions {
    pub key: i16,
    pub min: i16,
    pub max: i16,
}

/// The apis that are served, with their versions.
#[derive(Drop, PartialEq, Eq)]
pub struct ApiVersionsReply {
    pub error: ErrorCode,
    pub apis: Items<ServedVersions>,
}

impl Wire for ServedVersions {
    ghost use Rattle.msg_login.specs.ApiVersions.{served_versions};

    ghost grammar = { served_versions };

    fn read(_alloc: Global, cursor: &mut Cursor<'_>) -> Result<ServedVersions, ReadFault> {
        let key = cursor.read_i16()?;
        let min = cursor.read_i16()?;
        let max = cursor.read_i16()?;
        Ok(ServedVersions { key, min, max })
    }

    fn put(&self, out: &mut Vec<u8>) -> Result<(), WriteFault> {
        write_i16(out, self.key)?;
        write_i16(out, self.min)?;
        write_i16(out, self.max)?;
        Ok(())
    }

    fn deduct_from(&self, budget: usize) -> Option<usize> {
        let budget = deduct(2, budget)?;
        let budget = deduct(2, budget)?;
        deduct(2, budget)
    }
}

impl Wire for ApiVersionsReply {
    ghost use Rattle.msg_login.specs.ApiVersions.{api_versions_reply};

    ghost grammar = { api_versions_reply };

    fn read(alloc: Global, cursor: &mut Cursor<'_>) -> Result<ApiVersionsReply, ReadFault> {
        let error = ErrorCode::read(alloc, cursor)?;
        let apis = read_array(alloc, cursor)?;
        Ok(ApiVersionsReply { error, apis })
    }

    fn put(&self, out: &mut Vec<u8>) -> Result<(), WriteFault> {
        self.error.write(out)?;
        write_array(out, &self.apis)?;
        Ok(())
    }

    fn deduct_from(&self, budget: usize) -> Option<usize> {
        let budget = self.error.deduct_from(budget)?;
        deduct_array(&self.apis, budget)
    }
}
