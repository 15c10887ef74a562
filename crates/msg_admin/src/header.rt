//! The headers before the body of a request or a response.

ghost use Rattle.std.specs.Prelude.{◌≡◌, Some};
ghost use Rattle.wire_types.specs.Reading.{Reads};
ghost use Rattle.wire_types.specs.Writing.{Puts};
ghost use Rattle.msg_admin.specs.Header.{with_header_tags, sender, least_header};

use crate::api::Api;
use std::alloc::Global;
use wire_types::{
    Cursor, ReadFault, Text, Wire, WriteFault, deduct, deduct_nullable, write_i16, write_i32,
    write_no_tags, write_nullable,
};

/// A request's header: api key and version, the correlation id that the response carries again, and the client id.
#[derive(Drop, PartialEq, Eq)]
pub struct Header {
    pub key: i16,
    pub version: i16,
    pub correlation: i32,
    pub client: Option<Text>,
}

impl Header {
    ghost use Rattle.msg_admin.specs.ApiKey.{number_of};
    ghost use Rattle.msg_admin.specs.Api.{api_at};

    /// The header of a request to this API in its version.
    pub fn new(api: Api, correlation: i32, client: Option<Text>) -> Header
        ensures fields { result ≡ record {
          key = number_of api.key;
          version = api.version;
          correlation = correlation;
          client = client;
        } }
        ensures served { api_at result.key result.version ≡ Some api }
    {
        Header {
            key: api.key().number(),
            version: api.version(),
            correlation,
            client,
        }
    }
}

impl Wire for Header {
    ghost use Rattle.msg_admin.specs.Header.{header};

    ghost grammar = { header };

    fn read(alloc: Global, cursor: &mut Cursor<'_>) -> Result<Header, ReadFault> {
        let key = cursor.read_i16()?;
        let version = cursor.read_i16()?;
        let correlation = cursor.read_i32()?;
        let client = cursor.read_nullable(alloc)?;
        Ok(Header {
            key,
            version,
            correlation,
            client,
        })
    }

    fn put(&self, out: &mut Vec<u8>) -> Result<(), WriteFault> {
        write_i16(out, self.key)?;
        write_i16(out, self.version)?;
        write_i32(out, self.correlation)?;
        write_nullable(out, &self.client)?;
        Ok(())
    }

    fn deduct_from(&self, budget: usize) -> Option<usize> {
        let budget = deduct(2, budget)?;
        let budget = deduct(2, budget)?;
        let budget = deduct(4, budget)?;
        deduct_nullable(&self.client, budget)
    }
}

/// How many bytes a request's header has where the client id is null: one more where the version is flexible.
pub(crate) fn least_header(flexible: bool) -> usize
    ensures { result ≡ least_header flexible }
{
    if flexible { 11 } else { 10 }
}

/// Reads the rest of a request's header, after key and version: the correlation id and the nullable client id. Tagged fields are
/// skipped where `flexible` is set; the client id is a NULLABLE_STRING in both forms.
pub(crate) fn read_sender(
    alloc: Global,
    flexible: bool,
    cursor: &mut Cursor<'_>,
) -> Result<(i32, Option<Text>), ReadFault>
    ensures { Reads ((with_header_tags flexible sender).reading cursor.old) result cursor.new }
{
    let correlation = cursor.read_i32()?;
    let client = cursor.read_nullable(alloc)?;
    if flexible {
        cursor.skip_tags()?;
    }
    Ok((correlation, client))
}

/// Appends a header of a request or of a response, which for a response is its correlation id. Where `flexible` is set, empty
/// tagged fields end it. An error may leave a part of it in `out`.
pub(crate) fn write_header<H: Wire>(
    out: &mut Vec<u8>,
    flexible: bool,
    header: &H,
) -> Result<(), WriteFault>
    ensures { Puts (with_header_tags flexible H.grammar) header.now out.old.items result
        out.new.items }
{
    header.write(out)?;
    if flexible {
        write_no_tags(out)?;
    }
    Ok(())
}

/// How many of `budget` bytes are left after a header, with its empty tagged fields where `flexible` is set. None if it needs
/// more, or can't be written.
pub(crate) fn deduct_header<H: Wire>(flexible: bool, header: &H, budget: usize) -> Option<usize>
    ensures { result ≡ (with_header_tags flexible H.grammar).left header.now budget }
{
    let budget = header.deduct_from(budget)?;
    if flexible {
        deduct(1, budget)
    } else {
        Some(budget)
    }
}
