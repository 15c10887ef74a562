//! The filters that the entries of DescribeAcls and DeleteAcls describe.

ghost use Rattle.std.specs.Prelude.{◌≡◌, IfOk};
ghost use Rattle.acl_binding.specs.Entries.{filter_of};

use acl_binding::{BadEntry, Filter};
use msg_acl::FilterEntry;
use std::alloc::AllocError;

/// A copy of the entry. An `AllocError` is an allocation failure.
fn copied(entry: &FilterEntry) -> Result<FilterEntry, AllocError>
    ensures { IfOk result (λ copy. copy ≡ entry.now) }
{
    Ok(FilterEntry {
        kind: entry.kind,
        name: entry.name.clone()?,
        pattern: entry.pattern,
        principal: entry.principal.clone()?,
        host: entry.host.clone()?,
        operation: entry.operation,
        permission: entry.permission,
    })
}

/// The filter that an entry of a message describes, `None` if one of its numbers is unknown. An `AllocError` is an
/// allocation failure.
pub(crate) fn filter_in(entry: &FilterEntry) -> Result<Option<Filter>, AllocError>
    ensures { IfOk result (λ filter. filter ≡ filter_of entry.now) }
{
    match Filter::check(copied(entry)?) {
        Ok(filter) => Ok(Some(filter)),
        Err(BadEntry) => Ok(None),
    }
}
