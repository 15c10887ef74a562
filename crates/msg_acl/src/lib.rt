//! The messages about access control: what each api is asked and what it answers.
//!
//! One file for each api, with the fields in their order on the wire; `specs/` has the grammar of each.
//! Each message and each part of one is a `Wire`: `read` reads it from bytes, `put` appends its bytes, and `deduct_from`
//! returns how many of a budget of bytes are left after these.
#![tactic(auto)]

mod create_acls;
mod delete_acls;
mod describe_acls;
mod entries;

pub use create_acls::{CreateAclsReply, CreateAclsRequest, CreatedAcl};
pub use delete_acls::{DeleteAclsReply, DeleteAclsRequest, DeletedAcl, DeletedAcls};
pub use describe_acls::{DescribeAclsReply, DescribeAclsRequest, DescribedAcl, DescribedResource};
pub use entries::{BindingEntry, FilterEntry};
