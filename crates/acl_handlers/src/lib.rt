//! Access control: DescribeAcls, CreateAcls and DeleteAcls.
#![tactic(auto)]

mod create_acls;
mod delete_acls;
mod describe_acls;
mod filters;
mod resource;

pub use create_acls::answer_create_acls;
pub use delete_acls::answer_delete_acls;
pub use describe_acls::answer_describe_acls;
