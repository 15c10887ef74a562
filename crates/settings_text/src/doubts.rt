//! Warnings: what settings without a fault probably don't mean, in sentences for whoever runs the broker. No contract speaks of
//! these sentences. A name appears with its escapes, so that each sentence is one line.

use crate::document::{Document, User};
use acl_binding::{Binding, Kind, Operation};
use settings::Entry;
use std::alloc::{AllocError, Global};

/// The principal that stands for everybody.
const EVERYBODY: &str = "User:*";

/// Whether Kafka has this operation on resources of this kind (Kafka documentation, "Operations and Resources on Protocols").
fn is_meant(kind: Kind, operation: Operation) -> bool {
    match operation {
        Operation::All | Operation::Describe => true,
        Operation::Read => kind == Kind::Topic || kind == Kind::Group,
        Operation::Write => kind == Kind::Topic || kind == Kind::TransactionalId,
        Operation::Delete => kind == Kind::Topic || kind == Kind::Group,
        Operation::Create
        | Operation::Alter
        | Operation::DescribeConfigs
        | Operation::AlterConfigs => kind == Kind::Topic || kind == Kind::Cluster,
        Operation::ClusterAction | Operation::IdempotentWrite => kind == Kind::Cluster,
    }
}

/// Whether a principal is `User:` with the name of some user, or `User:*`, which stands for everybody.
fn is_known(users: &[User], principal: &str) -> bool {
    principal == EVERYBODY
        || users.iter().any(|user| principal.strip_prefix("User:") == Some(user.name.as_str()))
}

/// A sentence about the first ACL binding whose principal is no user of the settings; `None` without one.
fn unknown_principal(alloc: Global, document: &Document) -> Result<Option<String>, AllocError> {
    let users = document.users.as_slice();
    let acls = document.settings.settings().acls.as_slice();
    for (place, binding) in acls.iter().enumerate() {
        let principal = binding.principal.as_str();
        if !is_known(users, principal) {
            let entry = Entry { list: "acl", place };
            let principal = principal.escape_debug();
            return Ok(Some(format!(in alloc; "{entry}: `{principal}` is no `[[user]]`")?));
        }
    }
    Ok(None)
}

/// A sentence about the first ACL binding with an operation that its kind of resource doesn't have; `None` without one.
fn meaningless(alloc: Global, acls: &[Binding]) -> Result<Option<String>, AllocError> {
    for (place, binding) in acls.iter().enumerate() {
        if !is_meant(binding.kind, binding.operation) {
            let entry = Entry { list: "acl", place };
            let (operation, kind) = (binding.operation.name(), binding.kind.name());
            return Ok(Some(format!(in alloc;
                "{entry}: nothing asks for {operation} on a {kind}"
            )?));
        }
    }
    Ok(None)
}

/// Returns at most one sentence for each of these: there is no user, so nobody can log in; an ACL binding has a principal that
/// is no user; an ACL binding has an operation that its kind of resource doesn't have. Empty if all is well. An `AllocError` is
/// an allocation failure.
pub fn warnings(alloc: Global, document: &Document) -> Result<Vec<String>, AllocError> {
    let mut sentences = Vec::new(alloc);
    if document.users.as_slice().is_empty() {
        sentences.push(String::from_str(alloc, "there is no `[[user]]`, so nobody can log in")?)?;
    }
    if let Some(sentence) = unknown_principal(alloc, document)? {
        sentences.push(sentence)?;
    }
    let settings = document.settings.settings();
    if let Some(sentence) = meaningless(alloc, settings.acls.as_slice())? {
        sentences.push(sentence)?;
    }
    Ok(sentences)
}
