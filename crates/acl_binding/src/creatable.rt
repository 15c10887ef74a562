//! Which bindings may be created.

ghost use Rattle.std.specs.Prelude.{◌≡◌};
ghost use Rattle.acl_binding.specs.Creatable.{is_principal, is_resource_name, is_creatable};

use crate::binding::Binding;
use crate::words::Kind;
use wire_types::Text;

/// The name of the one cluster resource.
pub const CLUSTER_NAME: &str = "kafka-cluster";

/// Whether the text is a principal: `User:` and at least one character.
pub fn is_principal(text: &str) -> bool
    ensures { result ≡ is_principal text.now }
{
    match text.strip_prefix("User:") {
        Some(name) => !name.is_empty(),
        None => false,
    }
}

/// Whether a resource of this kind may have this name: the cluster is named `kafka-cluster`, and any other name isn't empty.
/// Topic names aren't checked further.
fn is_resource_name(kind: Kind, name: &Text) -> bool
    ensures { result ≡ is_resource_name kind name.now }
{
    match kind {
        Kind::Cluster => name.as_str() == CLUSTER_NAME,
        _ => !name.is_empty(),
    }
}

impl Binding {
    /// Whether CreateAcls may create the binding: it has a resource name that its kind allows, a principal `User:...` and a host
    /// that isn't empty. `User:*` is a principal too.
    pub fn is_creatable(&self) -> bool
        ensures { result ≡ is_creatable self.now }
    {
        is_resource_name(self.kind, &self.name)
            && is_principal(self.principal.as_str())
            && !self.host.is_empty()
    }
}
