//! The error codes of refused parts.

ghost use Rattle.std.specs.Prelude.{◌≡◌};
ghost use Rattle.walk.specs.Codes.{refusal_code};

use acl_binding::Kind;
use authorizer::Refusal;
use wire_types::ErrorCode;

/// The error code that a refused part is answered, by the kind of resource that was refused: TOPIC_, GROUP_, CLUSTER_ or
/// TRANSACTIONAL_ID_AUTHORIZATION_FAILED.
pub fn refusal_code(refusal: &Refusal) -> ErrorCode
    ensures { result ≡ refusal_code refusal.now }
{
    match refusal.question.kind {
        Kind::Topic => ErrorCode::TopicAuthorizationFailed,
        Kind::Group => ErrorCode::GroupAuthorizationFailed,
        Kind::Cluster => ErrorCode::ClusterAuthorizationFailed,
        Kind::TransactionalId => ErrorCode::TransactionalIdAuthorizationFailed,
    }
}
