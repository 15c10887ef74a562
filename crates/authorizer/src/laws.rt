//! Laws of permits, of producer ids and of look-ups, each the contract of a function with nothing to do.

ghost use Rattle.acl_binding.specs.declared.question.Question.{Question};
ghost use Rattle.authorizer.specs.LookUps.{LookUpsAreFew};
ghost use Rattle.authorizer.specs.Policy.{PolicyValue, PermitEndsWithEdit};
ghost use Rattle.authorizer.specs.SomeTopic.{SomeTopicIsExact};

/// A permit that was given before a change of the bindings can't be spent after it.
pub fn permit_ends_with_edit()
    ensures { PermitEndsWithEdit }
{}

/// `Policy::any_topic` is exact: it holds where some binding on topics allows the caller to WRITE and no DENY for the caller
/// covers all names of that binding, and nowhere else (KIP-679).
pub fn some_topic_is_exact()
    ensures { SomeTopicIsExact }
{}

/// Beside the asked name and `*`, a verdict looks up no more names than the asked name has characters, and no more than the
/// longest prefixed name has bytes.
pub fn look_ups_are_few()
    ensures { (policy : PolicyValue) (question : Question) → LookUpsAreFew policy question }
{}
