//! The laws of the definitions, each the contract of a function with nothing to do.

ghost use Rattle.acl_binding.specs.Laws.{SameIsEqual};
ghost use Rattle.acl_binding.specs.Relations.{TestsAreRelations};
ghost use Rattle.acl_binding.specs.Verdict.{VerdictIsDecided};

/// Two bindings are equal exactly where all seven fields are.
pub fn equal_bindings()
    ensures { SameIsEqual }
{}

/// The verdict puts DENY before ALLOW: it names the first binding that denies; where none does, it is `Yes` exactly if one
/// allows.
pub fn verdict_is_decided()
    ensures { VerdictIsDecided }
{}

/// The tests of a binding (`covers`, `applies`, `denies`, `allows`) are what Kafka's documentation of authorization says, as
/// relations: a prefix is what a name goes on from, and a DENY denies no operation that its own implies.
pub fn tests_are_relations()
    ensures { TestsAreRelations }
{}
