//! Questions to the policy that several apis ask.

ghost use Rattle.std.specs.Prelude.{◌≡◌, IfOk};
ghost use Rattle.acl_binding.specs.Creatable.{cluster_name};
ghost use Rattle.acl_binding.specs.Verdict.{question_of};
ghost use Rattle.acl_binding.specs.declared.words.Kind.TheVariants.{Cluster};
ghost use Rattle.broker_world.specs.Questions.{id_question, read_question};

use acl_binding::{CLUSTER_NAME, Caller, Kind, Operation, Question};
use std::alloc::{AllocError, Global};
use wire_types::Text;

/// The question whether the caller may WRITE on this transactional id.
pub fn id_question(caller: &Caller, id: &Text) -> Result<Question, AllocError>
    ensures { IfOk result (λ question. question ≡ id_question caller.now id.now) }
{
    caller.asks(Operation::Write, Kind::TransactionalId, id)
}

/// The question whether the caller may READ this consumer group.
pub fn read_question(caller: &Caller, group: &Text) -> Result<Question, AllocError>
    ensures { IfOk result (λ question. question ≡ read_question caller.now group.now) }
{
    caller.asks(Operation::Read, Kind::Group, group)
}

/// The question whether the caller may do this operation on the cluster.
pub fn asks_cluster(alloc: Global, caller: &Caller, op: Operation) -> Result<Question, AllocError>
    ensures { IfOk result (λ question. question ≡ question_of caller.now op Cluster cluster_name) }
{
    let name = Text::of(alloc, CLUSTER_NAME)?;
    caller.asks(op, Kind::Cluster, &name)
}
