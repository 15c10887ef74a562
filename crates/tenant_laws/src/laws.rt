//! The tenants' laws, each the contract of a function with nothing to do. They hold of every world, and so of each that events
//! reach.

ghost use Rattle.api_dispatch.specs.Step.{reply_to, step};
ghost use Rattle.tenant_laws.specs.Laws.{AgreementGoesOn, UngrantedStays};
ghost use Rattle.tenant_laws.specs.NullLists.{NullTellsOfAll};
ghost use Rattle.tenant_laws.specs.Replies.{RepliesDependOnGrantedParts, AnswersDependOnGrantedParts, ReceiptsDependOnGrantedParts};
ghost use Rattle.tenant_laws.specs.Runs.{OthersAreUnseen};
ghost use Rattle.tenant_laws.specs.Wrong.{reply_telling_of_none, reply_telling_what_is_there, reply_without_authorization, step_creating_topics, step_without_authorization};

/// What a request is answered, and which of its parts are refused, depends only on the ACLs and on the resources that it is
/// granted: two worlds that decide its questions alike, and agree on all that its granted parts ask about, give it the same reply
/// and the same refusals.
pub fn answers_depend_on_grants()
    ensures replies { RepliesDependOnGrantedParts reply_to }
    ensures granted { ¬ RepliesDependOnGrantedParts reply_without_authorization }
    ensures there { ¬ RepliesDependOnGrantedParts reply_telling_what_is_there }
    ensures worlds { AnswersDependOnGrantedParts }
    ensures cores { ReceiptsDependOnGrantedParts }
{}

/// An OffsetFetch of a group that the caller may DESCRIBE, with null as its list of topics, lists exactly the partitions of
/// topics that the caller may DESCRIBE for which the group has a committed offset, or with require_stable a staged one; each
/// once, in the settings' order, and with the answer that it would get if it were named.
pub fn null_tells_of_all()
    ensures all { NullTellsOfAll reply_to }
    ensures some { ¬ NullTellsOfAll reply_telling_of_none }
{}

/// Two worlds that agree on what a request is granted still agree on it after the request.
pub fn agreement_goes_on()
    ensures { AgreementGoesOn }
{}

/// No tenant notices what others ask: in two runs with the same requests of the tenant, in which others ask different things but
/// leave what is the tenant's as it is, the tenant is told the same.
pub fn others_are_unseen()
    ensures { OthersAreUnseen }
{}

/// A request leaves each topic, group and transactional id as it was on which nothing that it asks is granted.
pub fn ungranted_stays()
    ensures stays { UngrantedStays step }
    ensures granted { ¬ UngrantedStays step_without_authorization }
    ensures topics { ¬ UngrantedStays step_creating_topics }
{}
