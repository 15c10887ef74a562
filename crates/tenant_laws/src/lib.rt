//! The tenants' laws over all apis: a request is answered by what its questions were granted alone, and leaves the rest
//! as it was.
#![tactic(auto)]

mod laws;

pub use laws::{
    agreement_goes_on, answers_depend_on_grants, null_tells_of_all, others_are_unseen,
    ungranted_stays,
};
