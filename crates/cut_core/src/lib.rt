//! What follows of histories that are cut into many, each with some of the identities: laws, with no call.
#![tactic(auto)]

mod laws;
mod places;
mod texts;
mod verdicts;

pub use laws::{
    cut_jobs_follow, cut_jobs_have_parts, cuts_know_what_is_kept, cuts_leave_what_is_kept,
};
pub use places::{entries_have_one_place, places_add_up, places_say_the_truth};
pub use texts::{texts_are_cut, texts_are_read};
pub use verdicts::cut_parts_say_the_truth;
