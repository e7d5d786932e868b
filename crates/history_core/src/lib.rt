//! What follows for every history of jobs: laws over the definitions of `universe_core`, with no call.
#![tactic(auto)]

mod laws;

pub use laws::{
    answers_are_the_truth, base_stands_for_its_history, facts_hold, first_job_in_words,
    first_job_is_sound, last_part_covers, ledger_step_is_the_historys, left_out_issuers_come_back,
    rebase_makes_the_base, releases_are_cut, two_jobs_computed, words_hold,
};
