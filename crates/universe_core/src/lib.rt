//! Admission: what a job adds to a history of jobs, and the step from a ledger to the next.
#![tactic(auto)]

mod admission;
mod admitted;
mod class;
mod classing;
mod counting;
mod counts;
mod enrolling;
mod fault;
mod finding;
mod flagging;
mod following;
mod grouping;
mod halving;
mod held;
mod judging;
mod lateness;
mod laws;
mod listing;
mod marking;
mod member;
mod merging;
mod read_entry;
mod reading;
mod serial_key;
mod threading;

pub use admission::{admit, admit_of, first, first_of};
pub use admitted::{Admitted, Group};
pub use class::Class;
pub use classing::class_of;
pub use counts::Counts;
pub use enrolling::is_enrolled;
pub use fault::AdmitFault;
pub use finding::guessed_places;
pub use following::{bad_crl, copied_ranges};
pub use grouping::groups;
pub use lateness::{Known, known_of};
pub use laws::enrolment_is_a_test;
