//! Systems of ribbon equations (Dillinger and Walzer, "Ribbon filter: practically smaller than Bloom and Xor", 2021) in
//! up to 16 planes: the elimination that decides whether they have solutions, and in each plane the one least solution.
#![tactic(auto)]

mod elimination;
mod existence;
mod laws;
mod places;
mod planes;
mod reading;
mod substitution;
mod system;

pub use elimination::Inconsistent;
pub use existence::a_least_or_none;
pub use laws::{below_at_the_highest, kept_are_the_added, least_is_unique, sum_is_over_columns};
pub use planes::Planes;
pub use system::System;
