//! Work at places that threads draw from one shared counter, so that a slow place holds up no other.
#![tactic(auto)]

mod claims;
mod map;
mod outputs;
mod rule;
mod schedule;
mod source;
mod work;

pub use claims::{ClaimSeat, Claims};
pub use map::{claim_map, share_map};
pub use schedule::{Draw, draws_are_each_once, replay, seats_draw_the_schedule};
pub use work::{Work, outputs_are_unique};
