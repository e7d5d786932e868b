//! What a certificate is known by, sets of these and of keys, when logs saw it, which of these times ranges cover, and
//! what the head of a part says. Only `read_ranges`, `put_range` and `put_ranges` take memory.
#![tactic(auto)]

mod bounds;
mod fault;
mod head;
mod identity;
mod kind;
mod laws;
mod layout;
mod range;
mod searching;
mod sorting;

pub use bounds::{
    MAX_IDENTITIES, MAX_ISSUERS, MAX_PARTS, MAX_RANGES, MAX_SAMPLE, MAX_SERIAL, MAX_WORKERS,
};
pub use fault::RangesFault;
pub use head::Head;
pub use identity::{BadSerial, Identity, Serial, compare, is_same};
pub use kind::Kind;
pub use laws::sets_are_canonical;
pub use layout::{RANGE_BYTES, put_range, put_ranges, read_range, read_ranges};
pub use range::{Range, Sighting, covers, ranges_fit, shrinks};
pub use searching::{
    covers_near, covers_sorted, holds_key, place_covering, place_of, place_of_key,
    place_of_key_near,
};
pub use sorting::{sort_identities_once, sort_keys_once, sort_once};
