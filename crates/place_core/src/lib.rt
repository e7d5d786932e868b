//! The places by which a history of jobs is cut into many histories: that of an identity, and that of an issuer.
//! No call takes memory.
#![tactic(auto)]

mod place;

pub use place::{By, MAX_PLACES, PlaceCount, place_in, place_of, place_of_issuer};
