//! A gate that tells whether other threads go on while two places are kept.

use builder_core::Gate;
use std::sync::atomic::{AtomicU32, Ordering};
use std::thread::yield_now;

/// Each two of four places.
pub const PAIRS: [[u32; 2]; 6] = [[0, 1], [0, 2], [0, 3], [1, 2], [1, 3], [2, 3]];

/// Turns for a thread that has to come: some seconds.
pub const MANY: u32 = 4_000_000_000;

/// Turns for a thread that mustn't come: some milliseconds.
pub const FEW: u32 = 10_000_000;

/// Keeps two places until all of the work have entered, so that of more than two a third thread has to enter the
/// others, or until the turns are over. Works come one behind another.
#[derive(Drop)]
pub struct Holds {
    kept: [u32; 2],
    places: u32,
    turns: u32,
    entered: AtomicU32,
    passed: AtomicU32,
}

impl Holds {
    /// Of a work of so many places.
    pub fn new(kept: [u32; 2], places: u32, turns: u32) -> Holds {
        Holds {
            kept,
            places,
            turns,
            entered: AtomicU32::new(0),
            passed: AtomicU32::new(0),
        }
    }

    /// How many times a kept place went on because all places of its work had entered.
    pub fn passed(&self) -> u32 {
        self.passed.load(Ordering::SeqCst)
    }
}

impl Gate for Holds {
    fn enter(&self, place: u32) {
        self.entered.fetch_add(1, Ordering::SeqCst);
        if !self.kept.contains(&place) {
            return;
        }
        for turn in 0..self.turns {
            if self
                .entered
                .load(Ordering::SeqCst)
                .is_multiple_of(self.places)
            {
                self.passed.fetch_add(1, Ordering::SeqCst);
                return;
            }
            if turn % 10_000 == 0 {
                yield_now();
            }
        }
    }
}
