ghost use Rattle.std.specs.Prelude.{◌≡◌, ◌++◌, [], IfOk, IfErr, OnOk, OnErr};
ghost use Rattle.claim_core.specs.Seats.{drawer, Draws};

use crate::rule::{Counting, Drawing, Merging, Parting, View};
use atomic_table::{Seat, Table};
use octets_core::NoMemory;
use std::alloc::Global;
use std::marker::Model;

/// Places 0 to `places` - 1, which seats draw from one shared counter.
#[derive(Drop)]
pub struct Claims {
    table: Table<(), View, (), Counting, Global>,
    places: u32,
}

impl Model for Claims {
    ghost use Rattle.std.specs.Prelude.{◌≡◌};
    ghost use Rattle.claim_core.specs.Seats.{Claimed};

    ghost Value = { Claimed };

    ghost view = { λ c. record { id = c.table.shared.table_id; places = c.places } };

    ghost invariant = { λ c. c.table.shared.table_id.words ≡ 1 };
}

/// The right of one thread to draw. It has no bytes.
#[derive(Drop)]
pub struct ClaimSeat {
    seat: Seat<(), View>,
}

impl Model for ClaimSeat {
    ghost use Rattle.std.specs.Prelude.{◌≡◌, false, []};
    ghost use Rattle.claim_core.specs.Seats.{Drawer};

    ghost Value = { Drawer };

    ghost view = { λ s. record { claims = s.seat.table_id; numbers = s.seat.me.0.numbers } };

    ghost invariant = { λ s. (s.seat.me.0.spent ≡ false) × (s.seat.me.1 ≡ []) };
}

impl Claims {
    /// With one seat, which has drawn nothing.
    pub fn new(alloc: Global, places: u32) -> Result<(Claims, ClaimSeat), NoMemory>
        ensures places { IfOk result (λ r. r.0.places ≡ places) }
        ensures seat { IfOk result (λ r. r.1 ≡ drawer r.0.id []) }
    {
        let (table, seat) = Table::of_words(alloc, &[0], &())?;
        Ok((Claims { table, places }, ClaimSeat { seat }))
    }

    /// Takes the next number. It is the answer where it is a place; where it isn't, the answer is `None`.
    pub fn draw(&self, seat: &mut ClaimSeat) -> Option<u32>
        requires { seat.old.claims ≡ self.now.id }
        ensures { Draws self.now.places seat.old result seat.new }
    {
        let number = self.table.shared.fetch_add::<Drawing>(&mut seat.seat, 0, 1);
        if number < u64::from(self.places) {
            Some(number as u32)
        } else {
            None
        }
    }

    /// A new seat, which has drawn nothing.
    pub fn split(&self, _alloc: Global, seat: &mut ClaimSeat) -> Result<ClaimSeat, NoMemory>
        requires { seat.old.claims ≡ self.now.id }
        ensures new { IfOk result (λ other. other ≡ drawer self.now.id []) }
        ensures same { seat.new ≡ seat.old }
    {
        let other = self.table.shared.split_seat::<Parting>(&mut seat.seat);
        Ok(ClaimSeat { seat: other })
    }

    /// The seat takes in what the other has drawn.
    pub fn join(
        &self,
        _alloc: Global,
        seat: &mut ClaimSeat,
        other: ClaimSeat,
    ) -> Result<(), ClaimSeat>
        requires seat { seat.old.claims ≡ self.now.id }
        requires other { other.claims ≡ self.now.id }
        ensures both { OnOk result (seat.new ≡ drawer self.now.id (seat.old.numbers ++ other.numbers)) }
        ensures back { IfErr result (λ back. back ≡ other) }
        ensures same { OnErr result (seat.new ≡ seat.old) }
    {
        let ClaimSeat { seat: other } = other;
        self.table
            .shared
            .join_seat::<Merging>(&mut seat.seat, other);
        Ok(())
    }
}
