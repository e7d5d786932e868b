//! Bytes of a file, taken in order from a feed.

ghost use Rattle.std.specs.Prelude.{◌≡◌, ◌+◌, ◌-◌, ◌≤◌, ◌<◌, ℕ, List, true, false, length, take, IfOk, OnOk, OnErr};
ghost use Rattle.outside_core.specs.Reads.{ReadFailed};
ghost use Rattle.outside_core.specs.Feeding.{IsWindow};
ghost use Rattle.outside_core.specs.Pulling.{Pulled};
ghost use Rattle.outside_core.specs.Standing.{depot_of, name_of, place_of, StandsIn};

use crate::depot::{Depot, Failed};
use crate::feed::Feed;

/// Fills the buffer with the next bytes; false where the file ends before it is full.
pub fn pull<D: Depot>(feed: &mut Feed<'_, D>, out: &mut [u8]) -> Result<bool, Failed>
    ensures len { length out.new ≡ length out.old }
    ensures pulled { Pulled D.Depot feed.old feed.new }
    ensures near { place_of feed.new ≤ place_of feed.old + length out.old }
    ensures full { IfOk result (λ full. full ≡ true → place_of feed.new ≡ place_of feed.old + length out.old) }
    ensures short { IfOk result (λ full. full ≡ false → place_of feed.new < place_of feed.old + length out.old) }
    ensures given { (file : List ℕ) → StandsIn D.Depot feed.old file
        → IsWindow file (place_of feed.old) (take (place_of feed.new - place_of feed.old) out.new) }
    ensures ended { IfOk result (λ full. full ≡ false → (file : List ℕ) → StandsIn D.Depot feed.old file
        → length file ≤ place_of feed.new) }
    ensures cause { OnErr result (ReadFailed D.Depot (name_of feed.old) (depot_of feed.old) (depot_of feed.new)) }
    ensures unblamed { OnOk result (D.failed_reads (depot_of feed.new) ≡ D.failed_reads (depot_of feed.old)) }
{
    let mut done = 0;
    'pieces: while done < out.len() {
        feed.refill()?;
        let ready = feed.buffered();
        if ready.is_empty() {
            return Ok(false);
        }
        let count = ready.len().min(out.len() - done);
        out[done..done + count].copy_from_slice(&ready[..count]);
        feed.take(count);
        done += count;
    }
    Ok(true)
}
