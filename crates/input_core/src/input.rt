//! Files that are taken into memory, up to a limit.

ghost use Rattle.std.specs.Prelude.{◌≡◌, ◌≤◌, ◌⊎◌, ◌+◌, take, IfOk, IsErrOf, vec_len};
ghost use Rattle.outside_core.specs.Effects.{OnlyReads};
ghost use Rattle.outside_core.specs.Filling.{IsInOrder};
ghost use Rattle.outside_core.specs.Reads.{ReadFailed};
ghost use Rattle.outside_core.specs.Standing.{reference_of, depot_of, name_of, place_of};
ghost use Rattle.input_core.specs.Inputs.{IsHeld};

use crate::fault::FileFault;
use outside_core::{Depot, Feed};
use std::alloc::Global;

/// Why a file could not be taken.
#[derive(Clone, Copy, Debug, PartialEq, Eq)]
pub enum InputFault {
    /// A read failed.
    Failed,
    /// Want of memory.
    NoMemory,
}

impl From<InputFault> for FileFault {
    ghost use Rattle.std.specs.Prelude.{◌≡◌};
    ghost use Rattle.input_core.specs.Faults.{of_input};

    ghost from_gives = { λ f e. e ≡ of_input f };

    fn from(fault: InputFault) -> FileFault {
        match fault {
            InputFault::Failed => FileFault::Unread,
            InputFault::NoMemory => FileFault::NoMemory,
        }
    }
}

/// Takes the bytes of the feed's file: all of them, or as many as the limit and one more.
fn fed_up_to<D: Depot>(
    alloc: Global,
    feed: &mut Feed<'_, D>,
    limit: usize,
) -> Result<Vec<u8>, InputFault>
    requires place { place_of feed.old ≡ 0 }
    requires in_order { IsInOrder D.Depot feed.old }
    ensures bytes { IfOk result (λ bytes. IsHeld (D.files (depot_of feed.old)) (name_of feed.old)
        (λ file. bytes.items ≡ take (limit + 1) file)) }
    ensures bound { IfOk result (λ bytes. vec_len bytes ≤ limit + 1) }
    ensures failed { IsErrOf result InputFault.Failed
        → ReadFailed D.Depot (name_of feed.old) (depot_of feed.old) (depot_of feed.new) }
    ensures unblamed { IsErrOf result InputFault.Failed
        ⊎ (D.failed_reads (depot_of feed.new) ≡ D.failed_reads (depot_of feed.old)) }
    ensures same_reference { reference_of feed.new ≡ reference_of feed.old }
    ensures only_reads { OnlyReads D.Depot (depot_of feed.old) (depot_of feed.new) }
{
    let mut bytes = Vec::new(alloc);
    'pieces: while bytes.len() <= limit {
        let Ok(()) = feed.refill() else {
            return Err(InputFault::Failed);
        };
        let ready = feed.buffered();
        if ready.is_empty() {
            return Ok(bytes);
        }
        let count = (limit - bytes.len()).min(ready.len() - 1) + 1;
        let Ok(()) = bytes.extend_from_slice(&ready[..count]) else {
            return Err(InputFault::NoMemory);
        };
        feed.take(count);
    }
    Ok(bytes)
}

/// Takes the bytes of a file: all of them, or as many as the limit and one more, which show that there are more than
/// the limit. Whole pieces are read, so up to 4,095 bytes behind these may be read too, and aren't kept. The length of
/// a file isn't known before its end, so room is taken as the bytes come.
pub fn read_up_to<D: Depot>(
    alloc: Global,
    depot: &mut D,
    name: &str,
    limit: usize,
) -> Result<Vec<u8>, InputFault>
    ensures bytes { IfOk result (λ bytes. IsHeld (D.files depot.old) name.now
        (λ file. bytes.items ≡ take (limit + 1) file)) }
    ensures bound { IfOk result (λ bytes. vec_len bytes ≤ limit + 1) }
    ensures failed { IsErrOf result InputFault.Failed → ReadFailed D.Depot name.now depot.old depot.new }
    ensures unblamed { IsErrOf result InputFault.Failed ⊎ (D.failed_reads depot.new ≡ D.failed_reads depot.old) }
    ensures only_reads { OnlyReads D.Depot depot.old depot.new }
{
    let mut feed = Feed::new(depot, name);
    fed_up_to(alloc, &mut feed, limit)
}
