ghost use Rattle.std.specs.Prelude.{◌≡◌, ◌≤◌, ◌+◌};
ghost use Rattle.slot_core.specs.Device.{slot_at};

/// The most bytes that a slot may hold.
pub const MAX_CAPACITY: u64 = 1_099_511_627_776;

/// Where the first slot stands.
pub(crate) const FIRST_SLOT: u64 = 4096;

/// How many bytes stand in front of a slot's own: their length.
pub(crate) const LENGTH: u64 = 8;

/// Where a slot stands.
pub(crate) fn slot_at(capacity: u64, second: bool) -> u64
    requires { capacity ≤ MAX_CAPACITY }
    ensures at { result ≡ slot_at capacity second }
    ensures bound { result ≤ FIRST_SLOT + LENGTH + MAX_CAPACITY }
{
    if second {
        FIRST_SLOT + LENGTH + capacity
    } else {
        FIRST_SLOT
    }
}
