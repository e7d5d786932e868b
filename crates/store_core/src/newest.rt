//! The epoch of a store.

ghost use Rattle.std.specs.Prelude.{◌≡◌};
ghost use Rattle.store_core.specs.Chain.{newest_of};
ghost use Rattle.store_core.specs.Newest.{epoch_of};

use crate::store::Store;

impl Store {
    /// The epoch of the newest part.
    pub fn newest_epoch(&self) -> u64
        ensures { result ≡ epoch_of (newest_of self.now) }
    {
        let parts = self.parts();
        parts[parts.len() - 1].part().head().epoch()
    }
}
