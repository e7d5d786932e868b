ghost use Rattle.std.specs.Prelude.{◌≡◌, ◌<◌, length};
ghost use Rattle.universe_core.specs.Reading.{id_in, sighting_in, date_in};

use ident_core::{Identity, Range, Serial, Sighting};
use octets_core::Key32;

/// An entry that is read. What its issuer and its log are is told by their places, so that it has 56 bytes, and a job
/// can let its own entries go.
#[derive(Clone, Copy)]
pub(crate) struct ReadEntry {
    pub(crate) time: u64,
    /// Its certificate's notAfter where it is told, and else 0: an `Option` takes 8 bytes more.
    pub(crate) until: i64,
    /// Whether its certificate's notAfter is told.
    pub(crate) dated: bool,
    /// The place of its issuer among the enrolled ones, which ascend.
    pub(crate) place: u16,
    /// The place of the job's range that covers it. Parts have the range of the same log there, or not far off.
    pub(crate) near: u16,
    pub(crate) serial: Serial,
}

const _: () = prove!(size_of::<ReadEntry>() <= 56);

impl ReadEntry {
    pub(crate) fn id(&self, issuers: &[Key32]) -> Identity
        requires { self.now.place < length issuers.now }
        ensures { result ≡ id_in issuers.now self.now }
    {
        Identity {
            issuer: issuers[self.place as usize],
            serial: self.serial,
        }
    }

    pub(crate) fn sighting(&self, ranges: &[Range]) -> Sighting
        requires { self.now.near < length ranges.now }
        ensures { result ≡ sighting_in ranges.now self.now }
    {
        Sighting {
            log: ranges[self.near as usize].log,
            time: self.time,
        }
    }

    /// Its certificate's notAfter, if it is told.
    pub(crate) fn date(&self) -> Option<i64>
        ensures { result ≡ date_in self.now }
    {
        self.dated.then_some(self.until)
    }
}
