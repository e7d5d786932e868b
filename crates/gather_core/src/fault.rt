ghost use Rattle.std.specs.Prelude.{◌≡◌};

use std::alloc::{AllocError, AllocFailed};
use thiserror::Error;

/// Why bytes give no page. An index counts the page's items from 0. Which comes first, where several hold, is said at
/// `read_page`.
#[derive(Clone, Copy, Debug, PartialEq, Eq, Error)]
pub enum PageFault {
    /// The bytes aren't JSON in UTF-8.
    #[error("it isn't JSON")]
    Json,
    /// The value isn't an object with an array `entries`, and the index is 0; or this item isn't an object with strings
    /// `leaf_input` and `extra_data`.
    #[error("it isn't an answer with entries")]
    Shape { index: u32 },
    /// One of this item's strings isn't Base64 (RFC 4648, 4).
    #[error("an entry isn't Base64")]
    Base64 { index: u32 },
    /// The page is too long, and the index is 0; or this item's leaf or its extra data is.
    #[error("it is too long")]
    Size { index: u32 },
    /// Want of memory.
    #[error("want of memory")]
    NoMemory,
}

impl PageFault {
    ghost use Rattle.gather_core.specs.Pages.{index_of};

    /// The index of the item that it is of, and 0 where it is of the whole page.
    pub fn index(&self) -> u32
        ensures { result ≡ index_of self.now }
    {
        match *self {
            PageFault::Json | PageFault::NoMemory => 0,
            PageFault::Shape { index } | PageFault::Base64 { index } | PageFault::Size { index } =>
                index,
        }
    }
}

impl From<AllocError> for PageFault {
    ghost use Rattle.gather_core.specs.declared.fault.PageFault.TheVariants.{NoMemory};

    ghost from_gives = { λ _ e. e ≡ NoMemory };

    fn from(_: AllocError) -> PageFault {
        PageFault::NoMemory
    }
}

impl<T: Drop> From<AllocFailed<T>> for PageFault {
    ghost use Rattle.gather_core.specs.declared.fault.PageFault.TheVariants.{NoMemory};

    ghost from_gives = { λ _ e. e ≡ NoMemory };

    fn from(_: AllocFailed<T>) -> PageFault {
        PageFault::NoMemory
    }
}
