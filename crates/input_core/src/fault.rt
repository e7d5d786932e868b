ghost use Rattle.std.specs.Prelude.{◌≡◌};

use card_core::Verdict;
use crl_core::CrlFault;
use gather_core::PageFault;
use job_core::{JobFault, What};
use ledger_core::LedgerFault;
use octets_core::{Key32, LayoutFault};
use part_codec::PartFault;
use sct_core::CertFault;
use std::alloc::{AllocError, AllocFailed};
use store_core::{Refusal, StoreFault};
use thiserror::Error;

/// What is wrong with a file that a command reads.
#[derive(Clone, Copy, Debug, PartialEq, Eq)]
pub enum FileFault {
    /// It can't be read.
    Unread,
    /// A field is short or fails its test.
    Layout(LayoutFault),
    /// The first part of a store is a delta.
    NotSnapshot,
    /// A chain doesn't take a part, or the part of a job.
    Chain(Refusal),
    /// A CRL of a job isn't accepted. Its place counts the job's CRLs from 0.
    BadCrl {
        place: u32,
        fault: CrlFault,
    },
    /// A piece of a job has another epoch (`given`) than the job (`held`).
    OtherEpoch {
        held: u64,
        given: u64,
    },
    /// There is one more than the limit.
    TooMany {
        what: What,
        limit: u32,
    },
    /// The equations of this issuer's approximate stage (1) or exact stage (2) are unsolvable at each of the 256 seeds.
    Seeds {
        issuer: Key32,
        stage: u8,
    },
    /// A certificate isn't read, or its timestamps aren't.
    BadCert(CertFault),
    /// A page of a log isn't read, for this item of it.
    BadPage(PageFault),
    /// A store doesn't say the truth of an entry that a job accepts. The jobs and the entries of each are counted from
    /// 0.
    Disagrees {
        job: u32,
        entry: u32,
        held: Verdict,
        truth: Verdict,
    },
    /// Want of memory.
    NoMemory,
}

impl From<LayoutFault> for FileFault {
    ghost use Rattle.input_core.specs.declared.fault.FileFault.TheVariants.{Layout};

    ghost from_gives = { λ f e. e ≡ Layout f };

    fn from(fault: LayoutFault) -> FileFault {
        FileFault::Layout(fault)
    }
}

impl From<QueriesFault> for FileFault {
    ghost use Rattle.input_core.specs.Faults.{of_queries};

    ghost from_gives = { λ f e. e ≡ of_queries f };

    fn from(fault: QueriesFault) -> FileFault {
        match fault {
            QueriesFault::Layout(fault) => FileFault::Layout(fault),
            QueriesFault::NoMemory => FileFault::NoMemory,
        }
    }
}

impl From<JobFault> for FileFault {
    ghost use Rattle.input_core.specs.Faults.{of_job};

    ghost from_gives = { λ f e. e ≡ of_job f };

    fn from(fault: JobFault) -> FileFault {
        match fault {
            JobFault::Layout(fault) => FileFault::Layout(fault),
            JobFault::TooMany { what, limit } => FileFault::TooMany { what, limit },
            JobFault::ReadFault => FileFault::Unread,
            JobFault::NoMemory => FileFault::NoMemory,
        }
    }
}

impl From<LedgerFault> for FileFault {
    ghost use Rattle.input_core.specs.Faults.{of_ledger};

    ghost from_gives = { λ f e. e ≡ of_ledger f };

    fn from(fault: LedgerFault) -> FileFault {
        match fault {
            LedgerFault::Layout(fault) => FileFault::Layout(fault),
            LedgerFault::NoMemory => FileFault::NoMemory,
        }
    }
}

impl From<PartFault> for FileFault {
    ghost use Rattle.input_core.specs.Faults.{of_part};

    ghost from_gives = { λ f e. e ≡ of_part f };

    fn from(fault: PartFault) -> FileFault {
        match fault {
            PartFault::Layout(fault) => FileFault::Layout(fault),
            PartFault::NoMemory => FileFault::NoMemory,
        }
    }
}

impl From<StoreFault> for FileFault {
    ghost use Rattle.input_core.specs.Faults.{of_store};

    ghost from_gives = { λ f e. e ≡ of_store f };

    fn from(fault: StoreFault) -> FileFault {
        match fault {
            StoreFault::Layout(fault) => FileFault::Layout(fault),
            StoreFault::NotSnapshot => FileFault::NotSnapshot,
            StoreFault::Refused(why) => FileFault::Chain(why),
            StoreFault::NoMemory => FileFault::NoMemory,
        }
    }
}

impl From<PageFault> for FileFault {
    ghost use Rattle.input_core.specs.Faults.{of_page};

    ghost from_gives = { λ f e. e ≡ of_page f };

    fn from(fault: PageFault) -> FileFault {
        match fault {
            PageFault::NoMemory => FileFault::NoMemory,
            refused => FileFault::BadPage(refused),
        }
    }
}

impl From<CertFault> for FileFault {
    ghost use Rattle.input_core.specs.declared.fault.FileFault.TheVariants.{BadCert};

    ghost from_gives = { λ f e. e ≡ BadCert f };

    fn from(fault: CertFault) -> FileFault {
        FileFault::BadCert(fault)
    }
}

/// Why bytes give no queries.
#[derive(Clone, Copy, Debug, PartialEq, Eq, Error)]
pub enum QueriesFault {
    /// A field is short or fails its test.
    #[error("a field is short or has a value that it may not have")]
    Layout(LayoutFault),
    /// Want of memory.
    #[error("want of memory")]
    NoMemory,
}

impl From<LayoutFault> for QueriesFault {
    ghost use Rattle.input_core.specs.declared.fault.QueriesFault.TheVariants.{Layout};

    ghost from_gives = { λ f e. e ≡ Layout f };

    fn from(fault: LayoutFault) -> QueriesFault {
        QueriesFault::Layout(fault)
    }
}

impl From<AllocError> for QueriesFault {
    ghost use Rattle.input_core.specs.declared.fault.QueriesFault.TheVariants.{NoMemory};

    ghost from_gives = { λ _ e. e ≡ NoMemory };

    fn from(_: AllocError) -> QueriesFault {
        QueriesFault::NoMemory
    }
}

impl<T: Drop> From<AllocFailed<T>> for QueriesFault {
    ghost use Rattle.input_core.specs.declared.fault.QueriesFault.TheVariants.{NoMemory};

    ghost from_gives = { λ _ e. e ≡ NoMemory };

    fn from(_: AllocFailed<T>) -> QueriesFault {
        QueriesFault::NoMemory
    }
}
