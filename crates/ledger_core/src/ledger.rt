ghost use Rattle.std.specs.Prelude.{◌≡◌, map};
ghost use Rattle.ledger_core.specs.LedgerFields.{part_fields, ledger_fields, IsLedger, sealed_with};

use crate::fields::{LedgerItem, LedgerPart};
use octets_core::Key32;
use std::marker::Model;

/// A publisher's memory of a chain: its parts, oldest first, and the accepted identities. Each ledger keeps 1 to 64
/// parts with ascending epochs, each of which covers what the part before it covers, and at most 4,194,304 identities
/// in strictly ascending order, whose births and lasts are places of these parts.
#[derive(Debug, Drop)]
pub struct Ledger {
    parts: Vec<LedgerPart>,
    items: Vec<LedgerItem>,
}

impl Model for Ledger {
    ghost use Rattle.ledger_core.specs.LedgerFields.{LedgerFields, IsLedger, ledger_fields};

    ghost Value = { LedgerFields };

    ghost view = { λ l. ledger_fields l.parts.items l.items.items };

    ghost invariant = { λ l. IsLedger (ledger_fields l.parts.items l.items.items) };
}

impl Ledger {
    pub(crate) fn new(parts: Vec<LedgerPart>, items: Vec<LedgerItem>) -> Ledger
        requires { IsLedger (ledger_fields parts.items items.items) }
        ensures { result ≡ ledger_fields parts.items items.items }
    {
        Ledger { parts, items }
    }

    /// The parts, oldest first.
    pub fn parts(&self) -> &[LedgerPart]
        ensures value { map part_fields result.now ≡ self.now.parts }
        ensures facts { IsLedger self.now }
    {
        self.parts.as_slice()
    }

    /// The accepted identities, in ascending order.
    pub fn items(&self) -> &[LedgerItem]
        ensures value { result.now ≡ self.now.items }
        ensures facts { IsLedger self.now }
    {
        self.items.as_slice()
    }
}

/// A ledger whose newest part has no trailer yet: what stands there says nothing.
#[derive(Debug, Drop)]
pub struct Draft {
    parts: Vec<LedgerPart>,
    items: Vec<LedgerItem>,
}

impl Model for Draft {
    ghost use Rattle.ledger_core.specs.LedgerFields.{LedgerFields, IsLedger, ledger_fields};

    ghost Value = { LedgerFields };

    ghost view = { λ d. ledger_fields d.parts.items d.items.items };

    ghost invariant = { λ d. IsLedger (ledger_fields d.parts.items d.items.items) };
}

impl Draft {
    /// The draft of these parts and identities. No fact is asked of trailers.
    pub fn new(parts: Vec<LedgerPart>, items: Vec<LedgerItem>) -> Draft
        requires { IsLedger (ledger_fields parts.items items.items) }
        ensures { result ≡ ledger_fields parts.items items.items }
    {
        Draft { parts, items }
    }

    /// The ledger whose newest part has this trailer. No memory is taken.
    pub fn seal(self, trailer: Key32) -> Ledger
        ensures { result ≡ sealed_with self trailer }
    {
        let mut parts = self.parts;
        let newest = parts.len() - 1;
        parts[newest].trailer = trailer;
        Ledger {
            parts,
            items: self.items,
        }
    }
}
