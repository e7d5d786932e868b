//! Parts that are scanned in pieces, with no memory.

ghost use Rattle.std.specs.Prelude.{◌≡◌, ◌++◌, ◌+◌, ◌-◌, ◌^◌, ◌≤◌, ◌<◌, ◌⊎◌, ℕ, List, [], length, take};
ghost use Rattle.std.specs.Prelude.{None, Ok, Err, IfOk, OnOk, IfErr};
ghost use Rattle.octets_core.specs.declared.fault.LayoutFault.{LayoutFault};
ghost use Rattle.octets_core.specs.declared.fault.Why.TheVariants as why;
ghost use Rattle.part_text.specs.SealedFields.{SealedFields};
ghost use Rattle.part_text.specs.PartLayout.{sealed};
ghost use Rattle.part_codec.specs.Taking.{IsPartial};
ghost use Rattle.part_codec.specs.Collecting.{HasHashed, AnyPile};
ghost use Rattle.part_codec.specs.Noting.{noted, note_by};

use crate::collector::Nothing;
use crate::fields::{is_done, kind};
use crate::machine::Machine;
use crate::walk::read_on;
use ident_core::Kind;
use octets_core::{Key32, LayoutFault};
use part_text::PartFault;
use sha2::{Digest, Sha256};

/// What is known of a part that was scanned.
#[derive(Clone, Copy, Debug)]
pub struct PartNote {
    pub kind: Kind,
    pub epoch: u64,
    /// How many ranges it has.
    pub ranges: u16,
    /// How many blocks it has.
    pub issuers: u32,
    /// How many bytes it has.
    pub length: u64,
    pub trailer: Key32,
}

/// A part that is read in pieces, of which no byte is kept but what a field's test needs. It takes no memory.
#[derive(Drop)]
pub struct PartScan {
    machine: Machine,
    nothing: Nothing,
    hasher: Sha256,
    fault: Option<LayoutFault>,
    ghost partial: { fault ≡ None → IsPartial machine },
    ghost read: { fault ≡ None → ∥ HasHashed AnyPile machine nothing hasher ∥₁ },
}

fn note(machine: &Machine) -> PartNote
    ensures { result ≡ note_by machine.now.kept machine.now.at }
{
    PartNote {
        kind: kind(machine.kept.kind),
        epoch: machine.kept.epoch,
        ranges: machine.kept.ranges,
        issuers: machine.kept.issuers,
        length: machine.at,
        trailer: machine.kept.trailer,
    }
}

impl PartScan {
    ghost use Rattle.part_codec.specs.Standing.{StandsFor, EndsAt, HasFault, HasFailed};

    /// Before the first byte.
    pub fn new() -> PartScan
        ensures stands { StandsFor result [] }
        ensures fresh { (e : LayoutFault) → HasFailed result e → ⊥ }
    {
        let machine = Machine::new();
        let hasher = Sha256::new();
        PartScan {
            machine,
            nothing: Nothing {},
            hasher,
            fault: None,
        }
    }

    /// Takes the next piece, up to the end of the part, and answers how many bytes it took. After a fault it answers
    /// that fault from then on.
    pub fn feed(&mut self, piece: &[u8]) -> Result<usize, LayoutFault>
        // It stands for the bytes that it took, behind those before.
        ensures ok { IfOk result (λ n. (b : List ℕ) → StandsFor self.old b → StandsFor self.new (b ++ take n piece.now)) }
        // The fault is that of the bytes, whatever follows, and it stays.
        ensures err { IfErr result (λ e. (b x : List ℕ) → StandsFor self.old b → sealed (b ++ piece.now ++ x) 0 ≡ Err e) }
        ensures stays { IfErr result (λ e. (b : List ℕ) → StandsFor self.old b → StandsFor self.new (b ++ piece.now)) }
        // A fault is answered again and changes nothing more.
        ensures kept { IfErr result (λ e. HasFailed self.new e) }
        ensures again { (e : LayoutFault) → HasFailed self.old e → result ≡ Err e }
        ensures unchanged { (e : LayoutFault) → HasFailed self.old e → self.new ≡ self.old }
        ensures going { OnOk result ((e : LayoutFault) → HasFailed self.new e → ⊥) }
        ensures count { IfOk result (λ n. n ≤ length piece.now) }
        // It takes fewer bytes than there are exactly where the part ends before.
        ensures less { IfOk result (λ n. n < length piece.now → (b : List ℕ) → StandsFor self.old b → EndsAt (b ++ take n piece.now)) }
        ensures ends { IfOk result (λ n. (b : List ℕ) (s : SealedFields) (end : ℕ) → StandsFor self.old b
            → sealed (b ++ piece.now) 0 ≡ Ok (s, end) → length b + n ≡ end) }
    {
        if let Some(fault) = self.fault {
            return Err(fault);
        }
        match read_on(
            &mut self.machine,
            &mut self.nothing,
            &mut self.hasher,
            piece,
        ) {
            Ok(n) => Ok(n),
            Err(PartFault::Layout(fault)) => {
                self.fault = Some(fault);
                Err(fault)
            }
            Err(PartFault::NoMemory) => unreachable!(),
        }
    }

    /// What is known of the part, if all of it came.
    pub fn finish(self) -> Result<PartNote, LayoutFault>
        ensures exact { (b : List ℕ) → StandsFor self b → noted (sealed b 0) ≡ result }
        ensures again { (e : LayoutFault) → HasFailed self e → result ≡ Err e }
        // Where none was answered before, the part isn't whole: the field that is open in the layout of its bytes is short.
        ensures short { IfErr result (λ e. (HasFailed self e → ⊥) → e.why ≡ why.Short) }
        // A part is all of the bytes.
        ensures ends { (b : List ℕ) (s : SealedFields) (end : ℕ) → StandsFor self b → sealed b 0 ≡ Ok (s, end) → end ≡ length b }
        // Bytes without a fault are fewer than can be numbered.
        ensures few { (b : List ℕ) → StandsFor self b → length b < 2 ^ 64 - 1 ⊎ HasFault b }
    {
        if let Some(fault) = self.fault {
            return Err(fault);
        }
        if !is_done(self.machine.field) {
            return Err(self.machine.short());
        }
        Ok(note(&self.machine))
    }
}
