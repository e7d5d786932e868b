//! Parts that are read in pieces.

ghost use Rattle.std.specs.Prelude.{◌≡◌, ◌≢◌, ◌++◌, ◌+◌, ◌≤◌, ◌<◌, ℕ, List, [], length, take};
ghost use Rattle.std.specs.Prelude.{None, Ok, Err, IfOk, OnOk, IfErr};
ghost use Rattle.part_text.specs.SealedFields.{SealedFields};
ghost use Rattle.part_codec.specs.declared.fields.Open.TheVariants as opens;
ghost use Rattle.part_text.specs.declared.fault.PartFault.TheVariants as faults;
ghost use Rattle.part_text.specs.PartLayout.{part};
ghost use Rattle.part_codec.specs.Collecting.{ReadsTo, HasRead, HasHashed, IsPile};
ghost use Rattle.part_codec.specs.Taking.{IsPartial};

use crate::fields::{is_done, kind};
use crate::machine::Machine;
use crate::pile::Pile;
use crate::walk::read_on;
use card_core::Part;
use ident_core::Head;
use part_text::{PartFault, Sealed};
use sha2::{Digest, Sha256};
use std::alloc::Global;

/// The part that was collected.
fn finished(machine: Machine, pile: Pile) -> Sealed
    requires done { machine.field ≡ opens.Done }
    requires read { ∥ HasRead IsPile machine pile ∥₁ }
    ensures { (b x : List ℕ) → ReadsTo IsPile machine pile b → part (b ++ x) 0 ≡ Ok (result, length b) }
{
    let kept = machine.kept;
    let (ranges, blocks) = pile.lists();
    let head = Head::new(kind(kept.kind), kept.epoch, kept.parent, ranges);
    Sealed::new(Part::new(head, blocks), kept.trailer)
}

/// A part that is read in pieces.
#[derive(Drop)]
pub struct PartReader {
    machine: Machine,
    pile: Pile,
    hasher: Sha256,
    fault: Option<PartFault>,
    ghost partial: { fault ≡ None → IsPartial machine },
    ghost read: { fault ≡ None → ∥ HasHashed IsPile machine pile hasher ∥₁ },
}

impl PartReader {
    ghost use Rattle.part_codec.specs.ReaderStanding.{ReadsFor, EndsAs, HasFailed, IsShort};

    /// Before the first byte. No memory is taken.
    pub fn new(alloc: Global) -> PartReader
        ensures stands { ReadsFor result [] }
        ensures fresh { (e : PartFault) → HasFailed result e → ⊥ }
    {
        let machine = Machine::new();
        let pile = Pile::new(alloc);
        let hasher = Sha256::new();
        PartReader {
            machine,
            pile,
            hasher,
            fault: None,
        }
    }

    /// Takes the next piece, up to the end of the part, and answers how many bytes it took. After a fault it answers
    /// that fault from then on, want of memory included.
    pub fn feed(&mut self, piece: &[u8]) -> Result<usize, PartFault>
        // It stands for the bytes that it took, behind those before.
        ensures ok { IfOk result (λ n. (b : List ℕ) → ReadsFor self.old b → ReadsFor self.new (b ++ take n piece.now)) }
        // A fault other than want of memory is that of the bytes, whatever follows, and it stays.
        ensures err { IfErr result (λ e. e ≢ faults.NoMemory → (b x : List ℕ) → ReadsFor self.old b
            → part (b ++ piece.now ++ x) 0 ≡ Err e) }
        ensures stays { IfErr result (λ e. (b : List ℕ) → ReadsFor self.old b → ReadsFor self.new (b ++ piece.now)) }
        // A fault, want of memory too, is answered again and changes nothing more.
        ensures kept { IfErr result (λ e. HasFailed self.new e) }
        ensures again { (e : PartFault) → HasFailed self.old e → result ≡ Err e }
        ensures unchanged { (e : PartFault) → HasFailed self.old e → self.new ≡ self.old }
        ensures going { OnOk result ((e : PartFault) → HasFailed self.new e → ⊥) }
        ensures count { IfOk result (λ n. n ≤ length piece.now) }
        // It takes fewer bytes than there are exactly where the part ends before.
        ensures less { IfOk result (λ n. n < length piece.now → (b : List ℕ) → ReadsFor self.old b → EndsAs (b ++ take n piece.now)) }
        ensures ends { IfOk result (λ n. (b : List ℕ) (s : SealedFields) (end : ℕ) → ReadsFor self.old b
            → part (b ++ piece.now) 0 ≡ Ok (s, end) → length b + n ≡ end) }
    {
        if let Some(fault) = self.fault {
            return Err(fault);
        }
        match read_on(&mut self.machine, &mut self.pile, &mut self.hasher, piece) {
            Ok(n) => Ok(n),
            Err(fault) => {
                self.fault = Some(fault);
                Err(fault)
            }
        }
    }

    /// The part, if all of it came.
    pub fn finish(self) -> Result<Sealed, PartFault>
        ensures ok { IfOk result (λ s. (b x : List ℕ) → ReadsFor self b → part (b ++ x) 0 ≡ Ok (s, length b)) }
        ensures err { IfErr result (λ e. e ≢ faults.NoMemory → (b : List ℕ) → ReadsFor self b → part b 0 ≡ Err e) }
        ensures again { (e : PartFault) → HasFailed self e → result ≡ Err e }
        // Where none was answered before, the part isn't whole: the field that is open in the layout of its bytes is short.
        ensures short { IfErr result (λ e. (HasFailed self e → ⊥) → IsShort e) }
    {
        if let Some(fault) = self.fault {
            return Err(fault);
        }
        if !is_done(self.machine.field) {
            return Err(PartFault::Layout(self.machine.short()));
        }
        Ok(finished(self.machine, self.pile))
    }
}
