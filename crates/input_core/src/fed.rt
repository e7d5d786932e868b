//! Files that are fed, piece by piece as they come, to what makes something of them. No more of a file is held than
//! that holds.

ghost use Rattle.std.specs.Prelude.{◌≡◌, ◌≤◌, ◌<◌, ◌+◌, ◌-◌, ◌^◌, ◌++◌, ℕ, List, [], length, take};
ghost use Rattle.std.specs.Prelude.{Result, Ok, Err, IfOk, IfErr, OnOk};
ghost use Rattle.octets_core.specs.Reading.{fault_at};
ghost use Rattle.octets_core.specs.declared.field.Field.TheVariants as fields;
ghost use Rattle.octets_core.specs.declared.fault.Why.TheVariants as why;
ghost use Rattle.outside_core.specs.Effects.{OnlyReads};
ghost use Rattle.outside_core.specs.Filling.{IsInOrder};
ghost use Rattle.outside_core.specs.Reads.{WhichFailed};
ghost use Rattle.outside_core.specs.Standing.{reference_of, depot_of, name_of, place_of};
ghost use Rattle.input_core.specs.declared.fault.FileFault.{FileFault};
ghost use Rattle.input_core.specs.declared.fault.FileFault.TheVariants as faults;
ghost use Rattle.input_core.specs.Fed.{IsFed};

use crate::fault::FileFault;
use octets_core::{Field, LayoutFault, Why};
use outside_core::{Depot, Failed, Feed};

/// What a file is fed to, piece by piece.
pub trait Fed: Drop {
    /// What it makes of a file.
    type Made;

    /// The bytes for which it may stand: those that it took.
    ghost stands: { Self → List ℕ → Type 0 };

    /// What a file of these bytes may be read as, with how many bytes it has.
    ghost reads: { List ℕ → Result (Self.Made × ℕ) FileFault → Type 0 };

    /// Takes the next piece, up to the end of what it makes, and answers how many bytes it took.
    fn put(&mut self, piece: &[u8]) -> Result<usize, FileFault>
        ensures ok { IfOk result (λ n. (b : List ℕ) → stands self.old b → stands self.new (b ++ take n piece.now)) }
        ensures count { IfOk result (λ n. n ≤ length piece.now) }
        // Where it leaves bytes, a file that begins so is refused at the first of them.
        ensures less { IfOk result (λ n. n < length piece.now → (b x : List ℕ) → stands self.old b
            → reads (b ++ piece.now ++ x) (Err (faults.Layout (fault_at why.Value fields.End (length b + n))))) }
        // A fault is that of each file that begins so.
        ensures err { IfErr result (λ e. (b x : List ℕ) → stands self.old b → reads (b ++ piece.now ++ x) (Err e)) };

    /// What it makes of the bytes that it took, which are fewer than can be numbered.
    fn made(self) -> Result<Self::Made, FileFault>
        ensures ok { IfOk result (λ x. (b : List ℕ) → stands self b → reads b (Ok (x, length b))) }
        ensures err { IfErr result (λ e. (b : List ℕ) → stands self b → reads b (Err e)) }
        ensures few { (b : List ℕ) → stands self b → length b < 2 ^ 64 - 1 };
}

/// What is made of the bytes that came, which are so many and all of a file.
fn made_at<F: Fed>(to: F, len: u64) -> Result<(F::Made, u64), FileFault>
    ensures reads { (b : List ℕ) → F.stands to b → length b ≡ len → F.reads b result }
    ensures few { (b : List ℕ) → F.stands to b → length b < 2 ^ 64 - 1 }
{
    match to.made() {
        Ok(made) => Ok((made, len)),
        Err(fault) => Err(fault),
    }
}

/// What is made of the feed's file, and how many bytes it has.
fn fed_to<D: Depot, F: Fed>(feed: &mut Feed<'_, D>, fresh: F) -> Result<(F::Made, u64), FileFault>
    requires place { place_of feed.old ≡ 0 }
    requires in_order { IsInOrder D.Depot feed.old }
    requires fresh { F.stands fresh [] }
    ensures fed { IsFed (D.files (depot_of feed.old)) (WhichFailed D.Depot (depot_of feed.old) (depot_of feed.new))
        (name_of feed.old) F.reads result }
    ensures same_reference { reference_of feed.new ≡ reference_of feed.old }
    ensures only_reads { OnlyReads D.Depot (depot_of feed.old) (depot_of feed.new) }
{
    let mut to = fresh;
    'pieces: loop {
        let Ok(()) = feed.refill() else {
            return Err(FileFault::Unread);
        };
        let piece = feed.buffered();
        if piece.is_empty() {
            return made_at(to, feed.at());
        }
        let len = piece.len();
        let taken = match to.put(piece) {
            Ok(taken) => taken,
            Err(fault) => return Err(fault),
        };
        if taken < len {
            let at = feed.at() + taken as u64;
            let (field, why) = (Field::End, Why::Value);
            return Err(FileFault::Layout(LayoutFault { at, field, why }));
        }
        feed.take(taken);
    }
}

/// What is made of the file of this name, and how many bytes it has.
pub fn made_of<D: Depot, F: Fed>(
    depot: &mut D,
    name: &str,
    to: F,
) -> Result<(F::Made, u64), FileFault>
    requires fresh { F.stands to [] }
    ensures fed { IsFed (D.files depot.old) (WhichFailed D.Depot depot.old depot.new) name.now F.reads result }
    ensures only_reads { OnlyReads D.Depot depot.old depot.new }
{
    let mut feed = Feed::new(depot, name);
    fed_to(&mut feed, to)
}
