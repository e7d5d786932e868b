//! Stores that are read in pieces.

ghost use Rattle.std.specs.Prelude.{◌≡◌, ◌≢◌, ◌⊎◌, ◌++◌, ◌+◌, ◌-◌, ◌≤◌, ◌<◌, ◌^◌, ℕ, List, [], length, min, take, None, Some, Ok, Err};
ghost use Rattle.std.specs.Prelude.{IsSome, IfOk, IfErr, OnOk};
ghost use Rattle.octets_core.specs.Layout.{embedded};
ghost use Rattle.octets_core.specs.Reading.{value_of};
ghost use Rattle.part_text.specs.Offsets.{offset_in_part};
ghost use Rattle.part_text.specs.PartLayout.{part as part_layout};
ghost use Rattle.store_core.specs.StoreLayout.{opening as opening_of, left_of, moved as moved_by, store_parts};

use crate::fault::StoreFault;
use crate::store::Store;
use ident_core::MAX_PARTS;
use octets_core::{Cursor, Field, LayoutFault, read_magic, read_u8};
use part_codec::{PartFault, PartReader, Sealed};
use std::alloc::Global;
use std::marker::Model;
use std::mem;

/// How many bytes stand before a store's first part: a magic, a version and a count.
const OPENING: usize = 10;

/// A part's fault, with its offset from the beginning of the bytes that hold the part at `at`.
fn moved(at: u64, fault: PartFault) -> StoreFault
    ensures { at + offset_in_part fault < 2 ^ 64 → result ≡ moved_by at fault }
{
    match fault {
        PartFault::Layout(f) => StoreFault::Layout(LayoutFault {
            at: at.saturating_add(f.at),
            ..f
        }),
        PartFault::NoMemory => StoreFault::NoMemory,
    }
}

/// How many parts a store has, by the bytes that it begins with.
#[tactic(auto, unfolding(crate::specs::StoreLayout::opening))]
fn opening(front: &[u8]) -> Result<u8, LayoutFault>
    ensures exact { result ≡ value_of (opening_of front.now 0) }
    ensures some { IfOk result (λ n. 1 ≤ n) }
{
    let mut cursor = Cursor::new(front);
    read_magic(&mut cursor, Field::StoreMagic, b"CLUBSTOR")?;
    read_u8(&mut cursor, Field::StoreVersion, 1, 1)?;
    let count = read_u8(&mut cursor, Field::StoreCount, 1, MAX_PARTS as u8)?;
    Ok(count)
}

/// The bytes that came of a store's opening.
#[derive(Drop)]
struct Front {
    bytes: [u8; OPENING],
    len: usize,
}

impl Model for Front {
    ghost use Rattle.std.specs.Prelude.{List, ℕ, take, ◌≤◌};

    ghost Value = { List ℕ };

    ghost view = { λ f. take f.len f.bytes };

    ghost invariant = { λ f. f.len ≤ 10 };
}

impl Front {
    fn new() -> Front
        ensures { result ≡ [] }
    {
        Front {
            bytes: [0; OPENING],
            len: 0,
        }
    }

    fn as_slice(&self) -> &[u8]
        ensures { result.now ≡ self.now }
    {
        &self.bytes[..self.len]
    }

    /// Takes bytes of the piece up to the first part, and answers how many.
    fn take(&mut self, piece: &[u8]) -> usize
        ensures count { result ≡ min (length piece.now) (10 - length self.old) }
        ensures taken { self.new ≡ self.old ++ take result piece.now }
    {
        let n = piece.len().min(OPENING - self.len);
        self.bytes[self.len..self.len + n].copy_from_slice(&piece[..n]);
        self.len += n;
        n
    }
}

/// The store with this part behind the others; the first begins it.
fn longer(alloc: Global, store: Option<Store>, part: Sealed) -> Result<Store, StoreFault>
    ensures ok { IfOk result (λ s. (count at end : ℕ) (bytes : List ℕ) → 0 < count
        → embedded moved_by part_layout bytes at ≡ Ok (part, end)
        → left_of count store bytes at ≡ left_of (count - 1) (Some s) bytes end) }
    ensures err { IfErr result (λ e. e ≢ StoreFault.NoMemory → (count at end : ℕ) (bytes : List ℕ) → 0 < count
        → embedded moved_by part_layout bytes at ≡ Ok (part, end) → left_of count store bytes at ≡ Err e) }
{
    match store {
        Some(mut store) => {
            store.install(part)?;
            Ok(store)
        }
        None => Ok(Store::start(alloc, part)?),
    }
}

/// The parts of a store that came.
#[derive(Drop)]
struct Parts {
    alloc: Global,
    /// Those that are whole.
    store: Option<Store>,
    /// How many aren't whole.
    left: u8,
    /// The first of these.
    part: PartReader,
    /// Where it begins.
    at: u64,
    /// Where the bytes end that came of it.
    end: u64,
    ghost begun: { left ≡ 0 → IsSome store },
}

impl Parts {
    ghost use Rattle.part_codec.specs.ReaderStanding.{EndsAs};
    ghost use Rattle.store_core.specs.StoreReading.{PartsRead};

    /// Before the first of so many parts.
    fn new(alloc: Global, count: u8) -> Parts
        requires some { 1 ≤ count }
        ensures { (b : List ℕ) → opening_of b 0 ≡ Ok (count, length b) → PartsRead result b }
    {
        Parts {
            alloc,
            store: None,
            left: count,
            part: PartReader::new(alloc),
            at: OPENING as u64,
            end: OPENING as u64,
        }
    }

    /// Puts the open part behind the others, if all of it came, and opens the next one.
    fn close(&mut self) -> Result<(), StoreFault>
        requires some { 0 < self.old.left }
        ensures ok { OnOk result ((b : List ℕ) → PartsRead self.old b → PartsRead self.new b) }
        ensures left { OnOk result (self.new.left ≡ self.old.left - 1) }
        ensures err { IfErr result (λ e. e ≢ StoreFault.NoMemory → (b x : List ℕ) (s : PartsRead self.old b)
            → (x ≡ []) ⊎ EndsAs s.came → store_parts (b ++ x) 0 ≡ Err e) }
    {
        let part = mem::replace(&mut self.part, PartReader::new(self.alloc));
        let sealed = match part.finish() {
            Ok(sealed) => sealed,
            Err(fault) => return Err(moved(self.at, fault)),
        };
        self.store = Some(longer(self.alloc, self.store.take(), sealed)?);
        self.at = self.end;
        self.left -= 1;
        Ok(())
    }

    /// Takes bytes of the open part, which is closed where more bytes are there.
    fn take(&mut self, piece: &[u8]) -> Result<usize, StoreFault>
        requires some { 0 < self.old.left }
        ensures ok { IfOk result (λ n. (b : List ℕ) → PartsRead self.old b → PartsRead self.new (b ++ take n piece.now)) }
        ensures err { IfErr result (λ e. e ≢ StoreFault.NoMemory → (b x : List ℕ) → PartsRead self.old b
            → store_parts (b ++ piece.now ++ x) 0 ≡ Err e) }
        ensures count { IfOk result (λ n. n ≤ length piece.now) }
        ensures left { IfOk result (λ n. n < length piece.now → self.new.left ≡ self.old.left - 1) }
        ensures open { IfOk result (λ n. length piece.now ≤ n → self.new.left ≡ self.old.left) }
    {
        let n = match self.part.feed(piece) {
            Ok(n) => n,
            Err(fault) => return Err(moved(self.at, fault)),
        };
        self.end = self.end.saturating_add(n as u64);
        if n == piece.len() {
            return Ok(n);
        }
        self.close()?;
        Ok(n)
    }

    /// Takes the next piece, up to the end of the last part.
    fn feed(&mut self, piece: &[u8]) -> Result<usize, StoreFault>
        ensures ok { IfOk result (λ n. (b : List ℕ) → PartsRead self.old b → PartsRead self.new (b ++ take n piece.now)) }
        ensures err { IfErr result (λ e. e ≢ StoreFault.NoMemory → (b x : List ℕ) → PartsRead self.old b
            → store_parts (b ++ piece.now ++ x) 0 ≡ Err e) }
        ensures count { IfOk result (λ n. n ≤ length piece.now) }
        ensures less { IfOk result (λ n. n < length piece.now → self.new.left ≡ 0) }
    {
        let mut taken = 0;
        'parts: while self.left > 0 && taken < piece.len() {
            match self.take(&piece[taken..]) {
                Ok(n) => taken += n,
                Err(fault) => return Err(fault),
            }
        }
        Ok(taken)
    }

    /// The store, if all of it came.
    fn finish(mut self) -> Result<Store, StoreFault>
        ensures ok { IfOk result (λ s. (b x : List ℕ) → PartsRead self b → store_parts (b ++ x) 0 ≡ Ok (s, length b)) }
        ensures err { IfErr result (λ e. e ≢ StoreFault.NoMemory → (b : List ℕ) → PartsRead self b → store_parts b 0 ≡ Err e) }
    {
        'parts: while self.left > 0 {
            self.close()?;
        }
        Ok(self.store.unwrap())
    }
}

/// A store that is read in pieces, of which no more is held than its parts.
#[derive(Drop)]
pub struct StoreReader {
    alloc: Global,
    front: Front,
    /// Those behind the opening, if it is whole.
    parts: Option<Parts>,
    fault: Option<StoreFault>,
}

impl StoreReader {
    ghost use Rattle.store_core.specs.StoreReading.{CameBy, ReadsFor, EndsAs, HasFailed};

    /// Before the first byte. No memory is taken.
    pub fn new(alloc: Global) -> StoreReader
        ensures stands { ReadsFor result [] }
        ensures fresh { (e : StoreFault) → HasFailed result e → ⊥ }
    {
        StoreReader {
            alloc,
            front: Front::new(),
            parts: None,
            fault: None,
        }
    }

    /// Takes bytes of the piece, where no fault was met.
    fn read_on(&mut self, piece: &[u8]) -> Result<usize, StoreFault>
        ensures ok { IfOk result (λ n. (b : List ℕ) → CameBy self.old.front self.old.parts b
            → CameBy self.new.front self.new.parts (b ++ take n piece.now)) }
        ensures err { IfErr result (λ e. e ≢ StoreFault.NoMemory → (b x : List ℕ) → CameBy self.old.front self.old.parts b
            → store_parts (b ++ piece.now ++ x) 0 ≡ Err e) }
        ensures count { IfOk result (λ n. n ≤ length piece.now) }
        ensures less { IfOk result (λ n. n < length piece.now → (b : List ℕ) → CameBy self.old.front self.old.parts b
            → EndsAs (b ++ take n piece.now)) }
        ensures same_fault { self.new.fault ≡ self.old.fault }
    {
        if let Some(parts) = &mut self.parts {
            return parts.feed(piece);
        }
        let n = self.front.take(piece);
        if self.front.as_slice().len() < OPENING {
            return Ok(n);
        }
        let mut parts = match opening(self.front.as_slice()) {
            Ok(count) => Parts::new(self.alloc, count),
            Err(fault) => return Err(StoreFault::Layout(fault)),
        };
        match parts.feed(&piece[n..]) {
            Ok(more) => {
                self.parts = Some(parts);
                Ok(n + more)
            }
            Err(fault) => Err(fault),
        }
    }

    /// Takes the next piece, up to the end of the store, and answers how many bytes it took. After a fault it answers
    /// that fault from then on, want of memory included.
    pub fn feed(&mut self, piece: &[u8]) -> Result<usize, StoreFault>
        // It stands for the bytes that it took, behind those before.
        ensures ok { IfOk result (λ n. (b : List ℕ) → ReadsFor self.old b → ReadsFor self.new (b ++ take n piece.now)) }
        // A fault other than want of memory is that of the bytes, whatever follows, and it stays.
        ensures err { IfErr result (λ e. e ≢ StoreFault.NoMemory → (b x : List ℕ) → ReadsFor self.old b
            → store_parts (b ++ piece.now ++ x) 0 ≡ Err e) }
        ensures stays { IfErr result (λ e. (b : List ℕ) → ReadsFor self.old b → ReadsFor self.new (b ++ piece.now)) }
        // A fault, want of memory too, is answered again and changes nothing more.
        ensures kept { IfErr result (λ e. HasFailed self.new e) }
        ensures again { (e : StoreFault) → HasFailed self.old e → result ≡ Err e }
        ensures unchanged { (e : StoreFault) → HasFailed self.old e → self.new ≡ self.old }
        ensures going { OnOk result ((e : StoreFault) → HasFailed self.new e → ⊥) }
        ensures count { IfOk result (λ n. n ≤ length piece.now) }
        // It takes fewer bytes than there are only where the store ends before.
        ensures less { IfOk result (λ n. n < length piece.now → (b : List ℕ) → ReadsFor self.old b → EndsAs (b ++ take n piece.now)) }
    {
        if let Some(fault) = self.fault {
            return Err(fault);
        }
        match self.read_on(piece) {
            Ok(n) => Ok(n),
            Err(fault) => {
                let kept = &fault;
                self.fault = Some(*kept);
                Err(fault)
            }
        }
    }

    /// The store, if all of it came.
    pub fn finish(self) -> Result<Store, StoreFault>
        ensures ok { IfOk result (λ s. (b x : List ℕ) → ReadsFor self b → store_parts (b ++ x) 0 ≡ Ok (s, length b)) }
        ensures err { IfErr result (λ e. e ≢ StoreFault.NoMemory → (b : List ℕ) → ReadsFor self b → store_parts b 0 ≡ Err e) }
        ensures again { (e : StoreFault) → HasFailed self e → result ≡ Err e }
    {
        let StoreReader {
            alloc,
            front,
            parts,
            fault,
        } = self;
        if let Some(fault) = fault {
            return Err(fault);
        }
        match parts {
            Some(parts) => parts.finish(),
            None => Parts::new(alloc, opening(front.as_slice())?).finish(),
        }
    }
}
