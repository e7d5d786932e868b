ghost use Rattle.std.specs.Prelude.{◌≡◌, ℕ, ◌+◌, ◌*◌, ◌/◌, ◌%◌, ◌^◌, ◌<◌, ◌≤◌, length, map, slice_index, if◌then◌else◌, ◌==◌, IfOk};
ghost use Rattle.std.specs.Int.{bit_at};
ghost use Rattle.std.specs.List.{All};
ghost use Rattle.equation_core.specs.Sizes.{words_for as words_of};
ghost use Rattle.equation_core.specs.declared.hash.TheConstants.{MAX_PLANES};
ghost use Rattle.equation_core.specs.declared.sizes.TheConstants.{MAX_STARTS};
ghost use Rattle.ribbon_core.specs.Equations.{sum_of};
ghost use Rattle.ribbon_core.specs.PlaneWords.{ArePlanes, columns_of, kept_columns, plane_of_words, words_spelled};
ghost use Rattle.ribbon_core.specs.Rows.{equation_of};

use crate::places::{Word, kept_length, place_planes};
use crate::reading::{sums_of, word_of};
use equation_core::{Row, words_for};
use octets_core::{NoMemory, Steps};
use std::alloc::Global;
use std::marker::Model;
use std::sync::ledger::Ledger;

// What planes hold. It stands in a box, so that what holds planes is small.
#[derive(Drop)]
pub(crate) struct KeptWords {
    pub starts: u32,
    pub planes: u8,
    pub words: Vec<u64>,
}

/// The columns of 1 to 16 planes, each of as many words as its columns need. The bits behind the last column are zero.
#[derive(Drop)]
pub struct Planes {
    kept: Box<KeptWords>,
}

impl Model for Planes {
    ghost use Rattle.ribbon_core.specs.PlaneWords.{PlaneColumns, kept_columns, ArePlanes};

    ghost Value = { PlaneColumns };

    ghost view = { λ p. record {
      starts = p.kept.value.starts;
      columns = kept_columns p.kept.value.starts p.kept.value.planes p.kept.value.words.items;
    } };

    ghost invariant = { λ p. ArePlanes p.kept.value.starts p.kept.value.planes p.kept.value.words.items };
}

impl Planes {
    /// The planes whose words these bytes spell, plane after plane, the lowest columns first, and of each word the
    /// greatest byte first.
    pub fn of_bytes(
        alloc: Global,
        starts: u32,
        planes: u8,
        bytes: &[u8],
    ) -> Result<Planes, NoMemory>
        requires some_starts { 1 ≤ starts }
        requires few_starts { starts ≤ MAX_STARTS }
        requires some_planes { 1 ≤ planes }
        requires few_planes { planes ≤ MAX_PLANES }
        requires room { length bytes.now ≡ 8 * (planes * words_of starts) }
        requires padding { (plane : ℕ) → plane < planes
            → plane_of_words (words_spelled (planes * words_of starts) bytes.now) (words_of starts) plane < 2 ^ (starts + 127) }
        ensures { IfOk result (λ p.
            p ≡ record {
              starts = starts;
              columns = columns_of starts planes (words_spelled (planes * words_of starts) bytes.now);
            }) }
    {
        let (text, _) = bytes.as_chunks::<8>();
        Planes::spelled(alloc, starts, planes, text)
    }

    /// The planes of these words, plane after plane, the lowest columns first.
    pub fn of_words(
        alloc: Global,
        starts: u32,
        planes: u8,
        words: &[u64],
    ) -> Result<Planes, NoMemory>
        requires some_starts { 1 ≤ starts }
        requires few_starts { starts ≤ MAX_STARTS }
        requires some_planes { 1 ≤ planes }
        requires few_planes { planes ≤ MAX_PLANES }
        requires room { length words.now ≡ planes * words_of starts }
        requires padding { (plane : ℕ) → plane < planes → plane_of_words words.now (words_of starts) plane < 2 ^ (starts + 127) }
        ensures { IfOk result (λ p. p ≡ record { starts = starts; columns = columns_of starts planes words.now }) }
    {
        Planes::spelled(alloc, starts, planes, words)
    }

    /// The same, of what spells a word each.
    fn spelled<W: Word>(
        alloc: Global,
        starts: u32,
        planes: u8,
        text: &[W],
    ) -> Result<Planes, NoMemory>
        requires some_starts { 1 ≤ starts }
        requires few_starts { starts ≤ MAX_STARTS }
        requires some_planes { 1 ≤ planes }
        requires few_planes { planes ≤ MAX_PLANES }
        requires room { length text.now ≡ planes * words_of starts }
        requires padding { (plane : ℕ) → plane < planes
            → plane_of_words (map W.spells text.now) (words_of starts) plane < 2 ^ (starts + 127) }
        ensures { IfOk result (λ p. p ≡ record { starts = starts; columns = columns_of starts planes (map W.spells text.now) }) }
    {
        let mut placed = vec![in alloc; 0u64; kept_length(starts, planes)]?;
        place_planes(text, planes, words_for(starts), &mut placed);
        let kept = KeptWords {
            starts,
            planes,
            words: placed,
        };
        let kept = Box::new(alloc, kept)?;
        Ok(Planes::from_kept(kept))
    }

    // The same, of words that stand as the type keeps them.
    pub(crate) fn from_kept(kept: Box<KeptWords>) -> Planes
        requires { ArePlanes kept.value.starts kept.value.planes kept.value.words.items }
        ensures { result ≡ record {
          starts = kept.value.starts;
          columns = kept_columns kept.value.starts kept.value.planes kept.value.words.items;
        } }
    {
        Planes { kept }
    }

    /// How many starts there are, which is 127 less than columns.
    pub fn starts(&self) -> u32
        ensures value { result ≡ self.now.starts }
        ensures some { 1 ≤ result }
        ensures few { result ≤ MAX_STARTS }
    {
        self.kept.starts
    }

    /// How many planes there are.
    pub fn planes(&self) -> u8
        ensures count { result ≡ length self.now.columns }
        ensures some { 1 ≤ result }
        ensures few { result ≤ MAX_PLANES }
        ensures padding { All (λ Z. Z < 2 ^ (self.now.starts + 127)) self.now.columns }
    {
        self.kept.planes
    }

    /// Word `i` of a plane: its columns from `64 * i` on, the lowest in the lowest bit. It takes one step.
    pub fn word<L: Ledger>(&self, plane: u8, i: usize, words: &mut Steps<L>) -> u64
        requires plane { plane < length self.now.columns }
        requires word { i < words_of self.now.starts }
        ensures value { result ≡ slice_index self.now.columns plane / 2 ^ (64 * i) % 2 ^ 64 }
        ensures steps { words.new ≡ words.old + 1 }
    {
        word_of(&self.kept.words, self.kept.planes, plane, i, words)
    }

    /// In bit `p`, the sum modulo 2 of the columns of plane `p` that the row chooses. Each word that is read takes a
    /// step.
    pub fn parity<L: Ledger>(&self, row: &Row, words: &mut Steps<L>) -> u16
        requires { row.now.start < self.now.starts }
        ensures sums { (plane : ℕ) → plane < length self.now.columns
            → bit_at result plane ≡ sum_of (equation_of row.now) (slice_index self.now.columns plane) }
        ensures few_planes { result < 2 ^ length self.now.columns }
        ensures steps { words.new ≡ words.old + length self.now.columns * (if row.now.start % 64 == 0 then 2 else 3) }
    {
        let Row { start, coeff, .. } = *row;
        sums_of(
            &self.kept.words,
            self.kept.planes,
            start as usize,
            coeff,
            words,
        )
    }
}
