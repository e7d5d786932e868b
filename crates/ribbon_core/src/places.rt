ghost use Rattle.std.specs.Prelude.{◌≡◌, ℕ, ◌+◌, ◌*◌, ◌^◌, ◌<◌, ◌≤◌, ◌≢◌, length, map};
ghost use Rattle.std.specs.Int.{w64, from_be_bytes};
ghost use Rattle.equation_core.specs.Sizes.{words_for as words_of};
ghost use Rattle.equation_core.specs.declared.hash.TheConstants.{MAX_PLANES};
ghost use Rattle.equation_core.specs.declared.sizes.TheConstants.{MAX_STARTS};
ghost use Rattle.ribbon_core.specs.PlaneWords.{kept_length as length_of, kept_plane, kept_word, place as place_of, plane_of_words, word_of};

use equation_core::{MAX_PLANES, words_for};

// The place of word `i` of a plane, among the words that are kept.
pub fn place(planes: u8, plane: u8, i: usize) -> usize
    requires { place_of planes plane i < 2 ^ 64 }
    ensures { result ≡ place_of planes plane i }
{
    i * planes as usize + plane as usize
}

// How many words are kept.
pub fn kept_length(starts: u32, planes: u8) -> usize
    requires some_starts { 1 ≤ starts }
    requires few_starts { starts ≤ MAX_STARTS }
    requires planes { planes ≤ MAX_PLANES }
    ensures { result ≡ length_of planes (words_of starts) }
{
    planes as usize * words_for(starts) + usize::from(MAX_PLANES - planes)
}

/// What a word of 64 bits is read from.
pub trait Word {
    ghost spells: { Self → ℕ };

    fn word(&self) -> u64
        ensures { result ≡ spells self.now };
}

impl Word for u64 {
    ghost spells = { λ n. n };

    #[inline(always)]
    fn word(&self) -> u64 {
        *self
    }
}

/// The greatest byte first.
impl Word for [u8; 8] {
    ghost spells = { from_be_bytes w64 };

    #[inline(always)]
    fn word(&self) -> u64 {
        u64::from_be_bytes(*self)
    }
}

// Puts the words of planes that `text` spells one after the other at their places.
pub fn place_planes<W: Word>(text: &[W], planes: u8, width: usize, words: &mut [u64])
    requires text { length text.now ≡ planes * width }
    requires room { planes * width ≤ length words.old }
    ensures { (plane : ℕ) → plane < planes → kept_plane words.new planes width plane ≡ plane_of_words (map W.spells text.now) width plane }
{
    for plane in 0..planes {
        place_plane(text, planes, width, plane, words);
    }
}

fn place_plane<W: Word>(text: &[W], planes: u8, width: usize, plane: u8, words: &mut [u64])
    requires plane { plane < planes }
    requires text { length text.now ≡ planes * width }
    requires room { planes * width ≤ length words.old }
    ensures placed { (i : ℕ) → i < width → kept_word words.new planes plane i ≡ word_of (map W.spells text.now) width plane i }
    ensures others { (q i : ℕ) → q < planes → q ≢ plane → kept_word words.new planes q i ≡ kept_word words.old planes q i }
{
    for i in 0..width {
        let word = text[plane as usize * width + i].word();
        words[place(planes, plane, i)] = word;
    }
}
