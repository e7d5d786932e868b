// Messages with their padding (5.1.1), and the words of their blocks (5.2.1).

ghost use Rattle.std.specs.Prelude.{◌≡◌, ◌<◌, ◌≤◌, ◌+◌, ◌*◌, ◌/◌, ℕ, [], ◌∷◌, length, take, slice_index_or};
ghost use Rattle.sha2.specs.Sha256.{padded_message, word_at};

use std::simd::u32x4;

/// The most bytes of a message. Its padding ends in the second block.
pub const MAX_MESSAGE: usize = 119;

/// The message with its padding, and zeros behind them where they are one block.
pub(crate) fn padded(message: &[u8]) -> [u8; 128]
    requires { length message.now ≤ MAX_MESSAGE }
    ensures { take ((length message.now + 8) / 64 * 64 + 64) result ≡ padded_message message.now }
{
    let len = message.len();
    let mut bytes = [0; 128];
    bytes[..len].copy_from_slice(message);
    bytes[len] = 0x80;
    let end = (len + 8) / 64 * 64 + 64;
    bytes[end - 8..end].copy_from_slice(&(len as u64 * 8).to_be_bytes());
    bytes
}

#[inline(always)]
fn word(block: &[u8], i: usize) -> u32
    requires { i + 4 ≤ length block.now }
    ensures { result ≡ word_at block.now i }
{
    u32::from_be_bytes([block[i], block[i + 1], block[i + 2], block[i + 3]])
}

// The word at byte `i` of each block.
#[inline(always)]
fn word_of_each(a: &[u8], b: &[u8], c: &[u8], d: &[u8], i: usize) -> u32x4
    requires a { i + 4 ≤ length a.now }
    requires b { i + 4 ≤ length b.now }
    requires c { i + 4 ≤ length c.now }
    requires d { i + 4 ≤ length d.now }
    ensures { result ≡ word_at a.now i ∷ word_at b.now i ∷ word_at c.now i ∷ word_at d.now i ∷ [] }
{
    u32x4::from_array([word(a, i), word(b, i), word(c, i), word(d, i)])
}

/// The words of four blocks, side by side.
#[inline(always)]
pub(crate) fn words_of(a: &[u8], b: &[u8], c: &[u8], d: &[u8]) -> [u32x4; 16]
    requires a { length a.now ≡ 64 }
    requires b { length b.now ≡ 64 }
    requires c { length c.now ≡ 64 }
    requires d { length d.now ≡ 64 }
    ensures { (k : ℕ) → k < 16 → slice_index_or result k []
        ≡ word_at a.now (4 * k) ∷ word_at b.now (4 * k) ∷ word_at c.now (4 * k) ∷ word_at d.now (4 * k) ∷ [] }
{
    let mut words = [u32x4::splat(0); 16];
    'words: for k in 0..16 {
        words[k] = word_of_each(a, b, c, d, 4 * k);
    }
    words
}
