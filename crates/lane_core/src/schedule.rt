// The message schedules (6.2.2, step 1) of four blocks side by side.

ghost use Rattle.std.specs.Prelude.{◌≡◌, ◌<◌, ◌≤◌, ◌*◌, ℕ, List, slice_index};
ghost use Rattle.sha2.specs.Sha256.{next_word, schedule, word_at};
ghost use Rattle.lane_core.specs.Lanes.{lane};

use crate::words::{add, small_sigma0, small_sigma1};
use std::simd::u32x4;

// Word `t`, from those before it.
#[inline(always)]
fn next_word(w: &[u32x4; 64], t: usize) -> u32x4
    requires low { 16 ≤ t }
    requires high { t < 64 }
    ensures { (j : ℕ) → j < 4 → slice_index result j ≡ next_word (lane j w.now) t }
{
    let far = add(small_sigma1(w[t - 2]), w[t - 7]);
    add(add(far, small_sigma0(w[t - 15])), w[t - 16])
}

/// The schedules of blocks of these words.
#[inline(always)]
pub(crate) fn schedules(block: &[u32x4; 16]) -> [u32x4; 64]
    ensures { (j : ℕ) → j < 4 → (b : List ℕ)
        → ((k : ℕ) → k < 16 → slice_index (lane j block.now) k ≡ word_at b (4 * k)) → lane j result ≡ schedule b 48 }
{
    let mut w = [u32x4::splat(0); 64];
    w[..16].copy_from_slice(block);
    'words: for t in 16..64 {
        w[t] = next_word(&w, t);
    }
    w
}
