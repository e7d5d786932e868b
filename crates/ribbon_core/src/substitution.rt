ghost use Rattle.std.specs.Prelude.{◌≡◌, ℕ, ◌+◌, ◌*◌, ◌/◌, ◌%◌, ◌^◌, ◌<◌, ◌≤◌, ◌≢◌, length, slice_index};
ghost use Rattle.std.specs.Int.{bit_at};
ghost use Rattle.equation_core.specs.declared.hash.TheConstants.{MAX_PLANES};
ghost use Rattle.ribbon_core.specs.Bands.{AreBanded, IsPivot, column_before, columns_from, solution_from};
ghost use Rattle.ribbon_core.specs.PlaneWords.{kept_plane, kept_word};

use crate::places::place;

// Writes the least solution of each plane, word by word from the last: all planes in one pass over the coefficients.
pub fn solve_planes(coeffs: &[u128], targets: &[u16], planes: u8, width: usize, words: &mut [u64])
    requires planes { planes ≤ MAX_PLANES }
    requires bands { AreBanded coeffs.now targets.now planes }
    requires width { width ≡ (length coeffs.now + 63) / 64 }
    requires room { planes * width ≤ length words.old }
    ensures { (plane : ℕ) → plane < planes
        → kept_plane words.new planes width plane ≡ solution_from plane coeffs.now targets.now 0 (length coeffs.now) }
{
    let mut windows = [0u128; 16];
    for i in (0..width).rev() {
        let from = 64 * i;
        let to = coeffs.len().min(from + 64);
        columns_down(coeffs, targets, planes, from, to, &mut windows);
        write_words(&windows, planes, width, i, words);
    }
}

// Of each plane the 128 columns from `from` on, given those from `to` on.
fn columns_down(
    coeffs: &[u128],
    targets: &[u16],
    planes: u8,
    from: usize,
    to: usize,
    windows: &mut [u128],
)
    requires planes { planes ≤ MAX_PLANES }
    requires room { planes ≤ length windows.old }
    requires bands { AreBanded coeffs.now targets.now planes }
    requires order { from ≤ to }
    requires end { to ≤ length coeffs.now }
    requires above { (plane : ℕ) → plane < planes → slice_index windows.old plane ≡ columns_from plane coeffs.now targets.now to % 2 ^ 128 }
    ensures { (plane : ℕ) → plane < planes → slice_index windows.new plane ≡ columns_from plane coeffs.now targets.now from % 2 ^ 128 }
{
    for at in (from..to).rev() {
        column_down(coeffs[at], targets[at], planes, windows);
    }
}

// Of each plane the 128 columns from one on, given those from the next on.
fn column_down(coeff: u128, target: u16, planes: u8, windows: &mut [u128])
    requires planes { planes ≤ MAX_PLANES }
    requires room { planes ≤ length windows.old }
    requires pivot { IsPivot coeff target }
    ensures { (plane : ℕ) → plane < planes → (h : ℕ) → slice_index windows.old plane ≡ h % 2 ^ 128
        → slice_index windows.new plane ≡ column_before coeff (bit_at target plane) h % 2 ^ 128 }
{
    for plane in 0..planes {
        let place = plane as usize;
        windows[place] = column(coeff, target, plane, windows[place]);
    }
}

fn column(coeff: u128, target: u16, plane: u8, window: u128) -> u128
    requires plane { plane < MAX_PLANES }
    requires pivot { IsPivot coeff target }
    ensures { (h : ℕ) → window ≡ h % 2 ^ 128 → result ≡ column_before coeff (bit_at target plane) h % 2 ^ 128 }
{
    let above = window << 1;
    let ones = (coeff & above).count_ones();
    let bit = (ones ^ u32::from(target >> plane)) & 1;
    above | u128::from(bit)
}

// Writes word `i` of each plane.
fn write_words(windows: &[u128], planes: u8, width: usize, i: usize, words: &mut [u64])
    requires planes { planes ≤ length windows.now }
    requires room { planes * width ≤ length words.old }
    requires word { i < width }
    ensures written { (plane : ℕ) → plane < planes → kept_word words.new planes plane i ≡ slice_index windows.now plane % 2 ^ 64 }
    ensures others { (plane k : ℕ) → plane < planes → k ≢ i → kept_word words.new planes plane k ≡ kept_word words.old planes plane k }
{
    for plane in 0..planes {
        let word = (windows[plane as usize] & 0xffff_ffff_ffff_ffff) as u64;
        words[place(planes, plane, i)] = word;
    }
}
