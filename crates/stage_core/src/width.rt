ghost use Rattle.card_core.specs.Leaf.{IsWidth};

use equation_core::MAX_PLANES;

/// How many planes the approximate stage has.
pub fn width_for(revoked: u32, others: u32) -> u8
    ensures { IsWidth revoked others result }
{
    let mut width = 0u8;
    while width < MAX_PLANES {
        if u64::from(others) < u64::from(revoked) << (width + 1) {
            return width;
        }
        width += 1;
    }
    width
}
