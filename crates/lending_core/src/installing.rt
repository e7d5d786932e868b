//! Parts that are tested, and installed in what is lent.

ghost use Rattle.std.specs.Prelude.{◌≡◌, ◌≢◌, length, drop};
ghost use Rattle.part_codec.specs.Noting.{noted};
ghost use Rattle.view_core.specs.Installing.{part_alone, installed, IsInstalled};
ghost use Rattle.lending_core.specs.declared.numbers.TheConstants.{DONE, BAD_SIZE};
ghost use Rattle.lending_core.specs.Facts.{part_number, part_facts};
ghost use Rattle.lending_core.specs.Facts.{install_number, install_facts};

use crate::facts::{INSTALL_SIZE, InstallFacts, PART_SIZE, PartFacts, tell_install, tell_part};
use crate::numbers;
use view_core::{check_part, install};

/// Tests a part, and writes what is told of it.
pub fn check_lent_part(part: &[u8], facts: &mut PartFacts) -> u32
    ensures told { facts.old.size ≡ PART_SIZE → (result ≡ part_number (noted (part_alone part.now 0)))
        × (facts.new ≡ part_facts (noted (part_alone part.now 0))) }
    ensures bad_size { facts.old.size ≢ PART_SIZE → (result ≡ BAD_SIZE) × (facts.new ≡ facts.old) }
{
    if facts.size != PART_SIZE {
        return numbers::BAD_SIZE;
    }
    tell_part(check_part(part), facts)
}

/// Writes a store with a further part, and how many bytes it has. Where another number than `DONE` is answered, nothing
/// is written into the room for it.
pub fn install_lent(store: &[u8], part: &[u8], new: &mut [u8], facts: &mut InstallFacts) -> u32
    ensures told { facts.old.size ≡ INSTALL_SIZE
        → (result ≡ install_number (installed store.now part.now (length new.old)))
        × (facts.new ≡ install_facts (installed store.now part.now (length new.old))) }
    ensures bad_size { facts.old.size ≢ INSTALL_SIZE → (result ≡ BAD_SIZE) × (facts.new ≡ facts.old) }
    ensures text { result ≡ DONE → IsInstalled store.now part.now new.new facts.new.length }
    ensures behind { result ≡ DONE → drop facts.new.length new.new ≡ drop facts.new.length new.old }
    ensures kept { result ≢ DONE → new.new ≡ new.old }
    ensures len { length new.new ≡ length new.old }
{
    if facts.size != INSTALL_SIZE {
        return numbers::BAD_SIZE;
    }
    tell_install(install(store, part, new), facts)
}
