ghost use Rattle.std.specs.Prelude.{◌≡◌, OnOk, OnErr};
ghost use Rattle.outside_core.specs.Files.{extending, Torn, KeepsOthers, Rose};
ghost use Rattle.outside_core.specs.Effects.{OnlyWrites};

use crate::depot::{Depot, Failed};

/// Adds all the bytes behind what the name holds. Each call of the depot offers all that aren't taken; without bytes
/// there is no call. After `Failed` some front of the bytes stands there.
pub fn append_all<D: Depot>(depot: &mut D, name: &str, bytes: &[u8]) -> Result<(), Failed>
    ensures ok { OnOk result (D.files depot.new ≡ extending (D.files depot.old) name.now bytes.now) }
    ensures err { OnErr result (Torn (D.files depot.old) (D.files depot.new) name.now bytes.now) }
    ensures others { KeepsOthers (D.files depot.old) (D.files depot.new) name.now }
    ensures cause { OnErr result (Rose (D.write_faults depot.old) (D.write_faults depot.new)) }
    ensures only_writes { OnlyWrites D.Depot depot.old depot.new }
{
    let mut done = 0;
    while done < bytes.len() {
        done += depot.append(name, &bytes[done..])?;
    }
    Ok(())
}
