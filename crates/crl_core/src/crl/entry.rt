ghost use Rattle.std.specs.Prelude.{IfSome, OnOk, IfErr, ◌<◌, ◌≡◌, List, ℕ, ◌++◌, length};
ghost use Rattle.std.specs.Option.{option_map};
ghost use Rattle.der_core.specs.Elements.{der_of, items};
ghost use Rattle.der_core.specs.Walk.{each};
ghost use Rattle.crl_core.specs.Extensions.{extension};
ghost use Rattle.crl_core.specs.Findings.{found_in_entry};
ghost use Rattle.crl_core.specs.Form.{listed, entry};
ghost use Rattle.crl_core.specs.Outcome.{seen, kept_octets, summary, entries_view, Finds};
ghost use Rattle.crl_core.specs.declared.findings.Findings.{Findings};

use crate::crl::{CrlFault, Entries};
use crate::findings::{Findings, both, found_in_entry, nothing};
use der_core::Element;
use der_core::read::elements;
use der_core::walk::{ends, field, optional, time_element};
use ident_core::Serial;
use std::alloc::Global;

fn found_in_list(list: Option<&[u8]>) -> Option<Findings>
    ensures { result ≡ option_map found_in_entry (listed extension (option_map (λ x. x.now) list.entry)) }
{
    match list {
        None => Some(nothing()),
        Some(contents) => found_in_entry(contents),
    }
}

/// The serial of an entry, and what its extensions say.
#[tactic(auto, unfolding(crate::specs::Form::entry_fields, crate::specs::Form::entry))]
fn entry_of<'a>(e: &Element<'a>) -> Option<(&'a [u8], Findings)>
    ensures some { IfSome result (λ x. 0 < length x.0.now) }
    ensures exact { option_map {U = List ℕ × Findings} (λ x. (x.0.now, x.1)) result ≡ option_map seen (entry (der_of e.now)) }
{
    if e.tag != 0x30 {
        return None;
    }
    let mut fields = elements(e.contents);
    let serial = field(&mut fields, 0x02)?;
    if serial.len() == 0 {
        return None;
    }
    time_element(&mut fields)?;
    let list = optional(&mut fields, 0x30);
    let found = found_in_list(list)?;
    ends(&mut fields)?;
    Some((serial, found))
}

/// Adds a serial, if it has at most 32 octets.
fn keep(serials: &mut Vec<Serial>, octets: &[u8]) -> Result<(), CrlFault>
    requires { 0 < length octets.now }
    ensures ok { OnOk result (serials.new.items ≡ serials.old.items ++ kept_octets octets.now) }
    ensures err { IfErr result (λ e. e ≡ CrlFault.NoMemory) }
{
    if let Ok(serial) = Serial::new(octets) {
        serials.push(serial)?;
    }
    Ok(())
}

/// What the entries say, and the serials of them that are kept.
pub(crate) fn entries_of(alloc: Global, contents: &[u8]) -> Result<Entries, CrlFault>
    ensures { Finds entries_view (option_map summary (each entry (items contents.now))) result }
{
    let mut found = nothing();
    let mut serials = Vec::new(alloc);
    for item in elements(contents) {
        let Ok(e) = item else {
            return Err(CrlFault::Malformed);
        };
        let Some((serial, said)) = entry_of(&e) else {
            return Err(CrlFault::Malformed);
        };
        keep(&mut serials, serial)?;
        found = both(found, said);
    }
    Ok(Entries { found, serials })
}
