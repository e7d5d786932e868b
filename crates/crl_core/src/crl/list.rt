ghost use Rattle.std.specs.Prelude.{◌≡◌, ◌≢◌, ℕ, List, if◌then◌else◌, Some, None, Ok, Err, IfOk, IfErr};
ghost use Rattle.std.specs.Option.{option_map};
ghost use Rattle.octets_core.specs.Walk.{Walks, value_of, within};
ghost use Rattle.der_core.specs.Elements.{der_of};
ghost use Rattle.der_core.specs.Times.{time_of};
ghost use Rattle.der_core.specs.Walk.{alone};
ghost use Rattle.crl_core.specs.Findings.{found_in_crl};
ghost use Rattle.crl_core.specs.Form.{known_version, time_if, dates, crl_extensions, tbs, certificate_list, crl_form};
ghost use Rattle.crl_core.specs.Form.{listed, entry, CrlForm};
ghost use Rattle.crl_core.specs.Grammar.{IsCrl};
ghost use Rattle.crl_core.specs.Outcome.{summary, entries_view, outcome_of, outcome, CrlFieldsFit, ComesTo, Finds};
ghost use Rattle.crl_core.specs.Outcome.{GivesOutcome, fields_of, crl_of, tbs_view};

use crate::crl::entry::entries_of;
use crate::crl::{Crl, CrlFault, Entries, TbsList};
use crate::findings::{Findings, both, found_in_crl, nothing};
use der_core::read::elements;
use der_core::walk::{alone, ends, field, optional, optional_time, time_element};
use der_core::{Element, Elements, time};
use std::alloc::Global;

fn is_known_version(contents: Option<&[u8]>) -> bool
    ensures { known_version (option_map (λ x. x.now) contents.entry) ≡ (if result then Some tt else None) }
{
    match contents {
        None => true,
        Some(contents) => contents == [1].as_slice(),
    }
}

fn time_in(e: &Element<'_>) -> Option<i64>
    ensures { result ≡ time_of (der_of e.now) }
{
    time(e).ok()
}

fn time_in_if(e: Option<Element<'_>>) -> Option<Option<i64>>
    ensures { result ≡ time_if (option_map der_of e.entry) }
{
    match e {
        None => Some(None),
        Some(e) => match time_in(&e) {
            Some(n) => Some(Some(n)),
            None => None,
        },
    }
}

/// The dates of a CRL, thisUpdate and nextUpdate, behind what isn't read.
#[tactic(auto, unfolding(crate::specs::Form::dates))]
fn dates_of(fields: &mut Elements<'_>) -> Option<(i64, Option<i64>)>
    ensures { Walks (λ x. record { this_update = x.0; next_update = x.1 }) dates fields.old fields.new result }
{
    let version = optional(fields, 0x02);
    if !is_known_version(version) {
        return None;
    }
    field(fields, 0x30)?;
    field(fields, 0x30)?;
    let this = time_element(fields)?;
    let this_update = time_in(&this)?;
    let next = optional_time(fields);
    let next_update = time_in_if(next)?;
    Some((this_update, next_update))
}

fn revoked_of(alloc: Global, list: Option<&[u8]>) -> Result<Entries, CrlFault>
    ensures { Finds entries_view (option_map summary (listed entry (option_map (λ x. x.now) list.entry))) result }
{
    match list {
        Some(contents) => entries_of(alloc, contents),
        None => Ok(Entries {
            found: nothing(),
            serials: Vec::new(alloc),
        }),
    }
}

fn last_of(last: Option<&[u8]>) -> Option<Findings>
    ensures { result ≡ option_map found_in_crl (crl_extensions (option_map (λ x. x.now) last.entry)) }
{
    match last {
        None => Some(nothing()),
        Some(contents) => {
            let list = alone(contents, 0x30)?;
            found_in_crl(list)
        }
    }
}

/// What stands in a TBSCertList.
#[tactic(auto, unfolding(crate::specs::Form::tbs))]
fn tbs_of(alloc: Global, contents: &[u8]) -> Result<TbsList, CrlFault>
    ensures { Finds tbs_view (option_map fields_of (value_of (tbs contents.now))) result }
{
    let mut fields = elements(contents);
    let Some((this_update, next_update)) = dates_of(&mut fields) else {
        return Err(CrlFault::Malformed);
    };
    let revoked = optional(&mut fields, 0x30);
    let entries = revoked_of(alloc, revoked)?;
    let last = optional(&mut fields, 0xa0);
    let Some(said) = last_of(last) else {
        return Err(CrlFault::Malformed);
    };
    let Some(()) = ends(&mut fields) else {
        return Err(CrlFault::Malformed);
    };
    let Entries { found, serials } = entries;
    Ok(TbsList {
        found: both(found, said),
        crl: Crl {
            this_update,
            next_update,
            serials,
        },
    })
}

/// The contents of the TBSCertList of a CRL.
#[tactic(auto, unfolding(crate::specs::Form::certificate_list))]
fn tbs_in(contents: &[u8]) -> Option<&[u8]>
    ensures { option_map (λ x. x.now) result ≡ value_of (certificate_list contents.now) }
{
    let mut fields = elements(contents);
    let tbs = field(&mut fields, 0x30)?;
    field(&mut fields, 0x30)?;
    field(&mut fields, 0x03)?;
    ends(&mut fields)?;
    Some(tbs)
}

fn contents_of(bytes: &[u8]) -> Option<&[u8]>
    ensures { option_map (λ x. x.now) result ≡ within certificate_list (within (alone 0x30) (Some bytes.now)) }
{
    let list = alone(bytes, 0x30)?;
    tbs_in(list)
}

fn list_of(alloc: Global, bytes: &[u8]) -> Result<TbsList, CrlFault>
    ensures { Finds tbs_view (option_map fields_of (crl_form bytes.now)) result }
{
    let Some(contents) = contents_of(bytes) else {
        return Err(CrlFault::Malformed);
    };
    tbs_of(alloc, contents)
}

fn outcome_in(alloc: Global, bytes: &[u8]) -> Result<Crl, CrlFault>
    ensures { GivesOutcome crl_of (outcome bytes.now) result }
{
    let list = list_of(alloc, bytes)?;
    let TbsList { found, crl } = list;
    if found.delta {
        return Err(CrlFault::DeltaCrl);
    }
    if found.indirect {
        return Err(CrlFault::Indirect);
    }
    if found.unknown {
        return Err(CrlFault::UnknownCritical);
    }
    Ok(crl)
}

/// Reads a CRL (RFC 5280, 5.1 to 5.3). Memory is taken for the serials alone.
pub fn read_crl(alloc: Global, bytes: &[u8]) -> Result<Crl, CrlFault>
    // What is taken, and what is refused as another kind of CRL, is a CRL, and comes to this.
    ensures taken { IfOk result (λ x. ComesTo bytes.now (Ok (crl_of x))) }
    ensures refused { IfErr result (λ e. e ≢ CrlFault.NoMemory → e ≢ CrlFault.Malformed → ComesTo bytes.now (Err e)) }
    // What is malformed is no CRL.
    ensures malformed { result ≡ Err CrlFault.Malformed → (form : CrlForm) → IsCrl form bytes.now → ⊥ }
    // And what is a CRL gives what it comes to.
    ensures only { (form : CrlForm) → IsCrl form bytes.now → GivesOutcome crl_of (outcome_of form) result }
    // Bytes are one CRL at most.
    ensures one_reading { (x y : CrlForm) → IsCrl x bytes.now → IsCrl y bytes.now → x ≡ y }
    // Dates and serials fit their fields.
    ensures fits { IfOk result (λ x. CrlFieldsFit (crl_of x)) }
    // What the bytes come to, computed.
    ensures exact { GivesOutcome crl_of (outcome bytes.now) result }
{
    outcome_in(alloc, bytes)
}
