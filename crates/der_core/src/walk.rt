//! Elements in their order, some of them optional, as the ASN.1 of a format lists them. Each function takes the next
//! element of an iterator.

ghost use Rattle.std.specs.Prelude.{◌≡◌, ℕ, List, take, drop, MatchResult, Ok, Err, Some, IfSome, IfNone};
ghost use Rattle.std.specs.Option.{option_map};
ghost use Rattle.der_core.specs.Elements.{der_of, element_at};
ghost use Rattle.octets_core.specs.Walk.{Walks, ends, value_of};
ghost use Rattle.der_core.specs.Walk.{any, field, whole_field, optional, element_where, optional_where, is_time_tag, alone};
ghost use Rattle.der_core.specs.Grammar.{StandsBefore};

use crate::read::{element, elements};
use crate::types::{DerFault, Element, Elements};

/// The first element, its bytes, and the bytes behind it.
fn parts(bytes: &[u8]) -> Result<(Element<'_>, &[u8], &[u8]), DerFault>
    ensures { MatchResult result
        (λ x. (n : ℕ) × (element_at bytes.now ≡ Ok (der_of x.0, n)) × (x.1.now ≡ take n bytes.now) × (x.2.now ≡ drop n bytes.now))
        (λ f. element_at bytes.now ≡ Err f) }
{
    let (e, n) = element(bytes)?;
    let (front, rest) = bytes.split_at(n);
    Ok((e, front, rest))
}

/// The contents of the next element, which has this tag.
pub fn field<'a>(fields: &mut Elements<'a>, tag: u8) -> Option<&'a [u8]>
    ensures exact { Walks (λ x. x.now) (field tag) fields.old fields.new result }
    // What is taken stands there, and nothing is taken only where no such element stands there.
    ensures found { IfSome result (λ x. StandsBefore tag x.now fields.old fields.new) }
    ensures none { IfNone result ((contents rest : List ℕ) → StandsBefore tag contents fields.old rest → ⊥) }
{
    first_field(fields, tag)
}

#[tactic(auto, unfolding(crate::specs::Walk::field))]
fn first_field<'a>(fields: &mut Elements<'a>, tag: u8) -> Option<&'a [u8]>
    ensures { Walks (λ x. x.now) (field tag) fields.old fields.new result }
{
    match parts(fields.rest) {
        Ok((e, _, rest)) if e.tag == tag => {
            fields.rest = rest;
            Some(e.contents)
        }
        _ => None,
    }
}

/// The next element, which has this tag, with its tag and its length.
#[tactic(auto, unfolding(crate::specs::Walk::whole_field))]
pub fn whole_field<'a>(fields: &mut Elements<'a>, tag: u8) -> Option<&'a [u8]>
    ensures { Walks (λ x. x.now) (whole_field tag) fields.old fields.new result }
{
    match parts(fields.rest) {
        Ok((e, front, rest)) if e.tag == tag => {
            fields.rest = rest;
            Some(front)
        }
        _ => None,
    }
}

/// The contents of the next element, if it has this tag.
#[tactic(auto, unfolding(crate::specs::Walk::optional))]
pub fn optional<'a>(fields: &mut Elements<'a>, tag: u8) -> Option<&'a [u8]>
    ensures { optional tag fields.old ≡ Some (option_map (λ x. x.now) result, fields.new) }
{
    match parts(fields.rest) {
        Ok((e, _, rest)) if e.tag == tag => {
            fields.rest = rest;
            Some(e.contents)
        }
        _ => None,
    }
}

/// Whether no byte is left.
#[tactic(auto, unfolding(octets_core::specs::Walk::ends))]
pub fn ends(fields: &mut Elements<'_>) -> Option<()>
    ensures { Walks (λ x. x) ends fields.old fields.new result }
{
    match fields.rest {
        [] => Some(()),
        _ => None,
    }
}

/// The next element, which has the tag of a time.
#[tactic(auto, unfolding(crate::specs::Walk::element_where))]
pub fn time_element<'a>(fields: &mut Elements<'a>) -> Option<Element<'a>>
    ensures { Walks der_of (element_where is_time_tag) fields.old fields.new result }
{
    match parts(fields.rest) {
        Ok((e, _, rest)) if e.tag == 0x17 || e.tag == 0x18 => {
            fields.rest = rest;
            Some(e)
        }
        _ => None,
    }
}

/// The next element, if it has the tag of a time.
#[tactic(auto, unfolding(crate::specs::Walk::optional_where))]
pub fn optional_time<'a>(fields: &mut Elements<'a>) -> Option<Element<'a>>
    ensures { optional_where is_time_tag fields.old ≡ Some (option_map der_of result, fields.new) }
{
    match parts(fields.rest) {
        Ok((e, _, rest)) if e.tag == 0x17 || e.tag == 0x18 => {
            fields.rest = rest;
            Some(e)
        }
        _ => None,
    }
}

/// The next element.
#[tactic(auto, unfolding(crate::specs::Walk::element_where))]
pub fn any_element<'a>(fields: &mut Elements<'a>) -> Option<Element<'a>>
    ensures { Walks der_of (element_where any) fields.old fields.new result }
{
    match parts(fields.rest) {
        Ok((e, _, rest)) => {
            fields.rest = rest;
            Some(e)
        }
        Err(_) => None,
    }
}

/// The contents of the only element of the bytes, which has this tag.
#[tactic(auto, unfolding(crate::specs::Walk::alone))]
pub fn alone(bytes: &[u8], tag: u8) -> Option<&[u8]>
    ensures { option_map (λ x. x.now) result ≡ value_of (alone tag bytes.now) }
{
    let mut fields = elements(bytes);
    let contents = field(&mut fields, tag)?;
    ends(&mut fields)?;
    Some(contents)
}
