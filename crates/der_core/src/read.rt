ghost use Rattle.std.specs.Prelude.{◌≡◌, ◌<◌, ◌≤◌, ◌^◌, ℕ, [], ◌∷◌, List, ◌++◌, ◌↔◌, take, map, Ok, Err, length, IfOk, MatchOption};
ghost use Rattle.std.specs.Iterator.{item_count, YieldsFirstBy};
ghost use Rattle.octets_core.specs.Numbers.{number};
ghost use Rattle.der_core.specs.Elements.{Gives, GivesElement, length_at, element_at, items, item_of, der_of, Der};
ghost use Rattle.der_core.specs.Grammar.{IsElement, AreElements, FaultAfter};
ghost use Rattle.der_core.specs.declared.types.DerFault.{DerFault};

use crate::types::{DerFault, Element, Elements};
use octets_core::vectors::number_of;

/// The number that the octets of a long length spell.
fn spelled(octets: &[u8]) -> usize
    requires { length octets.now ≤ 4 }
    ensures value { result ≡ number octets.now }
    ensures bound { result < 2 ^ 32 }
{
    number_of(octets) as usize
}

/// A length, and how many bytes it takes.
#[tactic(auto, unfolding(crate::specs::Elements::length_at))]
fn length_of(bytes: &[u8]) -> Result<(usize, usize), DerFault>
    ensures exact { Gives (λ x. x) result (length_at bytes.now) }
    ensures bound { IfOk result (λ x. (x.0 < 2 ^ 32) × (x.1 ≤ length bytes.now)) }
{
    let Some((first, octets)) = bytes.split_first() else {
        return Err(DerFault::Short);
    };
    let first = *first;
    if first < 0x80 {
        return Ok((first as usize, 1));
    }
    if first == 0x80 || first > 0x84 {
        return Err(DerFault::BadLength);
    }
    let count = (first - 0x80) as usize;
    if octets.len() < count {
        return Err(DerFault::Short);
    }
    let n = spelled(&octets[..count]);
    if spelled(&octets[..1]) == 0 || n < 0x80 {
        return Err(DerFault::BadLength);
    }
    Ok((n, 1 + count))
}

/// The first element, and how many bytes it takes.
#[tactic(auto, unfolding(crate::specs::Elements::element_at))]
fn first_element(bytes: &[u8]) -> Result<(Element<'_>, usize), DerFault>
    ensures exact { GivesElement result (element_at bytes.now) }
    ensures bound { IfOk result (λ x. (0 < x.1) × (x.1 ≤ length bytes.now)) }
{
    let Some((tag, rest)) = bytes.split_first() else {
        return Err(DerFault::Short);
    };
    if *tag & 0x1f == 0x1f {
        return Err(DerFault::BadTag);
    }
    let (len, used) = length_of(rest)?;
    if rest.len() < used + len {
        return Err(DerFault::Short);
    }
    let contents = &rest[used..used + len];
    Ok((
        Element {
            tag: *tag,
            contents,
        },
        1 + (used + len),
    ))
}

/// The first element of the bytes, and how many of them it takes (X.690, 8.1.2 and 8.1.3). What follows isn't read.
pub fn element(bytes: &[u8]) -> Result<(Element<'_>, usize), DerFault>
    // What is read is an element.
    ensures found { IfOk result (λ x. IsElement (der_of x.0) (take x.1 bytes.now)) }
    // What is an element is read, whatever follows.
    ensures only { (e : Der) (front rest : List ℕ) → IsElement e front → bytes.now ≡ front ++ rest
        → GivesElement result (Ok (e, length front)) }
    // Which step fails first.
    ensures exact { GivesElement result (element_at bytes.now) }
    ensures bound { IfOk result (λ x. (0 < x.1) × (x.1 ≤ length bytes.now)) }
{
    first_element(bytes)
}

/// The elements of these contents, one after the other.
pub fn elements(contents: &[u8]) -> Elements<'_>
    ensures exact { result ≡ contents.now }
    // They are the elements that the contents are, where no fault is among them,
    ensures whole { (es : List Der) → AreElements es contents.now ↔ (items result ≡ map (λ e. Ok e) es) }
    // and else the elements before the first fault, and then that fault, once.
    ensures faulty { (es : List Der) (f : DerFault) → FaultAfter es f contents.now ↔ (items result ≡ map (λ e. Ok e) es ++ Err f ∷ []) }
{
    Elements { rest: contents }
}

impl<'a> Iterator for Elements<'a> {
    type Item = Result<Element<'a>, DerFault>;

    ghost next_gives = { YieldsFirstBy item_of items };

    ghost remaining = { item_count items };

    fn next(&mut self) -> Option<Result<Element<'a>, DerFault>> {
        let (item, rest) = first_item(self.rest)?;
        self.rest = rest;
        Some(item)
    }
}

/// The first item, and the bytes that are left behind it: none behind a fault.
fn first_item(bytes: &[u8]) -> Option<(Result<Element<'_>, DerFault>, &[u8])>
    ensures { MatchOption result (items bytes.now ≡ []) (λ x. items bytes.now ≡ item_of x.0 ∷ items x.1.now) }
{
    if bytes.is_empty() {
        return None;
    }
    match first_element(bytes) {
        Ok((e, n)) => Some((Ok(e), &bytes[n..])),
        Err(fault) => Some((Err(fault), &bytes[..0])),
    }
}
