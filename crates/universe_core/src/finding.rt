//! The search for the item of an identity.

ghost use Rattle.std.specs.Prelude.{◌≡◌, ◌<◌, ◌+◌, ◌^◌, find, IfSome};
ghost use Rattle.std.specs.List.Sorted.{IsStrictlySortedBy};
ghost use Rattle.ident_core.specs.Order.{identity_cmp, is_same as same};
ghost use Rattle.ledger_core.specs.LedgerFields.{ids};

use crate::serial_key::key_of;
use ident_core::Identity;
use ledger_core::LedgerItem;
use log_core::Entry;
use std::cmp::Ordering;

/// How many places are guessed at most. After so many guesses each comparison halves what is left.
const MAX_GUESSES: u8 = 8;

/// How many looks at most go into a guess.
const MAX_LOOKS: u8 = 32;

/// What a place is guessed from. The head of a serial is the number that its first eight octets spell, greatest first.
#[derive(Drop)]
struct Guesses {
    /// The place to look at first.
    first: Option<usize>,
    /// How many may still be made.
    left: u8,
    /// The head of the serial that is searched for, if there is one.
    head: Option<u64>,
    /// The head of the item just before the places that are left, if it is among heads that ascend with this one.
    below: Option<u64>,
    /// The head of the item just behind them, likewise.
    above: Option<u64>,
}

/// The head of an item, if there is one with the issuer of the identity and a serial as long. Those stand together, and
/// their heads ascend.
fn head_beside(item: Option<&LedgerItem>, id: Option<&Identity>) -> Option<u64> {
    let (item, id) = (item?, id?);
    if item.id.issuer != id.issuer || item.id.serial.bytes().len() != id.serial.bytes().len() {
        return None;
    }
    Some(key_of(&item.id.serial).head)
}

impl Guesses {
    fn new(id: Option<&Identity>, first: Option<usize>) -> Guesses {
        Guesses {
            first,
            left: MAX_GUESSES,
            head: id.map(|id| key_of(&id.serial).head),
            below: None,
            above: None,
        }
    }

    /// Of so many places the one of the head, if the heads lie evenly and have room between them.
    fn guess(&self, span: usize) -> Option<usize>
        requires { 0 < span }
        ensures { IfSome result (λ place. place < span) }
    {
        let (below, above) = (self.below?, self.above?);
        let width = above.saturating_sub(below) / span as u64;
        let place = self.head?.saturating_sub(below).checked_div(width)?;
        Some(place.min(span as u64 - 1) as usize)
    }

    /// The one of so many places to look at next: a guess, or the middle.
    fn place(&mut self, span: usize) -> usize
        requires { 0 < span }
        ensures { result < span }
    {
        if let Some(place) = self.first.take() {
            if place < span {
                return place;
            }
        }
        if self.left > 0 {
            if let Some(place) = self.guess(span) {
                self.left -= 1;
                return place;
            }
        }
        span / 2
    }
}

/// A search for the item of an identity, of which the next look comes when it is asked for. Only time rests on it.
#[derive(Drop)]
struct Search<'a> {
    id: Option<&'a Identity>,
    low: usize,
    high: usize,
    guesses: Guesses,
}

impl<'a> Search<'a> {
    /// A search for the item of the entry at a place, if there is one.
    fn new(items: &[LedgerItem], entries: &'a [Option<Entry>], place: usize) -> Search<'a> {
        let id = match entries.get(place) {
            Some(Some(entry)) => Some(&entry.id),
            _ => None,
        };
        Search {
            id,
            low: 0,
            high: items.len(),
            guesses: Guesses::new(id, None),
        }
    }

    /// Whether there is nothing to look for, or no place is left. The item is at `low`, if it was found.
    fn is_done(&self) -> bool {
        self.id.is_none() || self.low >= self.high
    }

    /// The place to look at next; any, where it is done.
    fn next_place(&mut self) -> usize {
        if self.low < self.high {
            self.low + self.guesses.place(self.high - self.low)
        } else {
            self.low
        }
    }

    /// Looks at a place, whose item gives this to guess from.
    fn look(&mut self, items: &[LedgerItem], place: usize, beside: Option<u64>) {
        let (Some(id), Some(item)) = (self.id, items.get(place)) else {
            return;
        };
        if place < self.low || place >= self.high {
            return;
        }
        match item.id.cmp(id) {
            Ordering::Equal => {
                self.low = place;
                self.high = place;
            }
            Ordering::Less => {
                self.low = place + 1;
                self.guesses.below = beside;
            }
            Ordering::Greater => {
                self.high = place;
                self.guesses.above = beside;
            }
        }
    }
}

/// Where the items of the four entries from a place on may stand. The four searches go on side by side, so that the
/// misses of the cache are waited for together.
pub fn guessed_places(items: &[LedgerItem], entries: &[Option<Entry>], at: usize) -> [usize; 4]
    requires { at + 3 < 2 ^ 64 }
{
    let mut a = Search::new(items, entries, at);
    let mut b = Search::new(items, entries, at + 1);
    let mut c = Search::new(items, entries, at + 2);
    let mut d = Search::new(items, entries, at + 3);
    for _ in 0..MAX_LOOKS {
        if a.is_done() && b.is_done() && c.is_done() && d.is_done() {
            break;
        }
        let (p, q, r, s) = (
            a.next_place(),
            b.next_place(),
            c.next_place(),
            d.next_place(),
        );
        // (what is read of the four items comes before any is compared, so that no miss waits for another)
        let (of_p, of_q) = (
            head_beside(items.get(p), a.id),
            head_beside(items.get(q), b.id),
        );
        let (of_r, of_s) = (
            head_beside(items.get(r), c.id),
            head_beside(items.get(s), d.id),
        );
        a.look(items, p, of_p);
        b.look(items, q, of_q);
        c.look(items, r, of_r);
        d.look(items, s, of_s);
    }
    [a.low, b.low, c.low, d.low]
}

/// The item of an identity. A guess is looked at first. An interpolation search, since serials are mostly random and
/// each item of a long ledger that is looked at costs a miss of the cache; behind the guesses it is a binary search.
pub(crate) fn item_of(
    items: &[LedgerItem],
    id: &Identity,
    guess: Option<usize>,
) -> Option<LedgerItem>
    requires sorted { IsStrictlySortedBy identity_cmp (ids items.now) }
    ensures { result ≡ find (λ i. same id.now i.id) items.now }
{
    let mut guesses = Guesses::new(Some(id), guess);
    let mut low = 0;
    let mut high = items.len();
    while low < high {
        let middle = low + guesses.place(high - low);
        let item = &items[middle];
        match item.id.cmp(id) {
            Ordering::Equal => return Some(*item),
            Ordering::Less => {
                low = middle + 1;
                guesses.below = head_beside(Some(item), Some(id));
            }
            Ordering::Greater => {
                high = middle;
                guesses.above = head_beside(Some(item), Some(id));
            }
        }
    }
    None
}
