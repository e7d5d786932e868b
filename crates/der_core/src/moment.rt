ghost use Rattle.std.specs.Prelude.{◌≡◌, ◌+◌, ◌-◌, ◌*◌, ◌<◌, ◌≤◌, ℕ, ℤ, pos, [], List, IfSome, IfOk, MatchResult, Ok};
ghost use Rattle.std.specs.Prelude.{Some, None, if◌then◌else◌};
ghost use Rattle.std.specs.Option.{option_map};
ghost use Rattle.octets_core.specs.Walk.{ends, value_of};
ghost use Rattle.der_core.specs.Elements.{der_of};
ghost use Rattle.der_core.specs.TimeGrammar.{IsTime};
ghost use Rattle.der_core.specs.Times.{two_digits, zulu, day_number, clock_seconds, moment_of, moment, utc_time, generalized_time, time_of};

use crate::types::{BadTime, Element};
use jiff::civil::Date;

/// Two decimal digits, and the text behind them.
#[tactic(auto, unfolding(crate::specs::Times::two_digits))]
fn digits_of(text: &[u8]) -> Option<(u16, &[u8])>
    ensures exact { option_map {U = ℕ × List ℕ} (λ x. (x.0, x.1.now)) result ≡ two_digits text.now }
    ensures bound { IfSome result (λ x. x.0 < 100) }
{
    match text {
        [a, b, rest @ ..] if a.is_ascii_digit() && b.is_ascii_digit() => {
            Some((10 * (*a as u16 - 48) + (*b as u16 - 48), rest))
        }
        _ => None,
    }
}

/// The text behind the letter Z.
#[tactic(auto, unfolding(crate::specs::Times::zulu))]
fn zulu_of(text: &[u8]) -> Option<&[u8]>
    ensures { option_map {U = Unit {0} × List ℕ} (λ x. (tt, x.now)) result ≡ zulu text.now }
{
    match text {
        [b'Z', rest @ ..] => Some(rest),
        _ => None,
    }
}

#[tactic(auto, unfolding(octets_core::specs::Walk::ends))]
fn is_end(text: &[u8]) -> bool
    ensures { ends text.now ≡ (if result then Some (tt, []) else None) }
{
    match text {
        [] => true,
        _ => false,
    }
}

/// The number of a day, if the calendar has it. No instant is made, so that the years 0000 and 9999 are whole.
#[tactic(auto, unfolding(crate::specs::Times::day_number))]
fn day_of(year: u16, month: u16, day: u16) -> Option<i32>
    requires year { year < 10000 }
    requires month { month < 100 }
    requires day { day < 100 }
    ensures { result ≡ day_number year month day }
{
    match Date::new(year as i16, month as i8, day as i8) {
        Ok(date) => Some(date.to_plain().to_unix_epoch_day()),
        Err(_) => None,
    }
}

/// The second of a day.
fn clock_of(hour: u16, minute: u16, second: u16) -> Option<u32>
    ensures exact { result ≡ clock_seconds hour minute second }
    ensures bound { IfSome result (λ n. n < 86400) }
{
    if hour < 24 && minute < 60 && second < 60 {
        Some(3600 * hour as u32 + 60 * minute as u32 + second as u32)
    } else {
        None
    }
}

fn seconds_of(day: i32, clock: u32) -> i64
    ensures { result ≡ moment_of day clock }
{
    day as i64 * 86400 + clock as i64
}

/// The rest of a time, from its month on.
#[tactic(auto, unfolding(crate::specs::Times::moment))]
fn rest_of(year: u16, text: &[u8]) -> Option<i64>
    requires { year < 10000 }
    ensures { result ≡ value_of (moment year text.now) }
{
    let (month, text) = digits_of(text)?;
    let (day, text) = digits_of(text)?;
    let (hour, text) = digits_of(text)?;
    let (minute, text) = digits_of(text)?;
    let (second, text) = digits_of(text)?;
    let text = zulu_of(text)?;
    if !is_end(text) {
        return None;
    }
    let number = day_of(year, month, day)?;
    let clock = clock_of(hour, minute, second)?;
    Some(seconds_of(number, clock))
}

#[tactic(auto, unfolding(crate::specs::Times::utc_time))]
fn utc(text: &[u8]) -> Option<i64>
    ensures { result ≡ value_of (utc_time text.now) }
{
    let (year, text) = digits_of(text)?;
    rest_of(if year < 50 { 2000 + year } else { 1900 + year }, text)
}

#[tactic(auto, unfolding(crate::specs::Times::generalized_time))]
fn generalized(text: &[u8]) -> Option<i64>
    ensures { result ≡ value_of (generalized_time text.now) }
{
    let (century, text) = digits_of(text)?;
    let (year, text) = digits_of(text)?;
    rest_of(100 * century + year, text)
}

#[tactic(auto, unfolding(crate::specs::Times::time_of))]
fn seconds_in(e: &Element<'_>) -> Option<i64>
    ensures { result ≡ time_of (der_of e.now) }
{
    match e.tag {
        0x17 => utc(e.contents),
        0x18 => generalized(e.contents),
        _ => None,
    }
}

/// The moment that a UTCTime or a GeneralizedTime names, in seconds since 1970-01-01 00:00:00 UTC
/// (RFC 5280, 4.1.2.5). The day is one of the Gregorian calendar, which is taken back to the year 0000.
pub fn time(e: &Element<'_>) -> Result<i64, BadTime>
    // What is read is the time that the element is.
    ensures found { IfOk result (λ t. IsTime t (der_of e.now)) }
    // What is a time is read.
    ensures only { (t : ℤ) → IsTime t (der_of e.now) → result ≡ Ok t }
    // The same, computed.
    ensures exact { MatchResult result (λ t. time_of (der_of e.now) ≡ Some t) (λ _. time_of (der_of e.now) ≡ None) }
{
    seconds_in(e).ok_or(BadTime)
}
