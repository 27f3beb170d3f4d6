ghost use Rattle.std.specs.Prelude.{◌≡◌, ◌≤◌, nat_le, ◌&&◌, codes, true, Some, None, MatchOption, IfOk, if◌then◌else◌};
ghost use Rattle.selector_spelling.specs.Bytes.{is_number, number};
ghost use Rattle.selector_spelling.specs.Arguments.{signed, begins_minus, begins_sign, unsigned, digits, digits_or_one, offset, behind_n, with_n, by_rest, nth_of, nth, text_units, degree};

use crate::fronts::{Class, front_length, without_first_spaces};
use crate::names::digit_value;
use cos_source::trim_text;
use listed::Text;
use std::alloc::{AllocError, Global};

/// Whether a text is digits, one or more.
pub fn is_number(text: &[u8]) -> bool
    ensures { result ≡ is_number text.now }
{
    !text.is_empty() && front_length(Class::Digit, text) == text.len()
}

/// The number that digits spell, up to a limit.
fn limited(limit: u32, digits: &[u8]) -> Option<u32>
    ensures { result ≡ (if nat_le (number 10 digits.now) limit then Some (number 10 digits.now) else None) }
{
    let mut number: u64 = 0;
    for digit in digits {
        number = 10 * number + u64::from(digit_value(*digit));
        if number > u64::from(limit) {
            return None;
        }
    }
    Some(number as u32)
}

/// The number of `:min-text-length(..)`.
pub fn text_units(argument: &[u8]) -> Option<u32>
    ensures { result ≡ text_units argument.now }
{
    if !is_number(argument) || argument.len() > 10 {
        return None;
    }
    limited(u32::MAX, argument)
}

/// The number of `:upward(..)`.
pub fn degree(digits: &[u8]) -> Option<u8>
    ensures { result ≡ degree digits.now }
{
    let number = limited(255, digits)?;
    if number == 0 {
        return None;
    }
    Some(number as u8)
}

/// Digits alone, up to 1,000,000.
fn digits(text: &[u8]) -> Option<u32>
    ensures { result ≡ digits text.now }
{
    if !is_number(text) {
        return None;
    }
    limited(1_000_000, text)
}

fn digits_or_one(text: &[u8]) -> Option<u32>
    ensures { result ≡ digits_or_one text.now }
{
    if text.is_empty() {
        Some(1)
    } else {
        digits(text)
    }
}

fn begins_minus(text: &[u8]) -> bool
    ensures { result ≡ begins_minus text.now }
{
    match text.first() {
        Some(byte) => *byte == b'-',
        None => false,
    }
}

fn begins_sign(text: &[u8]) -> bool
    ensures { result ≡ begins_sign text.now }
{
    match text.first() {
        Some(byte) => *byte == b'+' || *byte == b'-',
        None => false,
    }
}

/// The text without a sign at its front.
fn unsigned(text: &[u8]) -> &[u8]
    ensures { result.now ≡ unsigned text.now }
{
    if begins_sign(text) { &text[1..] } else { text }
}

fn signed(negative: bool, number: u32) -> i32
    requires { number ≤ 1000000 }
    ensures { result ≡ signed negative number }
{
    if negative {
        -(number as i32)
    } else {
        number as i32
    }
}

/// A sign and digits, with white space between.
fn offset(text: &[u8]) -> Option<i32>
    ensures { result ≡ offset text.now }
{
    let number = digits(without_first_spaces(unsigned(text)))?;
    Some(signed(begins_minus(text), number))
}

/// What stands behind the `n`.
fn behind_n(text: &[u8]) -> Option<i32>
    ensures { result ≡ behind_n text.now }
{
    if text.is_empty() {
        return Some(0);
    }
    let text = without_first_spaces(text);
    if begins_sign(text) {
        offset(text)
    } else {
        None
    }
}

/// The step and the offset of `an+b`, from the text with the `n`: what stands before it, and behind it.
fn with_n(text: &[u8], rest: &[u8]) -> Option<(i32, i32)>
    ensures { MatchOption result (with_n text.now rest.now ≡ None) (λ v. with_n text.now rest.now ≡ Some (record { a = v.0; b = v.1 })) }
{
    let unsigned = unsigned(text);
    let a = digits_or_one(&unsigned[..front_length(Class::Digit, unsigned)])?;
    let b = behind_n(rest)?;
    Some((signed(begins_minus(text), a), b))
}

/// By what stands behind the first digits.
fn by_rest(text: &[u8], rest: &[u8]) -> Option<(i32, i32)>
    ensures { MatchOption result (by_rest text.now rest.now ≡ None) (λ v. by_rest text.now rest.now ≡ Some (record { a = v.0; b = v.1 })) }
{
    let Some((first, rest)) = rest.split_first() else {
        let b = digits(unsigned(text))?;
        return Some((0, signed(begins_minus(text), b)));
    };
    if *first == b'n' {
        with_n(text, rest)
    } else {
        None
    }
}

/// The step and the offset of `an+b`, which is trimmed and in lower case.
fn nth_of(text: &[u8]) -> Option<(i32, i32)>
    ensures { MatchOption result (nth_of text.now ≡ None) (λ v. nth_of text.now ≡ Some (record { a = v.0; b = v.1 })) }
{
    if text == b"odd".as_slice() {
        return Some((2, 1));
    }
    if text == b"even".as_slice() {
        return Some((2, 0));
    }
    let unsigned = unsigned(text);
    by_rest(text, &unsigned[front_length(Class::Digit, unsigned)..])
}

/// The step and the offset that the argument of `:nth-child(..)` and the like spells.
pub fn nth(alloc: Global, argument: &str) -> Result<Option<(i32, i32)>, AllocError>
    ensures { IfOk result (λ read. MatchOption read (nth argument.now ≡ None) (λ v. nth argument.now ≡ Some (record { a = v.0; b = v.1 }))) }
{
    let text = Text::lower(alloc, trim_text(argument))?;
    Ok(nth_of(text.as_str().as_bytes()))
}
