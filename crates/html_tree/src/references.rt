// Character references.

ghost use Rattle.std.specs.Prelude.{◌≡◌, ◌≤◌, ◌<◌, ◌+◌, ◌*◌, ◌++◌, true, IsTrue, MatchOption, None, Some, IfOk, OnOk, length, slice_index, take, min, option_map};
ghost use Rattle.std.specs.Char.{is_ascii_hexdigit};
ghost use Rattle.html_meaning.specs.Bytes.{up_to};
ghost use Rattle.html_meaning.specs.References as meant;
ghost use Rattle.html_tree.specs.Numerals.{radix, is_digit, ends_number, past, reference_of};

use html_tokens::{after, begins, behind, byte};
use listed::Text;
use memchr::memchr;
use std::alloc::{AllocError, Global};

/// A number past all characters.
const PAST: u32 = 0x11_0000;

/// A character reference: what it stands for, and how many bytes it takes.
#[derive(Clone, Copy)]
pub struct Reference {
    pub character: char,
    pub size: usize,
}

/// How a number is spelled.
#[derive(Clone, Copy)]
pub enum Base {
    Decimal,
    Hexadecimal,
}

/// How many digits there are.
fn radix(base: Base) -> u32
    ensures { result ≡ radix base }
{
    match base {
        Base::Decimal => 10,
        Base::Hexadecimal => 16,
    }
}

/// Whether a byte is a digit.
fn is_digit(base: Base, b: u8) -> bool
    ensures { result ≡ is_digit base b }
{
    match base {
        Base::Decimal => b.is_ascii_digit(),
        Base::Hexadecimal => b.is_ascii_hexdigit(),
    }
}

/// The value of a digit.
fn digit_value(b: u8) -> u32
    requires { is_ascii_hexdigit b ≡ true }
    ensures value { result ≡ meant.digit_value b }
    ensures small { result < 16 }
{
    if b.is_ascii_digit() {
        (b - b'0') as u32
    } else if b < b'a' {
        (b - b'A') as u32 + 10
    } else {
        (b - b'a') as u32 + 10
    }
}

/// Digits at the front: how many, and the number that they spell, `PAST` where it is greater.
#[derive(Clone, Copy)]
struct Digits {
    count: usize,
    value: u32,
}

/// The number with one more digit behind it.
fn with_digit(base: Base, value: u32, digit: u32) -> u32
    requires value { value ≤ past }
    requires digit { digit < 16 }
    ensures { result ≡ min past (value * radix base + digit) }
{
    PAST.min(value * radix(base) + digit)
}

/// The digits at the front.
fn digits_at(base: Base, bytes: &[u8]) -> Digits
    ensures count { result.count ≡ up_to (ends_number base) bytes.now }
    ensures within { result.count ≤ length bytes.now }
    ensures value { result.value ≡ min past (meant.number (radix base) 0 (take result.count bytes.now)) }
{
    let mut count = 0;
    let mut value = 0;
    while count < bytes.len() && is_digit(base, bytes[count]) {
        value = with_digit(base, value, digit_value(bytes[count]));
        count += 1;
    }
    Digits { count, value }
}

/// The character of a number: U+FFFD for 0, a surrogate and what is past the last character.
fn character(value: u32) -> char
    ensures { result ≡ meant.character value }
{
    match char::from_u32(value) {
        Some(c) => if value == 0 { '\u{fffd}' } else { c },
        None => '\u{fffd}',
    }
}

/// The numeric reference whose digits begin behind these bytes.
fn numeric(base: Base, before: usize, bytes: &[u8]) -> Option<Reference>
    requires { before ≤ length bytes.now }
    ensures { option_map reference_of result ≡ meant.numeric (radix base) (is_digit base) before bytes.now }
{
    let inner = after(bytes, before);
    let digits = digits_at(base, inner);
    if digits.count > 0 && byte(inner, digits.count) == b';' {
        Some(Reference {
            character: character(digits.value),
            size: before + digits.count + 1,
        })
    } else {
        None
    }
}

/// The named reference at the front.
fn named(bytes: &[u8]) -> Option<Reference>
    ensures { option_map reference_of result ≡ meant.named bytes.now meant.named_references }
{
    if begins(b"&amp;", bytes) {
        Some(Reference {
            character: '&',
            size: 5,
        })
    } else if begins(b"&lt;", bytes) {
        Some(Reference {
            character: '<',
            size: 4,
        })
    } else if begins(b"&gt;", bytes) {
        Some(Reference {
            character: '>',
            size: 4,
        })
    } else if begins(b"&quot;", bytes) {
        Some(Reference {
            character: '"',
            size: 6,
        })
    } else if begins(b"&apos;", bytes) {
        Some(Reference {
            character: '\'',
            size: 6,
        })
    } else if begins(b"&nbsp;", bytes) {
        Some(Reference {
            character: '\u{a0}',
            size: 6,
        })
    } else {
        None
    }
}

/// The reference at the front.
fn reference_at(bytes: &[u8]) -> Option<Reference>
    ensures { option_map reference_of result ≡ meant.reference bytes.now }
{
    if begins(b"&#x", bytes) || begins(b"&#X", bytes) {
        numeric(Base::Hexadecimal, 3, bytes)
    } else if begins(b"&#", bytes) {
        numeric(Base::Decimal, 2, bytes)
    } else {
        named(bytes)
    }
}

/// Adds what the reference at the front stands for, or the `&` itself where there is none, and answers what stands behind.
fn push_reference<'a>(made: &mut Text, text: &'a str) -> Result<&'a str, AllocError>
    requires { slice_index text.now 0 ≡ 38 }
    ensures ok { IfOk result (λ rest. made.new ++ meant.resolved 0 rest.now ≡ made.old ++ meant.resolved 0 text.now) }
    ensures shorter { IfOk result (λ rest. length rest.now < length text.now) }
{
    match reference_at(text.as_bytes()) {
        Some(found) => {
            made.push(found.character)?;
            Ok(behind(text, found.size))
        }
        None => {
            made.push_str("&")?;
            Ok(behind(text, 1))
        }
    }
}

/// A text with its character references resolved.
pub fn resolve(alloc: Global, text: &str) -> Result<Text, AllocError>
    ensures { IfOk result (λ made. made ≡ meant.resolved 0 text.now) }
{
    let mut made = Text::new(alloc);
    let mut rest = text;
    while let Some(place) = memchr(b'&', rest.as_bytes()) {
        let (front, back) = rest.split_at(place);
        made.push_str(front)?;
        rest = push_reference(&mut made, back)?;
    }
    made.push_str(rest)?;
    Ok(made)
}
