ghost use Rattle.std.specs.Prelude.{◌≡◌, ◌-◌, ◌<◌, ◌≤◌, ◌^◌, zero, true, not, ◌&&◌, [], ◌++◌, length, take, drop, slice_index, encode_utf8, Some, None, IfOk, MatchOption};
ghost use Rattle.std.specs.Char.{digit_value, is_ascii_hexdigit};
ghost use Rattle.selector_tree.specs.Letters.{is_name_byte};
ghost use Rattle.selector_spelling.specs.Bytes.{begins_with, front, number};
ghost use Rattle.selector_spelling.specs.Names.{character, space_length, escape, onto, run, string, begins_behind_minus, begins_name, name};
ghost use Rattle.selector_lexer.specs.Letters.{stands, IsEscape, IsLetter, HasNoLetter};

use crate::fronts::{begins_with, split_behind};
use crate::scan::space_length;
use listed::Text;
use std::alloc::{AllocError, Global};

/// Where a letter stands.
#[derive(Clone, Copy)]
pub(crate) enum Plain {
    /// In a name.
    InName,
    /// In a string.
    InString,
}

/// The first character of a text, and what stands behind it.
pub fn split_first(text: &str) -> Option<(char, &str)>
    ensures { MatchOption result (text.now ≡ []) (λ p. text.now ≡ encode_utf8 p.0 ++ p.1.now) }
{
    let mut chars = text.chars();
    let first = chars.next()?;
    Some((first, chars.as_str()))
}

/// What a digit counts, to a base up to 36; 36 for every other byte.
pub(crate) fn digit_value(byte: u8) -> u32
    ensures value { result ≡ digit_value byte }
    ensures most { result ≤ 36 }
    ensures hex { is_ascii_hexdigit byte ≡ true → result < 16 }
{
    let code = u32::from(byte);
    if code < 48 {
        36
    } else if code < 58 {
        code - 48
    } else if code < 65 {
        36
    } else if code < 91 {
        code - 55
    } else if code < 97 {
        36
    } else if code < 123 {
        code - 87
    } else {
        36
    }
}

/// The number of up to six hexadecimal digits, and how many they are.
fn hex_number(bytes: &[u8]) -> (u32, usize)
    ensures number { result.0 ≡ number 16 (front is_ascii_hexdigit (take 6 bytes.now)) }
    ensures count { result.1 ≡ length (front is_ascii_hexdigit (take 6 bytes.now)) }
    ensures most { result.1 ≤ length bytes.now }
    ensures last { 0 < result.1 → slice_index bytes.now (result.1 - 1) < 128 }
{
    let mut number = 0;
    let mut count = 0;
    while count < 6 && count < bytes.len() {
        let byte = bytes[count];
        if !byte.is_ascii_hexdigit() {
            break;
        }
        number = number * 16 + digit_value(byte);
        count += 1;
    }
    (number, count)
}

/// The character of a number.
fn character(number: u32) -> char
    ensures { encode_utf8 result ≡ character number }
{
    if number == 0 {
        return '\u{fffd}';
    }
    match char::from_u32(number) {
        Some(c) => c,
        None => '\u{fffd}',
    }
}

/// What stands behind one white space, if that is at the front.
fn behind_space(text: &str) -> &str
    ensures { result.now ≡ drop (space_length text.now) text.now }
{
    split_behind(text, space_length(text.as_bytes())).1
}

/// What an escape stands for, from behind its `\` on, and what stands behind it.
fn escape(text: &str) -> Option<(char, &str)>
    ensures { MatchOption result (escape text.now ≡ None) (λ p. IsEscape text.now p.1.now p.0) }
{
    let (number, count) = hex_number(text.as_bytes());
    if count > 0 {
        return Some((character(number), behind_space(split_behind(text, count).1)));
    }
    split_first(text)
}

fn stands(plain: Plain, c: char) -> bool
    ensures { result ≡ stands plain c }
{
    match plain {
        Plain::InName => {
            ('a' <= c && c <= 'z')
                || ('A' <= c && c <= 'Z')
                || ('0' <= c && c <= '9')
                || c == '-'
                || c == '_'
                || '\u{80}' <= c
        }
        Plain::InString => c != '\\',
    }
}

/// Whether U+0000 stands at the front, where it may not: it is no part of a name, also behind `\`.
fn refuses(plain: Plain, text: &str) -> bool
    ensures { result ≡ (not (stands plain 0) && begins_with 0 text.now) }
{
    !stands(plain, '\0') && begins_with(0, text.as_bytes())
}

/// The letter at the front of a text, and what stands behind it.
fn letter(plain: Plain, text: &str) -> Option<(char, &str)>
    ensures { MatchOption result (HasNoLetter (stands plain) text.now) (λ p. IsLetter (stands plain) text.now p.1.now p.0) }
{
    let (c, rest) = split_first(text)?;
    if stands(plain, c) {
        return Some((c, rest));
    }
    if c != '\\' {
        return None;
    }
    if refuses(plain, rest) {
        return None;
    }
    escape(rest)
}

/// Adds the longest run of letters of a name, and gives what stands behind it.
fn push_run<'a>(value: &mut Text, text: &'a str) -> Result<&'a str, AllocError>
    ensures { IfOk result (λ rest. onto value.old (run zero text.now) ≡ record { value = value.new; rest = rest.now }) }
{
    let mut rest = text;
    while let Some((c, behind)) = letter(Plain::InName, rest) {
        value.push(c)?;
        rest = behind;
    }
    Ok(rest)
}

/// Whether a letter but a digit stands at the front.
fn begins_letter(text: &str) -> bool
    ensures { result ≡ begins_behind_minus text.now }
{
    match text.as_bytes().first() {
        None => false,
        Some(byte) => !byte.is_ascii_digit() && letter(Plain::InName, text).is_some(),
    }
}

/// Whether a name stands at the front.
pub fn begins_name(text: &str) -> bool
    ensures { result ≡ begins_name text.now }
{
    if begins_with(b'-', text.as_bytes()) {
        return begins_letter(split_behind(text, 1).1);
    }
    begins_letter(text)
}

/// Adds the name at the front, and gives what stands behind it; `None` where no name stands there.
pub fn push_name<'a>(value: &mut Text, text: &'a str) -> Result<Option<&'a str>, AllocError>
    requires { value.old ≡ [] }
    ensures { IfOk result (λ read. MatchOption read (name text.now ≡ None) (λ rest. name text.now ≡ Some (record { value = value.new; rest = rest.now }))) }
{
    if !begins_name(text) {
        return Ok(None);
    }
    Ok(Some(push_run(value, text)?))
}

/// Adds what stands in a string, from behind its first quote on, and gives what stands behind the last one; `None` where
/// the string has not the form.
pub fn push_string<'a>(
    value: &mut Text,
    quote: u8,
    text: &'a str,
) -> Result<Option<&'a str>, AllocError>
    requires empty { value.old ≡ [] }
    requires ascii { quote < 128 }
    ensures { IfOk result (λ read. MatchOption read (string quote zero text.now ≡ None) (λ rest. string quote zero text.now ≡ Some (record { value = value.new; rest = rest.now }))) }
{
    let mut rest = text;
    while !begins_with(quote, rest.as_bytes()) {
        let Some((c, behind)) = letter(Plain::InString, rest) else {
            return Ok(None);
        };
        value.push(c)?;
        rest = behind;
    }
    Ok(Some(split_behind(rest, 1).1))
}
