ghost use Rattle.std.specs.Prelude.{◌≡◌, ℕ, ◌+◌, ◌<◌, ◌≤◌, ◌-◌, true, length, take, drop, slice_index};
ghost use Rattle.cos_source.specs.Spaces.{without_first_spaces};
ghost use Rattle.selector_spelling.specs.Bytes.{front, behind, begins_with, differs, is_blank};
ghost use Rattle.selector_lexer.specs.Fronts.{passes};

use cos_source::is_space;

/// A class of bytes.
#[derive(Clone, Copy)]
pub enum Class {
    /// Letters, digits and `-`.
    Pseudo,
    /// Digits.
    Digit,
    /// Letters.
    Letter,
    /// Hexadecimal digits.
    Hex,
    /// White space.
    Space,
}

fn passes(class: Class, byte: u8) -> bool
    ensures { result ≡ passes class byte }
{
    match class {
        Class::Pseudo => byte.is_ascii_alphanumeric() || byte == b'-',
        Class::Digit => byte.is_ascii_digit(),
        Class::Letter => byte.is_ascii_alphabetic(),
        Class::Hex => byte.is_ascii_hexdigit(),
        Class::Space => is_space(byte),
    }
}

/// How many bytes of a class stand at the front.
pub fn front_length(class: Class, bytes: &[u8]) -> usize
    ensures within { result ≤ length bytes.now }
    ensures front { front (passes class) bytes.now ≡ take result bytes.now }
    ensures behind { behind (passes class) bytes.now ≡ drop result bytes.now }
    ensures passing { (k : ℕ) → k < result → passes class (slice_index bytes.now k) ≡ true }
{
    let mut n = 0;
    while n < bytes.len() {
        if !passes(class, bytes[n]) {
            break;
        }
        n += 1;
    }
    n
}

/// What stands behind the white space at the front.
pub(crate) fn without_first_spaces(bytes: &[u8]) -> &[u8]
    ensures { result.now ≡ without_first_spaces bytes.now }
{
    &bytes[front_length(Class::Space, bytes)..]
}

/// Whether the first byte is this one.
pub fn begins_with(byte: u8, bytes: &[u8]) -> bool
    ensures { result ≡ begins_with byte bytes.now }
{
    match bytes.first() {
        Some(first) => *first == byte,
        None => false,
    }
}

/// A text cut behind so many bytes, of which the last is ASCII.
pub fn split_behind(text: &str, n: usize) -> (&str, &str)
    requires most { n ≤ length text.now }
    requires last { 0 < n → slice_index text.now (n - 1) < 128 }
    ensures front { result.0.now ≡ take n text.now }
    ensures back { result.1.now ≡ drop n text.now }
    ensures lengths { length result.0.now + length result.1.now ≡ length text.now }
{
    text.split_at(n)
}

/// The longest front of a text whose bytes are of a class, and what stands behind it.
pub fn split_front(class: Class, text: &str) -> (&str, &str)
    ensures front { result.0.now ≡ front (passes class) text.now }
    ensures back { result.1.now ≡ behind (passes class) text.now }
    ensures lengths { length result.0.now + length result.1.now ≡ length text.now }
{
    split_behind(text, front_length(class, text.as_bytes()))
}

/// What stands behind the white space at the front.
pub fn trim_start(text: &str) -> &str
    ensures { result.now ≡ without_first_spaces text.now }
{
    split_front(Class::Space, text).1
}

/// Whether a text is nothing but white space.
pub fn is_blank(text: &[u8]) -> bool
    ensures { result ≡ is_blank text.now }
{
    without_first_spaces(text).is_empty()
}

/// How many bytes stand before the first of these.
fn length_before(byte: u8, bytes: &[u8]) -> usize
    ensures most { result ≤ length bytes.now }
    ensures front { front (differs byte) bytes.now ≡ take result bytes.now }
    ensures behind { behind (differs byte) bytes.now ≡ drop result bytes.now }
    ensures stops { result < length bytes.now → slice_index bytes.now result ≡ byte }
{
    let mut n = 0;
    while n < bytes.len() {
        if bytes[n] == byte {
            break;
        }
        n += 1;
    }
    n
}

/// A text cut before the first of these bytes.
pub fn split_before(byte: u8, text: &str) -> (&str, &str)
    requires { byte < 128 }
    ensures front { result.0.now ≡ front (differs byte) text.now }
    ensures back { result.1.now ≡ behind (differs byte) text.now }
    ensures stops { 0 < length result.1.now → slice_index result.1.now 0 ≡ byte }
    ensures most { length result.1.now ≤ length text.now }
{
    text.split_at(length_before(byte, text.as_bytes()))
}
