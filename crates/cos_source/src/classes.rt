ghost use Rattle.std.specs.Prelude.{◌≡◌, ◌≤◌, ℕ, ◌<◌, ◌+◌, true, length, take, drop, slice_index};
ghost use Rattle.cos_source.specs.Classes.{front, is_in, past_front};

use crate::spaces::is_space;

/// A class of ASCII bytes.
#[derive(Debug, Clone, Copy, PartialEq, Eq)]
pub enum Class {
    Digit,
    HexDigit,
    Letter,
    /// Letters, digits and `_`.
    Name,
    /// Letters, digits and `-`, of which names of pseudo-classes are.
    Pseudo,
    /// White space within a line.
    Space,
}

impl Class {
    /// Whether a byte is of the class.
    pub fn holds(self, byte: u8) -> bool
        ensures { result ≡ is_in self byte }
    {
        match self {
            Class::Digit => byte.is_ascii_digit(),
            Class::HexDigit => byte.is_ascii_hexdigit(),
            Class::Letter => byte.is_ascii_alphabetic(),
            Class::Name => byte.is_ascii_alphanumeric() || byte == b'_',
            Class::Pseudo => byte.is_ascii_alphanumeric() || byte == b'-',
            Class::Space => is_space(byte),
        }
    }
}

/// How many bytes of a class stand at the front of a text.
pub fn front_length(class: Class, bytes: &[u8]) -> usize
    ensures within { result ≤ length bytes.now }
    ensures front { front (is_in class) bytes.now ≡ take result bytes.now }
    ensures behind { past_front (is_in class) bytes.now ≡ drop result bytes.now }
    ensures passing { (k : ℕ) → k < result → is_in class (slice_index bytes.now k) ≡ true }
{
    let mut n = 0;
    while n < bytes.len() {
        if !class.holds(bytes[n]) {
            break;
        }
        n += 1;
    }
    n
}

/// The longest front of a text whose bytes are of a class, and what stands behind it. It takes no memory.
pub fn split_front(class: Class, text: &str) -> (&str, &str)
    ensures front { result.0.now ≡ front (is_in class) text.now }
    ensures behind { result.1.now ≡ past_front (is_in class) text.now }
    ensures lengths { length result.0.now + length result.1.now ≡ length text.now }
{
    text.split_at(front_length(class, text.as_bytes()))
}
