//! Numbers of keys.
ghost use Rattle.std.specs.Prelude.{◌≡◌};
ghost use Rattle.generic_tables.specs.Carried.{key_in};
ghost use Rattle.generic_tables.specs.FilterTables.{number_of, text_number, with_byte};

use crate::carried::KeyRef;

// The number of a key. Few other keys have it, and that of nothing is no other key's.
pub(crate) fn number_of(key: KeyRef<'_>) -> u32
    ensures { result ≡ number_of (key_in key.entry) }
{
    match key {
        KeyRef::Class(class) => text_number(1, class),
        KeyRef::Id(id) => text_number(2, id),
        KeyRef::Name(name) => text_number(3, name),
        KeyRef::None => 0,
    }
}

// The number of a text among those of a kind. The lowest bit says least, and leaves room for 0.
fn text_number(kind: u32, text: &str) -> u32
    ensures { result ≡ text_number kind text.now }
{
    let mut number = kind;
    for byte in text.as_bytes() {
        number = with_byte(number, *byte);
    }
    number / 2 + 1
}

fn with_byte(number: u32, byte: u8) -> u32
    ensures { result ≡ with_byte number byte }
{
    number.wrapping_mul(16777619).wrapping_add(byte as u32)
}
