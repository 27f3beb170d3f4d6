ghost use Rattle.std.specs.Prelude.{◌≡◌};
ghost use Rattle.cos_source.specs.Mark.{mark_length, without_mark};

/// How many bytes the UTF-8 byte order mark at the start takes: 3, or 0 where there is none.
pub fn mark_length(bytes: &[u8]) -> usize
    ensures { result ≡ mark_length bytes.now }
{
    if bytes.starts_with(b"\xef\xbb\xbf") {
        3
    } else {
        0
    }
}

/// The bytes without the UTF-8 byte order mark at their start, if there is one.
pub fn without_mark(bytes: &[u8]) -> &[u8]
    ensures { result.now ≡ without_mark bytes.now }
{
    &bytes[mark_length(bytes)..]
}

/// The text without the byte order mark at its start, if there is one.
pub fn text_without_mark(text: &str) -> &str
    ensures { result.now ≡ without_mark text.now }
{
    match text.strip_prefix("\u{feff}") {
        Some(rest) => rest,
        None => text,
    }
}
