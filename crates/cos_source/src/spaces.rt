ghost use Rattle.std.specs.Prelude.{◌≡◌, ◌+◌, ◌<◌, ◌≤◌, true, length, take, drop, slice_index};
ghost use Rattle.cos_source.specs.Spaces.{is_space, space_count, trimmed, until_space, without_first_spaces, without_last_spaces};

/// Whether a byte is white space within a line: space, tab, form feed or carriage return.
pub fn is_space(byte: u8) -> bool
    ensures { result ≡ is_space byte }
{
    byte == b' ' || byte == b'\t' || byte == b'\x0c' || byte == b'\r'
}

/// The text without the white space at both of its ends.
pub fn trim(text: &[u8]) -> &[u8]
    ensures { result.now ≡ trimmed text.now }
{
    trim_end(trim_start(text))
}

fn trim_start(text: &[u8]) -> &[u8]
    ensures { result.now ≡ without_first_spaces text.now }
{
    &text[space_count(text)..]
}

fn trim_end(text: &[u8]) -> &[u8]
    ensures { result.now ≡ without_last_spaces text.now }
{
    let mut rest = text;
    'spaces: while let Some((last, more)) = rest.split_last() {
        if !is_space(*last) {
            break;
        }
        rest = more;
    }
    rest
}

/// How many bytes of white space a text begins with.
pub fn space_count(bytes: &[u8]) -> usize
    ensures count { result ≡ space_count bytes.now }
    ensures within { result ≤ length bytes.now }
    ensures behind { drop result bytes.now ≡ without_first_spaces bytes.now }
{
    let mut n = 0;
    while n < bytes.len() {
        if !is_space(bytes[n]) {
            break;
        }
        n += 1;
    }
    n
}

/// The text without the white space at both of its ends. It takes no memory.
pub fn trim_text(text: &str) -> &str
    ensures text { result.now ≡ trimmed text.now }
    ensures within { space_count text.now + length result.now ≤ length text.now }
{
    let rest = text.split_at(space_count(text.as_bytes())).1;
    rest.split_at(trim(rest.as_bytes()).len()).0
}

/// What stands before the first white space of a text, or all of it. It takes no memory.
pub fn until_space(text: &str) -> &str
    ensures { result.now ≡ until_space text.now }
{
    text.split_at(length_until_space(text.as_bytes())).0
}

fn length_until_space(bytes: &[u8]) -> usize
    ensures front { until_space bytes.now ≡ take result bytes.now }
    ensures within { result ≤ length bytes.now }
    ensures space { result < length bytes.now → is_space (slice_index bytes.now result) ≡ true }
{
    let mut n = 0;
    while n < bytes.len() {
        if is_space(bytes[n]) {
            break;
        }
        n += 1;
    }
    n
}
