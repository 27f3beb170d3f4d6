// Where a part of a token ends: tests of what stands from a place on.

ghost use Rattle.std.specs.Prelude.{◌≡◌, ◌<◌, ◌≤◌, ◌+◌, drop, ℕ, Bool, true, List, length, slice_index, cond, codes};
ghost use Rattle.html_meaning.specs.Bytes.{begins, begins_like};
ghost use Rattle.html_meaning.specs.Tokens.{ends_name, is_between, is_quote, is_start, is_end, is_bogus_comment, opens, ends_raw_text};

/// A test of the rest of a source from a place on.
pub trait Place {
    ghost here: { Self → List ℕ → Bool };

    fn holds(&self, rest: &[u8]) -> bool
        ensures { result ≡ here self.now rest.now };

    // A place that passes begins with an ASCII byte, so that a text may be cut there.
    ghost ascii: { (p : Self) (bytes : List ℕ) → here p bytes ≡ true → slice_index bytes 0 < 128 };
}

/// The byte at a place, or 0 past the end.
pub fn byte(rest: &[u8], place: usize) -> u8
    ensures { result ≡ slice_index rest.now place }
{
    if place < rest.len() { rest[place] } else { 0 }
}

/// The bytes from a place on.
pub fn after(bytes: &[u8], place: usize) -> &[u8]
    requires { place ≤ length bytes.now }
    ensures { result.now ≡ drop place bytes.now }
{
    &bytes[place..]
}

/// A byte between attributes: space or `/`.
pub fn is_between(b: u8) -> bool
    ensures { result ≡ is_between b }
{
    b.is_ascii_whitespace() || b == b'/'
}

/// A quote around a value: `"` or `'`.
pub fn is_quote(b: u8) -> bool
    ensures { result ≡ is_quote b }
{
    matches!(b, b'"' | b'\'')
}

/// The bytes begin with a text.
pub fn begins(text: &[u8], bytes: &[u8]) -> bool
    ensures { result ≡ begins text.now bytes.now }
{
    let n = text.len().min(bytes.len());
    let front = &bytes[..n];
    front == text
}

/// The same, letter case ignored.
pub fn begins_like(text: &[u8], bytes: &[u8]) -> bool
    ensures { result ≡ begins_like text.now bytes.now }
{
    let n = text.len().min(bytes.len());
    let front = &bytes[..n];
    front.eq_ignore_ascii_case(text)
}

/// The name of a tag ends: space, `/` or `>`.
pub fn ends_name(rest: &[u8]) -> bool
    ensures { result ≡ ends_name rest.now }
{
    match rest {
        [] => false,
        [b, ..] => b.is_ascii_whitespace() || *b == b'/' || *b == b'>',
    }
}

/// A start tag begins: `<` and a letter.
pub fn is_start(rest: &[u8]) -> bool
    ensures { result ≡ is_start rest.now }
{
    byte(rest, 0) == b'<' && byte(rest, 1).is_ascii_alphabetic()
}

/// An end tag begins: `</` and a letter.
pub fn is_end(rest: &[u8]) -> bool
    ensures { result ≡ is_end rest.now }
{
    begins(b"</", rest) && byte(rest, 2).is_ascii_alphabetic()
}

/// A comment begins that ends at the first `>`: `<!`, `<?`, or `</` and a byte that is no letter.
pub fn is_bogus_comment(rest: &[u8]) -> bool
    ensures { result ≡ is_bogus_comment rest.now }
{
    begins(b"<!", rest)
        || begins(b"<?", rest)
        || (begins(b"</", rest) && rest.len() > 2 && !byte(rest, 2).is_ascii_alphabetic())
}

/// The raw text of the element with this name ends: `</`, the name, the case of letters ignored, and the end of a name.
pub fn ends_raw_text(name: &[u8], rest: &[u8]) -> bool
    ensures { result ≡ ends_raw_text name.now rest.now }
{
    if begins(b"</", rest) && rest.len() >= 2 {
        let inner = after(rest, 2);
        begins_like(name, inner) && inner.len() >= name.len() && ends_name(after(inner, name.len()))
    } else {
        false
    }
}

/// A `>`.
#[derive(Drop)]
pub struct Angle;

impl Place for Angle {
    ghost use Rattle.html_meaning.specs.Tokens.{is_angle};
    ghost use Rattle.html_tokens.specs.Ascii.{is_angle-ascii};

    ghost here = { λ p bytes. is_angle bytes };

    fn holds(&self, rest: &[u8]) -> bool {
        byte(rest, 0) == b'>'
    }

    ghost ascii = { λ p bytes e. is_angle-ascii bytes e };
}

/// The end of a name.
#[derive(Drop)]
pub struct NameEnd;

impl Place for NameEnd {
    ghost use Rattle.html_tokens.specs.Ascii.{ends_name-ascii};

    ghost here = { λ p bytes. ends_name bytes };

    fn holds(&self, rest: &[u8]) -> bool {
        ends_name(rest)
    }

    ghost ascii = { λ p bytes e. ends_name-ascii bytes e };
}

/// The end of an attribute's name.
#[derive(Drop)]
pub struct AttributeNameEnd;

impl Place for AttributeNameEnd {
    ghost use Rattle.html_meaning.specs.Tokens.{ends_attribute_name};
    ghost use Rattle.html_tokens.specs.Ascii.{ends_attribute_name-ascii};

    ghost here = { λ p bytes. ends_attribute_name bytes };

    fn holds(&self, rest: &[u8]) -> bool {
        ends_name(rest) || byte(rest, 0) == b'='
    }

    ghost ascii = { λ p bytes e. ends_attribute_name-ascii bytes e };
}

/// The end of a value without quotes.
#[derive(Drop)]
pub struct UnquotedValueEnd;

impl Place for UnquotedValueEnd {
    ghost use Rattle.html_meaning.specs.Tokens.{ends_unquoted_value};
    ghost use Rattle.html_tokens.specs.Ascii.{ends_unquoted_value-ascii};

    ghost here = { λ p bytes. ends_unquoted_value bytes };

    fn holds(&self, rest: &[u8]) -> bool {
        match rest {
            [] => false,
            [b, ..] => b.is_ascii_whitespace() || *b == b'>',
        }
    }

    ghost ascii = { λ p bytes e. ends_unquoted_value-ascii bytes e };
}

/// `-->`.
#[derive(Drop)]
pub struct CommentEnd;

impl Place for CommentEnd {
    ghost use Rattle.html_meaning.specs.Tokens.{ends_comment};
    ghost use Rattle.html_tokens.specs.Ascii.{ends_comment-ascii};

    ghost here = { λ p bytes. ends_comment bytes };

    fn holds(&self, rest: &[u8]) -> bool {
        begins(b"-->", rest)
    }

    ghost ascii = { λ p bytes e. ends_comment-ascii bytes e };
}

/// Something other than text.
#[derive(Drop)]
pub struct Opening;

impl Place for Opening {
    ghost use Rattle.html_tokens.specs.Ascii.{opens-ascii};

    ghost here = { λ p bytes. opens bytes };

    fn holds(&self, rest: &[u8]) -> bool {
        is_start(rest) || is_end(rest) || is_bogus_comment(rest)
    }

    ghost ascii = { λ p bytes e. opens-ascii bytes e };
}

/// The end of the raw text of an element.
#[derive(Drop)]
pub struct RawTextEnd<'a> {
    pub name: &'a [u8],
}

impl<'a> Place for RawTextEnd<'a> {
    ghost use Rattle.html_tokens.specs.Ascii.{ends_raw_text-ascii};

    ghost here = { λ p bytes. ends_raw_text p.name.now bytes };

    fn holds(&self, rest: &[u8]) -> bool {
        ends_raw_text(self.name, rest)
    }

    ghost ascii = { λ p bytes e. ends_raw_text-ascii p.name.now bytes e };
}
