// The rules of the tokens, each as the code that reads the token at the front.

ghost use Rattle.std.specs.Prelude.{◌≡◌, ◌<◌, ◌≤◌, ◌-◌, ◌+◌, ℕ, List, IsTrue, length, slice_index, take, drop, codes, true, false, MatchOption, [], ◌∷◌, ◌&&◌};
ghost use Rattle.std.specs.Bool.{nat_lt};
ghost use Rattle.html_meaning.specs.Bytes.{begins, begins_like, up_to};
ghost use Rattle.html_meaning.specs.Tokens.{comment, bogus_comment, doctype, tag, text, raw_text, first, is_angle, ends_comment, is_bogus_comment, is_start, is_end, begins_raw_text, ends_raw_text, to_tag_end, is_self_closing};
ghost use Rattle.html_tokens.specs.Views.{Reads, IsTag, is_whole};
ghost use Rattle.html_meaning.specs.Tokens as meant;
ghost use Rattle.html_meaning.specs.Bytes.{is_among};
ghost use Rattle.std.specs.Str.{str_to_ascii_lowercase};
ghost use Rattle.html_meaning.specs.Elements.{raw_text_elements, holds_raw_text};

use crate::places::{
    Angle, CommentEnd, NameEnd, Opening, Place, RawTextEnd, begins, begins_like, ends_raw_text,
    is_bogus_comment, is_end, is_start,
};
use crate::scan::{is_self_closing, to_tag_end, up_to, up_to_lead};

/// A token without its places.
#[derive(Clone, Copy)]
pub enum Piece<'a> {
    Start {
        name: &'a str,
        attrs: &'a str,
        self_closing: bool,
    },
    End {
        name: &'a str,
    },
    Chars {
        text: &'a str,
        raw: bool,
    },
    Comment {
        text: &'a str,
    },
    Doctype,
    Cut,
}

/// A token at the front of a text, and what stands behind it.
#[derive(Clone, Copy)]
pub struct Found<'a> {
    pub piece: Piece<'a>,
    pub rest: &'a str,
}

/// A tag that is whole: its name, what stands between that and the `>`, and what stands behind it.
#[derive(Clone, Copy)]
pub struct Whole<'a> {
    pub name: &'a str,
    pub attrs: &'a str,
    pub rest: &'a str,
}

// The text cut at the first place that passes, or at its end.
fn cut<'a, P: Place>(place: &P, text: &'a str) -> (&'a str, &'a str)
    ensures front { result.0.now ≡ take (up_to (P.here place.now) text.now) text.now }
    ensures back { result.1.now ≡ drop (up_to (P.here place.now) text.now) text.now }
    ensures here { 0 < length result.1.now → P.here place.now result.1.now ≡ true }
{
    text.split_at(up_to(place, text.as_bytes()))
}

// The same for a place that begins with this byte wherever it passes.
fn cut_lead<'a, P: Place>(place: &P, lead: u8, text: &'a str) -> (&'a str, &'a str)
    requires { (rest : List ℕ) → P.here place.now rest ≡ true → slice_index rest 0 ≡ lead }
    ensures front { result.0.now ≡ take (up_to (P.here place.now) text.now) text.now }
    ensures back { result.1.now ≡ drop (up_to (P.here place.now) text.now) text.now }
    ensures here { 0 < length result.1.now → P.here place.now result.1.now ≡ true }
{
    text.split_at(up_to_lead(place, lead, text.as_bytes()))
}

/// What stands behind the first bytes, of which the last is ASCII.
pub fn behind(text: &str, count: usize) -> &str
    requires within { count ≤ length text.now }
    requires some { 0 < count }
    requires ascii { slice_index text.now (count - 1) < 128 }
    ensures { result.now ≡ drop count text.now }
{
    text.split_at(count).1
}

// What stands behind the `>` that a text begins with, if any is left.
fn behind_angle(text: &str) -> &str
    requires { 0 < length text.now → is_angle text.now ≡ true }
    ensures { result.now ≡ drop 1 text.now }
{
    if text.is_empty() {
        text
    } else {
        behind(text, 1)
    }
}

// What stands behind the `-->` that a text begins with, if any is left.
fn behind_comment_end(text: &str) -> &str
    requires { 0 < length text.now → ends_comment text.now ≡ true }
    ensures { result.now ≡ drop 3 text.now }
{
    if text.is_empty() {
        text
    } else {
        behind(text, 3)
    }
}

// What stands behind two dashes, or nothing.
fn behind_two(text: &str) -> &str
    requires { 1 < length text.now → slice_index text.now 1 < 128 }
    ensures { result.now ≡ drop 2 text.now }
{
    if text.len() < 2 { "" } else { behind(text, 2) }
}

// A comment between `<!--` and the first `-->`, which may share the dashes of the `<!--`.
fn comment(source: &str) -> Found<'_>
    requires { IsTrue (begins (codes "<!--") source.now) }
    ensures { Reads result (comment source.now) source.now }
{
    let inner = behind(source, 2);
    let (front, end) = cut_lead(&CommentEnd, b'-', inner);
    Found {
        piece: Piece::Comment {
            text: behind_two(front),
        },
        rest: behind_comment_end(end),
    }
}

// A comment of any other form, up to and with the first `>`, which isn't among its first two bytes.
fn bogus_comment(source: &str) -> Found<'_>
    requires { IsTrue (is_bogus_comment source.now) }
    ensures { Reads result (bogus_comment source.now) source.now }
{
    let inner = behind(source, 2);
    let (text, end) = cut_lead(&Angle, b'>', inner);
    Found {
        piece: Piece::Comment { text },
        rest: behind_angle(end),
    }
}

// A doctype, up to and with the first `>`, or up to the end.
fn doctype(source: &str) -> Found<'_>
    ensures { Reads result (doctype source.now) source.now }
{
    let end = cut_lead(&Angle, b'>', source).1;
    Found {
        piece: Piece::Doctype,
        rest: behind_angle(end),
    }
}

// Text, up to where something else begins.
fn text(source: &str) -> Found<'_>
    ensures { Reads result (text source.now) source.now }
{
    let (text, rest) = cut_lead(&Opening, b'<', source);
    Found {
        piece: Piece::Chars { text, raw: false },
        rest,
    }
}

// The raw text of the element with this name.
fn raw_text<'a>(name: &str, source: &'a str) -> Found<'a>
    ensures { Reads result (raw_text name.now source.now) source.now }
{
    let (text, rest) = cut_lead(
        &RawTextEnd {
            name: name.as_bytes(),
        },
        b'<',
        source,
    );
    Found {
        piece: Piece::Chars {
            text,
            raw: is_raw_text_element(name),
        },
        rest,
    }
}

// The text of this element is raw, so that no character reference counts in it.
fn is_raw_text_element(name: &str) -> bool
    ensures { result ≡ is_among (str_to_ascii_lowercase name.now) raw_text_elements }
{
    name.eq_ignore_ascii_case("script") || name.eq_ignore_ascii_case("style")
}

/// Up to its own end tag, an element of this name has text alone.
pub fn holds_raw_text(name: &str) -> bool
    ensures { result ≡ holds_raw_text (str_to_ascii_lowercase name.now) }
{
    is_raw_text_element(name)
        || name.eq_ignore_ascii_case("textarea")
        || name.eq_ignore_ascii_case("title")
}

// The tag whose name begins at the front, or nothing where no `>` ends it.
fn tag(text: &str) -> Option<Whole<'_>>
    ensures { MatchOption result (is_whole text.now ≡ false) (λ w. IsTag w text.now) }
{
    let (name, inner) = cut(&NameEnd, text);
    let end = to_tag_end(inner.as_bytes());
    if end < inner.len() {
        let (attrs, rest) = inner.split_at(end);
        Some(Whole {
            name,
            attrs,
            rest: behind(rest, 1),
        })
    } else {
        None
    }
}

// An end tag, or what is left where no `>` ends it.
fn end_tag(source: &str) -> Found<'_>
    requires { IsTrue (is_end source.now) }
    ensures { Reads result (tag (λ name attrs closing. meant.End name) 2 source.now) source.now }
{
    match tag(behind(source, 2)) {
        Some(
            Whole {
                name,
                attrs: _,
                rest,
            },
        ) => Found {
            piece: Piece::End { name },
            rest,
        },
        None => Found {
            piece: Piece::Cut,
            rest: "",
        },
    }
}

// A start tag, or what is left where no `>` ends it.
fn start_tag(source: &str) -> Found<'_>
    requires { IsTrue (is_start source.now) }
    ensures { Reads result (tag meant.Start 1 source.now) source.now }
{
    match tag(behind(source, 1)) {
        Some(Whole { name, attrs, rest }) => {
            let self_closing = is_self_closing(attrs.as_bytes());
            Found {
                piece: Piece::Start {
                    name,
                    attrs,
                    self_closing,
                },
                rest,
            }
        }
        None => Found {
            piece: Piece::Cut,
            rest: "",
        },
    }
}

// Raw text of the element with this name stands at the front, and isn't empty.
fn begins_raw_text(name: &[u8], bytes: &[u8]) -> bool
    ensures { result ≡ begins_raw_text name.now bytes.now }
{
    !name.is_empty() && !bytes.is_empty() && !ends_raw_text(name, bytes)
}

/// The token at the front, by the first rule that fits.
pub fn first<'a>(raw: &str, source: &'a str) -> Found<'a>
    ensures { Reads result (first raw.now source.now) source.now }
{
    let bytes = source.as_bytes();
    if begins_raw_text(raw.as_bytes(), bytes) {
        raw_text(raw, source)
    } else if begins(b"<!--", bytes) {
        comment(source)
    } else if begins_like(b"<!doctype", bytes) {
        doctype(source)
    } else if is_bogus_comment(bytes) {
        bogus_comment(source)
    } else if is_start(bytes) {
        start_tag(source)
    } else if is_end(bytes) {
        end_tag(source)
    } else {
        text(source)
    }
}
