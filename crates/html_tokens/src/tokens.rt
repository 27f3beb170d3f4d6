ghost use Rattle.std.specs.Prelude.{◌≡◌, ◌+◌, ◌<◌, ◌^◌, ◌∷◌, [], length, MatchOption, codes, cond, Some, None};
ghost use Rattle.std.specs.List.{slice_get};
ghost use Rattle.html_meaning.specs.Cover.{Cover};
ghost use Rattle.html_meaning.specs.Tokens.{attribute_pairs, tokens, tokens_from, raw_after};
ghost use Rattle.html_tokens.specs.Views.{piece_of};
ghost use Rattle.html_tokens.specs.Seen.{token_of};

use crate::attributes::next_attribute;
use crate::rules::{Piece, first, holds_raw_text};
use cos_source::Span;
use std::marker::Model;

/// A start tag.
#[derive(Clone, Copy)]
pub struct Tag<'a> {
    /// The name, as the source spells it.
    pub name: &'a str,
    /// What stands between the name and the `>`: the attributes, before any character reference in them is resolved.
    pub attrs: &'a str,
    /// Whether a `/` stands directly before the `>` and is no part of a value.
    pub self_closing: bool,
    pub span: Span,
}

impl<'a> Tag<'a> {
    /// The name and the value of the attribute number `i`, from 0, as the source spells them: names that repeat count, and
    /// no character reference is resolved. `None` behind the last one. It takes no memory, and time linear in the length of
    /// the attributes.
    pub fn attr_at(&self, i: usize) -> Option<(&'a str, &'a str)>
        ensures { MatchOption result (slice_get (attribute_pairs self.now.attrs.now) i ≡ None)
            (λ found. slice_get (attribute_pairs self.now.attrs.now) i ≡ Some (found.0.now, found.1.now)) }
    {
        let mut rest = self.attrs;
        let mut left = i;
        while let Some(attribute) = next_attribute(rest) {
            if left == 0 {
                return Some((attribute.name, attribute.value));
            }
            left -= 1;
            rest = attribute.rest;
        }
        None
    }
}

/// A token of a source (HTML, 13.2.5 "Tokenization"), whose texts are slices of the source.
#[derive(Clone, Copy)]
pub enum Token<'a> {
    Start(Tag<'a>),
    /// An end tag. Its attributes are dropped.
    End {
        name: &'a str,
        span: Span,
    },
    /// Text, before the character references in it are resolved. Where it is `raw` none counts: it is the text of a
    /// `script` or a `style`.
    Chars {
        text: &'a str,
        raw: bool,
        span: Span,
    },
    /// A comment of any form, and what stands between its ends.
    Comment {
        text: &'a str,
        span: Span,
    },
    Doctype {
        span: Span,
    },
    /// A tag that the end of the source cuts off.
    Cut {
        span: Span,
    },
}

// A token, and what stands behind it: its place, and the name of the element whose raw text begins there.
#[derive(Clone, Copy)]
struct Next<'a> {
    token: Token<'a>,
    place: usize,
    raw: &'a str,
    rest: &'a str,
}

// The token of a piece at this place.
fn with_span<'a>(piece: Piece<'a>, span: Span) -> Token<'a>
    ensures { token_of result ≡ record { piece = piece_of piece.entry; from = span.from; to = span.to } }
{
    match piece {
        Piece::Start {
            name,
            attrs,
            self_closing,
        } => Token::Start(Tag {
            name,
            attrs,
            self_closing,
            span,
        }),
        Piece::End { name } => Token::End { name, span },
        Piece::Chars { text, raw } => Token::Chars { text, raw, span },
        Piece::Comment { text } => Token::Comment { text, span },
        Piece::Doctype => Token::Doctype { span },
        Piece::Cut => Token::Cut { span },
    }
}

// The name of the element whose raw text follows a token, empty where there is none.
fn raw_after<'a>(piece: Piece<'a>) -> &'a str
    ensures { result.now ≡ raw_after (piece_of piece.entry) }
{
    match piece {
        Piece::Start {
            name,
            attrs: _,
            self_closing: _,
        } => if holds_raw_text(name) { name } else { "" },
        _ => "",
    }
}

// The token at the front of what is left of a source from a place on.
fn next_token<'a>(place: usize, raw: &str, source: &'a str) -> Next<'a>
    requires some { 0 < length source.now }
    requires fits { place + length source.now < 2 ^ 64 }
    ensures token { tokens_from place 0 raw.now source.now ≡ token_of result.token ∷ tokens_from result.place 0 result.raw.now result.rest.now }
    ensures place { result.place + length result.rest.now ≡ place + length source.now }
{
    let found = first(raw, source);
    let to = place + (source.len() - found.rest.len());
    Next {
        token: with_span(found.piece, Span { from: place, to }),
        place: to,
        raw: raw_after(found.piece),
        rest: found.rest,
    }
}

/// The tokens of a source, in order. Contracts see the tokens that are still to come.
///
/// Reading all of them takes time linear in the length of the source, and no memory.
#[derive(Drop)]
pub struct Tokens<'a> {
    place: usize,
    raw: &'a str,
    rest: &'a str,
}

impl<'a> Model for Tokens<'a> {
    ghost use Rattle.std.specs.Prelude.{List, length, ◌+◌, ◌<◌, ◌^◌};
    ghost use Rattle.html_meaning.specs.Tokens.{Token, tokens_from};

    ghost Value = { List Token };

    ghost view = { λ t. tokens_from t.place 0 t.raw.now t.rest.now };

    ghost invariant = { λ t. t.place + length t.rest.now < 2 ^ 64 };
}

impl<'a> Tokens<'a> {
    /// The tokens of a source. They follow each other and cover it: the first begins at 0, each other one where the one
    /// before it ends, and the last ends where the source does; none is empty.
    pub fn new(source: &'a str) -> Tokens<'a>
        ensures tokens { result ≡ tokens source.now }
        ensures cover { Cover 0 result (length source.now) }
    {
        Tokens {
            place: 0,
            raw: "",
            rest: source,
        }
    }

    /// The next token, or `None` behind the last one.
    pub fn next(&mut self) -> Option<Token<'a>>
        ensures { MatchOption result ((self.old ≡ []) × (self.new ≡ [])) (λ t. self.old ≡ token_of t ∷ self.new) }
    {
        if self.rest.is_empty() {
            return None;
        }
        let next = next_token(self.place, self.raw, self.rest);
        self.place = next.place;
        self.raw = next.raw;
        self.rest = next.rest;
        Some(next.token)
    }
}
