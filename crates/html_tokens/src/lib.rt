//! The tokens of a page, read in order and lent as slices of its source.
//!
//! `html_meaning` says what the tokens of a source are. `scan.rt` finds how far it is to a place, `places.rt` says which
//! places there are, `rules.rt` has a function for each kind of token, `attributes.rt` goes from attribute to attribute of a
//! tag, and `tokens.rt` from token to token.
#![tactic(auto)]

mod attributes;
mod places;
mod rules;
mod scan;
mod tokens;

pub use attributes::{FoundAttribute, next_attribute};
pub use cos_source::Span;
pub use places::{after, begins, byte};
pub use rules::behind;
pub use tokens::{Tag, Token, Tokens};

#[cfg(test)]
mod tests {
    use super::*;
    use std::alloc::{AllocError, Global};
    use std::test::Fail;

    // A token in one line: where it begins, what it is, and where it ends.
    fn told(alloc: Global, token: Token<'_>) -> Result<String, AllocError> {
        match token {
            Token::Start(tag) => format!(in alloc;
                "{} <{}|{}|{} {};",
                tag.span.from, tag.name, tag.attrs, tag.self_closing, tag.span.to
            ),
            Token::End { name, span } => format!(in alloc; "{} </{} {};", span.from, name, span.to),
            Token::Chars { text, raw, span } => format!(in alloc;
                "{} '{}'{} {};",
                span.from, text, raw, span.to
            ),
            Token::Comment { text, span } => format!(in alloc;
                "{} !{} {};",
                span.from, text, span.to
            ),
            Token::Doctype { span } => format!(in alloc; "{} doctype {};", span.from, span.to),
            Token::Cut { span } => format!(in alloc; "{} cut {};", span.from, span.to),
        }
    }

    // All tokens of a source, one after another.
    fn listing(alloc: Global, source: &str) -> Result<String, AllocError> {
        let mut out = String::new(alloc);
        let mut tokens = Tokens::new(source);
        while let Some(token) = tokens.next() {
            let line = told(alloc, token)?;
            out.push_str(line.as_str())?;
        }
        Ok(out)
    }

    #[test]
    fn sources_have_these_tokens(rt: HostRuntime) -> Result<(), Fail> {
        let sources = [
            ("", ""),
            (
                "<p a=1 A=\"2\">x&lt;<br/><!-->y</P z>",
                "0 <p| a=1 A=\"2\"|false 13;13 'x&lt;'false 18;18 <br|/|true 23;23 ! 28;28 'y'false 29;29 </P 35;",
            ),
            (
                "<script>a</b></SCRIPT >",
                "0 <script||false 8;8 'a</b>'true 13;13 </SCRIPT 23;",
            ),
            (
                "<title></titles></title>",
                "0 <title||false 7;7 '</titles>'false 16;16 </title 24;",
            ),
            ("<style>a</style", "0 <style||false 7;7 'a</style'true 15;"),
            ("<!--a>-->\u{e9}", "0 !a> 9;9 '\u{e9}'false 11;"),
            ("<!--->", "0 ! 6;"),
            ("<!--a", "0 !a 5;"),
            (
                "<!x><?y></ z></><!",
                "0 !x 4;4 !y 8;8 ! z 13;13 ! 16;16 ! 18;",
            ),
            ("<!DocType a><!doctype", "0 doctype 12;12 doctype 21;"),
            ("1<2 <>&</", "0 '1<2 <>&</'false 9;"),
            (
                "<\u{e9}><b\u{e9} \u{e9}=\u{e9}>",
                "0 '<\u{e9}>'false 4;4 <b\u{e9}| \u{e9}=\u{e9}|false 15;",
            ),
            (
                "<a b='>' c=d/></a/>",
                "0 <a| b='>' c=d/|false 14;14 </a 19;",
            ),
            ("x<a b=\">", "0 'x'false 1;1 cut 8;"),
            ("</a", "0 cut 3;"),
        ];
        for (source, expected) in sources {
            let found = listing(rt.alloc(), source)?;
            assert_eq!(rt; found.as_str(), expected);
        }
        Ok(())
    }

    // An attribute of the tag that a source begins with, as `name=value`.
    fn attribute_told(alloc: Global, source: &str, i: usize) -> Result<String, AllocError> {
        match Tokens::new(source).next() {
            Some(Token::Start(tag)) => match tag.attr_at(i) {
                Some((name, value)) => format!(in alloc; "{name}={value}"),
                None => String::from_str(alloc, "none"),
            },
            _ => String::from_str(alloc, "no tag"),
        }
    }

    #[test]
    fn tags_have_these_attributes(rt: HostRuntime) -> Result<(), Fail> {
        let attributes = [
            ("<a>", 0, "none"),
            ("<a b>", 0, "b="),
            ("<a b>", 1, "none"),
            ("<a b=c/>", 0, "b=c/"),
            ("<a b = 'c d'e=\"f'\">", 0, "b=c d"),
            ("<a b = 'c d'e=\"f'\">", 1, "e=f'"),
            ("<a ==b =c=d>", 0, "==b"),
            ("<a ==b =c=d>", 1, "=c=d"),
            ("<a/b/ /c=>", 1, "c="),
            ("<a B=1 b=2>", 1, "b=2"),
            (
                "<a \u{e9}\u{e9}= '\u{e9}>'\u{e8}=\u{e8}&amp;>",
                0,
                "\u{e9}\u{e9}=\u{e9}>",
            ),
            (
                "<a \u{e9}\u{e9}= '\u{e9}>'\u{e8}=\u{e8}&amp;>",
                1,
                "\u{e8}=\u{e8}&amp;",
            ),
            ("<a b='>", 0, "no tag"),
        ];
        for (source, i, expected) in attributes {
            let found = attribute_told(rt.alloc(), source, i)?;
            assert_eq!(rt; found.as_str(), expected);
        }
        Ok(())
    }
}
