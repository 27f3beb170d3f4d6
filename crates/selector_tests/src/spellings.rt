// Texts with what is read of their pieces, before patterns.

use selector_spelling::{Cause, Finding, Kind};
use selector_tree::{Action, canonical};
use spelling_reader::read_spelling;
use std::alloc::Global;
use std::test::Fail;

/// What a text is read as, in its one spelling; `None` where it is set aside or malformed.
fn spelling(alloc: Global, text: &str) -> Result<Option<String>, Fail> {
    let Ok(read) = read_spelling(alloc, text)? else {
        return Ok(None);
    };
    let action = if read.notes.removes {
        Action::Remove
    } else {
        Action::Hide
    };
    let spelled = canonical(alloc, &read.chains, &action)?;
    Ok(Some(String::from_str(alloc, spelled.as_str())?))
}

/// Why a text isn't read.
fn finding(alloc: Global, text: &str) -> Result<Option<Finding>, Fail> {
    Ok(read_spelling(alloc, text)?.err())
}

#[test]
fn texts_are_read(rt: HostRuntime) -> Result<(), Fail> {
    let alloc = rt.alloc();
    for (text, want) in [
        ("div>.a", "div > .a"),
        ("LI:NTH-CHILD(odd)", "li:nth-child(2n+1)"),
        ("#\\31 a", "#\\31 a"),
        ("a:not(b,c) ~ *", "a:not(b, c) ~ *"),
        ("[HREF^='x']", "[href^=\"x\"]"),
        ("p:-abp-contains(x)", "p:has-text(\"x\")"),
        ("p:has-text(/a)", "p:has-text(\"\\/a\")"),
        ("p:has-text(/a\\/b/si)", "p:has-text(/a\\/b/is)"),
        ("div:has(> i + \u{e9})", "div:has(> i + \u{e9})"),
        (
            "[data-a]:matches-attr(\"/^data-/\"=X)",
            "[data-a]:matches-attr(/^data-/=\"X\")",
        ),
        (
            "a:watch-attr(B, c):upward(3)",
            "a:watch-attr(b, c):upward(3)",
        ),
        (".k:upward( .card )", ".k:upward(.card)"),
        ("a + b:remove()", "a + b:remove()"),
    ] {
        let read = spelling(alloc, text)?;
        assert_eq!(rt; read.as_ref().map(|s| s.as_str()), Some(want), "{text}");
    }
    Ok(())
}

#[test]
fn texts_are_refused(rt: HostRuntime) -> Result<(), Fail> {
    let alloc = rt.alloc();
    for (text, want) in [
        ("a..b", Finding::Malformed(Cause::BadName, 1)),
        ("a > , b", Finding::Malformed(Cause::EmptyPart, 4)),
        ("[a", Finding::Malformed(Cause::Unbalanced, 0)),
        ("a:nth-child(2x)", Finding::Malformed(Cause::BadNumber, 1)),
        ("a:hover::x", Finding::SetAside(Kind::State)),
        (
            "p:upward(256)",
            Finding::Malformed(Cause::BadOperatorArgument, 1),
        ),
        (
            "p:not(:others())",
            Finding::Malformed(Cause::OthersNested, 6),
        ),
        ("a:remove(), b", Finding::Malformed(Cause::ActionInList, 1)),
        (
            "a:has(b:remove())",
            Finding::Malformed(Cause::ActionNotLast, 7),
        ),
        ("\u{e9}:foo", Finding::Malformed(Cause::UnknownPseudo, 2)),
    ] {
        let found = finding(alloc, text)?;
        assert_eq!(rt; found, Some(want), "{text}");
    }
    Ok(())
}

/// A text of many equal parts, between a front and an end.
fn repeated(
    alloc: Global,
    front: &str,
    part: &str,
    count: usize,
    end: &str,
) -> Result<String, Fail> {
    let mut text = String::from_str(alloc, front)?;
    for _ in 0..count {
        text.push_str(part)?;
    }
    text.push_str(end)?;
    Ok(text)
}

#[test]
fn long_texts_are_answered(rt: HostRuntime) -> Result<(), Fail> {
    let alloc = rt.alloc();
    for (front, part, count, end, want) in [
        (
            "a",
            "(",
            60000,
            "",
            Finding::Malformed(Cause::Unbalanced, 1),
        ),
        ("a", ",", 60000, "", Finding::Malformed(Cause::EmptyPart, 2)),
        (
            "",
            ":is(",
            16384,
            "",
            Finding::Malformed(Cause::Unbalanced, 3),
        ),
        (
            "p:has-text(",
            "(",
            60000,
            "",
            Finding::Malformed(Cause::Unbalanced, 10),
        ),
        (
            "a",
            "\"b'",
            20000,
            "\"",
            Finding::Malformed(Cause::Unbalanced, 60000),
        ),
        (
            "a:nth-child(",
            "1",
            60000,
            ")",
            Finding::Malformed(Cause::BadNumber, 1),
        ),
        (
            "a:upward(",
            "1",
            60000,
            ")",
            Finding::Malformed(Cause::BadOperatorArgument, 1),
        ),
        (
            "a",
            " > b",
            16000,
            "..",
            Finding::Malformed(Cause::BadName, 64001),
        ),
        (
            "a",
            "    ",
            16000,
            ".",
            Finding::Malformed(Cause::BadName, 64001),
        ),
    ] {
        let text = repeated(alloc, front, part, count, end)?;
        let found = finding(alloc, text.as_str())?;
        assert_eq!(rt; found, Some(want), "{front} {part}");
    }
    Ok(())
}
