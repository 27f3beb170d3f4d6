// Literals of `:has-text()` that stand in several texts.
use crate::asked::is_selected;
use dom_arena::Dom;
use html_tree::read_page;
use listed::Text;
use std::alloc::Global;
use std::marker::Brand;
use std::sync::ledger::Blank;
use std::test::Fail;

// Whether the literal stands in the text of an element.
fn has_text(alloc: Global, dom: &Dom, literal: &str, x: u32) -> Result<bool, Fail> {
    let mut filter = Text::of(alloc, "*:has-text(")?;
    filter.push_str(literal)?;
    filter.push_str(")")?;
    is_selected::<Brand, Brand>(alloc, dom, &filter, x, Blank::new(1), Blank::new(1))
}

#[test]
fn a_literal_goes_on_in_the_next_texts(rt: HostRuntime) -> Result<(), Fail> {
    let alloc = rt.alloc();
    for (page, literal, expected) in [
        // two and three texts, an element or a comment between them
        ("<p>spon<b>sored</b></p>", "sponsored", true),
        ("<p>spon<b>sor</b>ed</p>", "sponsored", true),
        ("<p>spon<!-- -->sor<!-- -->ed</p>", "sponsored", true),
        ("<p>spon<b>sor</b>ed</p>", "sponsored!", false),
        ("<p>spon<b>sor</b>ed</p>", "sponored", false),
        (
            "<p><b><i>spon</i></b><u><s>sored</s></u></p>",
            "sponsored",
            true,
        ),
        // the front of the literal stands there more than once
        ("<p>a<b>aab</b></p>", "aab", true),
        ("<p>a<b>aab</b></p>", "aaab", true),
        ("<p>a<b>aab</b></p>", "aaaab", false),
        ("<p>ab<b>ab</b></p>", "abab", true),
        ("<p>ab<b>a</b>ab</p>", "abaab", true),
        ("<p>ab<b>a</b>ab</p>", "abab", false),
        ("<p>aa<b>a</b>a<b>b</b></p>", "aab", true),
        // the very front and end, and texts longer than the literal
        ("<p>ad<b>vertised with more behind it</b></p>", "adv", true),
        ("<p>a long text with an end of a<b>d</b></p>", "ad", true),
        (
            "<p>a long text<b> and another</b> that ends</p>",
            "text and another that",
            true,
        ),
        (
            "<p>a long text<b> and another</b> that ends</p>",
            "text another",
            false,
        ),
        // one byte
        ("<p>a<b>b</b>c</p>", "c", true),
        ("<p>a<b>b</b>c</p>", "d", false),
        // characters of more bytes, of which the last may be the same
        ("<p>caf\u{e9}<b>\u{e8}</b></p>", "\u{e9}\u{e8}", true),
        ("<p>caf\u{e9}<b>\u{e8}</b></p>", "\u{e8}\u{e9}", false),
        (
            "<p>\u{1f600}\u{1f600}<b>\u{1f601}</b></p>",
            "\u{1f600}\u{1f601}",
            true,
        ),
        ("<p>\u{e9}<b>\u{3a9}</b></p>", "\u{3a9}", true),
        ("<p>\u{e9}</p>", "\u{3a9}", false),
        // no text
        ("<p></p>", "a", false),
        ("<p><!--a--></p>", "a", false),
    ] {
        let dom = read_page(alloc, page)?;
        let found = has_text(alloc, &dom, literal, 1)?;
        assert_eq!(rt; found, expected, "{literal} in {page}");
    }
    Ok(())
}

#[test]
fn a_literal_ends_with_its_element(rt: HostRuntime) -> Result<(), Fail> {
    let alloc = rt.alloc();
    let mut dom = read_page(alloc, "<div>u<p>v<i>w</i></p>x</div>y")?;
    for (literal, x, expected) in [
        ("uvwx", 1, true),
        ("wxy", 1, false),
        ("vw", 3, true),
        ("uv", 3, false),
        ("wx", 3, false),
        ("w", 5, true),
        ("vw", 5, false),
    ] {
        let found = has_text(alloc, &dom, literal, x)?;
        assert_eq!(rt; found, expected, "{literal} in {x}");
    }
    // An empty text parts nothing.
    dom.set_text(4, "")?;
    for (literal, expected) in [("uwx", true), ("uvwx", false)] {
        let found = has_text(alloc, &dom, literal, 1)?;
        assert_eq!(rt; found, expected, "{literal} without v");
    }
    Ok(())
}

// A page with one paragraph: the parts, with words before each and behind the last, so many that no text is short.
fn long_page(alloc: Global, parts: &[&str]) -> Result<Dom, Fail> {
    let mut source = Text::of(alloc, "<p>")?;
    for part in parts {
        for _ in 0..200 {
            source.push_str("ab ")?;
        }
        source.push_str(part)?;
    }
    for _ in 0..200 {
        source.push_str(" cd")?;
    }
    Ok(read_page(alloc, source.as_str())?)
}

#[test]
fn a_literal_is_found_between_long_texts(rt: HostRuntime) -> Result<(), Fail> {
    let alloc = rt.alloc();
    let dom = long_page(alloc, &["spon<b>sored</b>", "adver<i>t</i>"])?;
    for (literal, expected) in [
        ("sponsored", true),
        ("ab sponsored", true),
        ("sponsoredab", true),
        ("sponsored ab", false),
        ("advert cd", true),
        ("adverts", false),
        ("cd cd cd", true),
        ("cd ab", false),
    ] {
        let found = has_text(alloc, &dom, literal, 1)?;
        assert_eq!(rt; found, expected, "{literal}");
    }
    Ok(())
}
