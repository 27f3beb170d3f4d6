// Filters and pages that a search could try without end. Each question is answered in good time.
use crate::asked::is_selected;
use dom_arena::Dom;
use html_tree::read_page;
use listed::Text;
use std::alloc::{AllocError, Global};
use std::marker::Brand;
use std::sync::ledger::Blank;
use std::test::Fail;

// Adds a part to a text, so many times.
fn push_times(text: &mut Text, part: &str, count: usize) -> Result<(), AllocError> {
    for _ in 0..count {
        text.push_str(part)?;
    }
    Ok(())
}

// A text of equal parts, between a front and an end.
fn repeated(
    alloc: Global,
    front: &str,
    part: &str,
    count: usize,
    end: &str,
) -> Result<Text, AllocError> {
    let mut text = Text::of(alloc, front)?;
    push_times(&mut text, part, count)?;
    text.push_str(end)?;
    Ok(text)
}

// A selector within as many others, each of which begins and ends so.
fn nested(
    alloc: Global,
    open: &str,
    count: usize,
    inner: &str,
    close: &str,
) -> Result<Text, AllocError> {
    let mut text = repeated(alloc, "", open, count, inner)?;
    push_times(&mut text, close, count)?;
    Ok(text)
}

// A page of equal parts.
fn page(alloc: Global, part: &str, count: usize, end: &str) -> Result<Dom, Fail> {
    let source = repeated(alloc, "", part, count, end)?;
    Ok(read_page(alloc, source.as_str())?)
}

#[test]
fn long_chains_are_answered(rt: HostRuntime) -> Result<(), Fail> {
    let alloc = rt.alloc();
    let dom = page(alloc, "<i class=x>", 510, "")?;
    for (front, part, count, end, x, expected) in [
        (".y", " .x", 26, "", 510, false),
        (".x", " .x", 25, "", 510, true),
        (".x:has(.x", " .x", 14, " .y)", 1, false),
        (".x:has(.x", " .x", 14, ")", 1, true),
        ("", ".y .x .x .x, ", 200, ".x", 510, true),
    ] {
        let filter = repeated(alloc, front, part, count, end)?;
        let selected = is_selected::<Brand, Brand>(
            alloc,
            &dom,
            &filter,
            x,
            Blank::new(1),
            Blank::new(1),
        )?;
        assert_eq!(rt; selected, expected, "{}", filter.as_str());
    }
    Ok(())
}

#[test]
fn walks_down_and_on_are_answered(rt: HostRuntime) -> Result<(), Fail> {
    let alloc = rt.alloc();
    let dom = page(alloc, "<b></b><b>", 100, "<i class=y></i>")?;
    for (front, part, count, end, x, expected) in [
        ("b:has(b ~ b", " b ~ b", 12, " ~ u)", 2, false),
        ("b:has(b ~ b", " b ~ b", 12, " .y)", 2, true),
        ("b:has(b ~ b", " b ~ b", 12, " .y)", 180, false),
        ("b:has(~ b", " b ~ b", 12, " .x)", 1, false),
    ] {
        let filter = repeated(alloc, front, part, count, end)?;
        let selected = is_selected::<Brand, Brand>(
            alloc,
            &dom,
            &filter,
            x,
            Blank::new(1),
            Blank::new(1),
        )?;
        assert_eq!(rt; selected, expected, "{}", filter.as_str());
    }
    Ok(())
}

#[test]
fn many_siblings_are_gone_through(rt: HostRuntime) -> Result<(), Fail> {
    let alloc = rt.alloc();
    let dom = page(alloc, "<b class=x></b>", 3_000, "")?;
    for (front, part, count, x, expected) in [
        (".y", " ~ .x", 2, 3_000, false),
        (".x", " ~ .x", 2, 3_000, true),
        ("b", "+b", 2_999, 3_000, true),
        ("b", "+b", 2_999, 2_999, false),
        (".y:others()", "", 0, 1, false),
        ("b:last-child:others()", "", 0, 1, true),
    ] {
        let filter = repeated(alloc, front, part, count, "")?;
        let selected = is_selected::<Brand, Brand>(
            alloc,
            &dom,
            &filter,
            x,
            Blank::new(1),
            Blank::new(1),
        )?;
        assert_eq!(rt; selected, expected, "{count} after {front}");
    }
    Ok(())
}

#[test]
fn many_later_siblings_are_gone_through(rt: HostRuntime) -> Result<(), Fail> {
    let alloc = rt.alloc();
    let dom = page(alloc, "<b class=x></b>", 2_000, "")?;
    for (front, part, count, end, expected) in [
        (".x:has(~ .x", " ~ .x", 2, " ~ .y)", false),
        (".x:has(~ .x", " ~ .x", 20, " ~ .y)", false),
        (".x:has(~ .x", " ~ .x", 20, ")", true),
        (".x:has(~ .x", " + .x ~ .x", 10, " ~ .y)", false),
        (".x:has(~ .x", " + .x ~ .x", 10, ")", true),
        (".x:has(+ .x", " ~ .x + .x", 10, " ~ .y)", false),
    ] {
        let filter = repeated(alloc, front, part, count, end)?;
        let selected = is_selected::<Brand, Brand>(
            alloc,
            &dom,
            &filter,
            1,
            Blank::new(1),
            Blank::new(1),
        )?;
        assert_eq!(rt; selected, expected, "{}", filter.as_str());
    }
    Ok(())
}

#[test]
fn nested_selectors_are_answered(rt: HostRuntime) -> Result<(), Fail> {
    let alloc = rt.alloc();
    let dom = page(alloc, "<i class=x>", 510, "")?;
    for (inner, expected) in [(".x", true), (".y", false)] {
        let filter = nested(alloc, ".x:has(", 16, inner, ")")?;
        let selected = is_selected::<Brand, Brand>(
            alloc,
            &dom,
            &filter,
            1,
            Blank::new(1),
            Blank::new(1),
        )?;
        assert_eq!(rt; selected, expected, "{}", filter.as_str());
    }
    Ok(())
}

#[test]
fn nested_tests_are_asked_once(rt: HostRuntime) -> Result<(), Fail> {
    let alloc = rt.alloc();
    let dom = page(alloc, "<i class=x>", 60, "")?;
    for (open, count, inner, close, x, expected) in [
        (".x:has(:is(", 8, ".x", "))", 1, true),
        (".x:has(:is(", 8, ".y", "))", 1, false),
        (".x:has(:not(:has(", 5, ".y", ")))", 1, true),
        (":not(:has(:is(", 5, ".y", ")))", 1, false),
        (":not(:has(:is(", 5, ".y", ")))", 60, true),
    ] {
        let filter = nested(alloc, open, count, inner, close)?;
        let selected = is_selected::<Brand, Brand>(
            alloc,
            &dom,
            &filter,
            x,
            Blank::new(1),
            Blank::new(1),
        )?;
        assert_eq!(rt; selected, expected, "{} at {x}", filter.as_str());
    }
    Ok(())
}

#[test]
fn a_long_text_is_looked_through(rt: HostRuntime) -> Result<(), Fail> {
    let alloc = rt.alloc();
    let text = repeated(
        alloc,
        "",
        "a text of fifty letters, that is all of them..",
        4_000,
        "",
    )?;
    let dom = page(alloc, "<i>", 500, text.as_str())?;
    for (filter, expected) in [
        ("*:has-text(zzz)", false),
        ("*:has-text(of them..a text)", true),
        ("*:min-text-length(4000000000)", false),
        ("*:min-text-length(184000)", true),
        ("*:min-text-length(184001)", false),
    ] {
        let filter = Text::of(alloc, filter)?;
        let selected = is_selected::<Brand, Brand>(
            alloc,
            &dom,
            &filter,
            1,
            Blank::new(1),
            Blank::new(1),
        )?;
        assert_eq!(rt; selected, expected, "{}", filter.as_str());
    }
    Ok(())
}

#[test]
fn many_short_texts_are_looked_through(rt: HostRuntime) -> Result<(), Fail> {
    let alloc = rt.alloc();
    let source = repeated(alloc, "<div>", "<i>a</i>", 30_000, "<i>b</i>")?;
    let dom = read_page(alloc, source.as_str())?;
    for (count, end, expected) in [
        (20_000, "b)", true),
        (30_000, "b)", true),
        (30_001, "b)", false),
        (20_000, "c)", false),
    ] {
        let filter = repeated(alloc, "*:has-text(", "a", count, end)?;
        let selected = is_selected::<Brand, Brand>(
            alloc,
            &dom,
            &filter,
            1,
            Blank::new(1),
            Blank::new(1),
        )?;
        assert_eq!(rt; selected, expected, "{count} and {end}");
    }
    Ok(())
}
