// `test` and `others` on a small page.
use crate::asked::{all_selected, is_selected};
use html_tree::read_page;
use listed::Text;
use procedural_ops::others;
use selector_match::is_element;
use std::marker::Brand;
use std::sync::ledger::Blank;
use std::test::Fail;

const PAGE: &str = "<div><p></p></div><p></p>";

// The elements are, from 1: the parent, then the siblings x, x with a y in it, z, x, y and x.
const SIBLINGS: &str = "<div class=a><i class=x></i><i class=x><u class=y></u></i><i class=z></i>\
    <i class=x></i><i class=y></i><i class=x></i></div>";

#[test]
fn a_filter_selects(rt: HostRuntime) -> Result<(), Fail> {
    let alloc = rt.alloc();
    let dom = read_page(alloc, PAGE)?;
    let filter = Text::of(alloc, "p:upward(1)")?;
    for (x, expected) in [(1, true), (2, false), (3, false)] {
        let selected = is_selected::<Brand, Brand>(
            alloc,
            &dom,
            &filter,
            x,
            Blank::new(1),
            Blank::new(1),
        )?;
        assert_eq!(rt; selected, expected, "{x}");
    }
    Ok(())
}

#[test]
fn others_stand_beside(rt: HostRuntime) -> Result<(), Fail> {
    let alloc = rt.alloc();
    let dom = read_page(alloc, PAGE)?;
    for (x, expected) in [(1, 3), (2, 3), (3, 1)] {
        if !is_element(&dom, x) {
            return Err(Fail::from("no element"));
        }
        let found = others(alloc, &dom, &[x])?;
        assert_eq!(rt; found.as_slice(), [expected].as_slice(), "{x}");
    }
    Ok(())
}

#[test]
fn siblings_share_what_is_found_out(rt: HostRuntime) -> Result<(), Fail> {
    let alloc = rt.alloc();
    // 1 div, 2 p, 3 b.a, 4 i, 5 script, 6 p, 7 u, 8 p
    let page = "<div><p></p><b class=a><i></i></b><script></script><p><u></u></p></div><p></p>";
    let dom = read_page(alloc, page)?;
    for (filter, expected) in [
        (".a:others()", [2, 6, 8].as_slice()),
        (".a:others():has(u)", [6].as_slice()),
        ("u:others()", [2, 3, 8].as_slice()),
        (".b:others()", [].as_slice()),
        (".a:others(), u:others()", [2, 3, 6, 8].as_slice()),
        ("div:others()", [8].as_slice()),
        (".a:others() > u", [7].as_slice()),
    ] {
        let filter = Text::of(alloc, filter)?;
        let found = all_selected::<Brand, Brand>(
            alloc,
            &dom,
            &filter,
            8,
            Blank::new(1),
            Blank::new(1),
        )?;
        assert_eq!(rt; found.as_slice(), expected, "{}", filter.as_str());
    }
    Ok(())
}

#[test]
fn has_looks_among_siblings(rt: HostRuntime) -> Result<(), Fail> {
    let alloc = rt.alloc();
    let dom = read_page(alloc, SIBLINGS)?;
    for (filter, x, expected) in [
        (".x:has(~ .x ~ .x ~ .y)", 2, true),
        (".x:has(~ .x ~ .x ~ .y)", 3, false),
        (".x:has(~ .x ~ .y)", 3, true),
        (".x:has(~ .x ~ .y)", 6, false),
        (".x:has(~ .x ~ .z ~ .x ~ .y)", 2, true),
        (".x:has(~ .x ~ .y ~ .x)", 2, true),
        (".x:has(~ .x ~ .y ~ .y)", 2, false),
        (".x:has(~ .z ~ .y)", 2, true),
        (".x:has(~ :has(.y) ~ .y)", 2, true),
        (".x:has(~ :not(.x) ~ .z)", 2, false),
        (".x:has(~ .x > .y)", 2, true),
        (".x:has(~ .x > .y)", 3, false),
        (".x:has(~ .x .y)", 2, true),
        (".x:has(~ .x + .z ~ .x ~ .y)", 2, true),
        (".x:has(~ .x + .x ~ .y)", 2, false),
        (".x:has(~ .x + .y ~ .x)", 2, true),
        (".x:has(~ .x + .y ~ .y)", 2, false),
        (".x:has(+ .x ~ .x ~ .y)", 2, true),
        (".x:has(+ .x ~ .y ~ .z)", 2, false),
        (".a:has(> .x ~ .x ~ .y)", 1, true),
        (".a:has(> .x ~ .z ~ .z)", 1, false),
        (".a:has(> .z ~ .x > .y)", 1, false),
        (".a:has(> .x ~ .x > .y)", 1, true),
        (".a:has(.x ~ .z + .x ~ .y)", 1, true),
        (".a:has(.x ~ .x ~ .x ~ .y ~ .z)", 1, false),
        (".a:has(.x .y ~ .x)", 1, false),
    ] {
        let filter = Text::of(alloc, filter)?;
        let selected = is_selected::<Brand, Brand>(
            alloc,
            &dom,
            &filter,
            x,
            Blank::new(1),
            Blank::new(1),
        )?;
        assert_eq!(rt; selected, expected, "{} at {x}", filter.as_str());
    }
    Ok(())
}
