// Small pages and their trees.

use crate::shown::listing;
use html_tree::{PageError, read_fragment, read_page};
use std::alloc::Global;
use std::test::Fail;

// A page, and its nodes in order: the number of the parent, then `<` and the name of an element with its attributes, `'` and
// a text, or `!` and a comment.
type Page = (&'static str, &'static str);

fn elements() -> &'static [Page] {
    &[
        ("", ""),
        ("a", "0 'a|"),
        ("<p>a", "0 <p|1 'a|"),
        ("<i>a</i>b", "0 <i|1 'a|0 'b|"),
        ("<i><b>a</i>b", "0 <i|1 <b|2 'a|0 'b|"),
        ("<b><b>a</b>c", "0 <b|1 <b|2 'a|1 'c|"),
        ("a</b>c", "0 'a|0 'c|"),
        ("<i>a</b>c</i>", "0 <i|1 'a|1 'c|"),
        ("<I>a</i>", "0 <i|1 'a|"),
        ("<i>a</I b=c>d", "0 <i|1 'a|0 'd|"),
        ("<x-y:z>a", "0 <x-y:z|1 'a|"),
        ("<div><span></div>a</span>b", "0 <div|1 <span|0 'a|0 'b|"),
        ("<br>a", "0 <br|0 'a|"),
        ("<BR/>a</br>b", "0 <br|0 'a|0 'b|"),
        (
            "<area><base><col><embed><hr><img>a",
            "0 <area|0 <base|0 <col|0 <embed|0 <hr|0 <img|0 'a|",
        ),
        (
            "<input><link><meta><param><source><track><wbr>a",
            "0 <input|0 <link|0 <meta|0 <param|0 <source|0 <track|0 <wbr|0 'a|",
        ),
        ("<path/>a", "0 <path|0 'a|"),
        ("<path>a", "0 <path|1 'a|"),
        ("<div/>a", "0 <div|1 'a|"),
        ("<p/>a", "0 <p|1 'a|"),
        ("<g a=b/>c", "0 <g a=b/|1 'c|"),
        ("<g a='b'/>c", "0 <g a=b|0 'c|"),
        ("<g/ >a", "0 <g|1 'a|"),
        (
            "<LinearGradient/><fegaussianblur/><text/>a",
            "0 <lineargradient|0 <fegaussianblur|0 <text|0 'a|",
        ),
    ]
}

fn implied_ends() -> &'static [Page] {
    &[
        ("<p>a<div>b", "0 <p|1 'a|0 <div|3 'b|"),
        ("<P>a<DIV>b", "0 <p|1 'a|0 <div|3 'b|"),
        ("<p><i>a<div>b", "0 <p|1 <i|2 'a|2 <div|4 'b|"),
        ("<p>a<p>b", "0 <p|1 'a|0 <p|3 'b|"),
        ("<p>a<hr>b", "0 <p|1 'a|0 <hr|0 'b|"),
        ("<p>a<span>b", "0 <p|1 'a|1 <span|3 'b|"),
        (
            "<p><address></address><p><article></article><p><aside></aside><p><blockquote></blockquote><p><dl></dl>",
            "0 <p|0 <address|0 <p|0 <article|0 <p|0 <aside|0 <p|0 <blockquote|0 <p|0 <dl|",
        ),
        (
            "<p><fieldset></fieldset><p><figure></figure><p><footer></footer><p><form></form><p><h1></h1><p><h2></h2>",
            "0 <p|0 <fieldset|0 <p|0 <figure|0 <p|0 <footer|0 <p|0 <form|0 <p|0 <h1|0 <p|0 <h2|",
        ),
        (
            "<p><h3></h3><p><h4></h4><p><h5></h5><p><h6></h6><p><header></header><p><main></main><p><nav></nav>",
            "0 <p|0 <h3|0 <p|0 <h4|0 <p|0 <h5|0 <p|0 <h6|0 <p|0 <header|0 <p|0 <main|0 <p|0 <nav|",
        ),
        (
            "<p><ol></ol><p><pre></pre><p><section></section><p><table></table><p><ul></ul>a",
            "0 <p|0 <ol|0 <p|0 <pre|0 <p|0 <section|0 <p|0 <table|0 <p|0 <ul|0 'a|",
        ),
        ("<ul><li>a<li>b", "0 <ul|1 <li|2 'a|1 <li|4 'b|"),
        ("<li><p>a<li>b", "0 <li|1 <p|2 'a|0 <li|4 'b|"),
        ("<li>a<p>b", "0 <li|1 'a|1 <p|3 'b|"),
        (
            "<dl><dt>a<dd><p>b<dt>c",
            "0 <dl|1 <dt|2 'a|1 <dd|4 <p|5 'b|1 <dt|7 'c|",
        ),
        (
            "<select><optgroup><option>a<option>b<optgroup>c",
            "0 <select|1 <optgroup|2 <option|3 'a|2 <option|5 'b|1 <optgroup|7 'c|",
        ),
        (
            "<table><tr><td>a<th>b<tr><td>c",
            "0 <table|1 <tr|2 <td|3 'a|2 <th|5 'b|1 <tr|7 <td|8 'c|",
        ),
        (
            "<table><thead><tr><td><p>a<tbody>b<tfoot>c",
            "0 <table|1 <thead|2 <tr|3 <td|4 <p|5 'a|1 <tbody|7 'b|1 <tfoot|9 'c|",
        ),
        (
            "<td>a<table><tr><td>b",
            "0 <td|1 'a|1 <table|3 <tr|4 <td|5 'b|",
        ),
    ]
}

fn texts() -> &'static [Page] {
    &[
        ("<script>a<b>&lt;</script>c", "0 <script|1 'a<b>&lt;|0 'c|"),
        (
            "<style>a</styles></STYLE >b",
            "0 <style|1 'a</styles>|0 'b|",
        ),
        ("<title>&lt;b></title>c", "0 <title|1 '<b>|0 'c|"),
        ("<textarea>a<br>", "0 <textarea|1 'a<br>|"),
        ("<SCRIPT></Script>a", "0 <script|0 'a|"),
        ("<script/>a</script>b", "0 <script|1 'a|0 'b|"),
        ("a<b c='d", "0 'a|"),
        ("<i>a</i", "0 <i|1 'a|"),
        ("a<", "0 'a<|"),
        ("a</", "0 'a</|"),
        ("1 < 2 <3", "0 '1 < 2 <3|"),
        ("<!--a-->b", "0 !a|0 'b|"),
        ("<!-->a", "0 !|0 'a|"),
        ("<!--->a", "0 !|0 'a|"),
        ("<!----->b", "0 !-|0 'b|"),
        ("<!--a--b->c-->d", "0 !a--b->c|0 'd|"),
        ("<!--a", "0 !a|"),
        ("<!a>b<?c?>d", "0 !a|0 'b|0 !c?|0 'd|"),
        ("</ a>b</1>c", "0 ! a|0 'b|0 !1|0 'c|"),
        ("<i><!--a--></i>", "0 <i|1 !a|"),
        ("<!DOCTYPE html>a<!doctype", "0 'a|"),
        ("&amp;&lt;&gt;&quot;&apos;&nbsp;", "0 '&<>\"'\u{a0}|"),
        ("&amp &AMP; &hellip; &; &", "0 '&amp &AMP; &hellip; &; &|"),
        ("&#97;&#x62;&#X63;", "0 'abc|"),
        (
            "&#0;&#xd800;&#x110000;&#99999999999999999999;",
            "0 '\u{fffd}\u{fffd}\u{fffd}\u{fffd}|",
        ),
        ("&#; &#x; &#a; &#xg; &#1", "0 '&#; &#x; &#a; &#xg; &#1|"),
        ("&amp;amp;", "0 '&amp;|"),
        ("&#xE9;&#128512;&#x10ffff;", "0 '\u{e9}\u{1f600}\u{10ffff}|"),
        ("a&lt;b&gt;", "0 'a<b>|"),
    ]
}

fn attributes() -> &'static [Page] {
    &[
        ("<a B=1 b=2 c>d", "0 <a b=1 c=|1 'd|"),
        ("<a =b=c ==d>", "0 <a =b=c ==d|"),
        ("<a b = 'c d'e=\"f\"/>", "0 <a b=c d e=f|"),
        ("<a b=x/y/ c>", "0 <a b=x/y/ c=|"),
        ("<a/b/c=d>", "0 <a b= c=d|"),
        ("<a b=>c", "0 <a b=|1 'c|"),
        ("<a b='>'>c", "0 <a b=>|1 'c|"),
        (
            "<a b=\"&amp;&lt;&gt;&quot;&apos;\" c=&#65;>",
            "0 <a b=&<>\"' c=A|",
        ),
        ("<a &amp;=&amp>", "0 <a &amp;=&amp|"),
        (
            "<a A=1 B=2 C=3 D=4 E=5 F=6 G=7 H=8 I=9 J=0 j=1 a=2 I=3>",
            "0 <a a=1 b=2 c=3 d=4 e=5 f=6 g=7 h=8 i=9 j=0|",
        ),
        ("<\u{e9}>a", "0 '<\u{e9}>a|"),
        ("<B\u{c9} \u{c9}=\u{e9}>a", "0 <b\u{c9} \u{c9}=\u{e9}|1 'a|"),
        ("a\0b<i c\0=\0>", "0 'a\0b|0 <i c\0=\0|"),
        ("a\r\nb", "0 'a\r\nb|"),
        ("<a\x0cb\tc\nd\re>", "0 <a b= c= d= e=|"),
        ("<a\x0bb>", "0 <a\x0bb|"),
        ("\u{2028}<i>\u{2028}", "0 '\u{2028}|0 <i|2 '\u{2028}|"),
    ]
}

#[test]
fn pages_have_these_trees(rt: HostRuntime) -> Result<(), Fail> {
    for pages in [elements(), implied_ends(), texts(), attributes()] {
        for (page, expected) in pages {
            let dom = read_page(rt.alloc(), page)?;
            let found = listing(rt.alloc(), &dom)?;
            assert_eq!(rt; found.as_str(), *expected);
        }
    }
    Ok(())
}

// How many nodes a fragment has that is read at this depth and beside so many nodes.
fn read(alloc: Global, source: &str, depth: u32, live: u32) -> Result<usize, PageError> {
    let part = read_fragment(alloc, source, depth, live)?;
    Ok(part.len())
}

#[test]
fn nodes_pass_no_limit(rt: HostRuntime) -> Result<(), Fail> {
    let source = "a<i>b</i>c";
    for (source, depth, live, answer) in [
        (source, 510, 999_996, Ok(4)),
        (source, 511, 0, Err(PageError::TooDeep)),
        (source, 4_294_967_295, 0, Err(PageError::TooDeep)),
        (source, 0, 999_997, Err(PageError::TooManyNodes)),
        (source, 511, 999_998, Err(PageError::TooDeep)),
        (source, 511, 999_999, Err(PageError::TooManyNodes)),
        ("", 512, 1_000_000, Ok(0)),
    ] {
        let found = read(rt.alloc(), source, depth, live);
        assert_eq!(rt; found, answer, "at {depth} beside {live}");
    }
    Ok(())
}
