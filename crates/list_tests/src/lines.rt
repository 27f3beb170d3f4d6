// Conditions, and lines by their bytes.

use list_lines::{Directive, LineForm, read_condition, read_line};
use listed::{Names, Text};
use selector_spelling::{Cause, Finding, Kind};
use std::test::Fail;

#[test]
fn conditions_are_read(rt: HostRuntime) -> Result<(), Fail> {
    let alloc = rt.alloc();
    let mut given = Names::new(alloc);
    given.push(Text::of(alloc, "env_mv3")?)?;
    let conditions: [(&str, Option<bool>); 24] = [
        (" ext_ublock ", Some(true)),
        ("env_mv3", Some(true)),
        ("env_mobile", Some(false)),
        ("!env_mobile", Some(true)),
        ("! ! env_mobile", Some(false)),
        ("ext_ublock&&!env_mobile", Some(true)),
        ("env_mobile || env_mv3", Some(true)),
        ("ext_ublock || x && y", Some(true)),
        ("(ext_ublock || x) && y", Some(false)),
        ("!(x||(y))", Some(true)),
        ("((((((((((((((((x))))))))))))))))", Some(false)),
        ("(((((((((((((((((x)))))))))))))))))", None),
        ("", None),
        ("()", None),
        ("x y", None),
        ("x &&", None),
        ("|| x", None),
        ("x | y", None),
        ("x &&& y", None),
        ("(x", None),
        ("x)", None),
        ("(x)(y)", None),
        ("ext_ublock || a-b", None),
        ("\u{e9}", None),
    ];
    for (text, expected) in conditions.iter() {
        assert_eq!(rt;
            read_condition(text.as_bytes(), &given),
            *expected,
            "{text}"
        );
    }
    Ok(())
}

// A line's form in short: its noted kind or cause, or the places of its parts.
#[derive(Clone, Copy, Debug, PartialEq, Eq)]
enum Short {
    Nothing,
    If(usize),
    Else(usize),
    Endif(usize),
    Include(usize),
    Filter(usize),
    Exception(usize),
    Page,
    Aside(Kind),
    Bad(Cause, usize),
}

fn short_of(form: LineForm<'_>) -> Short {
    match form {
        LineForm::Nothing => Short::Nothing,
        LineForm::Directive(at, Directive::If(_)) => Short::If(at),
        LineForm::Directive(at, Directive::Else) => Short::Else(at),
        LineForm::Directive(at, Directive::Endif) => Short::Endif(at),
        LineForm::Directive(at, Directive::Include) => Short::Include(at),
        LineForm::Hide(line) => {
            if line.exception {
                Short::Exception(line.selector.place)
            } else {
                Short::Filter(line.selector.place)
            }
        }
        LineForm::Page(_) => Short::Page,
        LineForm::Noted(Finding::SetAside(kind)) => Short::Aside(kind),
        LineForm::Noted(Finding::Malformed(cause, at)) => Short::Bad(cause, at),
    }
}

#[test]
fn lines_have_their_forms(rt: HostRuntime) {
    let lines: [(&[u8], Short); 62] = [
        (b"", Short::Nothing),
        (b" \t\x0c\r ", Short::Nothing),
        (b"! a ##b", Short::Nothing),
        (b"!", Short::Nothing),
        (b"!#if x", Short::If(0)),
        (b"  !#if x", Short::If(2)),
        (b"!#if", Short::If(0)),
        (b"!#if1", Short::If(0)),
        (b"!#ifx", Short::Nothing),
        (b"!#IF x", Short::Nothing),
        (b"!# if x", Short::Nothing),
        (b"\t!#else x", Short::Else(1)),
        (b"!#elsewhere", Short::Nothing),
        (b"!#endif##x", Short::Endif(0)),
        (b"!#include a.txt", Short::Include(0)),
        (b"!#safari_cb_affinity", Short::Nothing),
        (b"[Adblock Plus 2.0]", Short::Nothing),
        (b"[a]##[b]", Short::Nothing),
        (b"[1]", Short::Aside(Kind::Network)),
        (b"[a", Short::Aside(Kind::Network)),
        (b"[$path=/x]##a", Short::Aside(Kind::Modifier)),
        (b"[$a]", Short::Aside(Kind::Modifier)),
        (b"#", Short::Nothing),
        (b"# a ##b", Short::Nothing),
        (b"#\tx", Short::Nothing),
        (b"#a", Short::Aside(Kind::Network)),
        (b"##.a", Short::Filter(2)),
        (b"  ##  .a ", Short::Filter(6)),
        (b"a.com##.a", Short::Filter(7)),
        (b"a.com#?#.a", Short::Filter(8)),
        (b"a.com#@#.a", Short::Exception(8)),
        (b"a.com#@?#.a", Short::Exception(9)),
        (b"###a", Short::Filter(2)),
        (b"#@##a##b", Short::Exception(3)),
        (b"a##b#@#c", Short::Filter(3)),
        (b"##", Short::Filter(2)),
        (b"a.com, ##.a", Short::Filter(9)),
        (b"/x/##a", Short::Aside(Kind::RegexHost)),
        (b"~/x/ ##a", Short::Aside(Kind::RegexHost)),
        (b"/##a", Short::Aside(Kind::RegexHost)),
        (b"/x/,a.com##b", Short::Aside(Kind::Network)),
        (b"||a.com^##b", Short::Aside(Kind::Network)),
        (b"a.com/b$c##d", Short::Aside(Kind::Network)),
        (b"a?b#$#c", Short::Aside(Kind::Network)),
        (b"a.com#$#log x", Short::Aside(Kind::Snippet)),
        (b"#@$#x", Short::Aside(Kind::Snippet)),
        (b"#%#x", Short::Aside(Kind::Snippet)),
        (b"#@%#+js(x)", Short::Aside(Kind::Snippet)),
        (b"#$?#x", Short::Aside(Kind::Snippet)),
        (b"#@$?#x", Short::Aside(Kind::Snippet)),
        (b"a.com##  +js(x)", Short::Aside(Kind::Scriptlet)),
        (b"##^script", Short::Aside(Kind::HtmlFilter)),
        (b"@@||a.com^$ghide", Short::Page),
        (b"@@$elemhide", Short::Page),
        (b"@@/$ghide", Short::Page),
        (b"@@/x/$ghide", Short::Aside(Kind::RegexAddress)),
        (b"@@||a.com^", Short::Aside(Kind::Network)),
        (b"@@||a.com^$Ghide", Short::Aside(Kind::Network)),
        (b"@@a$ghide,script", Short::Aside(Kind::Option)),
        (b"@@a$ghide, shide", Short::Aside(Kind::Option)),
        (b"@@a$domain=b,from=c,ghide", Short::Aside(Kind::Option)),
        (b"a\xff##b", Short::Bad(Cause::NotUtf8, 1)),
    ];
    for (line, expected) in lines.iter() {
        assert_eq!(rt; short_of(read_line(line)), *expected, "{line:?}");
    }
}

#[test]
fn a_page_option_has_its_parts(rt: HostRuntime) -> Result<(), Fail> {
    let LineForm::Page(line) = read_line(b" @@||a$b$shide,from=a.com|b,ehide") else {
        return Err("no page option".into());
    };
    assert_eq!(rt; line.pattern, "||a$b");
    assert_eq!(rt;
        (
            line.options.elem,
            line.options.generic,
            line.options.specific
        ),
        (true, false, true)
    );
    let domain = line.domain.ok_or("no hosts")?;
    assert_eq!(rt; (domain.place, domain.text), (20, "a.com|b"));
    Ok(())
}
