// Texts of selectors, with what each is read as.

use Want::{Aside, Bad, Is, Same};
use cos_patterns::{Calls, CrateMaker, ListedMaker, PatternTable};
use selector_parser::Cause::{
    ActionInList, ActionNotLast, BadAttribute, BadName, BadNumber,
    BadOperatorArgument as BadArgument, BadPattern, EmptyPart, OthersNested, PatternTooLarge,
    TooNested, Unbalanced, UnknownPseudo,
};
use selector_parser::Kind::{
    AbpProperties, MatchesCss, MatchesMedia, MatchesProp, PseudoElement, RemoveAttr, RemoveClass,
    Shadow, State, Style, Xpath,
};
use selector_parser::{Cause, Kind, Read, read_selector};
use selector_tree::canonical;
use std::alloc::{AllocError, Global};
use std::test::Fail;

/// What a text is to be read as.
#[derive(Clone, Copy)]
enum Want {
    /// A filter, with this canonical text.
    Is(&'static str),
    /// A filter, with the text itself for its canonical text.
    Same,
    /// A form that is set aside.
    Aside(Kind),
    /// A malformed text, with the place of its cause.
    Bad(Cause, usize),
}

type Row = (&'static str, Want);

const CHAINS: &[Row] = &[
    ("a", Same),
    ("*", Same),
    ("DIV.A#B", Is("div.A#B")),
    ("*.a#b", Same),
    (".a#b[c]:root.d", Same),
    (".ad-banner", Same),
    ("div>.a", Is("div > .a")),
    ("div   >   .ad", Is("div > .ad")),
    (".a + .b", Same),
    ("a b+c~d>e", Is("a b + c ~ d > e")),
    ("a\t>\u{c}b\rc", Is("a > b c")),
    ("  a  b  ", Is("a b")),
    (" a , b\t", Is("a, b")),
    ("a,b , c", Is("a, b, c")),
    (".a > .b ~ i, u", Same),
    ("É > ü", Same),
];

const NAMES: &[Row] = &[
    (".a-_9é", Same),
    ("日本.語", Same),
    ("--a", Same),
    (".--1", Same),
    ("._1", Same),
    // An escape by its number takes up to six digits and one white space.
    (r"#\31 a", Same),
    (r"#\000031a", Is(r"#\31 a")),
    (r".\0000411", Is(".A1")),
    (r".\31", Is(r".\31 ")),
    (r".\31 23", Same),
    (".\\31\ta", Is(r".\31 a")),
    (r".\31  a", Same),
    (r".\66oo", Is(".foo")),
    (r".\66 oo", Is(".foo")),
    (r".\26B", Is(".ɫ")),
    (r".\26 B", Is(r".\&B")),
    (r".\E9 t", Is(".ét")),
    (r".\0 x", Is(".\u{fffd}x")),
    (r".\d800 ", Is(".\u{fffd}")),
    (r".\DFFF", Is(".\u{fffd}")),
    (r".\10ffff", Is(".\u{10ffff}")),
    (r".\110000", Is(".\u{fffd}")),
    // Before another character it stands for that.
    (r".\zoo", Is(".zoo")),
    (r"#\é", Is("#é")),
    (".\\\n", Is(r".\a ")),
    // Digits and `-` at the front are names by their escapes alone.
    (r".\-", Same),
    (r".-\-", Is(".--")),
    (r".-\31 2", Same),
    (r".\-1", Is(r".-\31 ")),
    // Other signs have a `\` before them, and control characters go by their number.
    (r".a\.b\,c", Same),
    (r".a\ ", Same),
    (r".a\ b c", Same),
    (r".a\\b", Same),
    (r#".a\"b\'c"#, Same),
    (r".\1 \1f \a ", Same),
    (r".\7f x", Same),
    // The names of tags are in lower case, with escapes too.
    (r"\41 b", Is("ab")),
    (r"\*", Same),
    (r"\\", Same),
    (r"a\:hover", Same),
];

const ATTRIBUTES: &[Row] = &[
    ("[a]", Same),
    ("[ DATA-a ]", Is("[data-a]")),
    ("[a=b]", Is(r#"[a="b"]"#)),
    ("[a~=b]", Is(r#"[a~="b"]"#)),
    ("[a|=b]", Is(r#"[a|="b"]"#)),
    ("[HREF^='x']", Is(r#"[href^="x"]"#)),
    (r#"[a$="b"]"#, Same),
    (r#"[a*="b"]"#, Same),
    (r#"[ A = "B" ]"#, Is(r#"[a="B"]"#)),
    ("[\ta\t~=\tb\t]", Is(r#"[a~="b"]"#)),
    (r#"[a="b"][c]"#, Same),
    // U+0000 in a string, plain and behind a `\`.
    ("[a=\"\0\"]", Same),
    ("[a=\"\\\0\"]", Is("[a=\"\0\"]")),
    // The flags `i` and `s`, of which the second is dropped.
    ("[a=b i]", Is(r#"[a="b" i]"#)),
    (r#"[a="b"i]"#, Is(r#"[a="b" i]"#)),
    ("[a^='b'  I ]", Is(r#"[a^="b" i]"#)),
    ("[a=b s]", Is(r#"[a="b"]"#)),
    ("[a='b'S]", Is(r#"[a="b"]"#)),
    ("[a=i]", Is(r#"[a="i"]"#)),
    ("[a=i i]", Is(r#"[a="i" i]"#)),
    (r"[a=\31 i]", Is(r#"[a="1i"]"#)),
    (r"[a=\31  i]", Is(r#"[a="1" i]"#)),
    (r"[a=b\ i]", Is(r#"[a="b i"]"#)),
    // Names and strings with escapes.
    (r"[\41 b]", Is("[ab]")),
    (r"[data-x\:y=z]", Is(r#"[data-x\:y="z"]"#)),
    (r"[a=\]]", Is(r#"[a="]"]"#)),
    (r#"[a=""]"#, Same),
    (r#"[a="]"]"#, Same),
    ("[a='(']", Is(r#"[a="("]"#)),
    (r#"[a='"']"#, Is(r#"[a="\""]"#)),
    (r#"[a="'"]"#, Same),
    (r#"[a="\"]"]"#, Same),
    (r#"[a="\\"]"#, Same),
    (r#"[a="\41 b"]"#, Is(r#"[a="Ab"]"#)),
    (r#"[a="1é"]"#, Same),
    (r#"[a="\a \1f \7f "]"#, Same),
    ("[a='b\nc']", Is(r#"[a="b\a c"]"#)),
    (r#"[a="\0 "]"#, Is("[a=\"\u{fffd}\"]")),
];

const PSEUDO_CLASSES: &[Row] = &[
    (":root", Same),
    ("p:EMPTY", Is("p:empty")),
    (":only-child", Same),
    (":Only-Of-Type", Is(":only-of-type")),
    ("a:first-child", Is("a:nth-child(0n+1)")),
    ("li:last-child", Is("li:nth-last-child(0n+1)")),
    (":first-of-type", Is(":nth-of-type(0n+1)")),
    (":last-of-type", Is(":nth-last-of-type(0n+1)")),
    ("LI:NTH-CHILD(odd)", Is("li:nth-child(2n+1)")),
    (":nth-last-child( EVEN )", Is(":nth-last-child(2n+0)")),
    (":nth-of-type(0003)", Is(":nth-of-type(0n+3)")),
    (":nth-last-of-type(+5)", Is(":nth-last-of-type(0n+5)")),
    (":nth-child(-5)", Is(":nth-child(0n-5)")),
    (":nth-child(-0)", Is(":nth-child(0n+0)")),
    (":nth-child(n)", Is(":nth-child(1n+0)")),
    (":nth-child(+N)", Is(":nth-child(1n+0)")),
    (":nth-child(-n)", Is(":nth-child(-1n+0)")),
    (":nth-child(2n+1)", Same),
    (":nth-child(-n+3)", Is(":nth-child(-1n+3)")),
    (":nth-child(-n + 3)", Is(":nth-child(-1n+3)")),
    (":nth-child(-2N- 1)", Is(":nth-child(-2n-1)")),
    (":nth-child(\tn\t+3\t)", Is(":nth-child(1n+3)")),
    (":nth-child(007n-08)", Is(":nth-child(7n-8)")),
    (":nth-child(-0n-0)", Is(":nth-child(0n+0)")),
    (":nth-child(1000000n-1000000)", Same),
    (":nth-child(-1000000n+1000000)", Same),
];

const SELECTOR_ARGUMENTS: &[Row] = &[
    ("a:IS(b)", Is("a:is(b)")),
    (":where(b, .c)", Is(":is(b, .c)")),
    ("a:not(b,c) ~ *", Is("a:not(b, c) ~ *")),
    ("a:is( b , c )", Is("a:is(b, c)")),
    (":NOT(:Where(A > B))", Is(":not(:is(a > b))")),
    ("a:is(b):not(c):has(d)", Same),
    (".a .b:not(:first-child)", Is(".a .b:not(:nth-child(0n+1))")),
    ("a:not([b=')'])", Is(r#"a:not([b=")"])"#)),
    ("a:has(b)", Same),
    ("a:has( \t> b )", Is("a:has(> b)")),
    ("a:has(>b,+c,~d e)", Is("a:has(> b, + c, ~ d e)")),
    (":-abp-has(> i + b, c)", Is(":has(> i + b, c)")),
    ("a:has(* > b)", Same),
    ("a:has(:has(> b))", Same),
    (".x:has(:is(.o .b))", Same),
    ("div:has(> .ad):not(:has-text(/sale/i))", Same),
    (
        ":is(:is(:is(:is(:is(:is(:is(:is(:is(:is(:is(:is(:is(:is(:is(:is(a:upward( 3 )))))))))))))))))",
        Is(
            ":is(:is(:is(:is(:is(:is(:is(:is(:is(:is(:is(:is(:is(:is(:is(:is(a:upward(3)))))))))))))))))",
        ),
    ),
];

const LITERALS: &[Row] = &[
    ("p:has-text(advert)", Is(r#"p:has-text("advert")"#)),
    ("p:-abp-contains(x)", Is(r#"p:has-text("x")"#)),
    ("p:HAS-TEXT(Größe)", Is(r#"p:has-text("Größe")"#)),
    ("p:has-text(  x y )", Is(r#"p:has-text("x y")"#)),
    // Quotes at both ends are taken off, once.
    (r#"p:has-text("Sale")"#, Same),
    ("p:has-text('Sale')", Is(r#"p:has-text("Sale")"#)),
    (r#"p:has-text( " x " )"#, Is(r#"p:has-text(" x ")"#)),
    (r#"p:has-text("'x'")"#, Same),
    (r#"p:has-text(""")"#, Is(r#"p:has-text("\"")"#)),
    (r#"p:has-text('x")"#, Is(r#"p:has-text("'x\"")"#)),
    (r#"p:has-text(")"#, Is(r#"p:has-text("\"")"#)),
    (r#"p:has-text("\")"#, Is(r#"p:has-text("\\")"#)),
    // Brackets count as pairs, and other signs don't count.
    ("p:has-text([)", Is(r#"p:has-text("[")"#)),
    ("p:has-text(a, b > c)", Is(r#"p:has-text("a, b > c")"#)),
    ("p:has-text((a))", Is(r#"p:has-text("\(a\)")"#)),
    (r"p:has-text(\))", Is(r#"p:has-text("\)")"#)),
    // `\` is dropped before one of `( ) \ / " '`, in pairs.
    (r"p:has-text(\(a\))", Is(r#"p:has-text("\(a\)")"#)),
    (r"p:has-text(\\\()", Is(r#"p:has-text("\\\(")"#)),
    (r"p:has-text(\\(a))", Is(r#"p:has-text("\\\(a\)")"#)),
    (r#"p:has-text(a\"b\'c)"#, Is(r#"p:has-text("a\"b'c")"#)),
    (r#"p:has-text("a\"b")"#, Same),
    (r"p:has-text(a\d)", Is(r#"p:has-text("a\\d")"#)),
    // A `/` at the front that no later one closes.
    ("p:has-text(/a)", Is(r#"p:has-text("\/a")"#)),
    ("p:has-text(/)", Is(r#"p:has-text("\/")"#)),
    ("p:has-text(//)", Is(r#"p:has-text("\/\/")"#)),
    ("p:has-text(//i)", Is(r#"p:has-text("\/\/i")"#)),
    ("p:has-text(a/b/)", Is(r#"p:has-text("a\/b\/")"#)),
    (r"p:has-text(/a\/)", Is(r#"p:has-text("\/a\/")"#)),
    (r"p:has-text(/a\\\/i)", Is(r#"p:has-text("\/a\\\/i")"#)),
    ("p:has-text(/a/I)", Is(r#"p:has-text("\/a\/I")"#)),
    ("p:has-text(/a/ii)", Is(r#"p:has-text("\/a\/ii")"#)),
    ("p:has-text(/a/g)", Is(r#"p:has-text("\/a\/g")"#)),
    ("p:has-text(/a/ i)", Is(r#"p:has-text("\/a\/ i")"#)),
    (r#"p:has-text(" /a/")"#, Is(r#"p:has-text(" \/a\/")"#)),
];

const PATTERNS: &[Row] = &[
    (r"p:has-text(/^Sale\s\d+$/)", Same),
    (".promo:has-text(/sponsored/i)", Same),
    ("p:has-text(/a/m)", Same),
    ("p:has-text(/a/s)", Same),
    ("p:has-text(/a/u)", Is("p:has-text(/a/)")),
    ("p:has-text(/a/suim)", Is("p:has-text(/a/ims)")),
    ("p:has-text( /a b/i )", Is("p:has-text(/a b/i)")),
    (r#"p:has-text("/a/m")"#, Is("p:has-text(/a/m)")),
    ("p:has-text('/a/')", Is("p:has-text(/a/)")),
    (r#"p:has-text(/"/)"#, Same),
    ("p:has-text(/é/i)", Same),
    ("p:has-text(/(a|b)c/)", Same),
    (r"p:has-text(/\(/)", Same),
    // The last `/` that may close it does.
    (r"p:has-text(/a\/b/si)", Is(r"p:has-text(/a\/b/is)")),
    ("p:has-text(/a/b/)", Is(r"p:has-text(/a\/b/)")),
    ("p:has-text(/a/i/s)", Is(r"p:has-text(/a\/i/s)")),
    ("p:has-text(///)", Is(r"p:has-text(/\//)")),
    ("p:has-text(/[/]/)", Is(r"p:has-text(/[\/]/)")),
    (r"p:has-text(/a\\/)", Same),
    (r"p:has-text(/a\\\/b/)", Same),
    // What the grammar doesn't read, and what is too large, at the piece.
    ("p:has-text(/[/)", Bad(BadPattern, 1)),
    ("p:has-text(/(?!x)y/)", Bad(BadPattern, 1)),
    (r"p:has-text(/(a)\1/)", Bad(BadPattern, 1)),
    ("p:has-text(/*/)", Bad(BadPattern, 1)),
    ("é:not(b, c:matches-path(/[/))", Bad(BadPattern, 11)),
    ("p:matches-attr(/[/=a)", Bad(BadPattern, 1)),
    ("p:matches-attr(a=/[/)", Bad(BadPattern, 1)),
    (r"p:has-text(/\w{5000}/)", Bad(PatternTooLarge, 1)),
    (r"a > p:matches-path(/\w{5000}/)", Bad(PatternTooLarge, 5)),
];

const OPERATORS: &[Row] = &[
    ("p:min-text-length(3)", Same),
    ("p:min-text-length(007)", Is("p:min-text-length(7)")),
    ("p:min-text-length(0000000000)", Is("p:min-text-length(0)")),
    ("p:min-text-length(4294967295)", Same),
    ("p:matches-path(/b)", Is(r#"p:matches-path("\/b")"#)),
    ("p:matches-path(])", Is(r#"p:matches-path("]")"#)),
    (
        "b:not(:matches-path(/b))",
        Is(r#"b:not(:matches-path("\/b"))"#),
    ),
    (r"p:matches-path(/^\/a\b/)", Same),
    (
        r#"[data-a]:matches-attr("/^data-/"="/^x/")"#,
        Is("[data-a]:matches-attr(/^data-/=/^x/)"),
    ),
    (":matches-attr( Title )", Is(r#":matches-attr("title")"#)),
    (":matches-attr(A = B)", Is(r#":matches-attr("a"="B")"#)),
    (r#":matches-attr('A'="B")"#, Is(r#":matches-attr("a"="B")"#)),
    (":matches-attr(a=)", Is(r#":matches-attr("a"="")"#)),
    (":matches-attr(a='')", Is(r#":matches-attr("a"="")"#)),
    (":matches-attr(a=b=c)", Is(r#":matches-attr("a"="b=c")"#)),
    (r#":matches-attr("a=b"="c=d")"#, Same),
    (r#":matches-attr("a\"b")"#, Same),
    (r#":matches-attr("a\\"="b")"#, Same),
    (r#":matches-attr(/A=b/i="Y")"#, Same),
    (r#":matches-attr(/a\/b/="c")"#, Same),
    (":matches-attr(a= /x/ )", Is(r#":matches-attr("a"=/x/)"#)),
    (":matches-attr(/a/X)", Is(r#":matches-attr("\/a\/x")"#)),
    (":matches-attr([)", Is(r#":matches-attr("[")"#)),
    (":matches-attr(//)", Is(r#":matches-attr("\/\/")"#)),
    (":watch-attr()", Same),
    (":watch-attr( \t)", Is(":watch-attr()")),
    (":watch-attr( Id ,b-1)", Is(":watch-attr(id, b-1)")),
    (":watch-attr(xlink:href, a.b_c)", Same),
    (".k:upward(2)", Same),
    (".k:upward( 0003 )", Is(".k:upward(3)")),
    (".k:upward(1).a", Same),
    (".k:upward(255)", Same),
    (".k:upward(.card)", Same),
    (".k:upward( .a , B>c ) d", Is(".k:upward(.a, b > c) d")),
    (".k:upward(a:is(b):has(c:not(d)))", Same),
    ("a:not(.k:upward(2))", Same),
    (".t:others()", Same),
    (".t:OTHERS( \t) > a", Is(".t:others() > a")),
    ("a:has(+ b):remove()", Same),
    ("a + b:REMOVE( ) ", Is("a + b:remove()")),
    ("div:empty:remove()", Same),
    ("*:others():remove()", Same),
];

const SET_ASIDE: &[Row] = &[
    ("a:hover", Aside(State)),
    ("a:Active", Aside(State)),
    ("a:focus", Aside(State)),
    ("a:focus-visible", Aside(State)),
    ("a:focus-within", Aside(State)),
    ("a:link", Aside(State)),
    ("a:visited", Aside(State)),
    ("a:any-link", Aside(State)),
    ("a:target", Aside(State)),
    ("a:checked", Aside(State)),
    ("a:disabled", Aside(State)),
    ("a:enabled", Aside(State)),
    ("a:read-only", Aside(State)),
    ("a:read-write", Aside(State)),
    ("a:required", Aside(State)),
    ("a:optional", Aside(State)),
    ("a:valid", Aside(State)),
    ("a:invalid", Aside(State)),
    ("a:placeholder-shown", Aside(State)),
    ("a:indeterminate", Aside(State)),
    ("a:default", Aside(State)),
    ("a:in-range", Aside(State)),
    ("a:out-of-range", Aside(State)),
    ("a:autofill", Aside(State)),
    ("a:defined", Aside(State)),
    ("a:fullscreen", Aside(State)),
    ("a:scope", Aside(State)),
    ("a:lang(de)", Aside(State)),
    ("a:DIR(ltr)", Aside(State)),
    ("a::before", Aside(PseudoElement)),
    ("a::-x-y(z)", Aside(PseudoElement)),
    ("a::é", Aside(PseudoElement)),
    (r"a::\31", Aside(PseudoElement)),
    ("a::has-text(b)", Aside(PseudoElement)),
    ("a:before", Aside(PseudoElement)),
    ("a:After", Aside(PseudoElement)),
    ("a:first-line", Aside(PseudoElement)),
    ("a:first-letter", Aside(PseudoElement)),
    ("p:style(color:red)", Aside(Style)),
    ("a:xpath(//b['c])", Aside(Xpath)),
    ("a:shadow(\")", Aside(Shadow)),
    ("a:matches-css([)", Aside(MatchesCss)),
    ("a:matches-css-before(b: ')", Aside(MatchesCss)),
    ("a:matches-css-after(])", Aside(MatchesCss)),
    ("a:matches-media((width: \"))", Aside(MatchesMedia)),
    ("a:MATCHES-PROP(b=[)", Aside(MatchesProp)),
    ("a:-abp-properties('b: c)", Aside(AbpProperties)),
    ("a:remove-attr(\"b)", Aside(RemoveAttr)),
    ("a:remove-class([b)", Aside(RemoveClass)),
    // Of two pieces the first decides, and a piece comes before its argument and that before the pieces behind.
    ("a:hover::x", Aside(State)),
    ("a::x:hover", Aside(PseudoElement)),
    ("a:style(b):hover", Aside(Style)),
    ("a:hover ..", Aside(State)),
    ("a.. :hover", Bad(BadName, 1)),
    ("a:lang(..)", Aside(State)),
    ("a:not(:hover, ..)..", Aside(State)),
    ("a:has(> b:hover):foo", Aside(State)),
    ("a:not(b, ..):hover", Bad(BadName, 9)),
];

const UNBALANCED: &[Row] = &[
    ("[a", Bad(Unbalanced, 0)),
    ("a:has(", Bad(Unbalanced, 5)),
    ("a:is(b:not([c", Bad(Unbalanced, 4)),
    ("a)", Bad(Unbalanced, 1)),
    ("é]", Bad(Unbalanced, 2)),
    ("a(]", Bad(Unbalanced, 2)),
    ("a:is(b](", Bad(Unbalanced, 6)),
    ("a[[]]", Bad(Unbalanced, 4)),
    ("a[b)](c])", Bad(Unbalanced, 7)),
    ("\"a", Bad(Unbalanced, 0)),
    ("a'b)", Bad(Unbalanced, 1)),
    ("a[b=\"]", Bad(Unbalanced, 1)),
    ("a[b='\\']", Bad(Unbalanced, 1)),
    (r".a\", Bad(Unbalanced, 2)),
    (r"\", Bad(Unbalanced, 0)),
    (r":is(a\", Bad(Unbalanced, 3)),
    (r"'\", Bad(Unbalanced, 0)),
    (r"a\(b)", Bad(Unbalanced, 4)),
    // In raw arguments `\`, `(` and `)` count alone.
    ("p:has-text(a", Bad(Unbalanced, 10)),
    ("p:has-text(/(/)", Bad(Unbalanced, 10)),
    (r"p:has-text(\)", Bad(Unbalanced, 10)),
    (r#"p:has-text("a)b")"#, Bad(Unbalanced, 15)),
    (r#"a::has-text(")"#, Bad(Unbalanced, 11)),
    (r#"a:foo(:has-text("))"#, Bad(UnknownPseudo, 1)),
    ("a:nth-child(:has-text(]))", Bad(BadNumber, 1)),
];

const EMPTY_PARTS: &[Row] = &[
    ("", Bad(EmptyPart, 0)),
    (" \t ", Bad(EmptyPart, 3)),
    (",", Bad(EmptyPart, 0)),
    (" , a", Bad(EmptyPart, 1)),
    ("a,", Bad(EmptyPart, 2)),
    ("a, ", Bad(EmptyPart, 3)),
    ("a,,b", Bad(EmptyPart, 2)),
    ("> a", Bad(EmptyPart, 0)),
    ("+js(x)", Bad(EmptyPart, 0)),
    ("a >", Bad(EmptyPart, 3)),
    (".é > ", Bad(EmptyPart, 6)),
    ("a > , b", Bad(EmptyPart, 4)),
    ("a > > b", Bad(EmptyPart, 4)),
    ("a +~ b", Bad(EmptyPart, 3)),
    ("a:is()", Bad(EmptyPart, 5)),
    ("a:where( )", Bad(EmptyPart, 9)),
    ("a:not(b, )", Bad(EmptyPart, 9)),
    ("a:is(> b)", Bad(EmptyPart, 5)),
    ("a:has( )", Bad(EmptyPart, 7)),
    ("a:has(,b)", Bad(EmptyPart, 6)),
    ("a:has(> )", Bad(EmptyPart, 8)),
    ("a:has(> + b)", Bad(EmptyPart, 8)),
    ("a:-abp-has(b >)", Bad(EmptyPart, 14)),
    ("p:upward()", Bad(EmptyPart, 9)),
    ("p:upward(+1)", Bad(EmptyPart, 9)),
    (":remove()", Bad(EmptyPart, 0)),
    ("a > :remove()", Bad(EmptyPart, 4)),
    ("a :remove()", Bad(EmptyPart, 2)),
];

const BAD_NAMES: &[Row] = &[
    ("a..b", Bad(BadName, 1)),
    (".", Bad(BadName, 0)),
    ("#", Bad(BadName, 0)),
    ("a. b", Bad(BadName, 1)),
    ("é, .1", Bad(BadName, 4)),
    (".-", Bad(BadName, 0)),
    (".-1", Bad(BadName, 0)),
    ("#-.a", Bad(BadName, 0)),
    ("1a", Bad(BadName, 0)),
    ("-1a", Bad(BadName, 0)),
    ("-", Bad(BadName, 0)),
    ("a > 1", Bad(BadName, 4)),
    // A `:` or `::` without a name.
    ("a:", Bad(BadName, 1)),
    ("a: b", Bad(BadName, 1)),
    ("a:(b)", Bad(BadName, 1)),
    ("a::", Bad(BadName, 1)),
    ("a::1", Bad(BadName, 1)),
    ("a:::b", Bad(BadName, 1)),
    (":1a", Bad(BadName, 0)),
    (":-", Bad(BadName, 0)),
    (":-1", Bad(BadName, 0)),
    (":é", Bad(BadName, 0)),
    // A tag name or `*` that isn't first.
    ("ab*", Bad(BadName, 2)),
    ("**", Bad(BadName, 1)),
    ("*a", Bad(BadName, 1)),
    ("[a]b", Bad(BadName, 3)),
    (":root_x", Bad(BadName, 5)),
    (r":root\41", Bad(BadName, 5)),
    ("a:rooté", Bad(BadName, 6)),
    ("a:is(b)c", Bad(BadName, 7)),
    // A byte that begins no piece.
    ("a|b", Bad(BadName, 1)),
    ("a||b", Bad(BadName, 1)),
    ("a/**/", Bad(BadName, 1)),
    ("a&", Bad(BadName, 1)),
    ("^x", Bad(BadName, 0)),
    ("a(b)", Bad(BadName, 1)),
    ("a\"b\"", Bad(BadName, 1)),
    ("a\nb", Bad(BadName, 1)),
    (".\\31\na", Bad(BadName, 4)),
    (".a\0", Bad(BadName, 2)),
    (".\\\0", Bad(BadName, 0)),
    ("a:not(b, .)", Bad(BadName, 9)),
    ("p:upward(2a)", Bad(BadName, 9)),
    ("p:upward(1 2)", Bad(BadName, 9)),
    ("p:upward(-1)", Bad(BadName, 9)),
];

const BAD_ATTRIBUTES: &[Row] = &[
    ("p[]", Bad(BadAttribute, 1)),
    ("p[1]", Bad(BadAttribute, 1)),
    ("p[-]", Bad(BadAttribute, 1)),
    ("é, p[=b]", Bad(BadAttribute, 5)),
    ("p[a=]", Bad(BadAttribute, 1)),
    ("p[a=1]", Bad(BadAttribute, 1)),
    ("p[a==b]", Bad(BadAttribute, 1)),
    ("p[a!=b]", Bad(BadAttribute, 1)),
    ("p[a ~ = b]", Bad(BadAttribute, 1)),
    ("p[a|b]", Bad(BadAttribute, 1)),
    ("p[*]", Bad(BadAttribute, 1)),
    ("p[a=(]", Bad(BadAttribute, 1)),
    ("p[a i]", Bad(BadAttribute, 1)),
    ("p[a=b c]", Bad(BadAttribute, 1)),
    ("p[a=\"b\"x]", Bad(BadAttribute, 1)),
    ("p[a=\"b\" i s]", Bad(BadAttribute, 1)),
    ("p[a=\"b\"'c']", Bad(BadAttribute, 1)),
    ("p[a=b\"c\"]", Bad(BadAttribute, 1)),
    ("p:not(a[b.c])", Bad(BadAttribute, 7)),
];

const UNKNOWN: &[Row] = &[
    ("a:foo", Bad(UnknownPseudo, 1)),
    ("a:foo()", Bad(UnknownPseudo, 1)),
    ("a:foo(..)", Bad(UnknownPseudo, 1)),
    ("é:-x(b)", Bad(UnknownPseudo, 2)),
    (r"a:roo\74", Bad(UnknownPseudo, 1)),
    ("a:root()", Bad(UnknownPseudo, 1)),
    ("a:first-child(1)", Bad(UnknownPseudo, 1)),
    ("a:hover(x)", Bad(UnknownPseudo, 1)),
    ("a:before(x)", Bad(UnknownPseudo, 1)),
    ("a:lang", Bad(UnknownPseudo, 1)),
    ("a:not", Bad(UnknownPseudo, 1)),
    ("a:nth-child", Bad(UnknownPseudo, 1)),
    ("a:has-text", Bad(UnknownPseudo, 1)),
    ("a:upward", Bad(UnknownPseudo, 1)),
    ("a:others", Bad(UnknownPseudo, 1)),
    ("a:remove", Bad(UnknownPseudo, 1)),
    ("a:style", Bad(UnknownPseudo, 1)),
    ("a:contains(b)", Bad(UnknownPseudo, 1)),
    ("a:nth-col(1)", Bad(UnknownPseudo, 1)),
    ("a:if(b)", Bad(UnknownPseudo, 1)),
    ("a:if-not(b)", Bad(UnknownPseudo, 1)),
    ("a:nth-ancestor(1)", Bad(UnknownPseudo, 1)),
    ("a:watch-attrs(x)", Bad(UnknownPseudo, 1)),
    ("a:not(b:foo()):hover", Bad(UnknownPseudo, 7)),
    ("a:is(é:not(b:foo))", Bad(UnknownPseudo, 13)),
];

const BAD_NUMBERS: &[Row] = &[
    ("a:nth-child(2x)", Bad(BadNumber, 1)),
    ("a:nth-child()", Bad(BadNumber, 1)),
    ("a:nth-child(2n+)", Bad(BadNumber, 1)),
    ("a:nth-child(2 n)", Bad(BadNumber, 1)),
    ("a:nth-child(+ 5)", Bad(BadNumber, 1)),
    ("a:nth-child(- n)", Bad(BadNumber, 1)),
    ("a:nth-child(n 1)", Bad(BadNumber, 1)),
    ("a:nth-child(n1)", Bad(BadNumber, 1)),
    ("a:nth-child(n+-1)", Bad(BadNumber, 1)),
    ("a:nth-child(--n)", Bad(BadNumber, 1)),
    ("a:nth-child(+odd)", Bad(BadNumber, 1)),
    ("a:nth-child(2n+1 of a)", Bad(BadNumber, 1)),
    ("a:nth-child(1000001)", Bad(BadNumber, 1)),
    ("a:nth-last-child(-1000001)", Bad(BadNumber, 1)),
    ("a:nth-of-type(1000001n)", Bad(BadNumber, 1)),
    ("a:nth-last-of-type(n-1000001)", Bad(BadNumber, 1)),
    (".é:nth-child(x)", Bad(BadNumber, 3)),
    ("a:not(:nth-child(x)):foo", Bad(BadNumber, 6)),
];

const BAD_ARGUMENTS: &[Row] = &[
    ("p:has-text()", Bad(BadArgument, 1)),
    ("p:has-text( \"\" )", Bad(BadArgument, 1)),
    ("p:-abp-contains( )", Bad(BadArgument, 1)),
    ("p:matches-path('')", Bad(BadArgument, 1)),
    ("a > é:not(b:has-text())", Bad(BadArgument, 12)),
    ("p:min-text-length()", Bad(BadArgument, 1)),
    ("p:min-text-length( 3 )", Bad(BadArgument, 1)),
    ("p:min-text-length(+1)", Bad(BadArgument, 1)),
    ("p:min-text-length([)", Bad(BadArgument, 1)),
    ("p:min-text-length(00000000003)", Bad(BadArgument, 1)),
    ("p:min-text-length(4294967296)", Bad(BadArgument, 1)),
    ("p:matches-attr()", Bad(BadArgument, 1)),
    ("p:matches-attr(=b)", Bad(BadArgument, 1)),
    ("p:matches-attr(\"\"=b)", Bad(BadArgument, 1)),
    ("p:matches-attr(\"a\" = b)", Bad(BadArgument, 1)),
    ("p:matches-attr(\"a\"x)", Bad(BadArgument, 1)),
    ("p:matches-attr('a)", Bad(BadArgument, 1)),
    (r#"p:matches-attr("a\")"#, Bad(BadArgument, 1)),
    ("p:matches-attr(/a)", Bad(BadArgument, 1)),
    ("p:matches-attr(/a/ =b)", Bad(BadArgument, 1)),
    ("p:matches-attr(/a/1)", Bad(BadArgument, 1)),
    ("p:matches-attr(/a/b/)", Bad(BadArgument, 1)),
    ("p:watch-attr(,)", Bad(BadArgument, 1)),
    ("p:watch-attr(a,)", Bad(BadArgument, 1)),
    ("p:watch-attr(a b)", Bad(BadArgument, 1)),
    ("p:watch-attr(\"a)", Bad(BadArgument, 1)),
    ("p:watch-attr(é)", Bad(BadArgument, 1)),
    ("p:upward(0)", Bad(BadArgument, 1)),
    ("p:upward(256)", Bad(BadArgument, 1)),
    ("p:upward(1000000000000000000000)", Bad(BadArgument, 1)),
    ("p:upward(:has-text(a))", Bad(BadArgument, 1)),
    ("p:upward(a:min-text-length(1))", Bad(BadArgument, 1)),
    ("p:upward(a:matches-path(b))", Bad(BadArgument, 1)),
    ("p:upward(a:matches-attr(b))", Bad(BadArgument, 1)),
    ("p:upward(a:watch-attr())", Bad(BadArgument, 1)),
    ("p:upward(a:upward(1))", Bad(BadArgument, 1)),
    ("p:upward(a:upward(b))", Bad(BadArgument, 1)),
    (
        "p:upward(a, b:is(c:not(:has-text(a))))",
        Bad(BadArgument, 1),
    ),
    ("p:not(a:upward(b:has(:upward(1))))", Bad(BadArgument, 7)),
    ("p:others(')", Bad(BadArgument, 1)),
    ("p:remove(])", Bad(BadArgument, 1)),
];

const BAD_PLACES: &[Row] = &[
    ("p:not(:others())", Bad(OthersNested, 6)),
    ("p:is(a, b:others())", Bad(OthersNested, 9)),
    ("p:upward(:others())", Bad(OthersNested, 9)),
    ("a:has(b:remove())", Bad(ActionNotLast, 7)),
    ("p:upward(a:remove())", Bad(ActionNotLast, 10)),
    ("a:remove() b", Bad(ActionNotLast, 1)),
    ("a:remove().b", Bad(ActionNotLast, 1)),
    ("a:remove():remove()", Bad(ActionNotLast, 1)),
    ("a:remove() >", Bad(ActionNotLast, 1)),
    ("a:remove(), b", Bad(ActionInList, 1)),
    ("a:remove(),", Bad(ActionInList, 1)),
    ("a:remove() , b:remove()", Bad(ActionInList, 1)),
    ("b, a:remove()", Bad(ActionInList, 4)),
];

// Two findings in one text: at one piece in their order, else the stage or the piece that comes first.
const TWO_FINDINGS: &[Row] = &[
    ("p:not(:others(x))", Bad(OthersNested, 6)),
    ("p:not(:remove(x))", Bad(ActionNotLast, 6)),
    ("a:remove(x) b", Bad(ActionNotLast, 1)),
    (":remove() b", Bad(ActionNotLast, 0)),
    ("a:remove().b, c", Bad(ActionNotLast, 1)),
    ("a, :remove()", Bad(ActionInList, 3)),
    ("a, b:remove(x)", Bad(ActionInList, 4)),
    (":remove(x)", Bad(EmptyPart, 0)),
    ("a:not(b[]):foo", Bad(BadAttribute, 7)),
    ("a:foo(b[]).", Bad(UnknownPseudo, 1)),
    ("p:has-text() ..", Bad(BadArgument, 1)),
    ("p:upward(a:has-text(b) .)", Bad(BadName, 23)),
    ("p:upward(a:has-text(b), c:hover)", Aside(State)),
    // Balance before all else.
    ("a..b)", Bad(Unbalanced, 4)),
    ("a:hover)", Bad(Unbalanced, 7)),
    ("p:has-text(/[/))", Bad(Unbalanced, 15)),
    (
        ":is(:is(:is(:is(:is(:is(:is(:is(:is(:is(:is(:is(:is(:is(:is(:is(:is(a))))))))))))))))",
        Bad(Unbalanced, 3),
    ),
    // Depth before pieces and patterns.
    (
        ":is(:is(:is(:is(:is(:is(:is(:is(:is(:is(:is(:is(:is(:is(:is(:is(:is(a)))))))))))))))))",
        Bad(TooNested, 64),
    ),
    (
        ":is(:is(:is(:is(:is(:is(:is(:is(:is(:is(:is(:is(:is(:is(:is(:is(:upward(a)))))))))))))))))",
        Bad(TooNested, 64),
    ),
    (
        ":is(:is(:is(:is(:is(:is(:is(:is(:is(:is(:is(:is(:is(:is(:where(:not(:-abp-has(a)))))))))))))))))",
        Bad(TooNested, 68),
    ),
    (
        "..:is(:is(:is(:is(:is(:is(:is(:is(:is(:is(:is(:is(:is(:is(:is(:is(:is(a)))))))))))))))))",
        Bad(TooNested, 66),
    ),
    (
        ":hover:is(:is(:is(:is(:is(:is(:is(:is(:is(:is(:is(:is(:is(:is(:is(:is(:has(a)))))))))))))))))",
        Bad(TooNested, 70),
    ),
    (
        "p:has-text(/[/):is(:is(:is(:is(:is(:is(:is(:is(:is(:is(:is(:is(:is(:is(:is(:is(:not(a)))))))))))))))))",
        Bad(TooNested, 79),
    ),
    // Levels are counted through selectors alone.
    (
        ":is(:is(:is(:is(:is(:is(:is(:is(:is(:is(:is(:is(:is(:is(:is(:is(:foo(:is(a))))))))))))))))))",
        Bad(UnknownPseudo, 64),
    ),
    (
        "(:is(:is(:is(:is(:is(:is(:is(:is(:is(:is(:is(:is(:is(:is(:is(:is(:is(a))))))))))))))))))",
        Bad(BadName, 0),
    ),
    // Pieces before patterns, and patterns in text order.
    ("p:has-text(/[/) ..", Bad(BadName, 16)),
    ("p:has-text(/[/):hover", Aside(State)),
    ("p:upward(:has-text(/[/))", Bad(BadArgument, 1)),
    ("p:has-text(/[/), b:remove()", Bad(ActionInList, 18)),
    (r"p:has-text(/[/):has-text(/\w{5000}/)", Bad(BadPattern, 1)),
    (
        r"p:not(:has-text(/\w{5000}/)):has-text(/[/)",
        Bad(PatternTooLarge, 6),
    ),
    ("p:has-text(/a/):matches-attr(/b/=/[/)", Bad(BadPattern, 15)),
];

// What a text is read as by a table and a maker of its own.
fn read_afresh(alloc: Global, text: &str) -> Result<Read, AllocError> {
    let mut maker = CrateMaker::new(alloc);
    let mut table = PatternTable::new(alloc);
    read_selector(alloc, text, &mut table, &mut maker)
}

// Whether this is what is wanted of a text.
fn is_wanted(alloc: Global, read: &Read, text: &str, want: &Want) -> Result<bool, AllocError> {
    Ok(match (read, want) {
        (Read::Filter(selector, action), Is(spelled)) => {
            canonical(alloc, selector, action)?.as_str() == *spelled
        }
        (Read::Filter(selector, action), Same) => {
            canonical(alloc, selector, action)?.as_str() == text
        }
        (Read::SetAside(kind), Aside(wanted)) => kind == wanted,
        (Read::Malformed(cause, at), Bad(wanted, place)) => cause == wanted && at == place,
        _ => false,
    })
}

// The table and the maker are new for each row, so that no row depends on those before it.
#[test]
fn texts_are_read(rt: HostRuntime) -> Result<(), Fail> {
    let alloc = rt.alloc();
    for rows in [
        CHAINS,
        NAMES,
        ATTRIBUTES,
        PSEUDO_CLASSES,
        SELECTOR_ARGUMENTS,
        LITERALS,
        PATTERNS,
        OPERATORS,
        SET_ASIDE,
        UNBALANCED,
        EMPTY_PARTS,
        BAD_NAMES,
        BAD_ATTRIBUTES,
        UNKNOWN,
        BAD_NUMBERS,
        BAD_ARGUMENTS,
        BAD_PLACES,
        TWO_FINDINGS,
    ] {
        for (text, want) in rows {
            let read = read_afresh(alloc, text)?;
            let wanted = is_wanted(alloc, &read, text, want)?;
            assert_eq!(rt; wanted, true, "{text:?} is read as {read:?}");
        }
    }
    Ok(())
}

#[test]
fn patterns_are_asked_for_once(rt: HostRuntime) -> Result<(), Fail> {
    let alloc = rt.alloc();
    let mut calls = Calls::new(alloc);
    calls.push(1)?;
    calls.push(3)?;
    let mut maker = ListedMaker::new(alloc, calls);
    let mut table = PatternTable::new(alloc);
    // The patterns are asked for in the order `a`, `b`, `c`, `d`, each in one call, and the first call and the third are
    // refused. A text with another finding makes none.
    for (text, want) in [
        ("p:has-text(/b/) ..", Bad(BadName, 16)),
        ("p:has-text(/a/)", Bad(PatternTooLarge, 1)),
        ("p:has-text(/a/):has-text(/b/)", Bad(PatternTooLarge, 1)),
        ("p:has-text(/b/)", Same),
        ("p:has-text(/b/):has-text(/c/)", Bad(PatternTooLarge, 15)),
        ("p:has-text(/b/) d:has-text(/d/)", Same),
    ] {
        let read = read_selector(alloc, text, &mut table, &mut maker)?;
        let wanted = is_wanted(alloc, &read, text, &want)?;
        assert_eq!(rt; wanted, true, "{text:?} is read as {read:?}");
    }
    Ok(())
}

#[test]
fn a_canonical_text_has_the_same_numbers(rt: HostRuntime) -> Result<(), Fail> {
    let alloc = rt.alloc();
    let mut maker = CrateMaker::new(alloc);
    let mut table = PatternTable::new(alloc);
    let text = "a:matches-path(/x/u), b:-abp-contains(/y/):matches-attr(/x/=/y/)";
    let read = read_selector(alloc, text, &mut table, &mut maker)?;
    let Read::Filter(selector, action) = &read else {
        return Err(Fail::from("not a filter"));
    };
    let spelled = canonical(alloc, selector, action)?;
    let again = read_selector(alloc, spelled.as_str(), &mut table, &mut maker)?;
    let first = format!(in alloc; "{read:?}")?;
    let second = format!(in alloc; "{again:?}")?;
    assert_eq!(rt; second.as_str(), first.as_str());
    assert_eq!(rt; first.contains("number: 1"), true);
    assert_eq!(rt; first.contains("number: 2"), false);
    Ok(())
}
