// Whole filters on small pages. The elements that each selects were worked out by hand from the rules of selectors.
//
// Above each page stand its nodes with their numbers, and below it its rows: a selector, `=>`, and the elements that it selects.
use super::*;
use crate::tests::{Given, ended};
use std::alloc::{AllocError, Global};
use std::test::Fail;

// What the report on one selector says behind the line of its filter.
fn step_of(alloc: Global, selector: &str, page: &str) -> Result<String, Fail> {
    let list = format!(in alloc; "##{selector}")?;
    let given = Given {
        words: "apply --url https://example.com/ --page P L",
        list: list.as_bytes(),
        page: page.as_bytes(),
        script: b"",
        rules: b"",
        begin_fails: 0,
        write_fails: 0,
        piece: 4096,
    };
    let (status, out) = ended(alloc, &given)?;
    if status != Status::Done {
        return Err(Fail::from("the run wasn't done"));
    }
    let Ok(report) = str::from_utf8(out.written()) else {
        return Err(Fail::from("the report isn't UTF-8"));
    };
    let head = "page https://example.com/\nactive 1\nfilter 1:1 ";
    let Some(behind) = report.strip_prefix(head) else {
        return Ok(String::from_str(alloc, report)?);
    };
    match behind.split_once("\n") {
        Some((_, step)) => Ok(String::from_str(alloc, step)?),
        None => Err(Fail::from("the line of the filter has no end")),
    }
}

// What a report says of the step that hides these elements: their numbers and names with commas between them, or `none`.
fn step_with(alloc: Global, elements: &str) -> Result<String, AllocError> {
    let mut hidden = Vec::new(alloc);
    if elements != "none" {
        for element in elements.split(", ") {
            hidden.push(element)?;
        }
    }
    let count = hidden.len();
    let mut step = format!(in alloc; "step 0 opened\nhidden {count}\n")?;
    for element in &hidden {
        step.push_str(format!(in alloc; " {element} 1:1\n")?.as_str())?;
    }
    step.push_str("end 0\n")?;
    Ok(step)
}

// ul 1 [li 2 [text], li 4 [text, ul 6 [li 7 [text], li 9 [text]]], li 11 [text]]
const LISTS: &str =
    "<ul id=top class='menu main'><li class=one>One<li class=two>Two<ul><li>Deep<li class=Two>Last</ul><li>End</ul>";

const LIST_ROWS: &str = "* => 1 ul, 2 li, 4 li, 6 ul, 7 li, 9 li, 11 li
li => 2 li, 4 li, 7 li, 9 li, 11 li
LI => 2 li, 4 li, 7 li, 9 li, 11 li
ol => none
.two => 4 li
.Two => 9 li
.TWO => none
*.one => 2 li
#top => 1 ul
#Top => none
li#top => none
ul.main.menu => 1 ul
.menu.Main => none
ul > li => 2 li, 4 li, 7 li, 9 li, 11 li
#top > li => 2 li, 4 li, 11 li
#top li li => 7 li, 9 li
ul ul => 6 ul
li li li => none
* > * > * > * => 7 li, 9 li
li + li => 4 li, 9 li, 11 li
li + li + li => 11 li
.one ~ li => 4 li, 11 li
.two ~ .one => none
li ~ li ~ li => 11 li
ul > .two li + .Two => 9 li
li:nth-child(odd) => 2 li, 7 li, 11 li
li:nth-child(2n) => 4 li, 9 li
li:nth-child(3) => 11 li
li:nth-last-child(-n+2) => 4 li, 7 li, 9 li, 11 li
li:nth-last-child(odd) => 2 li, 9 li, 11 li
li:first-child => 2 li, 7 li
:last-child => 1 ul, 6 ul, 9 li, 11 li
:only-child => 1 ul, 6 ul
li:has(ul) => 4 li
li:has(> li) => none
ul:has(> li > ul) => 1 ul
li:has(+ li) => 2 li, 4 li, 7 li
li:has(~ .Two) => 7 li
li:not(:has(+ li)) => 9 li, 11 li
li:upward(1) => 1 ul, 6 ul
li:upward(2) => 4 li
ul:upward(ul) => 1 ul
.Two:upward(li) + li => 11 li
li:has-text(Deep):upward(1) > :last-child => 9 li, 11 li
li:has-text(/^One|Last$/) => 2 li, 4 li, 9 li
li:has-text(Last), ul:has-text(End) => 1 ul, 4 li, 9 li";

// div 1 [h2 2 [text], p 4 [text], p 6 [text], h2 8 [text], i 10, p 11 [text]], hr 13, p 14 [text]
const NAMES: &str = "<div><h2>A</h2><p>B<p class=x>C<h2>D</h2><i></i><p>E</div><hr><p>F";

const NAME_ROWS: &str = "p:nth-of-type(2) => 6 p
:nth-of-type(1) => 1 div, 2 h2, 4 p, 10 i, 13 hr, 14 p
p:nth-of-type(-n+2) => 4 p, 6 p, 14 p
p:nth-of-type(n + 2) => 6 p, 11 p
p:nth-last-of-type(1) => 11 p, 14 p
:nth-last-of-type(2n+2) => 2 h2, 6 p
p:nth-last-of-type(-2n + 3) => 4 p, 11 p, 14 p
h2:first-of-type => 2 h2
:last-of-type => 1 div, 8 h2, 10 i, 11 p, 13 hr, 14 p
:only-of-type => 1 div, 10 i, 13 hr, 14 p
p:only-of-type => 14 p
h2:only-of-type => none
:only-child => none
div > :nth-child(-n+3) => 2 h2, 4 p, 6 p
div > :nth-child(-2n+5) => 2 h2, 6 p, 10 i
div > :nth-child(2n-1) => 2 h2, 6 p, 10 i
div > :nth-child(+4) => 8 h2
div > :nth-child(-4) => none
div > :nth-child(0) => none
p:nth-child(-n) => none
p:nth-child(n+3) => 6 p, 11 p, 14 p
p:nth-child(N) => 4 p, 6 p, 11 p, 14 p
:nth-child( EVEN ) => 4 p, 8 h2, 11 p, 13 hr
div > :nth-last-child(3n+1) => 6 p, 11 p
div > :nth-last-child(n+5) => 2 h2, 4 p
:nth-last-child(2) => 10 i, 13 hr
h2 + p => 4 p
h2 ~ p => 4 p, 6 p, 11 p
p + h2 + i => 10 i
h2 + p + p => 6 p
* + * => 4 p, 6 p, 8 h2, 10 i, 11 p, 13 hr, 14 p
i ~ * => 11 p
div + p => none
div ~ p => 14 p
h2, i => 2 h2, 8 h2, 10 i
p , .x,p.x => 4 p, 6 p, 11 p, 14 p
p:has(+ h2) => 6 p
:has(+ p + p) => 2 h2
p:has(~ p):not(:first-of-type) => 6 p
p:not(:is(.x, :last-child)) => 4 p
p:not(.x, h2 + p, div ~ p) => 11 p
:root => 1 div, 13 hr, 14 p
p:root => 14 p
:root > p => 4 p, 6 p, 11 p
:root + :root => 13 hr, 14 p
:not(:root) => 2 h2, 4 p, 6 p, 8 h2, 10 i, 11 p
h2:has-text(D) ~ p => 11 p
i:upward(div) ~ p => 14 p
hr:others() => 1 div, 14 p
i:others() => 2 h2, 4 p, 6 p, 8 h2, 11 p, 13 hr, 14 p";

// table 1 [thead 2 [tr 3 [th 4 [text], th 6 [text]]],
//          tbody 8 [tr 9 [td 10 [text], td 12 [text]], tr 14 [td 15 [text], td 17 [p 18 [text]], td 20 [text]]]]
const TABLE: &str =
    "<table><thead><tr><th>N<th>V<tbody><tr><td>a<td class=n>1<tr><td>b<td class=n><p>2<td>!</table>";

const TABLE_ROWS: &str = "tr > td => 10 td, 12 td, 15 td, 17 td, 20 td
table > tr => none
td:last-child => 12 td, 20 td
tr:has(td) => 9 tr, 14 tr
tr:not(:has(> td)) => 3 tr
tr:has(> :nth-child(3)) => 14 tr
td:has(> p) => 17 td
td:not(.n) => 10 td, 15 td, 20 td
td + .n => 12 td, 17 td
.n + td => 20 td
tbody tr:first-child td => 10 td, 12 td
thead ~ tbody > tr + tr => 14 tr
thead + tbody > tr > td:only-of-type => none
tr:nth-last-child(2) => 9 tr
tr:only-child => 3 tr
th:nth-child(2) => 6 th
p:upward(1) => 17 td
p:upward(2) => 14 tr
p:upward(4) => 1 table
p:upward(5) => none
p:upward(255) => none
p:upward(tr) => 14 tr
th:upward(tbody) => none
td:upward(tr, table) => 9 tr, 14 tr
td:upward(tbody > tr:nth-child(2)) => 14 tr
td:upward(tr:has(p)) => 14 tr
td:upward(td) => none
p:upward(tr) > td:first-child => 15 td
.n:upward(1) + tr => 14 tr
.n:upward(tr) .n => 12 td, 17 td
th:upward(thead) ~ * p => 18 p
td:has-text(b) => 15 td
tr:has-text(a1) => 9 tr
tbody:has-text(a1b2!) => 8 tbody
tr:has-text(/^.{3}$/) => 14 tr
:is(thead, tbody) > tr:only-child => 3 tr
tr:is(tbody > :first-child) => 9 tr
td:where(tr:has(p) > *) => 15 td, 17 td, 20 td
td:not(tr:has(p) > *) => 10 td, 12 td
td:not(tr + tr > td, .n) => 10 td
td:is(:upward(tr:has(p))) => 15 td, 17 td, 20 td
td:not(:upward(tr:has(p))) => 10 td, 12 td
p:others() => 2 thead, 9 tr, 15 td, 20 td
thead:others() td => 10 td, 12 td, 15 td, 17 td, 20 td";

// a 1 [text], a 3 [text], img 5, b 6 [text], b 8 [text]
const ATTRIBUTES: &str =
    "<a href=/ad/x title='Big Ad' lang=en-US>1</a><a href=/AD/ title='' data-ad=''>2</a><img id=3D alt=ad SRC='x.png?ad=1' data-x='a  b'><b lang=en class='c1 \tc-2'>3</b><b lang=english Class=C1 data-Ad=off data-q='&lt;&#65;'>4</b>";

const ATTRIBUTE_ROWS: &str = "[title] => 1 a, 3 a
[TITLE] => 1 a, 3 a
[data-ad] => 3 a, 8 b
[name] => none
[title=''] => 3 a
[data-q='<A'] => 8 b
[lang=en] => 6 b
[lang=EN] => none
[lang=EN i] => 6 b
[lang='en-us' I] => 1 a
[lang='en-us' s] => none
[ data-ad = \"OFF\" i ] => 8 b
[class='c1 \tc-2'] => 6 b
[class='c1 c-2'] => none
[data-x='a  b'] => 5 img
#\\33 D => 5 img
#\\33 d => none
[id='3d'] => none
.c1 => 6 b
.C1 => 8 b
.c-2 => 6 b
.c => none
[title~=Ad] => 1 a
[title~=ad] => none
[title~=ad i] => 1 a
[title~='Big Ad'] => none
[title~=''] => none
[class~=c-2] => 6 b
[class~=c1 i] => 6 b, 8 b
[data-x~=b] => 5 img
[lang|=en] => 1 a, 6 b
[lang|=EN] => none
[lang|=EN i] => 1 a, 6 b
[lang|='en-US'] => 1 a
[title|=Big] => none
[title|=''] => 3 a
[href^='/ad'] => 1 a
[href^='/ad' i] => 1 a, 3 a
[href^=ad] => none
[href^=''] => none
[lang^=en]:not([lang|=en]) => 8 b
[src$='=1'] => 5 img
[href$='/'] => 3 a
[href$=X] => none
[href$=X i] => 1 a
[title$=''] => none
[title*='g A'] => 1 a
[title*='G A'] => none
[title*='G A' i] => 1 a
[title*=''] => none
[data-x*='  '] => 5 img
[alt=ad], [data-ad=off] => 5 img, 8 b
a:not([data-ad]) => 1 a
:not([lang]) => 3 a, 5 img
:is([alt], b[class]) => 5 img, 6 b, 8 b
:matches-attr(title) => 1 a, 3 a
:matches-attr(titl) => none
:matches-attr(TITLE) => 1 a, 3 a
:matches-attr(\"title\"=\"Big Ad\") => 1 a
:matches-attr('title'='Big') => none
:matches-attr( title = Big Ad ) => 1 a
:matches-attr(title=) => 3 a
:matches-attr(src=x.png?ad=1) => 5 img
:matches-attr(lang=EN) => none
:matches-attr(/^data-/) => 3 a, 5 img, 8 b
:matches-attr(/DATA/) => none
:matches-attr(/DATA/i) => 3 a, 5 img, 8 b
:matches-attr(/^data-/=off) => 8 b
:matches-attr(/^data-/=/^a/) => 5 img
:matches-attr(data-ad=/F{2}/) => none
:matches-attr(data-ad=/F{2}/i) => 8 b
:matches-attr(/^(alt|title)$/=/ad/i) => 1 a, 5 img
:matches-attr(/a/=/^$/) => 3 a
b:not(:matches-attr(lang=/lish$/)) => 6 b
a:watch-attr() => 1 a, 3 a
b:watch-attr(class, DATA-ad) => 6 b, 8 b
img:watch-attr(href)[alt] => 5 img
b:not(:watch-attr(lang)) => none
b[data-ad]:others() => 1 a, 3 a, 5 img, 6 b";

// p 1 [text, b 3 [text], text], p 6 [text, comment, text], p 10 [text], div 12 [text, i 14 [text]], p 16. Their texts have 7, 5,
// 10, 13 and 0 units of UTF-16, b has 4 and i has 9.
const TEXTS: &str =
    "<p>ad<b>vert</b>s</p><p>ad<!--vert-->ver</p><p class=größe>Größe 😀😀</p><div>Sale<i>\nnow&amp;then</i></div><p></p>";

const TEXT_ROWS: &str = ":has-text(advert) => 1 p
:has-text(adver) => 1 p, 6 p
:has-text(vert) => 1 p, 3 b
p:has-text(AD) => none
p:has-text(/AD/) => none
p:has-text(/AD/i) => 1 p, 6 p
p:has-text(/^ad.*t/) => 1 p
p:-abp-contains(adv) => 1 p, 6 p
div:has-text(\"Sale\") => 12 div
div:has-text( 'sale' ) => none
:has-text(/e.n/) => none
:has-text(/e.n/s) => 12 div
:has-text(/^now/) => none
:has-text(/^now/m) => 12 div, 14 i
:has-text(/e$/) => none
:has-text(/e$/m) => 12 div
:has-text(/E.NOW/is) => 12 div
:has-text(/E$/im) => 12 div
:has-text(now&then) => 12 div, 14 i
:has-text(&amp;) => none
i:has-text(/now\\Wthen/) => 14 i
i:has-text(/\\//) => none
:has-text(😀) => 10 p
:has-text(/😀{2}$/u) => 10 p
:has-text(/ß.\\s/) => 10 p
p:has-text(/GRÖ/i) => 10 p
p:has-text(/^.{8}$/) => 10 p
.größe => 10 p
[class='GRöße' i] => 10 p
[class^='GRÖ' i] => none
:not(:has-text(/./s)) => 16 p
:is(p, div):has-text(/now|adver$/) => 6 p, 12 div
p:has(:has-text(vert)) => 1 p
p:has(b:has-text(ad)) => none
p:not(:has-text(ad), :empty) => 10 p
i:has-text(then):upward(div) => 12 div
:has-text(now) + p => 16 p
:min-text-length(0) => 1 p, 3 b, 6 p, 10 p, 12 div, 14 i, 16 p
:min-text-length(4) => 1 p, 3 b, 6 p, 10 p, 12 div, 14 i
:min-text-length(5) => 1 p, 6 p, 10 p, 12 div, 14 i
p:min-text-length(7) => 1 p, 10 p
p:min-text-length(8) => 10 p
:min-text-length(9) => 10 p, 12 div, 14 i
:min-text-length(010) => 10 p, 12 div
:min-text-length(11) => 12 div
:min-text-length(14) => none
:min-text-length(4294967295) => none
p:not(:min-text-length(6)) => 6 p, 16 p
:has(> :min-text-length(9)) => 12 div";

// text, section 2 [h1 3 [text]], comment, section 6 [p 7 [text]], text, footer 10, text
const ROOTS: &str =
    "<!DOCTYPE html>x<section><h1>T</h1></section><!--c--><section class=s><p>q</p></section> <footer></footer>y";

const ROOT_ROWS: &str = ":root => 2 section, 6 section, 10 footer
section:root => 2 section, 6 section
:root > * => 3 h1, 7 p
:root:first-child => 2 section
:root:last-child => 10 footer
:root:nth-child(2) => 6 section
:root:nth-last-child(2) => 6 section
:root:only-child => none
:root:only-of-type => 10 footer
:root:empty => 10 footer
:not(:root) => 3 h1, 7 p
* > section => none
section + section => 6 section
section + footer => 10 footer
section ~ footer => 10 footer
:only-child => 3 h1, 7 p
:has(+ .s) => 2 section
:root:has(~ footer) => 2 section, 6 section
:has(> p) => 6 section
:has(:root) => none
h1:is(:root *) => 3 h1
h1:upward(1) => 2 section
h1:upward(2) => none
h1:upward(:root) => 2 section
section:upward(1) => none
section:upward(*) => none
:not(:upward(1)) => 2 section, 6 section, 10 footer
:is(:upward(1)) => 3 h1, 7 p
:not(h1:upward(1)) => 2 section, 6 section, 7 p, 10 footer
:has(:upward(.s)) => 6 section
:has(> p:upward(2)) => none
:has(> p:upward(1) + footer) => 6 section
h1:others() => 6 section, 10 footer
p:others() => 2 section, 10 footer
section:others() => 10 footer
footer:others() => 2 section, 6 section
:is(h1, p):others() => 10 footer
h1, p:others() => 2 section, 3 h1, 10 footer
h1:others(), p:others() => 2 section, 6 section, 10 footer
:others() => none
table:others() => none
:root:others() => none
h1:others():others() => 2 section
h1:others( ) p => 7 p
footer:others():has(p) => 6 section
h1:others():not(section) => 10 footer";

// main 1 [div 2 [div 3 [a 4 [text]], span 6 [text]], div 8 [div 9 [a 10 [text]], b 12]], where all are cards but a 4, span 6,
// div 9, a 10 and b 12, and where div 2 and a 10 are ads
const CARDS: &str =
    "<main class=card><div class='card ad'><div class=card><a>x</a></div><span>s</span></div><div class=card><div><a class=ad>y</a></div><b></b></div></main>";

const CARD_ROWS: &str = "a:upward(.card) => 3 div, 8 div
.card:upward(.card) => 1 main, 2 div
.ad:upward(.ad) => none
a:upward(.ad) => 2 div
a:upward(div:not(.card)) => 9 div
a:upward(main > .card) => 2 div, 8 div
a:upward(:root) => 1 main
a:upward(:has(> span)) => 2 div
b:upward(:has(> span)) => none
a:upward(span, main) => 1 main
a:upward(1) => 3 div, 9 div
a:upward(2) => 2 div, 8 div
a:upward( 03 ) => 1 main
a:upward(4) => none
a:upward(2) > span => 6 span
a:upward(2) > * => 3 div, 6 span, 9 div, 12 b
a:upward(1) + span => 6 span
a:upward(1) ~ * => 6 span, 12 b
a:upward(2) a => 4 a, 10 a
a:upward(2) > :first-child:not(.card) => 9 div
a:upward(2) + div > b => 12 b
a:upward(1):upward(1) => 2 div, 8 div
.card:upward(1).card:upward(1) => 1 main
a:upward(.card):upward(.card) > span => 6 span
.ad:upward(1):has(> b) => none
.ad a:upward(main) => 1 main
b:upward(1), span:upward(div) => 2 div, 8 div
.card:has(.card) => 1 main, 2 div
.card:-abp-has(.ad) => 1 main, 8 div
.card:not(:has(.card)) => 3 div, 8 div
.card:has(> .card > a) => 2 div
.card:has(.card .card) => 1 main
.card:has(:has(> a.ad)) => 1 main, 8 div
div:has(> div:has(> a)) => 2 div, 8 div
:has(> :not(:has(*)) + span) => none
:has(> :has(*) + span) => 2 div
:has(> a, > b) => 3 div, 8 div, 9 div
:has(+ span, + b) => 3 div, 9 div
div:has(~ div) => 2 div
div:has(+ div a) => 2 div
:has(> div ~ span) => 2 div
div:is(.card .card) => 2 div, 3 div, 8 div
div:not(.card .card) => 9 div
:is(.ad, b):not(a) => 2 div, 12 b
:where(main > div) > div => 3 div, 9 div
:not(:not(a, b)) => 4 a, 10 a, 12 b
:is(:where(div, a):not(.card), span) => 4 a, 6 span, 9 div, 10 a
a:is(:upward(.ad)) => 4 a
a:not(:upward(.ad)) => 10 a
:is(.card:upward(1)) => 2 div, 3 div, 8 div
div:not(.card:upward(2)) => 2 div, 8 div, 9 div
:is(a:upward(2) > span) => 4 a
:is(a:upward(2) > b, span) => 6 span, 10 a
.card:has(a:upward(.ad)) => 1 main, 2 div, 3 div
.card:has(> a:upward(3)) => 3 div
:has(> .ad:upward(1) > .card) => 1 main
.ad:others() => 12 b
span:others() => 3 div, 8 div
a:others() => 6 span, 12 b
.card:others() => none
b:others() a => 4 a, 10 a
a:upward(1):others() => 6 span, 12 b";

// div 1, div 2 [comment], div 4 [text], div 6 [p 7], div 8 [br 9], p 10 [comment, comment], textarea 13, g 14, i 15 [text]
const EMPTIES: &str =
    "<div></div><div><!--c--></div><div> </div><div><p></p></div><div><br></div><p><!--a--><!--b--></p><textarea></textarea><g/><i/>x";

const EMPTY_ROWS: &str = ":empty => 1 div, 2 div, 7 p, 9 br, 10 p, 13 textarea, 14 g
div:empty => 1 div, 2 div
i:empty => none
div:not(:empty) => 4 div, 6 div, 8 div
div:not(:has(*)) => 1 div, 2 div, 4 div
div:not(:empty):not(:has(*)) => 4 div
div > :empty => 7 p, 9 br
div:has(> :empty) => 6 div, 8 div
:empty + :empty => 2 div, 13 textarea, 14 g
div:empty ~ div:empty => 2 div
g > i => none
g + i => 15 i
textarea ~ * => 14 g, 15 i
br:only-child => 9 br
:min-text-length(1) => 4 div, 15 i
:has-text(\" \") => 4 div
:has-text(/^\\s$/) => 4 div
p:has-text(a) => none
:has-text(/^$/):not(:empty) => 6 div, 8 div
div:nth-of-type(2n+1) => 1 div, 4 div, 8 div
div:nth-last-of-type(2) => 6 div
:root:nth-child(n+7) => 13 textarea, 14 g, 15 i
br:others() => 1 div, 2 div, 4 div, 6 div, 10 p, 13 textarea, 14 g, 15 i
div:others() => 10 p, 13 textarea, 14 g, 15 i";

// html 1 [head 2 [title 3 [text], meta 5, style 6 [text], link 8],
//         body 9 [script 10 [text], article 12 [p 13 [text], aside 15 [text]], nav 17 [text], style 19]], html 20
const HEADED: &str =
    "<html><head><title>T</title><meta name=ad><style>p{}</style><link rel=x></head><body><script>1<2</script><article><p>a</p><aside>b</aside></article><nav>n</nav><style></style></body></html><html></html>";

const HEAD_ROWS: &str = "p:others() => 15 aside, 17 nav
nav:others() => 12 article
meta:others() => none
title:others() => none
body:others() => none
html:others() => none
article:others() => 17 nav
script:others() => 12 article, 17 nav
:is(p, nav):others() => 15 aside
p, nav:others() => 12 article, 13 p
p:others():not(nav) => 15 aside
p:others() + * => 19 style
nav:others() > p => 13 p
aside:others():upward(1) => 9 body, 12 article
p:upward(article):others() => 17 nav
style => 6 style, 19 style
:empty => 5 meta, 8 link, 19 style, 20 html
:root => 1 html, 20 html
:root > :last-child => 9 body
head + body => 9 body
head:has(> [name=ad]) => 2 head
head > :nth-child(2n) => 5 meta, 8 link
body > :not(script, style) => 12 article, 17 nav
style:has-text(p{}) => 6 style
script:has-text(1<2) => 10 script
title:has-text(T) => 3 title
body > *:has-text(ab) => 12 article
html:has-text(/^Tp.*abn$/) => 1 html
nav:matches-path(/) => 17 nav
nav:matches-path(\"/\") => 17 nav
nav:matches-path(\\/) => 17 nav
nav:matches-path(//) => none
nav:matches-path(/index) => none
nav:matches-path(/^\\/$/) => 17 nav
nav:matches-path(/X/i) => none
p:not(:matches-path(/^\\/a/)) => 13 p
p:not(:matches-path(/)) => none
article:has(> p:matches-path(/)) => 12 article
aside:matches-path(/):has-text(b):upward(body) > nav => 17 nav";

// text, comment
const NO_ELEMENTS: &str = "just &lt;p&gt; text<!-- <p>c</p> --></p>";

const NO_ELEMENT_ROWS: &str = "* => none
p => none
:root => none
:not(p) => none
:others() => none
:has-text(just) => none
:min-text-length(0) => none
:matches-path(/) => none";

#[test]
fn filters_select_what_their_rows_say(rt: HostRuntime) -> Result<(), Fail> {
    let alloc = rt.alloc();
    for (page, rows) in [
        (LISTS, LIST_ROWS),
        (NAMES, NAME_ROWS),
        (TABLE, TABLE_ROWS),
        (ATTRIBUTES, ATTRIBUTE_ROWS),
        (TEXTS, TEXT_ROWS),
        (ROOTS, ROOT_ROWS),
        (CARDS, CARD_ROWS),
        (EMPTIES, EMPTY_ROWS),
        (HEADED, HEAD_ROWS),
        (NO_ELEMENTS, NO_ELEMENT_ROWS),
    ] {
        for row in rows.lines() {
            let Some((selector, elements)) = row.split_once(" => ") else {
                return Err(Fail::from("a row without its sign"));
            };
            let step = step_of(alloc, selector, page)?;
            let expected = step_with(alloc, elements)?;
            assert_eq!(rt; step.as_str(), expected.as_str(), "at {selector}");
        }
    }
    Ok(())
}
