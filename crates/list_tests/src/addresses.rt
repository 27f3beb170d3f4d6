use address_patterns::{AddressPattern, Page};
use std::alloc::Global;
use std::process::Abort;
use std::test::Fail;
use url::Url;

// Addresses, and the patterns that match them; `!` before those that don't.
const ROWS: &str =
    "https://example.com/ => * ** example EXAMPLE https:// |https:// com/| com^ com^| |https://example.com/| | ||
https://example.com/ => ||example.com ||EXAMPLE.com^ ||com ||com^ ||example.com^| ||example*/ ^example. ://*.com
https://example.com/ => !exampel !|http: !|example !com| !||ample.com !||xample !||/ !example^com !||| !||https: !|*m|
https://www.example.com/ => ||example.com ||www. ||www.example.com/| ||com ||ww !||w.example !||ple.com
https://notexample.com/ => example.com !||example.com !||example !^example
https://example.com./a => ||example.com. ||/a ||com./a !||example.com/ !||com/
https://example.com:8080/ => com^8080 ||example.com^8080^| ||example.com: !||8080 !||:8080
https://example.com/Path => path /PATH| path^ path^^ path^| ^path^ ||com/path !^path^x !path*path
https://example.com/path_ => path path_^ !path^
https://example.com/path%20x => path% !path^
https://example.com/path-a.b => path-a path*a*b| !path^ !a^b !path-^
https://example.com/axbxb => /a*b| /a*b*b| |https*b| /a*x*x !/a*b*b*b !/a*c !/a*bb
https://example.com/acbc => /a*b*c| /a*c| !/a*c*c*c
https://a.test/?https://example.com/ => |https:*com/| ^example.com^ ||test/?https !||example.com !||com !|https://example
https://a.test/b.com => ||a.test/b ||test/b !||b.com !||com
https://a.test/?q=1#frag => ?q=1 q=1| q^1^ !frag !# !q=1*f
https://10.0.0.1/x => ||10. ||0.1/ ||1/x !||0.0.0.1
data:text/x,x => x |data: x| text^x^x !||x !||data !||";

// Compares what a row says of a pattern with whether it matches.
fn check_pattern(rt: &impl Abort, alloc: Global, page: &Page, word: &str) -> Result<(), Fail> {
    let text = word.strip_prefix('!').unwrap_or(word);
    let pattern = AddressPattern::read(alloc, text)?;
    assert_eq!(rt;
        pattern.matches(page),
        !word.starts_with('!'),
        "{page:?} {word}"
    );
    Ok(())
}

#[test]
fn patterns_match_addresses(rt: HostRuntime) -> Result<(), Fail> {
    let alloc = rt.alloc();
    for row in ROWS.lines() {
        let (address, patterns) = row.split_once(" => ").ok_or("a row without patterns")?;
        let url = Url::parse(alloc, address).ok().ok_or("no address")?;
        let page = Page::of(alloc, &url)?;
        for word in patterns.split(' ') {
            check_pattern(&rt, alloc, &page, word)?;
        }
        assert!(rt; AddressPattern::read(alloc, "")?.matches(&page));
    }
    Ok(())
}
