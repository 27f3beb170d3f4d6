use filter_scope::{Scope, ScopeRead};
use host_names::{Host, Suffixes};
use std::alloc::Global;
use std::process::Abort;
use std::test::Fail;

// Texts of hosts, and the place of the first bad item or whether the scope is generic.
const TEXTS: &str = "a.com => specific
a.com,,b.com => 6
~* => 0
~a.com => generic
* => specific
~a.com,~b.com => generic
a.com,~b.com => specific
a.com, b.com => specific
 a.com , ~b.com  => specific
a.* => specific
~a.* => generic
a.*.b => 0
*.a => 0
** => 0
~~a => 0
~ => 0
.* => 0
a.com, ,b.com => 7
a.com, => 6
,a.com => 0
a.com,  b c => 8
a.com,b..com => 6
a.com. => 0
a|b => 0
B\u{FC}cher.Example => specific";

// What a text is read as, in a row's word.
fn check_text(rt: &impl Abort, alloc: Global, row: &str) -> Result<(), Fail> {
    let (text, wanted) = row.split_once(" => ").ok_or("a row without a word")?;
    match Scope::read(alloc, text, b',')? {
        ScopeRead::Scope(scope) => {
            let word = if scope.generic() {
                "generic"
            } else {
                "specific"
            };
            assert_eq!(rt; word, wanted, "{row}");
        }
        ScopeRead::BadHost(place) => {
            let number = wanted.parse::<usize>().ok().ok_or("no place")?;
            assert_eq!(rt; place, number, "{row}");
        }
    }
    Ok(())
}

#[test]
fn texts_are_read_as_scopes(rt: HostRuntime) -> Result<(), Fail> {
    for row in TEXTS.lines() {
        check_text(&rt, rt.alloc(), row)?;
    }
    Ok(())
}

// Hosts, and the scopes that apply to their pages under the rules `com`, `uk` and `co.uk`; `!` before those that don't.
const APPLY: &str =
    "a.com => * a.com a.* ~b.com ~b.* a.com,~b.a.com ~b.a.com,a.com a.com,b.com b.com,a.com *,~b.com
a.com => !b.com !ba.com !b.a.com !~a.com !~a.* !*,~a.com !a.*,~a.com !a.com,~a.* !b.* !a.com.*
b.a.com => * a.com b.a.com a.* b.a.* ~b.com ~ba.com *,~b.com
b.a.com => !~a.com !~a.* !a.com,~b.a.com !~b.a.com,a.com !b.com !b.* !c.b.a.com
c.b.a.com => a.com a.* b.a.* !a.com,~b.a.com
d.a.com => a.com,~b.a.com ~b.a.com,a.com
ba.com => ~a.com ~a.* *,~a.com ba.* !a.com !a.* !a.com,b.com
a.co.uk => a.* co.uk uk a.*,~a.com !a.co.* !co.* !a.uk
b.a.co.uk => a.* b.a.* !b.*
co.uk => uk co.uk ~a.* !co.* !uk.*
com => com ~a.com !com.* !a.com
com.com => com com.*
a.b.com => ~a.* a.b.* b.* !a.* !a.com
a => a ~a.* * !a.*
10.0.0.1 => 10.0.0.1 0.1 ~10.0.0.* !10.0.0.* !1.* !10.0.0";

// Compares what a row says of a scope with whether it applies.
fn check_scope(
    rt: &impl Abort,
    alloc: Global,
    host: &Host,
    rules: &Suffixes,
    word: &str,
) -> Result<(), Fail> {
    let text = word.strip_prefix('!').unwrap_or(word);
    if let ScopeRead::Scope(scope) = Scope::read(alloc, text, b',')? {
        let applies = !word.starts_with('!');
        assert_eq!(rt; scope.applies(host, rules), applies, "{host:?} {word}");
    }
    Ok(())
}

#[test]
fn scopes_apply_to_hosts(rt: HostRuntime) -> Result<(), Fail> {
    let alloc = rt.alloc();
    let read = Suffixes::read(alloc, b"com\nuk\nco.uk")?;
    for row in APPLY.lines() {
        let (name, scopes) = row.split_once(" => ").ok_or("a row without scopes")?;
        let host = Host::read(alloc, name)?.ok_or("no host")?;
        for word in scopes.split(' ') {
            check_scope(&rt, alloc, &host, &read.rules, word)?;
        }
        assert!(rt; Scope::everywhere(alloc).applies(&host, &read.rules));
    }
    Ok(())
}
