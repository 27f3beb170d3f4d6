use host_names::{Host, Suffixes};
use listed::Text;
use std::alloc::Global;
use std::process::Abort;
use std::test::Fail;

#[test]
fn hosts_are_read(rt: HostRuntime) -> Result<(), Fail> {
    let alloc = rt.alloc();
    let host = Host::read(alloc, "B\u{FC}cher.Example")?.ok_or("a host")?;
    assert_eq!(rt; host.as_str(), "xn--bcher-kva.example");
    for text in ["", ".", "a..b", ".a", "a.", "*", "a.*", "~a", "a b", "a/b"] {
        assert!(rt; Host::read(alloc, text)?.is_none());
    }
    Ok(())
}

// Rules of every form.
const RULES: &str = "// rules
com
uk
co.uk

jp
*.kobe.jp
!city.kobe.jp
x.city.kobe.jp
*.ck
!www.ck
!a.www.ck
org and words behind
\t io \t
GitHub.io
\u{440}\u{444}
b\u{FC}cher.test
*.compute.test
de
com.de
*
// the end";

// Hosts, their rests and their public suffixes, worked out by hand from the rules; `-` for no rest.
const HOSTS: &str = "example.com => example com
www.example.com => www.example com
a.b.c.example.com => a.b.c.example com
com => -
com.com => com com
notcom => -
example.notcom => example notcom
a.example.notcom => a.example notcom
uk => -
example.uk => example uk
co.uk => -
example.co.uk => example co.uk
www.example.co.uk => www.example co.uk
co.uk.co.uk => co.uk co.uk
xco.uk => xco uk
a.xco.uk => a.xco uk
co.uk.com => co.uk com
jp => -
kobe.jp => kobe jp
example.jp => example jp
a.kobe.jp => -
b.a.kobe.jp => b a.kobe.jp
c.b.a.kobe.jp => c.b a.kobe.jp
city.kobe.jp => city kobe.jp
www.city.kobe.jp => www.city kobe.jp
x.city.kobe.jp => x.city kobe.jp
y.x.city.kobe.jp => y.x.city kobe.jp
xcity.kobe.jp => -
a.xcity.kobe.jp => a xcity.kobe.jp
akobe.jp => akobe jp
b.akobe.jp => b.akobe jp
ck => -
y.ck => -
x.y.ck => x y.ck
w.x.y.ck => w.x y.ck
www.ck => www ck
b.www.ck => b.www ck
a.www.ck => a www.ck
x.a.www.ck => x.a www.ck
wwww.ck => -
b.wwww.ck => b wwww.ck
org => -
a.org => a org
and.org => and org
io => -
github.io => -
user.github.io => user github.io
www.user.github.io => www.user github.io
example.io => example io
notgithub.io => notgithub io
a.notgithub.io => a.notgithub io
xn--p1ai => -
example.xn--p1ai => example xn--p1ai
xn--e1afmkfd.xn--p1ai => xn--e1afmkfd xn--p1ai
xn--p1ai.com => xn--p1ai com
xn--bcher-kva.test => -
a.xn--bcher-kva.test => a xn--bcher-kva.test
bcher-kva.test => bcher-kva test
compute.test => compute test
eu.compute.test => -
a.eu.compute.test => a eu.compute.test
b.a.eu.compute.test => b.a eu.compute.test
test => -
a.test => a test
de => -
com.de => -
a.com.de => a com.de
example.de => example de
localhost => -
a.localhost => a localhost
1.2.3.4 => -
256.1 => -
a.1 => -
a.0 => -
com.10 => -
1.a => 1 a
a.1a => a 1a
1.com => 1 com
10.20.30.com => 10.20.30 com
a.b => a b
b => -";

// Compares the rest of a host with that of its row.
fn check_host(rt: &impl Abort, alloc: Global, rules: &Suffixes, row: &str) -> Result<(), Fail> {
    let (name, parts) = row.split_once(" => ").ok_or("a row without parts")?;
    let host = Host::read(alloc, name)?.ok_or("no host")?;
    let mut joined = Text::new(alloc);
    match rules.rest(&host) {
        Some(rest) => {
            joined.push_str(rest)?;
            joined.push(' ')?;
            // What stands behind the rest and its dot.
            joined.push_str(name.get(rest.len() + 1..).unwrap_or(""))?;
        }
        None => joined.push('-')?,
    }
    assert_eq!(rt; joined.as_str(), parts, "{row}");
    Ok(())
}

#[test]
fn rests_are_found_under_rules_of_every_form(rt: HostRuntime) -> Result<(), Fail> {
    let alloc = rt.alloc();
    let read = Suffixes::read(alloc, RULES.as_bytes())?;
    assert_eq!(rt; read.bad.len(), 0);
    for row in HOSTS.lines() {
        check_host(&rt, alloc, &read.rules, row)?;
    }
    Ok(())
}

// Lines of rules, some of them malformed.
const BAD_LINES: &str = "com
*.
a.*
a.*.b
// no rule
!net
!*.net
!
.
a..b

.a
*
a.
**.a
~a
*.a
*a
!a.b
//a b
/a";

#[test]
fn bad_rules_are_noted(rt: HostRuntime) -> Result<(), Fail> {
    let alloc = rt.alloc();
    let read = Suffixes::read(alloc, BAD_LINES.as_bytes())?;
    let bad = [2, 3, 4, 6, 7, 8, 9, 10, 12, 14, 15, 16, 18, 21];
    assert_eq!(rt; read.bad.as_slice(), bad.as_slice());
    Ok(())
}
