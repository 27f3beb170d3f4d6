// A list of lines of each kind.

use cos_patterns::{CrateMaker, PatternTable};
use list_entries::{Entry, Notice};
use list_reader::read_list;
use listed::Names;
use selector_spelling::{Cause, Kind};
use std::test::Fail;

#[test]
fn a_list_of_lines_of_each_kind_is_read(rt: HostRuntime) -> Result<(), Fail> {
    let alloc = rt.alloc();
    let mut table = PatternTable::new(alloc);
    let mut maker = CrateMaker::new(alloc);
    let source =
        b"! c\n## .ad \n##\n  a.com##a:foo()\r\n##p:has-text(/[/)\n\n##a:hover\n##a:remove()\n##+js(x)\n#@#p\n\xff\n";
    let names = Names::new(alloc);
    let read = read_list(alloc, source, 7, &names, &mut table, &mut maker)?;
    let notices = [
        malformed(3, Cause::EmptyPart, 2),
        malformed(4, Cause::UnknownPseudo, 10),
        malformed(5, Cause::BadPattern, 3),
        aside(7, Kind::State),
        aside(9, Kind::Scriptlet),
        malformed(11, Cause::NotUtf8, 0),
    ];
    assert_eq!(rt; read.notices.as_slice(), notices.as_slice());
    let texts = [(2, ".ad"), (8, "a:remove()"), (0, "p")];
    assert_eq!(rt; read.entries.len(), texts.len());
    for (place, (number, text)) in texts.iter().enumerate() {
        let (line, canonical) = match read.entries.at(place).ok_or("no entry")? {
            Entry::Filter { filter, .. } => (filter.line, filter.canonical.as_str()),
            Entry::Exception { canonical, .. } => (0, canonical.as_str()),
            Entry::Page { .. } => return Err(Fail::from("a page option")),
        };
        assert_eq!(rt; line, *number);
        assert_eq!(rt; canonical, *text);
    }
    Ok(())
}

fn aside(line: u32, kind: Kind) -> Notice {
    Notice::SetAside { line, kind }
}

fn malformed(line: u32, cause: Cause, at: usize) -> Notice {
    Notice::Malformed { line, cause, at }
}
