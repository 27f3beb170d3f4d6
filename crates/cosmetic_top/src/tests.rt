// Runs over files in memory.
ghost use Rattle.std.specs.Prelude.{◌≡◌, ◌<◌, []};

use super::*;
use cos_outside::{Calls, MemoryShelf, MemorySink, NamedFiles};
use cos_patterns::{ListedMaker, Maker};
use listed::Bytes;
use std::alloc::{AllocError, Global};
use std::test::Fail;

// The words of a run and its files, by the names `L`, `P`, `S` and `R`; which call of the shelf fails, and which of the sink, counted
// from 1 (0 is none); and how many bytes the shelf gives and the sink takes at once.
#[derive(Clone, Copy)]
pub struct Given<'a> {
    pub words: &'a str,
    pub list: &'a [u8],
    pub page: &'a [u8],
    pub script: &'a [u8],
    pub rules: &'a [u8],
    pub begin_fails: u64,
    pub write_fails: u64,
    pub piece: usize,
}

fn bytes_of(alloc: Global, text: &[u8]) -> Result<Bytes, AllocError> {
    let mut bytes = Bytes::new(alloc);
    bytes.extend(text)?;
    Ok(bytes)
}

fn call(alloc: Global, number: u64) -> Result<Calls, AllocError> {
    let mut calls = Calls::new(alloc);
    calls.push(number)?;
    Ok(calls)
}

fn words_of(alloc: Global, text: &str) -> Result<Vec<String>, AllocError> {
    let mut words = Vec::new(alloc);
    for word in text.split_whitespace() {
        words.push(String::from_str(alloc, word)?)?;
    }
    Ok(words)
}

fn shelf_of(alloc: Global, given: &Given<'_>) -> Result<MemoryShelf, AllocError> {
    let mut files = NamedFiles::new(alloc);
    files.push((bytes_of(alloc, b"L")?, bytes_of(alloc, given.list)?))?;
    files.push((bytes_of(alloc, b"P")?, bytes_of(alloc, given.page)?))?;
    files.push((bytes_of(alloc, b"S")?, bytes_of(alloc, given.script)?))?;
    files.push((bytes_of(alloc, b"R")?, bytes_of(alloc, given.rules)?))?;
    let piece = given.piece.max(1);
    Ok(MemoryShelf::new(alloc, files, piece, call(alloc, given.begin_fails)?))
}

// How a run ends on the ledgers that the blanks stand for.
fn ended_on<M: Maker, L: Ledger, P: Ledger>(
    alloc: Global,
    words: &[String],
    shelf: &mut MemoryShelf,
    out: &mut MemorySink,
    maker: &mut M,
    checks: Blank,
    parts: Blank,
) -> Status
    requires large { M.large maker.old ≡ [] }
    requires unread { M.unread maker.old ≡ [] }
    requires checks { checks.name ≡ L.name }
    requires checks_parts { checks.parts ≡ L.parts }
    requires checks_some { 0 < checks.parts }
    requires parts { parts.name ≡ P.name }
    requires parts_parts { parts.parts ≡ P.parts }
    requires parts_some { 0 < parts.parts }
{
    let mut checks = Steps::<L>::new(checks);
    let mut parts = Steps::<P>::new(parts);
    run(alloc, words, shelf, out, maker, &mut checks, &mut parts)
}

// How a run ends, and what it wrote.
pub fn ended(alloc: Global, given: &Given<'_>) -> Result<(Status, MemorySink), AllocError> {
    let words = words_of(alloc, given.words)?;
    let mut shelf = shelf_of(alloc, given)?;
    let piece = given.piece.max(1);
    let mut out = MemorySink::short(alloc, call(alloc, given.write_fails)?, piece);
    let mut maker = CrateMaker::new(alloc);
    let status = ended_on::<CrateMaker, Brand, Brand>(
        alloc,
        words.as_slice(),
        &mut shelf,
        &mut out,
        &mut maker,
        Blank::new(1),
        Blank::new(1),
    );
    Ok((status, out))
}

// A list of each kind of entry and of notices, a page, a script of each change, and rules of public suffixes.
const LIST: &[u8] =
    b"! comment\n##.ad\n~a.com,example.*##.x:remove()\nexample.com#@##top\n###top\n##a:hover\n##[\n@@||example.com^$specifichide,domain=other.com\n||ads.example^\n";

const PAGE: &[u8] = b"<div id=top><p class=ad>t</p><i class=x><b class=ad></b></i></div>";

const SCRIPT: &[u8] =
    b"attr 1 class ad\ninsert 1 0 <u class=x>q</u>\nmove 2 0 0\n\nfly\ntext 3 u\ndelete 9\npath /b\nunset 1 class\r\ndelete 1";

const RULES: &[u8] = b"// rules\ncom\n*.ck\na.*.b\n";

const ALL: &str = "apply --url https://www.example.com/a?b#c --page P --script S --suffixes R L";

const NOTICES: &str =
    "note 0:4 malformed BadSuffix 0\nnote 1:6 set-aside State\nnote 1:7 malformed Unbalanced 2\nnote 1:9 set-aside Network\n";

const STEPS: &str = "page https://www.example.com/a?b
active 2
filter 1:2 .ad
filter 1:3 .x:remove()
step 0 opened
taken 1 4 i 1:3
hidden 1
 2 p 1:2
step 1 ok
hidden 2
 1 div 1:2
 2 p 1:2
step 2 ok
taken 1 6 u 1:3
hidden 2
 1 div 1:2
 2 p 1:2
step 3 ok
hidden 2
 2 p 1:2
 1 div 1:2
step 4 blank
hidden 2
 2 p 1:2
 1 div 1:2
step 5 bad UnknownWord
hidden 2
 2 p 1:2
 1 div 1:2
step 6 ok
hidden 2
 2 p 1:2
 1 div 1:2
step 7 refused NoSuchNode 9
hidden 2
 2 p 1:2
 1 div 1:2
step 8 ok
hidden 2
 2 p 1:2
 1 div 1:2
step 9 ok
hidden 1
 2 p 1:2
step 10 ok
hidden 1
 2 p 1:2
end 10
";

fn plan<'a>(words: &'a str, begin_fails: u64, write_fails: u64, piece: usize) -> Given<'a> {
    Given {
        words,
        list: LIST,
        page: PAGE,
        script: SCRIPT,
        rules: RULES,
        begin_fails,
        write_fails,
        piece,
    }
}

#[test]
fn each_command_ends_and_writes_as_its_input_says(rt: HostRuntime) -> Result<(), Fail> {
    let alloc = rt.alloc();
    let report = format!(in alloc; "{NOTICES}{STEPS}")?;
    let lists = format!(in alloc; "{NOTICES}read 3 filters 1 exceptions 1 options\n")?;
    for (words, status, written) in [
        (ALL, Status::Done, report.as_str()),
        ("lists --suffixes R L", Status::Done, lists.as_str()),
        (
            "apply --url https://example.com/ --page P --brief L",
            Status::Done,
            "note 1:6 set-aside State\nnote 1:7 malformed Unbalanced 2\nnote 1:9 set-aside Network\npage https://example.com/\nactive 2\nstep 0 opened\ntaken 1 4 i 1:3\nhidden 1\nend 0\n",
        ),
        (
            "drill 4",
            Status::Done,
            "drill 4 nodes 18 steps 4 hidden 2 taken 1\n",
        ),
        ("drill 4 --brief", Status::Done, "drill 4 hidden 2\n"),
        ("", Status::Usage, ""),
        ("apply L P", Status::Usage, ""),
        ("drill 0", Status::Usage, ""),
        ("lists", Status::Usage, ""),
        ("lists Q", Status::ReadFault, ""),
        (
            "apply --url example --page Q L",
            Status::Refused(InputRefusal::BadAddress),
            "",
        ),
        (
            "apply --url https://example.com/ --page Q L",
            Status::ReadFault,
            "",
        ),
        (
            "lists L L L L L L L L L L L L L L L L L L L L L L L L L L L L L L L L L",
            Status::Refused(InputRefusal::TooManyLists),
            "",
        ),
    ] {
        let (ended, out) = ended(alloc, &plan(words, 0, 0, 4096))?;
        assert_eq!(rt; ended, status, "of {words:?}");
        assert_eq!(rt; out.written(), written.as_bytes(), "of {words:?}");
    }
    Ok(())
}

// Calls of the shelf fail in turn, until none is left that fails: nothing is written before. Of many small pieces not each is tried.
#[test]
fn each_read_that_fails_ends_a_run_before_it_writes(rt: HostRuntime) -> Result<(), Fail> {
    let alloc = rt.alloc();
    for (piece, step) in [(1, 31), (7, 5), (4096, 1)] {
        let mut number = 1;
        for _ in 0..1000 {
            let (status, out) = ended(alloc, &plan(ALL, number, 0, piece))?;
            if status == Status::Done {
                break;
            }
            assert_eq!(rt;
                status,
                Status::ReadFault,
                "at call {number} of pieces of {piece}"
            );
            assert_eq!(rt; out.written(), b"".as_slice());
            number = number.saturating_add(step);
        }
    }
    Ok(())
}

// Writes fail in turn: what was written is a front of the whole output.
#[test]
fn each_write_that_fails_leaves_a_front(rt: HostRuntime) -> Result<(), Fail> {
    let alloc = rt.alloc();
    let report = format!(in alloc; "{NOTICES}{STEPS}")?;
    for (piece, step) in [(1, 31), (7, 5), (4096, 1)] {
        let mut number = 1;
        for _ in 0..1000 {
            let (status, out) = ended(alloc, &plan(ALL, 0, number, piece))?;
            assert_eq!(rt; report.as_bytes().starts_with(out.written()), true);
            if status == Status::Done {
                break;
            }
            assert_eq!(rt;
                status,
                Status::WriteFault,
                "at write {number} of pieces of {piece}"
            );
            number = number.saturating_add(step);
        }
    }
    Ok(())
}

// A page that is cut anywhere, and a list that is cut anywhere, is read all the same.
#[test]
fn cut_files_are_read(rt: HostRuntime) -> Result<(), Fail> {
    let alloc = rt.alloc();
    for end in 0..LIST.len().max(PAGE.len()) {
        let list = LIST.get(..end).unwrap_or(LIST);
        let page = PAGE.get(..end).unwrap_or(PAGE);
        let cut = Given {
            words: ALL,
            list,
            page,
            script: SCRIPT,
            rules: RULES,
            begin_fails: 0,
            write_fails: 0,
            piece: 4096,
        };
        let (status, _) = ended(alloc, &cut)?;
        assert_eq!(rt; status, Status::Done, "cut at {end}");
    }
    Ok(())
}

#[test]
fn pages_are_refused_before_the_script_is_read(rt: HostRuntime) -> Result<(), Fail> {
    let alloc = rt.alloc();
    let mut deep = String::new(alloc);
    for _ in 0..512 {
        deep.push_str("<b>")?;
    }
    let deepest = deep.as_str().as_bytes();
    let deeper = format!(in alloc; "{deep}<b>")?;
    for (page, status) in [
        (deepest, Status::ReadFault),
        (
            deeper.as_bytes(),
            Status::Refused(InputRefusal::PageTooDeep),
        ),
        (
            b"\xef\xbb\xbf<p>\xff".as_slice(),
            Status::Refused(InputRefusal::PageNotUtf8(6)),
        ),
    ] {
        let refused = Given {
            words: "apply --url https://example.com/ --page P --script Q L",
            list: LIST,
            page,
            script: b"",
            rules: b"",
            begin_fails: 0,
            write_fails: 0,
            piece: 4096,
        };
        let (ended, _) = ended(alloc, &refused)?;
        assert_eq!(rt; ended, status);
    }
    Ok(())
}

// The list has a pattern twice, and the maker is asked for it once.
#[test]
fn a_large_pattern_is_noted(rt: HostRuntime) -> Result<(), Fail> {
    let alloc = rt.alloc();
    let large = Given {
        words: "lists L",
        list: b"##p:has-text(/x/)\n##p:has-text(/t/)\n##p:has-text(/x/)\n",
        page: b"",
        script: b"",
        rules: b"",
        begin_fails: 0,
        write_fails: 0,
        piece: 4096,
    };
    let words = words_of(alloc, large.words)?;
    let mut shelf = shelf_of(alloc, &large)?;
    let mut out = MemorySink::new(alloc, Calls::new(alloc));
    let mut maker = ListedMaker::new(alloc, call(alloc, 1)?);
    let status = ended_on::<ListedMaker, Brand, Brand>(
        alloc,
        words.as_slice(),
        &mut shelf,
        &mut out,
        &mut maker,
        Blank::new(1),
        Blank::new(1),
    );
    let written =
        "note 1:1 malformed PatternTooLarge 3\nnote 1:3 malformed PatternTooLarge 3\nread 1 filters 0 exceptions 0 options\n";
    assert_eq!(rt; status, Status::Done);
    assert_eq!(rt; out.written(), written.as_bytes());
    Ok(())
}
