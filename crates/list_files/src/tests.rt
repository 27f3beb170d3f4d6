// What is read of files, and what is written of it.
ghost use Rattle.std.specs.Prelude.{◌≡◌, ◌≤◌, ◌<◌, ◌^◌, length, sum_by, IfOk};

use crate::*;
use address_patterns::Page;
use command_inputs::Sources;
use cos_outside::{Calls, MemorySink};
use cos_patterns::CrateMaker;
use hide_report::ReportError;
use host_names::Host;
use listed::{Bytes, Listed, Names, Text};
use std::alloc::{AllocError, Global};
use std::test::Fail;

fn bytes_of(alloc: Global, bytes: &[u8]) -> Result<Bytes, AllocError>
    ensures { IfOk result (λ made. made ≡ bytes.now) }
{
    let mut made = Bytes::new(alloc);
    made.extend(bytes)?;
    Ok(made)
}

// A rule and a line that spells none, and two lists, the first with a byte order mark.
fn sources(alloc: Global) -> Result<Sources, AllocError>
    ensures suffixes { IfOk result (λ sources. length sources.suffixes < 2 ^ 32) }
    ensures lists { IfOk result (λ sources. sum_by length sources.lists < 2 ^ 32) }
    ensures few { IfOk result (λ sources. length sources.lists ≡ 2) }
{
    let first = b"\xef\xbb\xbf##.ad\n!#if ours\nexample.com##p\n!#endif\n";
    let second = b"example.com#@#.ad\n||example.com^\n";
    let mut lists = Listed::new(alloc);
    lists.push(bytes_of(alloc, first)?)?;
    lists.push(bytes_of(alloc, second)?)?;
    Ok(Sources {
        suffixes: bytes_of(alloc, b"com\n!net\n")?,
        lists,
    })
}

fn page(alloc: Global) -> Result<Page, AllocError> {
    Ok(Page {
        address: Text::of(alloc, "https://example.com/")?,
        host: Host::of_page(alloc, "example.com")?,
        host_from: 8,
        host_to: 19,
        path: Text::of(alloc, "/")?,
    })
}

#[test]
fn lists_are_read_and_written(rt: HostRuntime) -> Result<(), Fail> {
    let alloc = rt.alloc();
    let mut env = Names::new(alloc);
    env.push(Text::of(alloc, "ours")?)?;
    let mut maker = CrateMaker::new(alloc);
    let read = read_sources(alloc, &env, &sources(alloc)?, &mut maker)?;

    let mut out = MemorySink::new(alloc, Calls::new(alloc));
    assert_eq!(rt; write_lists_report(alloc, &mut out, &read), Ok(()));
    let text = "note 0:2 malformed BadSuffix 0
note 2:2 set-aside Network
read 2 filters 1 exceptions 0 options
";
    assert_eq!(rt; out.written(), text.as_bytes());

    // A sink whose second call fails.
    let mut fails = Calls::new(alloc);
    fails.push(2)?;
    let mut out = MemorySink::new(alloc, fails);
    assert_eq!(rt;
        write_all_notices(alloc, &mut out, &read),
        Err(ReportError::WriteFault)
    );
    assert_eq!(rt;
        out.written(),
        b"note 0:2 malformed BadSuffix 0\n".as_slice()
    );

    // The exception takes the first filter away.
    let active = active_filters(alloc, read.lists, &page(alloc)?, &read.rules, &read.table)?;
    assert_eq!(rt; active.len(), 1);
    assert_eq!(rt; active.at(0).ok_or("none")?.line, 3);
    Ok(())
}
