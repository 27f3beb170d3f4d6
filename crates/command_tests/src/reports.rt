// Reports as they are printed, over a sink that takes short pieces.
ghost use Rattle.hide_report.specs.Reported.{IsAnswer};

use address_patterns::{AddressPattern, HideOptions, Page};
use cos_outside::{Calls, MemorySink};
use dom_arena::{Attrs, Dom, DomError, NewNode};
use filter_scope::Scope;
use hide_report::{
    Answer, DrillCounts, ReportError, write_counts, write_drill, write_end, write_head,
    write_notices, write_step,
};
use host_names::Host;
use list_entries::{Entries, Entry, ListRead, Lists, Notice, Notices};
use mutation_script::BadLine;
use selector_spelling::{Cause, Kind};
use selector_tree::{
    Action, Active, Filter, HiddenRow, Numbers, Rows, Selector, Taken, TakenList, Text,
};
use std::alloc::{AllocError, Global};
use std::test::Fail;

fn filter(alloc: Global, line: u32, canonical: &str, action: Action) -> Result<Filter, AllocError> {
    Ok(Filter {
        list: 1,
        line,
        selector: Selector::new(alloc),
        action,
        canonical: Text::of(alloc, canonical)?,
    })
}

fn two_filters(alloc: Global) -> Result<Active, AllocError> {
    let mut active = Active::new(alloc);
    active.push(filter(alloc, 1, "div:empty:remove()", Action::Remove)?)?;
    active.push(filter(alloc, 2, "p", Action::Hide)?)?;
    Ok(active)
}

fn example_page(alloc: Global) -> Result<Page, AllocError> {
    Ok(Page {
        address: Text::of(alloc, "https://example.com/a?b")?,
        host: Host::of_page(alloc, "example.com")?,
        host_from: 8,
        host_to: 19,
        path: Text::of(alloc, "/a?b")?,
    })
}

// One element.
fn a_paragraph(alloc: Global) -> Result<Dom, Fail> {
    let mut dom = Dom::new(alloc)?;
    let name = Text::of(alloc, "p")?;
    let attrs = Attrs::new(alloc);
    dom.add(0, 0, NewNode::Element { name, attrs })
        .map_err(|_| "not added")?;
    Ok(dom)
}

fn places(alloc: Global, of: &[u32]) -> Result<Numbers, AllocError> {
    let mut numbers = Numbers::new(alloc);
    numbers.extend(of)?;
    Ok(numbers)
}

fn div_taken(alloc: Global, round: u32, node: u32) -> Result<Taken, AllocError> {
    Ok(Taken {
        round,
        node,
        name: Text::of(alloc, "div")?,
        filters: places(alloc, &[0])?,
    })
}

fn three_taken(alloc: Global) -> Result<TakenList, AllocError> {
    let mut taken = TakenList::new(alloc);
    taken.push(div_taken(alloc, 1, 4)?)?;
    taken.push(div_taken(alloc, 2, 3)?)?;
    taken.push(div_taken(alloc, 3, 2)?)?;
    Ok(taken)
}

// The element, hidden by the second filter. A place past the filters has no name.
fn one_hidden(alloc: Global) -> Result<Rows, AllocError> {
    let mut rows = Rows::new(alloc);
    rows.push(HiddenRow {
        node: 1,
        filters: places(alloc, &[1, 2])?,
    })?;
    Ok(rows)
}

// Two filters, an exception and a page option.
fn two_lists(alloc: Global) -> Result<Lists, AllocError> {
    let everywhere = || Scope::everywhere(alloc);
    let mut first = Entries::new(alloc);
    first.push(Entry::Filter {
        filter: filter(alloc, 1, "p", Action::Hide)?,
        scope: everywhere(),
    })?;
    first.push(Entry::Exception {
        canonical: Text::of(alloc, "p")?,
        scope: everywhere(),
    })?;
    let mut second = Entries::new(alloc);
    second.push(Entry::Page {
        pattern: AddressPattern::read(alloc, "*")?,
        domain: None,
        options: HideOptions {
            elem: true,
            generic: false,
            specific: false,
        },
    })?;
    second.push(Entry::Filter {
        filter: filter(alloc, 2, "p", Action::Hide)?,
        scope: everywhere(),
    })?;
    let mut lists = Lists::new(alloc);
    for entries in [first, second] {
        lists.push(ListRead {
            entries,
            notices: Notices::new(alloc),
        })?;
    }
    Ok(lists)
}

// A step in which nothing was taken out and nothing is hidden.
fn quiet_step(
    alloc: Global,
    out: &mut MemorySink,
    number: u32,
    answer: &Answer,
    brief: bool,
) -> Result<(), Fail>
    requires { IsAnswer answer.now }
{
    let dom = Dom::new(alloc)?;
    let active = Active::new(alloc);
    let taken = TakenList::new(alloc);
    let rows = Rows::new(alloc);
    write_step(
        alloc, out, number, answer, &dom, &active, &taken, &rows, brief,
    )
    .map_err(|_| "step")?;
    Ok(())
}

// A whole report, or a brief one.
fn report(alloc: Global, out: &mut MemorySink, brief: bool) -> Result<(), Fail> {
    let page = example_page(alloc)?;
    let active = two_filters(alloc)?;
    let taken = three_taken(alloc)?;
    let rows = one_hidden(alloc)?;
    let dom = a_paragraph(alloc)?;
    write_head(alloc, out, &page, &active, brief).map_err(|_| "head")?;
    write_step(
        alloc,
        out,
        0,
        &Answer::Opened,
        &dom,
        &active,
        &taken,
        &rows,
        brief,
    )
    .map_err(|_| "opened")?;
    quiet_step(alloc, out, 1, &Answer::Done, brief)?;
    quiet_step(
        alloc,
        out,
        2,
        &Answer::Refused(DomError::BadPlace(5)),
        brief,
    )?;
    quiet_step(alloc, out, 3, &Answer::Bad(BadLine::UnknownWord), brief)?;
    quiet_step(alloc, out, 4, &Answer::Blank, brief)?;
    write_end(alloc, out, 4).map_err(|_| "end")?;
    Ok(())
}

#[test]
fn reports_are_written_whole_or_brief(rt: HostRuntime) -> Result<(), Fail> {
    let alloc = rt.alloc();
    let mut out = MemorySink::short(alloc, Calls::new(alloc), 7);
    report(alloc, &mut out, false)?;
    let text = "page https://example.com/a?b
active 2
filter 1:1 div:empty:remove()
filter 1:2 p
step 0 opened
taken 1 4 div 1:1
taken 2 3 div 1:1
taken 3 2 div 1:1
hidden 1
 1 p 1:2
step 1 ok
hidden 0
step 2 refused BadPlace 5
hidden 0
step 3 bad UnknownWord
hidden 0
step 4 blank
hidden 0
end 4
";
    assert_eq!(rt; out.written(), text.as_bytes());

    let mut out = MemorySink::short(alloc, Calls::new(alloc), 7);
    report(alloc, &mut out, true)?;
    let text = "page https://example.com/a?b
active 2
step 0 opened
taken 1 4 div 1:1
taken 2 3 div 1:1
taken 3 2 div 1:1
hidden 1
step 1 ok
hidden 0
step 2 refused BadPlace 5
hidden 0
step 3 bad UnknownWord
hidden 0
step 4 blank
hidden 0
end 4
";
    assert_eq!(rt; out.written(), text.as_bytes());
    Ok(())
}

#[test]
fn notices_counts_and_drills_are_written(rt: HostRuntime) -> Result<(), Fail> {
    let alloc = rt.alloc();
    let mut notices = Notices::new(alloc);
    notices.push(Notice::SetAside {
        line: 1,
        kind: Kind::Network,
    })?;
    notices.push(Notice::Malformed {
        line: 2,
        cause: Cause::BadName,
        at: 4,
    })?;
    let drill = DrillCounts {
        number: 4,
        nodes: 18,
        steps: 4,
        hidden: 2,
        taken: 1,
    };
    let mut out = MemorySink::new(alloc, Calls::new(alloc));
    let lists = two_lists(alloc)?;
    assert_eq!(rt; write_notices(alloc, &mut out, 3, &notices), Ok(()));
    assert_eq!(rt; write_counts(alloc, &mut out, &lists), Ok(()));
    assert_eq!(rt; write_drill(alloc, &mut out, drill, false), Ok(()));
    assert_eq!(rt; write_drill(alloc, &mut out, drill, true), Ok(()));
    let text = "note 3:1 set-aside Network
note 3:2 malformed BadName 4
read 2 filters 1 exceptions 1 options
drill 4 nodes 18 steps 4 hidden 2 taken 1
drill 4 hidden 2
";
    assert_eq!(rt; out.written(), text.as_bytes());

    // A sink whose second call fails, with pieces of seven bytes.
    let mut fails = Calls::new(alloc);
    fails.push(2)?;
    let mut out = MemorySink::short(alloc, fails, 7);
    assert_eq!(rt;
        write_drill(alloc, &mut out, drill, true),
        Err(ReportError::WriteFault)
    );
    assert_eq!(rt; out.written(), b"drill 4".as_slice());
    Ok(())
}
