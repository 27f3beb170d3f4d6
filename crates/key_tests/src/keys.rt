// Elements and filters by their keys.
use dom_arena::{Attrs, Dom, DomError, NewNode};
use generic_tables::{FilterTable, Key, KeyRef, Tables};
use listed::{Listed, Text};
use selector_tree::{Action, Active, Filter, Step, Test};
use std::alloc::{AllocError, Global};
use std::test::Fail;

// <p></p>
fn page(alloc: Global) -> Result<Dom, DomError> {
    let mut dom = Dom::new(alloc)?;
    let name = Text::of(alloc, "p")?;
    let attrs = Attrs::new(alloc);
    dom.add(0, 0, NewNode::Element { name, attrs })?;
    Ok(dom)
}

#[test]
fn elements_stand_under_their_keys(rt: HostRuntime) -> Result<(), Fail> {
    let alloc = rt.alloc();
    let dom = page(alloc)?;
    let tables = Tables::of(alloc, &dom)?;
    let name = Key::Name(Text::of(alloc, "p")?);
    assert_eq!(rt; tables.candidates(&name), [1].as_slice());
    Ok(())
}

fn filter(alloc: Global, test: Test) -> Result<Filter, AllocError> {
    let mut chain = Listed::new(alloc);
    chain.push(Step::Keep(test))?;
    let mut selector = Listed::new(alloc);
    selector.push(chain)?;
    let canonical = Text::new(alloc);
    Ok(Filter {
        list: 1,
        line: 1,
        selector,
        action: Action::Hide,
        canonical,
    })
}

#[test]
fn filters_stand_under_their_keys(rt: HostRuntime) -> Result<(), Fail> {
    let alloc = rt.alloc();
    let mut active = Active::new(alloc);
    active.push(filter(alloc, Test::Tag(Text::of(alloc, "a")?))?)?;
    active.push(filter(alloc, Test::Any)?)?;
    active.push(filter(alloc, Test::Class(Text::of(alloc, "a")?))?)?;
    let table = FilterTable::of(alloc, &active)?;
    let mut classes = table.filters_for(&active, KeyRef::Class("a"));
    assert_eq!(rt; classes.next(), Some(2));
    assert_eq!(rt; classes.next(), None);
    let mut unnamed = table.filters_for(&active, KeyRef::None);
    assert_eq!(rt; unnamed.next(), Some(1));
    assert_eq!(rt; unnamed.next(), None);
    let mut ids = table.filters_for(&active, KeyRef::Id("a"));
    assert_eq!(rt; ids.next(), None);
    Ok(())
}
