// Active filters of small lists.

use address_patterns::{AddressPattern, HideOptions, Page};
use filter_scope::{Scope, ScopeRead};
use host_names::Suffixes;
use hostname_buckets::Store;
use list_entries::{Entries, Entry, ListRead, Lists, Notices};
use listed::{Listed, Text};
use selector_tree::{Action, Filter};
use std::alloc::Global;
use std::test::Fail;
use url::Url;

#[derive(Clone, Copy)]
enum Sort {
    Filter,
    Exception,
    Generic,
    Specific,
    All,
}

// An entry: its hosts, and its canonical text or pattern.
fn entry(alloc: Global, sort: Sort, hosts: &str, text: &str) -> Result<Entry, Fail> {
    let scope = match Scope::read(alloc, hosts, b',')? {
        ScopeRead::Scope(scope) => scope,
        ScopeRead::BadHost(_) => Scope::everywhere(alloc),
    };
    Ok(match sort {
        Sort::Filter => Entry::Filter {
            filter: Filter {
                list: 1,
                line: 1,
                selector: Listed::new(alloc),
                action: Action::Hide,
                canonical: Text::of(alloc, text)?,
            },
            scope,
        },
        Sort::Exception => Entry::Exception {
            canonical: Text::of(alloc, text)?,
            scope,
        },
        _ => Entry::Page {
            pattern: AddressPattern::read(alloc, text)?,
            domain: Some(scope),
            options: HideOptions {
                elem: matches!(sort, Sort::All),
                generic: matches!(sort, Sort::Generic),
                specific: matches!(sort, Sort::Specific),
            },
        },
    })
}

fn list(alloc: Global, rows: &[(Sort, &str, &str)]) -> Result<ListRead, Fail> {
    let mut entries = Entries::new(alloc);
    for (sort, hosts, text) in rows {
        entries.push(entry(alloc, *sort, hosts, text)?)?;
    }
    Ok(ListRead {
        entries,
        notices: Notices::new(alloc),
    })
}

fn store(alloc: Global) -> Result<Store, Fail> {
    let mut lists = Lists::new(alloc);
    lists.push(list(
        alloc,
        &[
            (Sort::Filter, "example.com", ".host"),
            (Sort::Filter, "", ".any"),
            (Sort::Filter, "~shop.example.com", ".not-shop"),
            (Sort::Filter, "example.*", ".entity"),
            (Sort::Filter, "*", ".star"),
            (
                Sort::Filter,
                "b.test,example.com,sub.example.com",
                ".several",
            ),
            (Sort::Exception, "example.com", ".any"),
        ],
    )?)?;
    lists.push(list(
        alloc,
        &[
            (Sort::Filter, "", ".last"),
            (Sort::Generic, "", "||example.com/plain"),
            (Sort::Specific, "shop.example.com", "||example.com^"),
            (Sort::All, "", "/all"),
        ],
    )?)?;
    Ok(Store::build(alloc, lists)?)
}

// The canonical texts of the filters that are active on a page.
fn active(alloc: Global, store: &Store, address: &str) -> Result<Text, Fail> {
    let mut texts = Text::new(alloc);
    if let Ok(url) = Url::parse(alloc, address) {
        let page = Page::of(alloc, &url)?;
        for filter in store
            .active(alloc, &page, &Suffixes::none(alloc))?
            .as_slice()
        {
            texts.push(' ')?;
            texts.push_str(filter.canonical.as_str())?;
        }
    }
    Ok(texts)
}

#[test]
fn the_filters_of_a_page_are_found(rt: HostRuntime) -> Result<(), Fail> {
    let store = store(rt.alloc())?;
    for (address, texts) in [
        (
            "https://example.com/",
            " .host .not-shop .entity .star .several .last",
        ),
        (
            "https://sub.example.com/",
            " .host .not-shop .entity .star .several .last",
        ),
        (
            "https://example.com./",
            " .host .not-shop .entity .star .several .last",
        ),
        ("https://shop.example.com/", " .last"),
        ("https://example.com/plain", " .host .entity .star .several"),
        (
            "https://example.org/",
            " .any .not-shop .entity .star .last",
        ),
        ("https://a.notexample.com/", " .any .not-shop .star .last"),
        ("https://b.test/", " .any .not-shop .star .several .last"),
        ("https://b.test/all", ""),
        ("https://10.0.0.1/", " .any .not-shop .star .last"),
        ("data:text/plain,a", " .any .not-shop .star .last"),
    ] {
        let found = active(rt.alloc(), &store, address)?;
        assert_eq!(rt; found.as_str(), texts, "{address}");
    }
    Ok(())
}
