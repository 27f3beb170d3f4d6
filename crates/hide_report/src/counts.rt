// How many entries lists have, and what a drill comes to.
ghost use Rattle.std.specs.Prelude.{◌≡◌, ◌+◌, ◌++◌, count_by, string_bytes, IfOk, OnOk};
ghost use Rattle.hide_report.specs.Texts.{is_filter, is_exception, is_page_option, filters_text, exceptions_text, options_text, counts_text, size_text, made_text, still_hidden_text, all_taken_text, drill_text};

use list_entries::{Entry, ListRead};
use std::alloc::{AllocError, Global};

/// What a drill comes to.
#[derive(Clone, Copy, Debug, PartialEq, Eq)]
pub struct DrillCounts {
    /// Its size.
    pub number: u16,
    /// The nodes without the document.
    pub nodes: u32,
    /// The lines of the script.
    pub steps: u32,
    /// The hidden elements at the end.
    pub hidden: usize,
    /// All elements that were taken out.
    pub taken: u64,
}

/// How many filters, exceptions and page options the lists have together.
pub fn counts_text(alloc: Global, lists: &[ListRead]) -> Result<String, AllocError>
    ensures { IfOk result (λ text. string_bytes text ≡ counts_text lists.now) }
{
    let mut filters = 0;
    let mut exceptions = 0;
    let mut options = 0;
    'lists: for list in lists {
        let entries = list.entries.as_slice();
        filters = more(filters, count_filters(entries))?;
        exceptions = more(exceptions, count_exceptions(entries))?;
        options = more(options, count_options(entries))?;
    }
    let mut text = String::new(alloc);
    push_filters(&mut text, filters)?;
    push_exceptions(&mut text, exceptions)?;
    push_options(&mut text, options)?;
    Ok(text)
}

// A sum. Lists of so many entries that it passes 64 bits don't fit in memory, so want of memory stands for it.
fn more(count: usize, further: usize) -> Result<usize, AllocError>
    ensures { IfOk result (λ sum. sum ≡ count + further) }
{
    match count.checked_add(further) {
        Some(sum) => Ok(sum),
        None => Err(AllocError),
    }
}

fn push_filters(text: &mut String, count: usize) -> Result<(), AllocError>
    ensures { OnOk result (string_bytes text.new ≡ string_bytes text.old ++ filters_text count) }
{
    write!(text, "read {count} filters ")
}

fn push_exceptions(text: &mut String, count: usize) -> Result<(), AllocError>
    ensures { OnOk result (string_bytes text.new ≡ string_bytes text.old ++ exceptions_text count) }
{
    write!(text, "{count} exceptions ")
}

fn push_options(text: &mut String, count: usize) -> Result<(), AllocError>
    ensures { OnOk result (string_bytes text.new ≡ string_bytes text.old ++ options_text count) }
{
    write!(text, "{count} options\n")
}

fn count_filters(entries: &[Entry]) -> usize
    ensures { result ≡ count_by is_filter entries.now }
{
    let mut count = 0;
    for entry in entries {
        if is_filter(entry) {
            count += 1;
        }
    }
    count
}

fn count_exceptions(entries: &[Entry]) -> usize
    ensures { result ≡ count_by is_exception entries.now }
{
    let mut count = 0;
    for entry in entries {
        if is_exception(entry) {
            count += 1;
        }
    }
    count
}

fn count_options(entries: &[Entry]) -> usize
    ensures { result ≡ count_by is_page_option entries.now }
{
    let mut count = 0;
    for entry in entries {
        if is_page_option(entry) {
            count += 1;
        }
    }
    count
}

#[tactic(auto, unfolding(crate::specs::Texts::is_filter))]
fn is_filter(entry: &Entry) -> bool
    ensures { result ≡ is_filter entry.now }
{
    match entry {
        Entry::Filter { .. } => true,
        _ => false,
    }
}

#[tactic(auto, unfolding(crate::specs::Texts::is_exception))]
fn is_exception(entry: &Entry) -> bool
    ensures { result ≡ is_exception entry.now }
{
    match entry {
        Entry::Exception { .. } => true,
        _ => false,
    }
}

#[tactic(auto, unfolding(crate::specs::Texts::is_page_option))]
fn is_page_option(entry: &Entry) -> bool
    ensures { result ≡ is_page_option entry.now }
{
    match entry {
        Entry::Page { .. } => true,
        _ => false,
    }
}

/// The line of a drill.
pub fn drill_text(alloc: Global, counts: DrillCounts, brief: bool) -> Result<String, AllocError>
    ensures { IfOk result (λ text. string_bytes text
        ≡ drill_text counts.number counts.nodes counts.steps counts.hidden counts.taken brief) }
{
    let mut text = String::new(alloc);
    push_size(&mut text, counts.number)?;
    if !brief {
        push_made(&mut text, counts.nodes, counts.steps)?;
    }
    push_still_hidden(&mut text, counts.hidden)?;
    if !brief {
        push_all_taken(&mut text, counts.taken)?;
    }
    text.push_str("\n")?;
    Ok(text)
}

fn push_size(text: &mut String, number: u16) -> Result<(), AllocError>
    ensures { OnOk result (string_bytes text.new ≡ string_bytes text.old ++ size_text number) }
{
    write!(text, "drill {number}")
}

fn push_made(text: &mut String, nodes: u32, steps: u32) -> Result<(), AllocError>
    ensures { OnOk result (string_bytes text.new ≡ string_bytes text.old ++ made_text nodes steps) }
{
    write!(text, " nodes {nodes} steps {steps}")
}

fn push_still_hidden(text: &mut String, count: usize) -> Result<(), AllocError>
    ensures { OnOk result (string_bytes text.new ≡ string_bytes text.old ++ still_hidden_text count) }
{
    write!(text, " hidden {count}")
}

fn push_all_taken(text: &mut String, count: u64) -> Result<(), AllocError>
    ensures { OnOk result (string_bytes text.new ≡ string_bytes text.old ++ all_taken_text count) }
{
    write!(text, " taken {count}")
}
