// The texts of a report.
ghost use Rattle.std.specs.Prelude.{◌≡◌, ◌++◌, map, string_bytes, IfOk, OnOk};
ghost use Rattle.std.specs.List.{flat_map};
ghost use Rattle.page_tree.specs.Standings.{name};
ghost use Rattle.engine_meaning.specs.Hidden.{pair_of};
ghost use Rattle.hide_report.specs.Texts.{aside_text, at_text, cause_text, malformed_text, notice_text, notices_text, filter_text, count_text, head_text, row_text, taken_text, place_text, places_text, step_line, hidden_line, hidden_text, end_text};

use crate::names::{cause_name, kind_name};
use dom_arena::Dom;
use list_entries::Notice;
use selector_tree::{Filter, HiddenRow, Taken};
use std::alloc::{AllocError, Global};

/// What is said of lines of a list.
pub fn notices_text(alloc: Global, list: u32, notices: &[Notice]) -> Result<String, AllocError>
    ensures { IfOk result (λ text. string_bytes text ≡ notices_text list notices.now) }
{
    let mut text = String::new(alloc);
    for notice in notices {
        push_notice(&mut text, list, notice)?;
    }
    Ok(text)
}

fn push_notice(text: &mut String, list: u32, notice: &Notice) -> Result<(), AllocError>
    ensures { OnOk result (string_bytes text.new ≡ string_bytes text.old ++ notice_text list notice.now) }
{
    match notice {
        Notice::SetAside { line, kind } => push_aside(text, list, *line, kind_name(*kind)),
        Notice::Malformed { line, cause, at } => {
            push_malformed(text, list, *line, cause_name(*cause), *at)
        }
    }
}

fn push_aside(text: &mut String, list: u32, line: u32, kind: &str) -> Result<(), AllocError>
    ensures { OnOk result (string_bytes text.new ≡ string_bytes text.old ++ aside_text list line kind.now) }
{
    write!(text, "note {list}:{line} set-aside {kind}\n")
}

fn push_malformed(
    text: &mut String,
    list: u32,
    line: u32,
    cause: &str,
    at: usize,
) -> Result<(), AllocError>
    ensures { OnOk result (string_bytes text.new ≡ string_bytes text.old ++ malformed_text list line cause.now at) }
{
    push_cause(text, list, line, cause)?;
    push_at(text, at)
}

fn push_cause(text: &mut String, list: u32, line: u32, cause: &str) -> Result<(), AllocError>
    ensures { OnOk result (string_bytes text.new ≡ string_bytes text.old ++ cause_text list line cause.now) }
{
    write!(text, "note {list}:{line} malformed {cause}")
}

fn push_at(text: &mut String, at: usize) -> Result<(), AllocError>
    ensures { OnOk result (string_bytes text.new ≡ string_bytes text.old ++ at_text at) }
{
    write!(text, " {at}\n")
}

/// The page's address, and the active filters.
pub fn head_text(
    alloc: Global,
    address: &str,
    active: &[Filter],
    brief: bool,
) -> Result<String, AllocError>
    ensures { IfOk result (λ text. string_bytes text ≡ head_text address.now active.now brief) }
{
    let mut text = count_text(alloc, address, active.len())?;
    if !brief {
        push_filters(&mut text, active)?;
    }
    Ok(text)
}

fn push_filters(text: &mut String, active: &[Filter]) -> Result<(), AllocError>
    ensures { OnOk result (string_bytes text.new ≡ string_bytes text.old ++ flat_map filter_text active.now) }
{
    for filter in active {
        push_filter(text, filter)?;
    }
    Ok(())
}

fn count_text(alloc: Global, address: &str, count: usize) -> Result<String, AllocError>
    ensures { IfOk result (λ text. string_bytes text ≡ count_text address.now count) }
{
    let mut text = String::new(alloc);
    push_count(&mut text, address, count)?;
    Ok(text)
}

fn push_count(text: &mut String, address: &str, count: usize) -> Result<(), AllocError>
    ensures { OnOk result (string_bytes text.new ≡ string_bytes text.old ++ count_text address.now count) }
{
    write!(text, "page {address}\nactive {count}\n")
}

fn push_filter(text: &mut String, filter: &Filter) -> Result<(), AllocError>
    ensures { OnOk result (string_bytes text.new ≡ string_bytes text.old ++ filter_text filter.now) }
{
    let list = filter.list;
    let line = filter.line;
    let canonical = filter.canonical.as_str();
    write!(text, "filter {list}:{line} {canonical}\n")
}

/// The first line of a step: its number and its answer.
pub fn step_line(alloc: Global, number: u32, answer: &str) -> Result<String, AllocError>
    ensures { IfOk result (λ text. string_bytes text ≡ step_line number answer.now) }
{
    let mut text = String::new(alloc);
    push_step_line(&mut text, number, answer)?;
    Ok(text)
}

fn push_step_line(text: &mut String, number: u32, answer: &str) -> Result<(), AllocError>
    ensures { OnOk result (string_bytes text.new ≡ string_bytes text.old ++ step_line number answer.now) }
{
    write!(text, "step {number} {answer}\n")
}

/// The elements that were taken out.
pub fn push_taken_rows(
    text: &mut String,
    active: &[Filter],
    taken: &[Taken],
) -> Result<(), AllocError>
    ensures { OnOk result (string_bytes text.new ≡ string_bytes text.old ++ flat_map (taken_text active.now) taken.now) }
{
    for row in taken {
        push_taken(text, active, row)?;
    }
    Ok(())
}

fn push_taken(text: &mut String, active: &[Filter], taken: &Taken) -> Result<(), AllocError>
    ensures { OnOk result (string_bytes text.new ≡ string_bytes text.old ++ taken_text active.now taken.now) }
{
    let round = taken.round;
    let node = taken.node;
    let name = taken.name.as_str();
    write!(text, "taken {round} {node} {name}")?;
    push_places(text, active, taken.filters.as_slice())
}

/// The hidden elements of the page as it stands.
pub fn push_hidden(
    text: &mut String,
    dom: &Dom,
    active: &[Filter],
    rows: &[HiddenRow],
    brief: bool,
) -> Result<(), AllocError>
    ensures { OnOk result (string_bytes text.new ≡ string_bytes text.old ++ hidden_text dom.now active.now (map pair_of rows.now) brief) }
{
    push_hidden_line(text, rows.len())?;
    if !brief {
        push_rows(text, dom, active, rows)?;
    }
    Ok(())
}

/// How many elements are hidden.
pub fn push_hidden_line(text: &mut String, count: usize) -> Result<(), AllocError>
    ensures { OnOk result (string_bytes text.new ≡ string_bytes text.old ++ hidden_line count) }
{
    write!(text, "hidden {count}\n")
}

fn push_rows(
    text: &mut String,
    dom: &Dom,
    active: &[Filter],
    rows: &[HiddenRow],
) -> Result<(), AllocError>
    ensures { OnOk result (string_bytes text.new ≡ string_bytes text.old ++ flat_map (row_text dom.now active.now) (map pair_of rows.now)) }
{
    for row in rows {
        push_row(text, dom, active, row)?;
    }
    Ok(())
}

fn push_row(
    text: &mut String,
    dom: &Dom,
    active: &[Filter],
    row: &HiddenRow,
) -> Result<(), AllocError>
    ensures { OnOk result (string_bytes text.new ≡ string_bytes text.old ++ row_text dom.now active.now (pair_of row.now)) }
{
    let node = row.node;
    let name = name_of(dom, node);
    write!(text, " {node} {name}")?;
    push_places(text, active, row.filters.as_slice())
}

// The name of an element; empty where the number is none's.
fn name_of(dom: &Dom, node: u32) -> &str
    ensures { result.now ≡ name dom.now node }
{
    dom.is_tree();
    match dom.node(node) {
        Some(node) => node.name(),
        None => "",
    }
}

// The filters at these places, and the end of the line.
fn push_places(text: &mut String, active: &[Filter], places: &[u32]) -> Result<(), AllocError>
    ensures { OnOk result (string_bytes text.new ≡ string_bytes text.old ++ places_text active.now places.now) }
{
    for place in places {
        push_place(text, active, *place)?;
    }
    text.push_str("\n")
}

fn push_place(text: &mut String, active: &[Filter], place: u32) -> Result<(), AllocError>
    ensures { OnOk result (string_bytes text.new ≡ string_bytes text.old ++ place_text active.now place) }
{
    match active.get(place as usize) {
        Some(filter) => {
            let list = filter.list;
            let line = filter.line;
            write!(text, " {list}:{line}")
        }
        None => Ok(()),
    }
}

/// The end of the report.
pub fn end_text(alloc: Global, lines: u32) -> Result<String, AllocError>
    ensures { IfOk result (λ text. string_bytes text ≡ end_text lines) }
{
    format!(in alloc; "end {lines}\n")
}
