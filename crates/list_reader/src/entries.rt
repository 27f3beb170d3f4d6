// What a line gives.
ghost use Rattle.std.specs.Prelude.{◌≡◌, ◌≤◌, ◌+◌, ◌-◌, ◌∷◌, List, false, length, unwrap_or, IfOk, OnOk};
ghost use Rattle.cos_patterns.specs.Tables.{Agrees, Extends};
ghost use Rattle.selector_parser.specs.Lasting.{Lasts};
ghost use Rattle.selector_parser.specs.Readings.{unnumbered_read, IsProperRead, PlaceBy};
ghost use Rattle.list_lines.specs.Meanings.{directive_meaning, domain_of, meaning_of, part_of, EndsBy};
ghost use Rattle.list_lines.specs.OpenIfs.{open_if, parts_of};
ghost use Rattle.list_reader.specs.Entries.{bad_host, by_read, directive_line, hide_line, if_line, live_line, page_entry, page_line, say_unless, unnumbered_given, IsProperGiven};
ghost use Rattle.list_reader.specs.LineReads.{LineRead};
ghost use Rattle.list_reader.specs.Unclosed.{ifs_behind, unclosed_of};
ghost use Rattle.filter_scope.specs.Scopes.{scope_of};
ghost use Rattle.cos_patterns.specs.declared.written.Written.{Written};

use crate::LINE_LIMIT;
use address_patterns::{AddressPattern, HideOptions};
use cos_patterns::{Maker, PatternTable};
use filter_scope::{Scope, ScopeRead};
use list_entries::Entry;
use list_lines::{
    Directive, HideLine, LineForm, OpenIfs, PageLine, Unclosed, read_condition, read_line,
};
use listed::Names;
use selector_parser::{Read, read_selector};
use selector_spelling::{Cause, Finding, Kind};
use selector_tree::{Filter, canonical};
use std::alloc::{AllocError, Global};

/// What a line gives.
#[derive(Drop)]
pub(crate) enum Given {
    /// Nothing.
    Nothing,
    /// An entry.
    Gives(Entry),
    /// Something that is said of it.
    Said(Finding),
}

// Where a line stands: its list, from 1, its number in that, and how many notices there are before it.
#[derive(Clone, Copy)]
pub(crate) struct LinePlace {
    pub list: u32,
    pub line: u32,
    pub noticed: usize,
}

// Reads what stands on a live line that is no directive.
pub(crate) fn read_live<M: Maker>(
    alloc: Global,
    place: LinePlace,
    form: LineForm<'_>,
    table: &mut PatternTable,
    maker: &mut M,
) -> Result<Given, AllocError>
    requires within { EndsBy LINE_LIMIT form }
    requires agrees { Agrees table.old (M.large maker.old) (M.unread maker.old) }
    ensures agrees { Agrees table.new (M.large maker.new) (M.unread maker.new) }
    ensures extends { Extends table.old table.new }
    ensures lasting { IfOk result (λ given. Lasts table.new (λ large unread.
        unnumbered_given given ≡ live_line large unread place.list place.line (meaning_of form.entry))) }
    ensures proper { IfOk result (IsProperGiven table.new.patterns) }
{
    match form {
        LineForm::Nothing => Ok(Given::Nothing),
        LineForm::Directive(_, _) => Ok(Given::Nothing),
        LineForm::Hide(line) => read_hide(alloc, place, line, table, maker),
        LineForm::Page(line) => read_page(alloc, line),
        LineForm::Noted(finding) => Ok(Given::Said(finding)),
    }
}

// A host that isn't one, in a part of a line that begins at the place `at`.
fn bad_host(at: usize, place: usize) -> Given
    requires { at + place ≤ LINE_LIMIT }
    ensures { result ≡ bad_host at place }
{
    Given::Said(Finding::Malformed(Cause::BadHost, at + place))
}

// Reads a filter or an exception: its hosts, and then its selector.
fn read_hide<M: Maker>(
    alloc: Global,
    place: LinePlace,
    line: HideLine<'_>,
    table: &mut PatternTable,
    maker: &mut M,
) -> Result<Given, AllocError>
    requires hosts { line.hosts.place + length line.hosts.text.now ≤ LINE_LIMIT }
    requires selector { line.selector.place + length line.selector.text.now ≤ LINE_LIMIT }
    requires agrees { Agrees table.old (M.large maker.old) (M.unread maker.old) }
    ensures agrees { Agrees table.new (M.large maker.new) (M.unread maker.new) }
    ensures extends { Extends table.old table.new }
    ensures lasting { IfOk result (λ given. Lasts table.new (λ large unread.
        unnumbered_given given ≡ hide_line large unread place.list place.line line.entry.exception
        line.entry.hosts.place (scope_of 44 line.entry.hosts.text.now) (part_of line.entry.selector))) }
    ensures proper { IfOk result (IsProperGiven table.new.patterns) }
{
    match Scope::read(alloc, line.hosts.text, b',')? {
        ScopeRead::BadHost(at) => Ok(bad_host(line.hosts.place, at)),
        ScopeRead::Scope(scope) => {
            let read = read_selector(alloc, line.selector.text, table, maker)?;
            entry_by(
                alloc,
                place,
                line.exception,
                scope,
                line.selector.place,
                read,
            )
        }
    }
}

// What was read of a selector that begins at the place `at`.
fn entry_by(
    alloc: Global,
    place: LinePlace,
    exception: bool,
    scope: Scope,
    at: usize,
    read: Read,
) -> Result<Given, AllocError>
    requires { PlaceBy (LINE_LIMIT - at) read }
    ensures given { IfOk result (λ given. unnumbered_given given ≡ by_read exception place.list place.line scope at (unnumbered_read read)) }
    ensures proper { IfOk result (λ given. (patterns : List Written) → IsProperRead patterns read → IsProperGiven patterns given) }
{
    match read {
        Read::Filter(selector, action) => {
            let canonical = canonical(alloc, &selector, &action)?;
            if exception {
                return Ok(Given::Gives(Entry::Exception { canonical, scope }));
            }
            let filter = Filter {
                list: place.list,
                line: place.line,
                selector,
                action,
                canonical,
            };
            Ok(Given::Gives(Entry::Filter { filter, scope }))
        }
        Read::SetAside(kind) => Ok(Given::Said(Finding::SetAside(kind))),
        Read::Malformed(cause, place) => Ok(Given::Said(Finding::Malformed(cause, at + place))),
    }
}

// Reads a page option.
fn read_page(alloc: Global, line: PageLine<'_>) -> Result<Given, AllocError>
    requires { EndsBy LINE_LIMIT (LineForm.Page line) }
    ensures { IfOk result (λ given. given ≡ page_line line.entry.pattern.now line.entry.options (domain_of line.entry.domain)) }
{
    let Some(hosts) = line.domain else {
        return page_entry(alloc, line.pattern, line.options, None);
    };
    match Scope::read(alloc, hosts.text, b'|')? {
        ScopeRead::BadHost(at) => Ok(bad_host(hosts.place, at)),
        ScopeRead::Scope(scope) => page_entry(alloc, line.pattern, line.options, Some(scope)),
    }
}

fn page_entry(
    alloc: Global,
    pattern: &str,
    options: HideOptions,
    domain: Option<Scope>,
) -> Result<Given, AllocError>
    ensures { IfOk result (λ given. given ≡ page_entry pattern.now options domain) }
{
    let pattern = AddressPattern::read(alloc, pattern)?;
    Ok(Given::Gives(Entry::Page {
        pattern,
        domain,
        options,
    }))
}

// Follows a directive, and gives what is said of it, but for an `if` that may stay open.
pub(crate) fn read_directive(
    directive: Directive<'_>,
    place: LinePlace,
    at: usize,
    env: &Names,
    ifs: &mut OpenIfs,
) -> Result<Given, AllocError>
    ensures said { IfOk result (λ given.
        given ≡ directive_line env.now (parts_of ifs.old) false at (directive_meaning directive.entry)) }
    ensures behind { OnOk result
        (ifs.new ≡ ifs_behind env.now place.line at place.noticed (directive_meaning directive.entry) ifs.old) }
{
    match directive {
        Directive::If(condition) => {
            read_if(read_condition(condition.as_bytes(), env), place, at, ifs)
        }
        Directive::Else => Ok(say_unless(ifs.divide(), Cause::StrayElse, at)),
        Directive::Endif => Ok(say_unless(ifs.leave().is_some(), Cause::StrayEndif, at)),
        Directive::Include => {
            if ifs.is_live() {
                return Ok(Given::Said(Finding::SetAside(Kind::Include)));
            }
            Ok(Given::Nothing)
        }
    }
}

// Opens the part of an `if`, by its condition where that is read.
fn read_if(
    condition: Option<bool>,
    place: LinePlace,
    at: usize,
    ifs: &mut OpenIfs,
) -> Result<Given, AllocError>
    ensures said { IfOk result (λ given. given ≡ if_line at condition false) }
    ensures behind { OnOk result (ifs.new ≡
        open_if (unwrap_or condition false) place.noticed (unclosed_of place.line at condition) ifs.old ∷ ifs.old) }
{
    let Some(condition) = condition else {
        ifs.enter(false, place.noticed, None)?;
        return Ok(Given::Said(Finding::Malformed(Cause::BadCondition, at)));
    };
    let unclosed = Unclosed {
        line: place.line,
        at,
    };
    ifs.enter(condition, place.noticed, Some(unclosed))?;
    Ok(Given::Nothing)
}

fn say_unless(fine: bool, cause: Cause, at: usize) -> Given
    ensures { result ≡ say_unless fine (Finding.Malformed cause at) }
{
    if fine {
        Given::Nothing
    } else {
        Given::Said(Finding::Malformed(cause, at))
    }
}

// Reads the next line.
pub(crate) fn read_next<M: Maker>(
    alloc: Global,
    place: LinePlace,
    line: &[u8],
    env: &Names,
    ifs: &mut OpenIfs,
    table: &mut PatternTable,
    maker: &mut M,
) -> Result<Given, AllocError>
    requires agrees { Agrees table.old (M.large maker.old) (M.unread maker.old) }
    ensures agrees { Agrees table.new (M.large maker.new) (M.unread maker.new) }
    ensures extends { Extends table.old table.new }
    ensures read { IfOk result (λ given.
        LineRead env.now place.list place.line place.noticed line.now ifs.old ifs.new table.new given) }
{
    match read_line(line) {
        LineForm::Directive(at, directive) => read_directive(directive, place, at, env, ifs),
        form if ifs.is_live() => read_live(alloc, place, form, table, maker),
        _ => Ok(Given::Nothing),
    }
}
