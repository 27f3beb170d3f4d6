// How the lists and the rules are read.
ghost use Rattle.std.specs.Prelude.{◌≡◌, ◌≤◌, ◌<◌, ◌^◌, All, [], ℕ, List, length, map, sum_by, IfOk};
ghost use Rattle.cos_source.specs.Lines.{lines_of, numbered};
ghost use Rattle.cos_source.specs.Mark.{without_mark};
ghost use Rattle.cos_patterns.specs.Tables.{Agrees};
ghost use Rattle.host_names.specs.Suffixes.{rest};
ghost use Rattle.host_names.specs.SuffixLines.{bad_lines, rules_of};
ghost use Rattle.hostname_buckets.specs.Active.{active_among, entries_of};
ghost use Rattle.list_reader.specs.Entries.{IsProperEntry};
ghost use Rattle.engine_meaning.specs.Filters.{AreAskable};
ghost use Rattle.command_meaning.specs.Numbers.{unnumbered_list};
ghost use Rattle.command_meaning.specs.Report.{bad_suffix, lists_from};

use address_patterns::Page;
use command_inputs::Sources;
use cos_patterns::{Maker, PatternTable};
use cos_source::without_mark;
use host_names::{Suffixes, SuffixesRead};
use hostname_buckets::Store;
use list_entries::{Lists, Notice, Notices};
use list_reader::read_list;
use listed::{Bytes, Names};
use selector_spelling::Cause;
use selector_tree::Active;
use std::alloc::{AllocError, Global};

/// What the sources of a command come to.
#[derive(Drop)]
pub struct SourcesRead {
    /// The rules of public suffixes.
    pub rules: Suffixes,
    /// What is said of the file of these rules.
    pub bad: Notices,
    /// What each list gives, in order.
    pub lists: Lists,
    /// The patterns of the filters.
    pub table: PatternTable,
}

/// Reads the rules of public suffixes and the lists, in order; a byte order mark at the start of a file is skipped. Conditions of
/// lists are true for `ext_ublock` and the names of `env`; `maker` makes the patterns.
///
/// # Errors
///
/// Only want of memory.
pub fn read_sources<M: Maker>(
    alloc: Global,
    env: &Names,
    sources: &Sources,
    maker: &mut M,
) -> Result<SourcesRead, AllocError>
    requires large { M.large maker.old ≡ [] }
    requires unread { M.unread maker.old ≡ [] }
    requires suffixes { length sources.now.suffixes < 2 ^ 32 }
    requires lists { sum_by length sources.now.lists < 2 ^ 32 }
    requires few { length sources.now.lists ≤ 32 }
    // Each host has the rest that the file's rules give it.
    ensures rules { IfOk result (λ read. (host : List ℕ) →
        rest read.rules host ≡ rest (rules_of (numbered 1 (lines_of (without_mark sources.now.suffixes)))) host) }
    ensures bad { IfOk result (λ read. read.bad ≡
        map bad_suffix (bad_lines (numbered 1 (lines_of (without_mark sources.now.suffixes))))) }
    ensures lists { IfOk result (λ read. map unnumbered_list read.lists ≡
        lists_from env.now (M.large maker.new) (M.unread maker.new) 1 sources.now.lists) }
    ensures as_many { IfOk result (λ read. length read.lists ≡ length sources.now.lists) }
    ensures proper { IfOk result (λ read.
        All (λ list. All (IsProperEntry read.table.patterns) list.entries) read.lists) }
    ensures within { IfOk result (λ read. length (entries_of read.lists) < 2 ^ 32) }
{
    let SuffixesRead { rules, bad } = Suffixes::read(
        alloc,
        without_mark(sources.suffixes.as_slice()),
    )?;
    let bad = suffix_notices(alloc, bad.as_slice())?;
    let mut table = PatternTable::new(alloc);
    let lists = read_lists(alloc, env, sources.lists.as_slice(), &mut table, maker)?;
    Ok(SourcesRead {
        rules,
        bad,
        lists,
        table,
    })
}

// What is said of the malformed lines of the file of public suffix rules.
fn suffix_notices(alloc: Global, lines: &[u32]) -> Result<Notices, AllocError>
    ensures { IfOk result (λ notices. notices ≡ map bad_suffix lines.now) }
{
    let mut notices = Notices::new(alloc);
    for line in lines {
        notices.push(Notice::Malformed {
            line: *line,
            cause: Cause::BadSuffix,
            at: 0,
        })?;
    }
    Ok(notices)
}

// Reads lists, which are numbered from 1.
fn read_lists<M: Maker>(
    alloc: Global,
    env: &Names,
    files: &[Bytes],
    table: &mut PatternTable,
    maker: &mut M,
) -> Result<Lists, AllocError>
    requires agrees { Agrees table.old (M.large maker.old) (M.unread maker.old) }
    requires within { sum_by length files.now < 2 ^ 32 }
    requires few { length files.now ≤ 32 }
    ensures lists { IfOk result (λ lists. map unnumbered_list lists ≡
        lists_from env.now (M.large maker.new) (M.unread maker.new) 1 files.now) }
    ensures as_many { IfOk result (λ lists. length lists ≡ length files.now) }
    ensures proper { IfOk result (λ lists.
        All (λ list. All (IsProperEntry table.new.patterns) list.entries) lists) }
    ensures within { IfOk result (λ lists. length (entries_of lists) ≤ sum_by length files.now) }
{
    let mut lists = Lists::new(alloc);
    let mut number = 1;
    'files: for file in files {
        let list = read_list(
            alloc,
            without_mark(file.as_slice()),
            number,
            env,
            table,
            maker,
        )?;
        lists.push(list)?;
        number += 1;
    }
    Ok(lists)
}

/// The filters of lists that are active on a page, in order. Their patterns are in the table.
///
/// # Errors
///
/// Only want of memory.
pub fn active_filters(
    alloc: Global,
    lists: Lists,
    page: &Page,
    rules: &Suffixes,
    table: &PatternTable,
) -> Result<Active, AllocError>
    requires proper { All (λ list. All (IsProperEntry table.now.patterns) list.entries) lists }
    requires within { length (entries_of lists) < 2 ^ 32 }
    ensures active { IfOk result (λ active.
        active ≡ active_among (entries_of lists) page.now rules.now) }
    ensures askable { IfOk result (λ active. AreAskable table.now.patterns active) }
{
    let store = Store::build(alloc, lists)?;
    store.active(alloc, page, rules)
}
