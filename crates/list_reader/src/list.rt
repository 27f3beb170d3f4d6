ghost use Rattle.std.specs.Prelude.{◌≡◌, ◌<◌, ◌≤◌, ◌^◌, All, length, map, IfOk};
ghost use Rattle.cos_patterns.specs.Tables.{Agrees, Extends};
ghost use Rattle.selector_parser.specs.Lasting.{Lasts};
ghost use Rattle.cos_source.specs.Lines.{lines_of, numbered};
ghost use Rattle.list_reader.specs.Entries.{entries_in, notice_of, notices_in, unnumbered_entry, IsProperEntry};

use crate::entries::{Given, LinePlace, read_next};
use crate::unclosed::with_unclosed;
use cos_patterns::{Maker, PatternTable};
use cos_source::Lines;
use list_entries::{Entries, ListRead, Notice, Notices};
use list_lines::OpenIfs;
use listed::Names;
use selector_spelling::Finding;
use std::alloc::{AllocError, Global};

/// Reads a list. `number` is its place among the lists, from 1; conditions are true for `ext_ublock` and the names of `env`.
pub fn read_list<M: Maker>(
    alloc: Global,
    bytes: &[u8],
    number: u32,
    env: &Names,
    table: &mut PatternTable,
    maker: &mut M,
) -> Result<ListRead, AllocError>
    requires size { length bytes.now < 2 ^ 32 }
    requires agrees { Agrees table.old (M.large maker.old) (M.unread maker.old) }
    ensures agrees { Agrees table.new (M.large maker.new) (M.unread maker.new) }
    ensures extends { Extends table.old table.new }
    // The entries, pattern numbers aside, and the notices are those of the lines, under what the maker refused, in this call
    // or before, and stay so for what the table notes later.
    ensures entries { IfOk result (λ read. Lasts table.new (λ large unread.
        map unnumbered_entry read.entries ≡ entries_in env.now large unread number (numbered 1 (lines_of bytes.now)))) }
    ensures notices { IfOk result (λ read. Lasts table.new (λ large unread.
        read.notices ≡ notices_in env.now large unread number (numbered 1 (lines_of bytes.now)))) }
    ensures proper { IfOk result (λ read. All (IsProperEntry table.new.patterns) read.entries) }
    ensures few { IfOk result (λ read. length read.entries ≤ length bytes.now) }
{
    let mut entries = Entries::new(alloc);
    let mut notices = Notices::new(alloc);
    let mut ifs = OpenIfs::new(alloc);
    let mut lines = Lines::new(bytes);
    'lines: while let Some(line) = lines.next() {
        let place = LinePlace {
            list: number,
            line: line.number,
            noticed: notices.len(),
        };
        match read_next(alloc, place, line.bytes, env, &mut ifs, table, maker)? {
            Given::Nothing => {}
            Given::Gives(entry) => entries.push(entry)?,
            Given::Said(finding) => notices.push(notice_of(line.number, finding))?,
        }
    }
    let notices = with_unclosed(alloc, notices, ifs)?;
    Ok(ListRead { entries, notices })
}

fn notice_of(line: u32, finding: Finding) -> Notice
    ensures { result ≡ notice_of line finding }
{
    match finding {
        Finding::SetAside(kind) => Notice::SetAside { line, kind },
        Finding::Malformed(cause, at) => Notice::Malformed { line, cause, at },
    }
}
