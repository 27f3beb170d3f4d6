// What is written of the lists and the rules.
ghost use Rattle.std.specs.Prelude.{◌≡◌, ◌≤◌, ◌++◌, ◌∷◌, [], length};
ghost use Rattle.hide_report.specs.Reported.{ReportsAll};
ghost use Rattle.hide_report.specs.Texts.{counts_text, notices_text};
ghost use Rattle.command_meaning.specs.Report.{lists_texts};

use crate::SourcesRead;
use cos_outside::Sink;
use hide_report::{ReportError, write_counts, write_notices};
use list_entries::ListRead;
use std::alloc::Global;

/// Writes what is said of the rules of public suffixes, and then of each list.
pub fn write_all_notices<O: Sink>(
    alloc: Global,
    out: &mut O,
    read: &SourcesRead,
) -> Result<(), ReportError>
    requires { length read.now.lists ≤ 32 }
    ensures { ReportsAll O.tells O.written O.faults out.old out.new
        (notices_text 0 read.now.bad ∷ lists_texts 1 read.now.lists) result }
{
    write_notices(alloc, out, 0, &read.bad)?;
    write_list_notices(alloc, out, read.lists.as_slice())
}

// Writes what is said of lists, which are numbered from 1.
fn write_list_notices<O: Sink>(
    alloc: Global,
    out: &mut O,
    lists: &[ListRead],
) -> Result<(), ReportError>
    requires { length lists.now ≤ 32 }
    ensures { ReportsAll O.tells O.written O.faults out.old out.new (lists_texts 1 lists.now) result }
{
    let mut number = 1;
    'lists: for list in lists {
        write_notices(alloc, out, number, &list.notices)?;
        number += 1;
    }
    Ok(())
}

/// Writes the notices, and then how many filters, exceptions and page options the lists have together.
pub fn write_lists_report<O: Sink>(
    alloc: Global,
    out: &mut O,
    read: &SourcesRead,
) -> Result<(), ReportError>
    requires { length read.now.lists ≤ 32 }
    ensures { ReportsAll O.tells O.written O.faults out.old out.new
        (notices_text 0 read.now.bad ∷ lists_texts 1 read.now.lists ++ counts_text read.now.lists ∷ []) result }
{
    write_all_notices(alloc, out, read)?;
    write_counts(alloc, out, &read.lists)
}
