// The command that reports a page.
ghost use Rattle.std.specs.Prelude.{◌≡◌, ◌+◌, ◌≤◌, ◌<◌, ◌^◌, ◌∷◌, [], All, length, IsErrOf, IsTrue};
ghost use Rattle.cos_patterns.specs.declared.written.Asked.TheVariants.{Address};
ghost use Rattle.list_reader.specs.Entries.{IsProperEntry};
ghost use Rattle.hostname_buckets.specs.Active.{entries_of};
ghost use Rattle.hide_report.specs.Reported.{ReportsAll};
ghost use Rattle.command_words.specs.declared.command.Command.TheVariants.{Apply as ApplyCommand};
ghost use Rattle.command_inputs.specs.declared.status.Status.TheVariants.{Refused};
ghost use Rattle.command_inputs.specs.declared.status.InputRefusal.TheVariants.{AddressTooLarge};
ghost use Rattle.command_meaning.specs.Output.{texts_due};
ghost use Rattle.cos_source.specs.Mark.{without_mark};
ghost use Rattle.remove_rounds.specs.Costs.{questions, single_tests};
ghost use Rattle.cosmetic_top.specs.Costs.{command_cost, page_cost};
ghost use Rattle.cosmetic_top.specs.Reports.{report_of, state_of};
ghost use Rattle.cosmetic_top.specs.Runs.{RunsAs};

use crate::end::status_of;
use address_patterns::Page;
use command_inputs::{ApplyInputs, Status, read_apply};
use command_words::Apply;
use cos_outside::{Shelf, Sink, Steps};
use cos_patterns::Maker;
use cos_source::without_mark;
use hide_engine::Engine;
use hide_report::{ReportError, write_head};
use list_files::{SourcesRead, active_filters, read_sources, write_all_notices};
use mutation_script::PageState;
use page_steps::write_steps;
use std::alloc::Global;
use std::sync::ledger::Ledger;

/// Reads what the words name, and writes the report of the page and its script.
pub(crate) fn apply<S: Shelf, O: Sink, M: Maker, L: Ledger, P: Ledger>(
    alloc: Global,
    words: &Apply,
    shelf: &mut S,
    out: &mut O,
    maker: &mut M,
    checks: &mut Steps<L>,
    parts: &mut Steps<P>,
) -> Result<(), Status>
    requires large { M.large maker.old ≡ [] }
    requires unread { M.unread maker.old ≡ [] }
    ensures runs { RunsAs S.tells S.files S.begun S.faults shelf.old shelf.new
        O.tells O.written O.faults out.old out.new
        (M.large maker.new) (M.unread maker.new) (texts_due (ApplyCommand words.now)) result }
    ensures too_large { IsErrOf result (Refused AddressTooLarge) →
        M.large maker.new ≡ Address words.now.url ∷ [] }
    ensures checks { IsTrue (S.tells shelf.old) → checks.new ≤ checks.old
        + command_cost questions (ApplyCommand words.now) (S.files shelf.old) (M.large maker.new) (M.unread maker.new) }
    ensures parts { IsTrue (S.tells shelf.old) → parts.new ≤ parts.old
        + command_cost single_tests (ApplyCommand words.now) (S.files shelf.old) (M.large maker.new) (M.unread maker.new) }
{
    let inputs = read_apply(alloc, words, shelf, maker)?;
    let read = read_sources(alloc, &words.env, &inputs.sources, maker)?;
    match write_report(alloc, out, words.brief, inputs, read, checks, parts) {
        Ok(()) => Ok(()),
        Err(error) => Err(status_of(error)),
    }
}

// Writes the notices, the active filters, and the steps of the page and its script.
fn write_report<O: Sink, L: Ledger, P: Ledger>(
    alloc: Global,
    out: &mut O,
    brief: bool,
    inputs: ApplyInputs,
    read: SourcesRead,
    checks: &mut Steps<L>,
    parts: &mut Steps<P>,
) -> Result<(), ReportError>
    requires proper { All (λ list. All (IsProperEntry read.table.patterns) list.entries) read.lists }
    requires within { length (entries_of read.lists) < 2 ^ 32 }
    requires few { length read.lists ≤ 32 }
    requires script { length inputs.script < 2 ^ 32 }
    requires numbers { inputs.tree.next + length inputs.script ≤ 4294967295 }
    ensures texts { ReportsAll O.tells O.written O.faults out.old out.new (report_of brief inputs read) result }
    ensures checks { checks.new ≤ checks.old
        + page_cost questions (state_of inputs.page inputs.tree read) (without_mark inputs.script) }
    ensures parts { parts.new ≤ parts.old
        + page_cost single_tests (state_of inputs.page inputs.tree read) (without_mark inputs.script) }
{
    write_all_notices(alloc, out, &read)?;
    let ApplyInputs {
        page,
        tree,
        script,
        ..
    } = inputs;
    let SourcesRead {
        rules,
        lists,
        table,
        ..
    } = read;
    let active = active_filters(alloc, lists, &page, &rules, &table)?;
    write_head(alloc, out, &page, &active, brief)?;
    let Page { path, .. } = page;
    let page = PageState { tree, path };
    let engine = Engine::start(alloc, page, table, active, checks, parts)?;
    let script = without_mark(script.as_slice());
    write_steps(alloc, out, brief, engine, script, checks, parts)
}
