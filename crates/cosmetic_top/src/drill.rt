// The command that makes its files for a size.
ghost use Rattle.std.specs.Prelude.{◌≡◌, ◌+◌, ◌≤◌, ◌<◌, ◌^◌, ◌∷◌, [], All, length, IfOk, IfErr, IsErrOf};
ghost use Rattle.cos_source.specs.Lines.{lines_of, numbered};
ghost use Rattle.list_reader.specs.Entries.{IsProperEntry};
ghost use Rattle.hostname_buckets.specs.Active.{entries_of};
ghost use Rattle.command_words.specs.declared.command.Command.TheVariants.{Drill as DrillCommand};
ghost use Rattle.command_inputs.specs.declared.status.Status.TheVariants.{Refused};
ghost use Rattle.command_inputs.specs.declared.status.InputRefusal.TheVariants.{AddressTooLarge};
ghost use Rattle.command_inputs.specs.Inputs.{tree_of_source};
ghost use Rattle.command_inputs.specs.Reads.{IsDue, IsPageError};
ghost use Rattle.command_meaning.specs.Generator.{drill_list, drill_page, drill_script};
ghost use Rattle.command_meaning.specs.Output.{texts_due};
ghost use Rattle.command_meaning.specs.Report.{drill_address};
ghost use Rattle.remove_rounds.specs.Costs.{questions, single_tests};
ghost use Rattle.page_steps.specs.Costs.{script_cost};
ghost use Rattle.cosmetic_top.specs.Costs.{drill_cost, drill_state};
ghost use Rattle.cosmetic_top.specs.Reports.{IsDrillState, counts_of, drilled, state_of};
ghost use Rattle.cosmetic_top.specs.Runs.{RunsAlone};

use crate::end::status_of;
use address_patterns::Page;
use command_inputs::{Sources, Status, tree_of_text};
use command_words::Drill;
use cos_outside::{Sink, Steps};
use cos_patterns::Maker;
use cos_source::Lines;
use dom_arena::Dom;
use drill_files::{drill_list, drill_page, drill_script};
use hide_engine::Engine;
use hide_report::{DrillCounts, write_drill};
use host_names::Host;
use list_files::{SourcesRead, active_filters, read_sources};
use listed::{Bytes, Listed, Names, Text};
use mutation_script::PageState;
use page_steps::follow_script;
use std::alloc::{AllocError, Global};
use std::sync::ledger::Ledger;

/// Makes the page, the list and the script, follows the script, and writes one line about the page behind it.
pub(crate) fn drill<O: Sink, M: Maker, L: Ledger, P: Ledger>(
    alloc: Global,
    words: &Drill,
    out: &mut O,
    maker: &mut M,
    checks: &mut Steps<L>,
    parts: &mut Steps<P>,
) -> Result<(), Status>
    requires large { M.large maker.old ≡ [] }
    requires unread { M.unread maker.old ≡ [] }
    ensures runs { RunsAlone O.tells O.written O.faults out.old out.new
        (M.large maker.new) (M.unread maker.new) (texts_due (DrillCommand words.now)) result }
    ensures other { IsErrOf result (Refused AddressTooLarge) → ⊥ }
    ensures checks { checks.new ≤ checks.old + drill_cost questions words.now.number
        (tree_of_source (drill_page words.now.number)) (M.large maker.new) (M.unread maker.new) }
    ensures parts { parts.new ≤ parts.old + drill_cost single_tests words.now.number
        (tree_of_source (drill_page words.now.number)) (M.large maker.new) (M.unread maker.new) }
{
    let tree = made_page(alloc, words.number)?;
    let engine = opened(alloc, tree, maker, checks, parts)?;
    let counts = counted(alloc, words.number, engine, checks, parts)?;
    match write_drill(alloc, out, counts, words.brief) {
        Ok(()) => Ok(()),
        Err(error) => Err(status_of(error)),
    }
}

// The tree of the page.
fn made_page(alloc: Global, number: u16) -> Result<Dom, Status>
    ensures due { IsDue result (tree_of_source (drill_page number)) }
    ensures numbers { IfOk result (λ tree. tree.next ≤ 200000000) }
    ensures kinds { IfErr result IsPageError }
{
    let page = drill_page(alloc, number)?;
    tree_of_text(alloc, page.as_str())
}

// The engine for the page, and the list as it is read.
fn opened<M: Maker, L: Ledger, P: Ledger>(
    alloc: Global,
    tree: Dom,
    maker: &mut M,
    checks: &mut Steps<L>,
    parts: &mut Steps<P>,
) -> Result<Engine, AllocError>
    requires large { M.large maker.old ≡ [] }
    requires unread { M.unread maker.old ≡ [] }
    ensures state { IfOk result (IsDrillState (M.large maker.new) (M.unread maker.new) tree) }
    ensures checks { checks.new ≤ checks.old + questions.start (drill_state (M.large maker.new) (M.unread maker.new) tree) }
    ensures parts { parts.new ≤ parts.old + single_tests.start (drill_state (M.large maker.new) (M.unread maker.new) tree) }
{
    let sources = drill_sources(alloc)?;
    let read = read_sources(alloc, &Names::new(alloc), &sources, maker)?;
    drill_engine(alloc, tree, read, checks, parts)
}

// The list alone, and no rules of public suffixes.
fn drill_sources(alloc: Global) -> Result<Sources, AllocError>
    ensures { IfOk result (λ sources. sources ≡ record { suffixes = []; lists = drill_list ∷ [] }) }
{
    let mut bytes = Bytes::new(alloc);
    bytes.extend(drill_list().as_bytes())?;
    let mut lists = Listed::new(alloc);
    lists.push(bytes)?;
    Ok(Sources {
        suffixes: Bytes::new(alloc),
        lists,
    })
}

// The page of the drill, by its address.
fn drill_address(alloc: Global) -> Result<Page, AllocError>
    ensures { IfOk result (λ page. page ≡ drill_address) }
{
    Ok(Page {
        address: Text::of(alloc, "https://example.com/")?,
        host: Host::of_page(alloc, "example.com")?,
        host_from: 8,
        host_to: 19,
        path: Text::of(alloc, "/")?,
    })
}

// The engine for the page of the drill.
fn drill_engine<L: Ledger, P: Ledger>(
    alloc: Global,
    tree: Dom,
    read: SourcesRead,
    checks: &mut Steps<L>,
    parts: &mut Steps<P>,
) -> Result<Engine, AllocError>
    requires proper { All (λ list. All (IsProperEntry read.table.patterns) list.entries) read.lists }
    requires within { length (entries_of read.lists) < 2 ^ 32 }
    ensures engine { IfOk result (λ engine. engine ≡ state_of drill_address tree read) }
    ensures checks { checks.new ≤ checks.old + questions.start (state_of drill_address tree read) }
    ensures parts { parts.new ≤ parts.old + single_tests.start (state_of drill_address tree read) }
{
    let page = drill_address(alloc)?;
    let SourcesRead {
        rules,
        lists,
        table,
        ..
    } = read;
    let active = active_filters(alloc, lists, &page, &rules, &table)?;
    let Page { path, .. } = page;
    Engine::start(
        alloc,
        PageState { tree, path },
        table,
        active,
        checks,
        parts,
    )
}

// What the drill comes to.
fn counted<L: Ledger, P: Ledger>(
    alloc: Global,
    number: u16,
    engine: Engine,
    checks: &mut Steps<L>,
    parts: &mut Steps<P>,
) -> Result<DrillCounts, AllocError>
    requires numbers { engine.page.tree.next ≤ 200000000 }
    ensures counts { IfOk result (λ counts. counts ≡ counts_of number (drilled number engine)) }
    ensures checks { checks.new ≤ checks.old + script_cost questions engine (drill_script number) }
    ensures parts { parts.new ≤ parts.old + script_cost single_tests engine (drill_script number) }
{
    let (behind, taken, steps) = followed(alloc, number, engine, checks, parts)?;
    Ok(told(number, &behind, taken, steps))
}

// The page behind the script, how many elements were taken, and how many lines the script has.
fn followed<L: Ledger, P: Ledger>(
    alloc: Global,
    number: u16,
    engine: Engine,
    checks: &mut Steps<L>,
    parts: &mut Steps<P>,
) -> Result<(Engine, u64, u32), AllocError>
    requires numbers { engine.page.tree.next ≤ 200000000 }
    ensures end { IfOk result (λ done. record { state = done.0; taken = done.1 } ≡ drilled number engine) }
    ensures steps { IfOk result (λ done. done.2 ≡ length (numbered 1 (lines_of (drill_script number)))) }
    ensures checks { checks.new ≤ checks.old + script_cost questions engine (drill_script number) }
    ensures parts { parts.new ≤ parts.old + script_cost single_tests engine (drill_script number) }
{
    let text = drill_script(alloc, number)?;
    let script = text.as_bytes();
    let steps = count_lines(script);
    let (behind, taken) = follow_script(alloc, engine, script, checks, parts)?;
    Ok((behind, taken, steps))
}

// The counts of the page behind the script.
fn told(number: u16, behind: &Engine, taken: u64, steps: u32) -> DrillCounts
    requires steps { steps ≡ length (numbered 1 (lines_of (drill_script number))) }
    ensures { result ≡ counts_of number (record { state = behind.now; taken = taken }) }
{
    DrillCounts {
        number,
        nodes: behind.dom().count(),
        steps,
        hidden: behind.hidden_count(),
        taken,
    }
}

// How many lines a source has.
fn count_lines(source: &[u8]) -> u32
    requires { length source.now < 2 ^ 32 }
    ensures { result ≡ length (numbered 1 (lines_of source.now)) }
{
    let mut count = 0;
    let mut lines = Lines::new(source);
    'lines: while let Some(_) = lines.next() {
        count += 1;
    }
    count
}
