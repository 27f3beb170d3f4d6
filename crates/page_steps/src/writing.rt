// The steps of a page and its script, written.
ghost use Rattle.std.specs.Prelude.{◌≡◌, ◌+◌, ◌≤◌, ◌<◌, ◌^◌, IfOk, length};
ghost use Rattle.cos_source.specs.Lines.{lines_of, numbered};
ghost use Rattle.mutation_script.specs.Lines.{script_line};
ghost use Rattle.mutation_script.specs.Changes.{answer};
ghost use Rattle.hide_report.specs.Reported.{IsAnswer, Reports, ReportsAll};
ghost use Rattle.command_meaning.specs.Report.{after_line, lines_texts, steps_texts, text_of_step};
ghost use Rattle.remove_rounds.specs.Costs.{questions, single_tests};
ghost use Rattle.page_steps.specs.Costs.{line_cost, lines_cost, script_cost};
ghost use Rattle.page_steps.specs.Known.{Knows};

use crate::follow::{Followed, follow_line};
use crate::known::Known;
use cos_outside::{Sink, Steps};
use cos_source::{Line, Lines};
use hide_engine::Engine;
use hide_report::{ReportError, write_brief_step, write_end, write_step};
use mutation_script::Answer;
use remove_rounds::settle;
use std::alloc::Global;
use std::sync::ledger::Ledger;

// A page, and what is known of its hidden elements.
#[derive(Drop)]
struct Told {
    engine: Engine,
    known: Known,
}

/// Writes a step for the page as it was opened, behind its rounds of removal, then one for each line of the script, and the end.
/// Of a brief report each step has the number of the hidden elements in place of these.
pub fn write_steps<O: Sink, L: Ledger, P: Ledger>(
    alloc: Global,
    out: &mut O,
    brief: bool,
    engine: Engine,
    script: &[u8],
    checks: &mut Steps<L>,
    parts: &mut Steps<P>,
) -> Result<(), ReportError>
    requires script { length script.now < 2 ^ 32 }
    requires numbers { engine.page.tree.next + length script.now ≤ 4294967295 }
    ensures texts { ReportsAll O.tells O.written O.faults out.old out.new
        (steps_texts brief engine script.now) result }
    ensures checks { checks.new ≤ checks.old + script_cost questions engine script.now }
    ensures parts { parts.new ≤ parts.old + script_cost single_tests engine script.now }
{
    let (engine, taken) = settle(alloc, engine, checks, parts)?;
    let opened = Followed {
        answer: Answer::Opened,
        engine,
        taken,
        same: false,
    };
    let known = write_followed(alloc, out, brief, 0, &opened, Known::Nothing)?;
    let page = Told {
        engine: opened.engine,
        known,
    };
    let count = write_lines(alloc, out, brief, page, script, checks, parts)?;
    write_end(alloc, out, count)
}

// Writes a step for each line of the script, and answers how many lines there are.
fn write_lines<O: Sink, L: Ledger, P: Ledger>(
    alloc: Global,
    out: &mut O,
    brief: bool,
    opened: Told,
    script: &[u8],
    checks: &mut Steps<L>,
    parts: &mut Steps<P>,
) -> Result<u32, ReportError>
    requires script { length script.now < 2 ^ 32 }
    requires numbers { opened.engine.page.tree.next + length script.now ≤ 4294967295 }
    requires known { Knows opened.known opened.engine }
    ensures count { IfOk result (λ count. count ≡ length (lines_of script.now)) }
    ensures texts { ReportsAll O.tells O.written O.faults out.old out.new
        (lines_texts brief opened.engine (numbered 1 (lines_of script.now))) result }
    ensures checks { checks.new ≤ checks.old
        + lines_cost questions opened.engine (numbered 1 (lines_of script.now)) }
    ensures parts { parts.new ≤ parts.old
        + lines_cost single_tests opened.engine (numbered 1 (lines_of script.now)) }
{
    let mut page = opened;
    let mut count = 0;
    let mut lines = Lines::new(script);
    'lines: while let Some(line) = lines.next() {
        page = write_line(alloc, out, brief, page, line, checks, parts)?;
        count += 1;
    }
    Ok(count)
}

// Follows a line, writes its step, and answers the page behind it. What is known of the page goes on where the line leaves the
// hidden elements the same.
fn write_line<O: Sink, L: Ledger, P: Ledger>(
    alloc: Global,
    out: &mut O,
    brief: bool,
    page: Told,
    line: Line,
    checks: &mut Steps<L>,
    parts: &mut Steps<P>,
) -> Result<Told, ReportError>
    requires number { page.engine.page.tree.next + length line.bytes.now ≤ 4294967295 }
    requires known { Knows page.known page.engine }
    ensures page { IfOk result (λ behind.
        behind.engine ≡ (after_line (script_line line.entry.bytes.now) page.engine).state) }
    ensures known { IfOk result (λ behind. Knows behind.known behind.engine) }
    ensures text { Reports O.tells O.written O.faults out.old out.new
        (text_of_step brief line.entry.number (answer (script_line line.entry.bytes.now) page.engine.page)
        (after_line (script_line line.entry.bytes.now) page.engine)) result }
    ensures checks { checks.new ≤ checks.old
        + line_cost questions (script_line line.entry.bytes.now) page.engine }
    ensures parts { parts.new ≤ parts.old
        + line_cost single_tests (script_line line.entry.bytes.now) page.engine }
{
    let Told { engine, known } = page;
    let followed = follow_line(alloc, engine, line.bytes, checks, parts)?;
    let known = known.behind_line(followed.same);
    let known = write_followed(alloc, out, brief, line.number, &followed, known)?;
    Ok(Told {
        engine: followed.engine,
        known,
    })
}

// Writes a step, with the hidden elements of the page as it then stands, and answers what is known of them then. They are made
// only where they aren't known, and a brief step needs their number alone.
fn write_followed<O: Sink>(
    alloc: Global,
    out: &mut O,
    brief: bool,
    number: u32,
    step: &Followed,
    known: Known,
) -> Result<Known, ReportError>
    requires answer { IsAnswer step.now.answer }
    requires known { Knows known step.now.engine }
    ensures known { IfOk result (λ known. Knows known step.now.engine) }
    ensures text { Reports O.tells O.written O.faults out.old out.new
        (text_of_step brief number step.now.answer (record { state = step.now.engine; taken = step.now.taken }))
        result }
{
    let Followed {
        answer,
        engine,
        taken,
        ..
    } = step;
    let active = engine.active();
    if brief {
        let hidden = known.into_count(engine);
        write_brief_step(alloc, out, number, answer, active, taken, hidden)?;
        Ok(Known::Count(hidden))
    } else {
        let rows = known.into_rows(alloc, engine)?;
        write_step(
            alloc,
            out,
            number,
            answer,
            engine.dom(),
            active,
            taken,
            &rows,
            false,
        )?;
        Ok(Known::Rows(rows))
    }
}
