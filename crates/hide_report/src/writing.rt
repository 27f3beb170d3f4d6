// How a report is written. Each part makes its whole text first, and then writes it in one piece.
ghost use Rattle.std.specs.Prelude.{◌≡◌, ◌++◌, map, string_bytes, IfOk};
ghost use Rattle.std.specs.List.{flat_map};
ghost use Rattle.engine_meaning.specs.Hidden.{pair_of};
ghost use Rattle.hide_report.specs.Answers.{answer_name};
ghost use Rattle.hide_report.specs.Reported.{IsAnswer, Reports};
ghost use Rattle.hide_report.specs.Texts.{notices_text, head_text, taken_text, step_line, step_text, brief_step_text, end_text, counts_text, drill_text};

use crate::answer::answer_name;
use crate::counts::DrillCounts;
use crate::{counts, texts};
use address_patterns::Page;
use cos_outside::{Failed, Sink, write_whole};
use dom_arena::Dom;
use list_entries::{Lists, Notices};
use mutation_script::Answer;
use selector_tree::{Active, Rows, TakenList};
use std::alloc::{AllocError, Global};
use thiserror::Error;

/// Why a text of the report wasn't written whole.
#[derive(Clone, Copy, Debug, PartialEq, Eq, Error)]
pub enum ReportError {
    /// The output could not be written; what was written is a front of the text.
    #[error("the output could not be written")]
    WriteFault,
    /// Memory ran out, and nothing of the text was written.
    #[error("out of memory")]
    NoMemory,
}

impl From<Failed> for ReportError {
    ghost use Rattle.hide_report.specs.declared.writing.ReportError.TheVariants.{WriteFault};

    ghost from_gives = { λ _ error. error ≡ WriteFault };

    fn from(_: Failed) -> Self {
        ReportError::WriteFault
    }
}

impl From<AllocError> for ReportError {
    ghost use Rattle.hide_report.specs.declared.writing.ReportError.TheVariants.{NoMemory};

    ghost from_gives = { λ _ error. error ≡ NoMemory };

    fn from(_: AllocError) -> Self {
        ReportError::NoMemory
    }
}

/// Writes what is said of the lines of a file: of the list of this number, or by 0 of the file of public suffix rules.
pub fn write_notices<O: Sink>(
    alloc: Global,
    out: &mut O,
    list: u32,
    notices: &Notices,
) -> Result<(), ReportError>
    ensures { Reports O.tells O.written O.faults out.old out.new
        (notices_text list notices.now) result }
{
    let text = texts::notices_text(alloc, list, notices.as_slice())?;
    write_text(out, &text)
}

/// Writes the page's address and the active filters.
pub fn write_head<O: Sink>(
    alloc: Global,
    out: &mut O,
    page: &Page,
    active: &Active,
    brief: bool,
) -> Result<(), ReportError>
    ensures { Reports O.tells O.written O.faults out.old out.new
        (head_text page.now.address active.now brief) result }
{
    let text = texts::head_text(alloc, page.address.as_str(), active.as_slice(), brief)?;
    write_text(out, &text)
}

/// Writes a step: its number, its answer, the elements taken out since the one before, and the hidden elements of the page as it
/// then stands. Filters go by their places among the active ones.
pub fn write_step<O: Sink>(
    alloc: Global,
    out: &mut O,
    number: u32,
    answer: &Answer,
    dom: &Dom,
    active: &Active,
    taken: &TakenList,
    rows: &Rows,
    brief: bool,
) -> Result<(), ReportError>
    requires { IsAnswer answer.now }
    ensures { Reports O.tells O.written O.faults out.old out.new
        (step_text number (answer_name answer.now) dom.now active.now taken.now
        (map pair_of rows.now) brief) result }
{
    let mut text = step_front(alloc, number, answer, active, taken)?;
    texts::push_hidden(&mut text, dom, active.as_slice(), rows.as_slice(), brief)?;
    write_text(out, &text)
}

/// Writes a brief step, by the number of the hidden elements of the page as it then stands.
pub fn write_brief_step<O: Sink>(
    alloc: Global,
    out: &mut O,
    number: u32,
    answer: &Answer,
    active: &Active,
    taken: &TakenList,
    hidden: usize,
) -> Result<(), ReportError>
    requires { IsAnswer answer.now }
    ensures { Reports O.tells O.written O.faults out.old out.new
        (brief_step_text number (answer_name answer.now) active.now taken.now hidden) result }
{
    let mut text = step_front(alloc, number, answer, active, taken)?;
    texts::push_hidden_line(&mut text, hidden)?;
    write_text(out, &text)
}

// What a step has before its hidden elements: its number, its answer, and the elements taken out.
fn step_front(
    alloc: Global,
    number: u32,
    answer: &Answer,
    active: &Active,
    taken: &TakenList,
) -> Result<String, AllocError>
    requires { IsAnswer answer.now }
    ensures { IfOk result (λ text. string_bytes text ≡
        step_line number (answer_name answer.now) ++ flat_map (taken_text active.now) taken.now) }
{
    let answer = answer_name(alloc, *answer)?;
    let mut text = texts::step_line(alloc, number, answer.as_str())?;
    texts::push_taken_rows(&mut text, active.as_slice(), taken.as_slice())?;
    Ok(text)
}

/// Writes the end of the report, with the number of lines of the script.
pub fn write_end<O: Sink>(alloc: Global, out: &mut O, lines: u32) -> Result<(), ReportError>
    ensures { Reports O.tells O.written O.faults out.old out.new (end_text lines) result }
{
    let text = texts::end_text(alloc, lines)?;
    write_text(out, &text)
}

/// Writes how many filters, exceptions and page options the lists have together.
pub fn write_counts<O: Sink>(alloc: Global, out: &mut O, lists: &Lists) -> Result<(), ReportError>
    ensures { Reports O.tells O.written O.faults out.old out.new (counts_text lists.now) result }
{
    let text = counts::counts_text(alloc, lists.as_slice())?;
    write_text(out, &text)
}

/// Writes the line of a drill.
pub fn write_drill<O: Sink>(
    alloc: Global,
    out: &mut O,
    counts: DrillCounts,
    brief: bool,
) -> Result<(), ReportError>
    ensures { Reports O.tells O.written O.faults out.old out.new
        (drill_text counts.number counts.nodes counts.steps counts.hidden counts.taken brief) result }
{
    let text = counts::drill_text(alloc, counts, brief)?;
    write_text(out, &text)
}

// Writes a text that was made.
fn write_text<O: Sink>(out: &mut O, text: &String) -> Result<(), ReportError>
    ensures { Reports O.tells O.written O.faults out.old out.new (string_bytes text.now) result }
{
    write_whole(out, text.as_bytes())?;
    Ok(())
}
