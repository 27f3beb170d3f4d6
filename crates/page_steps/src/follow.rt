// How the lines of a script change a page.
ghost use Rattle.std.specs.Prelude.{◌≡◌, ◌+◌, ◌≤◌, ◌<◌, ◌^◌, true, [], IfOk, length};
ghost use Rattle.cos_source.specs.Lines.{lines_of, numbered};
ghost use Rattle.mutation_script.specs.Inserted.{inserted};
ghost use Rattle.mutation_script.specs.Lines.{script_line};
ghost use Rattle.mutation_script.specs.Changes.{answer};
ghost use Rattle.hide_engine.specs.Chosen.{HidesSame};
ghost use Rattle.command_meaning.specs.Report.{after_line, drilled_by, settling};
ghost use Rattle.remove_rounds.specs.Costs.{questions, single_tests};
ghost use Rattle.page_steps.specs.Costs.{line_cost, script_cost};

use cos_outside::Steps;
use cos_source::Lines;
use hide_engine::{Applied, Engine};
use mutation_script::{Answer, Mutation, Outcome, ScriptLine, read_line};
use remove_rounds::settle;
use selector_tree::TakenList;
use std::alloc::{AllocError, Global};
use std::sync::ledger::Ledger;

/// What a line of a script came to.
#[derive(Drop)]
pub struct Followed {
    /// The answer to the line.
    pub answer: Answer,
    /// The page behind it.
    pub engine: Engine,
    /// What its rounds of removal took.
    pub taken: TakenList,
    /// Whether the hidden elements are known to be those before the line, each with the same filters.
    pub same: bool,
}

/// Makes the change that a line asks for, and rounds of removal until one takes nothing. A line that is refused, blank or bad
/// changes nothing.
///
/// # Errors
///
/// Only want of memory.
pub fn follow_line<L: Ledger, P: Ledger>(
    alloc: Global,
    engine: Engine,
    line: &[u8],
    checks: &mut Steps<L>,
    parts: &mut Steps<P>,
) -> Result<Followed, AllocError>
    requires { engine.page.tree.next + length line.now ≤ 4294967295 }
    ensures answer { IfOk result (λ followed. followed.answer ≡ answer (script_line line.now) engine.page) }
    ensures engine { IfOk result (λ followed. followed.engine ≡ (after_line (script_line line.now) engine).state) }
    ensures taken { IfOk result (λ followed. followed.taken ≡ (after_line (script_line line.now) engine).taken) }
    ensures same { IfOk result (λ followed. followed.same ≡ true → HidesSame engine followed.engine) }
    ensures checks { checks.new ≤ checks.old + line_cost questions (script_line line.now) engine }
    ensures parts { parts.new ≤ parts.old + line_cost single_tests (script_line line.now) engine }
{
    match read_line(alloc, line)? {
        ScriptLine::Mutation(mutation) => follow_mutation(alloc, engine, mutation, checks, parts),
        ScriptLine::Blank => Ok(unchanged(alloc, engine, Answer::Blank)),
        ScriptLine::Bad(cause) => Ok(unchanged(alloc, engine, Answer::Bad(cause))),
    }
}

// Makes a change, and rounds of removal where it is accepted.
fn follow_mutation<L: Ledger, P: Ledger>(
    alloc: Global,
    engine: Engine,
    mutation: Mutation,
    checks: &mut Steps<L>,
    parts: &mut Steps<P>,
) -> Result<Followed, AllocError>
    requires { engine.page.tree.next + inserted mutation ≤ 4294967295 }
    ensures answer { IfOk result (λ followed. followed.answer ≡ answer (ScriptLine.Mutation mutation) engine.page) }
    ensures engine { IfOk result (λ followed. followed.engine ≡ (after_line (ScriptLine.Mutation mutation) engine).state) }
    ensures taken { IfOk result (λ followed. followed.taken ≡ (after_line (ScriptLine.Mutation mutation) engine).taken) }
    ensures same { IfOk result (λ followed. followed.same ≡ true → HidesSame engine followed.engine) }
    ensures checks { checks.new ≤ checks.old + line_cost questions (ScriptLine.Mutation mutation) engine }
    ensures parts { parts.new ≤ parts.old + line_cost single_tests (ScriptLine.Mutation mutation) engine }
{
    let Applied {
        engine: changed,
        outcome,
        same,
    } = engine.apply(alloc, mutation, checks, parts)?;
    match outcome {
        Outcome::Done => {
            let (engine, taken) = settle(alloc, changed, checks, parts)?;
            let same = still_same(same, &taken);
            Ok(Followed {
                answer: Answer::Done,
                engine,
                taken,
                same,
            })
        }
        Outcome::Refused(error) => Ok(unchanged(alloc, changed, Answer::Refused(error))),
    }
}

// Whether what a change left the same is so behind its rounds too: only where they took nothing.
fn still_same(same: bool, taken: &TakenList) -> bool
    ensures changed { result ≡ true → same ≡ true }
    ensures rounds { result ≡ true → taken.now ≡ [] }
{
    same && taken.len() == 0
}

// What a line came to that changes nothing.
fn unchanged(alloc: Global, engine: Engine, given: Answer) -> Followed
    ensures { result ≡ record { answer = given; engine = engine; taken = []; same = true } }
{
    Followed {
        answer: given,
        engine,
        taken: TakenList::new(alloc),
        same: true,
    }
}

/// Makes rounds of removal, and then follows all lines of a script, and answers the page behind them, with how many elements
/// were taken out.
///
/// # Errors
///
/// Only want of memory.
pub fn follow_script<L: Ledger, P: Ledger>(
    alloc: Global,
    engine: Engine,
    script: &[u8],
    checks: &mut Steps<L>,
    parts: &mut Steps<P>,
) -> Result<(Engine, u64), AllocError>
    requires script { length script.now < 2 ^ 32 }
    requires numbers { engine.page.tree.next + length script.now ≤ 4294967295 }
    ensures done { IfOk result (λ done. record { state = done.0; taken = done.1 } ≡
        drilled_by (record { state = (settling engine).state; taken = length (settling engine).taken })
        (numbered 1 (lines_of script.now))) }
    ensures checks { checks.new ≤ checks.old + script_cost questions engine script.now }
    ensures parts { parts.new ≤ parts.old + script_cost single_tests engine script.now }
{
    let (settled, taken) = settle(alloc, engine, checks, parts)?;
    let mut page = settled;
    let mut count = more(0, &taken)?;
    let mut lines = Lines::new(script);
    'lines: while let Some(line) = lines.next() {
        let Followed { engine, taken, .. } = follow_line(alloc, page, line.bytes, checks, parts)?;
        page = engine;
        count = more(count, &taken)?;
    }
    Ok((page, count))
}

// A count with further elements. So many that it passes 64 bits don't fit in memory, so want of memory stands for it.
fn more(count: u64, taken: &TakenList) -> Result<u64, AllocError>
    ensures { IfOk result (λ sum. sum ≡ count + length taken.now) }
{
    match count.checked_add(taken.len() as u64) {
        Some(sum) => Ok(sum),
        None => Err(AllocError),
    }
}
