//! Rounds of removal, until one takes nothing.
//!
//! `settle` is the whole of it. That rounds end, and that what they take doesn't depend on how they are made, is what
//! `engine_meaning` says of them.
#![tactic(auto)]

ghost use Rattle.std.specs.Prelude.{◌≡◌, ◌+◌, ◌≤◌, [], ◌++◌, map, IfOk, OnOk};
ghost use Rattle.cos_patterns.specs.Found.{pattern_found};
ghost use Rattle.engine_meaning.specs.Rounds.{removed};
ghost use Rattle.engine_meaning.specs.States.{settled_state, taken_of};
ghost use Rattle.remove_rounds.specs.Costs.{questions, single_tests, settling_cost};
ghost use Rattle.remove_rounds.specs.Numbered.{in_round};

use cos_outside::Steps;
use hide_engine::Engine;
use selector_tree::{Taken, TakenList};
use std::alloc::{AllocError, Global};
use std::sync::ledger::Ledger;

/// Makes rounds until one takes nothing, and answers what each of them took, numbered from 1. Nothing that a filter removes
/// is left then, and where nothing was taken the page is as it was. Each round asks no more than its budget, also where memory
/// runs out.
pub fn settle<L: Ledger, P: Ledger>(
    alloc: Global,
    engine: Engine,
    checks: &mut Steps<L>,
    parts: &mut Steps<P>,
) -> Result<(Engine, TakenList), AllocError>
    ensures engine { IfOk result (λ done. done.0 ≡ settled_state pattern_found engine) }
    ensures taken { IfOk result (λ done. done.1 ≡ taken_of pattern_found engine) }
    ensures quiet { IfOk result (λ done.
        removed pattern_found engine.filters engine.page.path done.0.page.tree ≡ []) }
    ensures same { IfOk result (λ done. done.1 ≡ [] → done.0 ≡ engine) }
    ensures checks { checks.new ≤ checks.old + settling_cost questions engine }
    ensures parts { parts.new ≤ parts.old + settling_cost single_tests engine }
{
    let mut taken = TakenList::new(alloc);
    let mut engine = engine;
    engine.dom().is_tree();
    let mut number = 1;
    'rounds: loop {
        engine.dom().is_tree();
        let (next, rows) = engine.take_round(alloc, checks, parts)?;
        engine = next;
        if rows.len() == 0 {
            return Ok((engine, taken));
        }
        add_round(&mut taken, rows, number)?;
        number += 1;
    }
}

// Adds the rows of the round of this number.
fn add_round(taken: &mut TakenList, rows: TakenList, number: u32) -> Result<(), AllocError>
    ensures { OnOk result (taken.new ≡ taken.old ++ map (in_round number) rows) }
{
    for row in rows.into_vec() {
        let Taken {
            node,
            name,
            filters,
            ..
        } = row;
        taken.push(Taken {
            round: number,
            node,
            name,
            filters,
        })?;
    }
    Ok(())
}
