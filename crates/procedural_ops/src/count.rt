//! Where the notes of the tests in a chain stand: in text order, whatever depth they stand at.
ghost use Rattle.std.specs.Prelude.{◌≡◌, ◌+◌, length, IfOk};
ghost use Rattle.procedural_ops.specs.Noted.{chain_cells, selector_cells, step_cells, test_cells};

use selector_tree::{Chain, Step, Test};
use std::alloc::AllocError;

/// The next place. There are never more than a number can say: such a chain wouldn't fit in memory.
pub(crate) fn next_place(place: usize) -> Result<usize, AllocError>
    ensures { IfOk result (λ next. next ≡ place + 1) }
{
    place.checked_add(1).ok_or(AllocError)
}

/// The place behind those of some steps, the first of which is given.
#[cycle(count)]
pub(crate) fn behind(first: usize, steps: &[Step]) -> Result<usize, AllocError>
    ensures { IfOk result (λ place. place ≡ first + length (chain_cells steps.now)) }
{
    let mut place = first;
    for step in steps {
        place = behind_step(place, step)?;
    }
    Ok(place)
}

/// The place behind those of one step.
#[cycle(count)]
pub(crate) fn behind_step(first: usize, step: &Step) -> Result<usize, AllocError>
    ensures { IfOk result (λ place. place ≡ first + length (step_cells step.now)) }
{
    match step {
        Step::Keep(test) => behind_test(first, test),
        Step::UpwardTo(selector) => behind_selector(first, selector.get().as_slice()),
        _ => Ok(first),
    }
}

#[cycle(count)]
fn behind_test(first: usize, test: &Test) -> Result<usize, AllocError>
    ensures { IfOk result (λ place. place ≡ first + length (test_cells test.now)) }
{
    let inside = next_place(first)?;
    match test {
        Test::Is(selector) => behind_selector(inside, selector.get().as_slice()),
        Test::Not(selector) => behind_selector(inside, selector.get().as_slice()),
        Test::Has(selector) => behind_selector(inside, selector.get().as_slice()),
        _ => Ok(inside),
    }
}

#[cycle(count)]
fn behind_selector(first: usize, selector: &[Chain]) -> Result<usize, AllocError>
    ensures { IfOk result (λ place. place ≡ first + length (selector_cells selector.now)) }
{
    let mut place = first;
    for chain in selector {
        place = behind(place, chain.as_slice())?;
    }
    Ok(place)
}
