ghost use Rattle.std.specs.Prelude.{◌≡◌, ◌++◌, MatchResult, OnOk};
ghost use Rattle.selector_tree.specs.declared.selector.Test.TheVariants as test;
ghost use Rattle.selector_spelling.specs.Pieces.{ask, ask_each, counting, searching, measuring, matching, watching, climbing, others, action};
ghost use Rattle.selector_lexer.specs.Stops.{Fails};
ghost use Rattle.spelling_reader.specs.Readings.{Reads};
ghost use Rattle.spelling_reader.specs.Searches.{searched_test};

use crate::pairs::{attribute_pair, watched};
use crate::texts::{sought, text_argument};
use selector_lexer::{Stop, bad, degree, is_blank, nth, text_units};
use selector_spelling::{Ask, Cause, Notes, Setting};
use selector_tree::{Arg, Chain, Step, Test};
use std::alloc::{AllocError, Global};

/// Notes the pattern of an argument that has one.
fn push_ask(alloc: Global, at: usize, arg: &Arg, notes: &mut Notes) -> Result<(), AllocError>
    ensures { OnOk result (notes.new ≡ record notes.old { asks = notes.old.asks ++ ask at arg.now }) }
{
    if let Arg::Pattern { body, flags, .. } = arg {
        let body = body.copy(alloc)?;
        notes.asks.push(Ask {
            at,
            body,
            flags: *flags,
        })?;
    }
    Ok(())
}

/// `:nth-child(..)` and the like.
pub(crate) fn push_nth(
    alloc: Global,
    from_end: bool,
    of_name: bool,
    at: usize,
    argument: &str,
    steps: &mut Chain,
    notes: &mut Notes,
) -> Result<(), Stop>
    ensures { let given = counting from_end of_name at argument.now in
        MatchResult result (λ _. Reads steps.old steps.new notes.old notes.new given) (λ stop. Fails stop given) }
{
    let Some((a, b)) = nth(alloc, argument)? else {
        return Err(bad(Cause::BadNumber, at));
    };
    steps.push(Step::Keep(Test::Nth {
        a,
        b,
        from_end,
        of_name,
    }))?;
    Ok(())
}

/// `:min-text-length(..)`.
pub(crate) fn push_units(
    at: usize,
    argument: &str,
    steps: &mut Chain,
    notes: &mut Notes,
) -> Result<(), Stop>
    ensures { let given = measuring at argument.now in
        MatchResult result (λ _. Reads steps.old steps.new notes.old notes.new given) (λ stop. Fails stop given) }
{
    let Some(units) = text_units(argument.as_bytes()) else {
        return Err(bad(Cause::BadOperatorArgument, at));
    };
    steps.push(Step::Keep(Test::MinText(units)))?;
    notes.operates = true;
    Ok(())
}

/// What a text is looked for in.
#[derive(Clone, Copy)]
pub(crate) enum Searched {
    /// The text of an element.
    Text,
    /// The path of the page.
    Path,
}

/// The test of an argument.
fn search_test(searched: Searched, arg: Arg) -> Test
    ensures { result ≡ searched_test searched arg }
{
    match searched {
        Searched::Text => Test::HasText(arg),
        Searched::Path => Test::MatchesPath(arg),
    }
}

/// `:has-text(..)` and `:matches-path(..)`.
pub(crate) fn push_search(
    alloc: Global,
    searched: Searched,
    at: usize,
    argument: &str,
    steps: &mut Chain,
    notes: &mut Notes,
) -> Result<(), Stop>
    ensures { let given = searching (searched_test searched) at argument.now in
        MatchResult result (λ _. Reads steps.old steps.new notes.old notes.new given) (λ stop. Fails stop given) }
{
    let Some(arg) = sought(text_argument(alloc, argument)?) else {
        return Err(bad(Cause::BadOperatorArgument, at));
    };
    push_ask(alloc, at, &arg, notes)?;
    steps.push(Step::Keep(search_test(searched, arg)))?;
    notes.operates = true;
    Ok(())
}

/// `:matches-attr(..)`.
pub(crate) fn push_pair(
    alloc: Global,
    at: usize,
    argument: &str,
    steps: &mut Chain,
    notes: &mut Notes,
) -> Result<(), Stop>
    ensures { let given = matching at argument.now in
        MatchResult result (λ _. Reads steps.old steps.new notes.old notes.new given) (λ stop. Fails stop given) }
{
    let Some(pair) = attribute_pair(alloc, argument)? else {
        return Err(bad(Cause::BadOperatorArgument, at));
    };
    push_ask(alloc, at, &pair.name, notes)?;
    push_ask_each(alloc, at, &pair.value, notes)?;
    steps.push(Step::Keep(Test::MatchesAttr {
        name: pair.name,
        value: pair.value,
    }))?;
    notes.operates = true;
    Ok(())
}

fn push_ask_each(
    alloc: Global,
    at: usize,
    arg: &Option<Arg>,
    notes: &mut Notes,
) -> Result<(), AllocError>
    ensures { OnOk result (notes.new ≡ record notes.old { asks = notes.old.asks ++ ask_each at arg.now }) }
{
    match arg {
        Some(arg) => push_ask(alloc, at, arg, notes),
        None => Ok(()),
    }
}

/// `:watch-attr(..)`.
pub(crate) fn push_watch(
    alloc: Global,
    at: usize,
    argument: &str,
    steps: &mut Chain,
    notes: &mut Notes,
) -> Result<(), Stop>
    ensures { let given = watching at argument.now in
        MatchResult result (λ _. Reads steps.old steps.new notes.old notes.new given) (λ stop. Fails stop given) }
{
    let Some(names) = watched(alloc, argument)? else {
        return Err(bad(Cause::BadOperatorArgument, at));
    };
    steps.push(Step::Keep(Test::WatchAttr(names)))?;
    notes.operates = true;
    Ok(())
}

/// `:upward(..)` with digits.
pub(crate) fn push_degree(
    at: usize,
    digits: &str,
    steps: &mut Chain,
    notes: &mut Notes,
) -> Result<(), Stop>
    ensures { let given = climbing at digits.now in
        MatchResult result (λ _. Reads steps.old steps.new notes.old notes.new given) (λ stop. Fails stop given) }
{
    let Some(degree) = degree(digits.as_bytes()) else {
        return Err(bad(Cause::BadOperatorArgument, at));
    };
    steps.push(Step::Upward(degree))?;
    notes.operates = true;
    Ok(())
}

/// `:others()`.
pub(crate) fn push_others(
    setting: Setting,
    at: usize,
    argument: &str,
    steps: &mut Chain,
    notes: &mut Notes,
) -> Result<(), Stop>
    ensures { let given = others setting at argument.now in
        MatchResult result (λ _. Reads steps.old steps.new notes.old notes.new given) (λ stop. Fails stop given) }
{
    if setting.nested {
        return Err(bad(Cause::OthersNested, at));
    }
    if !is_blank(argument.as_bytes()) {
        return Err(bad(Cause::BadOperatorArgument, at));
    }
    steps.push(Step::Others)?;
    notes.operates = true;
    Ok(())
}

/// `:remove()`, which begins its compound or not, and ends it or not.
pub(crate) fn note_action(
    setting: Setting,
    alone: bool,
    ends: bool,
    at: usize,
    argument: &str,
    steps: &mut Chain,
    notes: &mut Notes,
) -> Result<(), Stop>
    ensures { let given = action setting alone ends at argument.now in
        MatchResult result (λ _. Reads steps.old steps.new notes.old notes.new given) (λ stop. Fails stop given) }
{
    if setting.nested || !(setting.last && ends) {
        return Err(bad(Cause::ActionNotLast, at));
    }
    if setting.several {
        return Err(bad(Cause::ActionInList, at));
    }
    if alone {
        return Err(bad(Cause::EmptyPart, at));
    }
    if !is_blank(argument.as_bytes()) {
        return Err(bad(Cause::BadOperatorArgument, at));
    }
    notes.removes = true;
    Ok(())
}
