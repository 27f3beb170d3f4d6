// Selectors with the numbers that their patterns have in a table.
ghost use Rattle.std.specs.Prelude.{◌≡◌, IfOk, map, option_map};
ghost use Rattle.selector_parser.specs.Numbered.{number_in, numbered, numbered_arg, numbered_step, numbered_test};

use cos_patterns::PatternTable;
use listed::Listed;
use selector_tree::{Arg, Chain, Names, Selector, Step, Test};
use sqlite_items::Boxed;
use std::alloc::{AllocError, Global};

// A copy of a selector with the numbers of its patterns in a table.
#[cycle(number)]
pub(crate) fn numbered(
    alloc: Global,
    table: &PatternTable,
    selector: &Selector,
) -> Result<Selector, AllocError>
    ensures { IfOk result (λ copy. copy ≡ numbered table.now.patterns selector.now) }
{
    let mut chains = Listed::new(alloc);
    for chain in selector.as_slice() {
        chains.push(numbered_chain(alloc, table, chain)?)?;
    }
    Ok(chains)
}

#[cycle(number)]
fn numbered_chain(alloc: Global, table: &PatternTable, chain: &Chain) -> Result<Chain, AllocError>
    ensures { IfOk result (λ copy. copy ≡ map (numbered_step table.now.patterns) chain.now) }
{
    let mut steps = Listed::new(alloc);
    for step in chain.as_slice() {
        steps.push(numbered_step(alloc, table, step)?)?;
    }
    Ok(steps)
}

#[cycle(number)]
fn numbered_step(alloc: Global, table: &PatternTable, step: &Step) -> Result<Step, AllocError>
    ensures { IfOk result (λ copy. copy ≡ numbered_step table.now.patterns step.now) }
{
    Ok(match step {
        Step::Keep(test) => Step::Keep(numbered_test(alloc, table, test)?),
        Step::Move(place) => Step::Move(*place),
        Step::Upward(degree) => Step::Upward(*degree),
        Step::UpwardTo(selector) => Step::UpwardTo(numbered_boxed(alloc, table, selector)?),
        Step::Others => Step::Others,
    })
}

#[cycle(number)]
fn numbered_boxed(
    alloc: Global,
    table: &PatternTable,
    selector: &Boxed<Selector>,
) -> Result<Boxed<Selector>, AllocError>
    ensures { IfOk result (λ copy. copy ≡ numbered table.now.patterns selector.now) }
{
    Boxed::new(alloc, numbered(alloc, table, selector.get())?)
}

#[cycle(number)]
fn numbered_test(alloc: Global, table: &PatternTable, test: &Test) -> Result<Test, AllocError>
    ensures { IfOk result (λ copy. copy ≡ numbered_test table.now.patterns test.now) }
{
    Ok(match test {
        Test::Any => Test::Any,
        Test::Tag(name) => Test::Tag(name.copy(alloc)?),
        Test::Id(id) => Test::Id(id.copy(alloc)?),
        Test::Class(class) => Test::Class(class.copy(alloc)?),
        Test::Attr {
            name,
            op,
            value,
            ignore_case,
        } => Test::Attr {
            name: name.copy(alloc)?,
            op: *op,
            value: value.copy(alloc)?,
            ignore_case: *ignore_case,
        },
        Test::Root => Test::Root,
        Test::Empty => Test::Empty,
        Test::Nth {
            a,
            b,
            from_end,
            of_name,
        } => Test::Nth {
            a: *a,
            b: *b,
            from_end: *from_end,
            of_name: *of_name,
        },
        Test::Only { of_name } => Test::Only { of_name: *of_name },
        Test::Is(selector) => Test::Is(numbered_boxed(alloc, table, selector)?),
        Test::Not(selector) => Test::Not(numbered_boxed(alloc, table, selector)?),
        Test::Has(selector) => Test::Has(numbered_boxed(alloc, table, selector)?),
        Test::HasText(arg) => Test::HasText(numbered_arg(alloc, table, arg)?),
        Test::MinText(units) => Test::MinText(*units),
        Test::MatchesPath(arg) => Test::MatchesPath(numbered_arg(alloc, table, arg)?),
        Test::MatchesAttr { name, value } => Test::MatchesAttr {
            name: numbered_arg(alloc, table, name)?,
            value: match value {
                None => None,
                Some(arg) => Some(numbered_arg(alloc, table, arg)?),
            },
        },
        Test::WatchAttr(names) => Test::WatchAttr(copy_names(alloc, names)?),
    })
}

fn numbered_arg(alloc: Global, table: &PatternTable, arg: &Arg) -> Result<Arg, AllocError>
    ensures { IfOk result (λ copy. copy ≡ numbered_arg table.now.patterns arg.now) }
{
    Ok(match arg {
        Arg::Literal(text) => Arg::Literal(text.copy(alloc)?),
        Arg::Pattern { body, flags, .. } => Arg::Pattern {
            number: number_in(table, body.as_str(), *flags),
            body: body.copy(alloc)?,
            flags: *flags,
        },
    })
}

// The number of a pattern; 0 where the table doesn't hold it.
fn number_in(table: &PatternTable, body: &str, flags: u8) -> u32
    ensures { result ≡ number_in table.now.patterns body.now flags }
{
    if flags < 8 {
        table.number_of(body, flags).unwrap_or(0)
    } else {
        0
    }
}

fn copy_names(alloc: Global, names: &Names) -> Result<Names, AllocError>
    ensures { IfOk result (λ copy. copy ≡ names.now) }
{
    let mut all = Listed::new(alloc);
    for name in names.as_slice() {
        all.push(name.copy(alloc)?)?;
    }
    Ok(all)
}
