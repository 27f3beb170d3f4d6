ghost use Rattle.std.specs.Prelude.{◌≡◌, IfOk};

use crate::filter::Filter;
use crate::selector::{Arg, Chain, Selector, Step, Test};
use listed::{Listed, Names};
use sqlite_items::Boxed;
use std::alloc::{AllocError, Global};

/// An equal selector, the numbers of its patterns included.
#[cycle(copy)]
pub fn copy(alloc: Global, selector: &Selector) -> Result<Selector, AllocError>
    ensures { IfOk result (λ copy. copy ≡ selector.now) }
{
    let mut chains = Listed::new(alloc);
    for chain in selector.as_slice() {
        chains.push(copy_chain(alloc, chain)?)?;
    }
    Ok(chains)
}

#[cycle(copy)]
fn copy_chain(alloc: Global, chain: &Chain) -> Result<Chain, AllocError>
    ensures { IfOk result (λ copy. copy ≡ chain.now) }
{
    let mut steps = Listed::new(alloc);
    for step in chain.as_slice() {
        steps.push(copy_step(alloc, step)?)?;
    }
    Ok(steps)
}

#[cycle(copy)]
fn copy_step(alloc: Global, step: &Step) -> Result<Step, AllocError>
    ensures { IfOk result (λ copy. copy ≡ step.now) }
{
    Ok(match step {
        Step::Keep(test) => Step::Keep(copy_test(alloc, test)?),
        Step::Move(place) => Step::Move(*place),
        Step::Upward(degree) => Step::Upward(*degree),
        Step::UpwardTo(selector) => Step::UpwardTo(copy_boxed(alloc, selector)?),
        Step::Others => Step::Others,
    })
}

#[cycle(copy)]
fn copy_boxed(alloc: Global, selector: &Boxed<Selector>) -> Result<Boxed<Selector>, AllocError>
    ensures { IfOk result (λ copy. copy ≡ selector.now) }
{
    Boxed::new(alloc, copy(alloc, selector.get())?)
}

#[cycle(copy)]
fn copy_test(alloc: Global, test: &Test) -> Result<Test, AllocError>
    ensures { IfOk result (λ copy. copy ≡ test.now) }
{
    Ok(match test {
        Test::Any => Test::Any,
        Test::Tag(name) => Test::Tag(name.copy(alloc)?),
        Test::Id(id) => Test::Id(id.copy(alloc)?),
        Test::Class(class) => Test::Class(class.copy(alloc)?),
        Test::Attr {
            name,
            op,
            value,
            ignore_case,
        } => Test::Attr {
            name: name.copy(alloc)?,
            op: *op,
            value: value.copy(alloc)?,
            ignore_case: *ignore_case,
        },
        Test::Root => Test::Root,
        Test::Empty => Test::Empty,
        Test::Nth {
            a,
            b,
            from_end,
            of_name,
        } => Test::Nth {
            a: *a,
            b: *b,
            from_end: *from_end,
            of_name: *of_name,
        },
        Test::Only { of_name } => Test::Only { of_name: *of_name },
        Test::Is(selector) => Test::Is(copy_boxed(alloc, selector)?),
        Test::Not(selector) => Test::Not(copy_boxed(alloc, selector)?),
        Test::Has(selector) => Test::Has(copy_boxed(alloc, selector)?),
        Test::HasText(arg) => Test::HasText(copy_arg(alloc, arg)?),
        Test::MinText(units) => Test::MinText(*units),
        Test::MatchesPath(arg) => Test::MatchesPath(copy_arg(alloc, arg)?),
        Test::MatchesAttr { name, value } => Test::MatchesAttr {
            name: copy_arg(alloc, name)?,
            value: match value {
                None => None,
                Some(arg) => Some(copy_arg(alloc, arg)?),
            },
        },
        Test::WatchAttr(names) => Test::WatchAttr(copy_names(alloc, names)?),
    })
}

fn copy_arg(alloc: Global, arg: &Arg) -> Result<Arg, AllocError>
    ensures { IfOk result (λ copy. copy ≡ arg.now) }
{
    Ok(match arg {
        Arg::Literal(text) => Arg::Literal(text.copy(alloc)?),
        Arg::Pattern {
            body,
            flags,
            number,
        } => Arg::Pattern {
            body: body.copy(alloc)?,
            flags: *flags,
            number: *number,
        },
    })
}

fn copy_names(alloc: Global, names: &Names) -> Result<Names, AllocError>
    ensures { IfOk result (λ copy. copy ≡ names.now) }
{
    let mut all = Listed::new(alloc);
    for name in names.as_slice() {
        all.push(name.copy(alloc)?)?;
    }
    Ok(all)
}

/// An equal filter, the numbers of its patterns included.
pub fn copy_filter(alloc: Global, filter: &Filter) -> Result<Filter, AllocError>
    ensures { IfOk result (λ copy. copy ≡ filter.now) }
{
    Ok(Filter {
        list: filter.list,
        line: filter.line,
        selector: copy(alloc, &filter.selector)?,
        action: filter.action,
        canonical: filter.canonical.copy(alloc)?,
    })
}
