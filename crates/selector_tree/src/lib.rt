//! Selectors as trees, and filters with them.
//!
//! A selector is a list of chains, and a chain a list of steps. What each step and each test stands for is said in
//! `selector_meaning`. `specs/Canonical.antt` says how a selector is written in its one spelling.
#![tactic(auto)]

mod copies;
mod filter;
mod letters;
mod printed;
mod selector;

pub use copies::{copy, copy_filter};
pub use filter::{Action, Active, Filter, HiddenRow, Rows, Taken, TakenList};
pub use listed::{Names, Numbers, Text};
pub use printed::canonical;
pub use selector::{Arg, AttrOp, Chain, Place, Selector, Step, Test};

#[cfg(test)]
mod tests {
    use super::*;
    use listed::Listed;
    use sqlite_items::Boxed;
    use std::alloc::{AllocError, Global};
    use std::test::Fail;

    /// One chain of one step.
    fn single(alloc: Global, step: Step) -> Result<Selector, AllocError> {
        let mut chain = Listed::new(alloc);
        chain.push(step)?;
        let mut selector = Listed::new(alloc);
        selector.push(chain)?;
        Ok(selector)
    }

    /// A filter of two chains, with nested selectors, patterns and names.
    fn sample(alloc: Global) -> Result<Filter, AllocError> {
        let mut selector = single(alloc, Step::Keep(Test::Tag(Text::of(alloc, "p")?)))?;
        let inner = single(alloc, Step::Keep(Test::Class(Text::of(alloc, "ad")?)))?;
        selector.push(chain_of_steps(alloc, inner)?)?;
        Ok(Filter {
            list: 1,
            line: 7,
            selector,
            action: Action::Remove,
            canonical: Text::of(alloc, "p:remove()")?,
        })
    }

    /// A chain of some steps, the first with a selector in it.
    fn chain_of_steps(alloc: Global, inner: Selector) -> Result<Chain, AllocError> {
        let mut names = Names::new(alloc);
        names.push(Text::of(alloc, "id")?)?;
        let mut chain = Listed::new(alloc);
        chain.push(Step::Keep(Test::Has(Boxed::new(alloc, inner)?)))?;
        chain.push(Step::Keep(Test::MatchesAttr {
            name: Arg::Pattern {
                body: Text::of(alloc, "^data")?,
                flags: 1,
                number: 9,
            },
            value: Some(Arg::Literal(Text::of(alloc, "x")?)),
        }))?;
        chain.push(Step::Keep(Test::WatchAttr(names)))?;
        chain.push(Step::Upward(2))?;
        chain.push(Step::Move(Place::After))?;
        chain.push(Step::Keep(Test::Any))?;
        Ok(chain)
    }

    #[test]
    fn a_copy_looks_like_its_source(rt: HostRuntime) -> Result<(), Fail> {
        let alloc = rt.alloc();
        let filter = sample(alloc)?;
        let copy = copy_filter(alloc, &filter)?;
        let before = format!(in alloc; "{filter:?}")?;
        let after = format!(in alloc; "{copy:?}")?;
        assert_eq!(rt; after.as_str(), before.as_str());
        assert_eq!(rt; before.len() > 100, true);
        Ok(())
    }

    #[test]
    fn a_selector_has_one_text(rt: HostRuntime) -> Result<(), Fail> {
        let alloc = rt.alloc();
        let filter = sample(alloc)?;
        let text = canonical(alloc, &filter.selector, &filter.action)?;
        let expected =
            "p, :has(.ad):matches-attr(/^data/i=\"x\"):watch-attr(id):upward(2) ~ *:remove()";
        assert_eq!(rt; text.as_str(), expected);

        let odd = single(alloc, Step::Keep(Test::Id(Text::of(alloc, "-1é:")?)))?;
        let text = canonical(alloc, &odd, &Action::Hide)?;
        assert_eq!(rt; text.as_str(), "#-\\31 é\\:");
        Ok(())
    }
}
