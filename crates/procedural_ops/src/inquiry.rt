use crate::context::MatchingContext;
use selector_tree::Step;

/// What is asked about, and the chain whose tests have notes.
#[derive(Clone, Copy)]
pub(crate) struct Inquiry<'a, 'p> {
    pub(crate) context: MatchingContext<'a, 'p>,
    pub(crate) chain: &'a [Step],
}
