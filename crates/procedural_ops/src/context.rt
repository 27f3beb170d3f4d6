use cos_patterns::PatternSearcher;
use dom_arena::Dom;
use std::alloc::Global;

/// What filters are asked about: a page, the path of its address, and the patterns of the filters.
///
/// The patterns come with their working memory, which is made at most once for all that is asked in one context.
#[derive(Clone, Copy)]
pub struct MatchingContext<'a, 'p> {
    pub alloc: Global,
    pub dom: &'a Dom,
    pub path: &'a str,
    pub table: &'a PatternSearcher<'p>,
}
