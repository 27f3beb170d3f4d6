/// Which filters a page option switches off on the pages that it applies to.
#[derive(Clone, Copy, Debug, PartialEq, Eq)]
pub struct HideOptions {
    /// All filters.
    pub elem: bool,
    /// Those with a generic scope.
    pub generic: bool,
    /// Those with a specific scope.
    pub specific: bool,
}
