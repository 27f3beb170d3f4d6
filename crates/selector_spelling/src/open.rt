/// What can be open at a place of a text.
#[derive(Debug, Clone, Copy)]
pub enum Open {
    /// An argument that is a selector, as of `:is(`.
    Selector,
    /// An argument in which neither quotes nor square brackets count, as of `:has-text(`.
    Raw,
    /// Another round bracket.
    Round,
    /// The inside of `[..]`.
    Square,
    /// A string in `"`.
    DoubleQuote,
    /// A string in `'`.
    SingleQuote,
}
