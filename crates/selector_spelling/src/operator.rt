use crate::Kind;

/// What `:name` without an argument is.
#[derive(Debug, Clone, Copy)]
pub enum Plain {
    /// `:root`.
    Root,
    /// `:empty`.
    Empty,
    /// `:first-child` and the like.
    Nth {
        /// Whether places are counted from the last sibling.
        from_end: bool,
        /// Whether only siblings of the same name are counted.
        of_name: bool,
    },
    /// `:only-child` and the like.
    Only {
        /// Whether only siblings of the same name are counted.
        of_name: bool,
    },
    /// What is set aside.
    Aside(Kind),
}

/// What `:name(..)` is.
#[derive(Debug, Clone, Copy)]
pub enum Operator {
    /// `:is(..)`, `:where(..)`.
    Is,
    /// `:not(..)`.
    Not,
    /// `:has(..)`.
    Has,
    /// `:nth-child(..)` and the like.
    Nth {
        /// Whether places are counted from the last sibling.
        from_end: bool,
        /// Whether only siblings of the same name are counted.
        of_name: bool,
    },
    /// `:has-text(..)`.
    HasText,
    /// `:min-text-length(..)`.
    MinText,
    /// `:matches-path(..)`.
    MatchesPath,
    /// `:matches-attr(..)`.
    MatchesAttr,
    /// `:watch-attr(..)`.
    WatchAttr,
    /// `:upward(..)`.
    Upward,
    /// `:others()`.
    Others,
    /// `:remove()`.
    Remove,
    /// What is set aside.
    Aside(Kind),
}
