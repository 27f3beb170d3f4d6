/// What a text is set aside for.
#[derive(Debug, Clone, Copy, PartialEq, Eq)]
pub enum Kind {
    /// A line that blocks requests.
    Network,
    /// A line with a modifier, `[$..]`.
    Modifier,
    /// A line whose hosts are a regular expression.
    RegexHost,
    /// A line of another engine, as with `#$#` or `#%#`.
    Snippet,
    /// A scriptlet, `+js(..)`.
    Scriptlet,
    /// A filter of the page's source, `^..`.
    HtmlFilter,
    /// A page option with an option that isn't known.
    Option,
    /// A page option whose address is a regular expression.
    RegexAddress,
    /// `!#include`.
    Include,
    /// A pseudo-class that asks for what a page alone doesn't tell, as `:hover`.
    State,
    /// A pseudo-element, as `::before`.
    PseudoElement,
    /// `:style(..)`.
    Style,
    /// `:xpath(..)`.
    Xpath,
    /// `:shadow(..)`.
    Shadow,
    /// `:matches-css(..)` and its two variants.
    MatchesCss,
    /// `:matches-media(..)`.
    MatchesMedia,
    /// `:matches-prop(..)`.
    MatchesProp,
    /// `:-abp-properties(..)`.
    AbpProperties,
    /// `:remove-attr(..)`.
    RemoveAttr,
    /// `:remove-class(..)`.
    RemoveClass,
}

/// What makes a text malformed.
#[derive(Debug, Clone, Copy, PartialEq, Eq)]
pub enum Cause {
    /// A line that is too long.
    LineTooLong,
    /// A line that isn't UTF-8.
    NotUtf8,
    /// A host that isn't one.
    BadHost,
    /// A condition that isn't read.
    BadCondition,
    /// An `else` outside a part, or a second one in it.
    StrayElse,
    /// An `endif` outside a part.
    StrayEndif,
    /// An `if` without `endif`.
    UnclosedIf,
    /// A rule of the suffixes file that isn't one.
    BadSuffix,
    /// A bracket or quote that isn't closed, or closes nothing, or a last lone `\`.
    Unbalanced,
    /// A selector argument at level 17.
    TooNested,
    /// A compound that is missing, or is nothing but an action.
    EmptyPart,
    /// A byte that begins no piece here, or a sign without its name.
    BadName,
    /// An attribute that has not the form.
    BadAttribute,
    /// A pseudo-class that isn't known in this form.
    UnknownPseudo,
    /// An `an+b` that has not the form, or is past the limits.
    BadNumber,
    /// An operator's argument that has not the form, or is past the limits.
    BadOperatorArgument,
    /// `:others()` in an argument.
    OthersNested,
    /// An action in an argument, or with something behind it.
    ActionNotLast,
    /// An action in a selector of several chains.
    ActionInList,
    /// A pattern that isn't read.
    BadPattern,
    /// A pattern that is refused for its size.
    PatternTooLarge,
}

/// Why a text is no selector.
#[derive(Debug, Clone, Copy, PartialEq, Eq)]
pub enum Finding {
    /// It is set aside.
    SetAside(Kind),
    /// It is malformed at this place.
    Malformed(Cause, usize),
}
