use listed::{Listed, Names, Text};
use sqlite_items::Boxed;

/// Where a combinator leads from an element (Selectors Level 4, "Combinators").
#[derive(Clone, Copy, Debug, PartialEq, Eq)]
pub enum Place {
    /// Its children, as by `>`.
    Child,
    /// Its descendants, as by white space.
    Descendant,
    /// The next element sibling, as by `+`.
    Next,
    /// All later element siblings, as by `~`.
    After,
}

/// How the value of an attribute is compared with a wanted one (Selectors Level 4, "Attribute selectors").
#[derive(Clone, Copy, Debug, PartialEq, Eq)]
pub enum AttrOp {
    /// The attribute is there, as in `[a]`; the wanted value has no part in it.
    Exists,
    /// The value is the wanted one, as in `[a=v]`.
    Equals,
    /// One of the value's words is the wanted one, as in `[a~=v]`.
    Word,
    /// The value is the wanted one, or begins with it and a dash, as in `[a|=v]`.
    Dash,
    /// The value begins with the wanted one, as in `[a^=v]`.
    Prefix,
    /// The value ends with the wanted one, as in `[a$=v]`.
    Suffix,
    /// The value holds the wanted one, as in `[a*=v]`.
    Part,
}

/// What a procedural test looks for (uBlock Origin wiki, "Procedural cosmetic filters").
#[derive(Debug, Drop)]
pub enum Arg {
    /// A text as it stands.
    Literal(Text),
    /// A regular expression, written between slashes.
    Pattern {
        /// The text between the slashes.
        body: Text,
        /// The flags behind them.
        flags: u8,
        /// The pattern's place in the table of compiled patterns. It says nothing of what is found.
        number: u32,
    },
}

/// What is asked of one element (Selectors Level 4, and the wiki's page on procedural filters).
#[cycle(selector)]
#[derive(Debug, Drop)]
pub enum Test {
    /// Every element, as `*`.
    Any,
    /// An element of this name.
    Tag(Text),
    /// An element with this id, as `#v`; letter case counts.
    Id(Text),
    /// An element with this class, as `.v`; letter case counts.
    Class(Text),
    /// An element with an attribute whose value fits, as `[name="value" i]`.
    Attr {
        /// The attribute's name.
        name: Text,
        /// How its value is compared.
        op: AttrOp,
        /// The wanted value.
        value: Text,
        /// Whether letter case is ignored in the values.
        ignore_case: bool,
    },
    /// A child of the document, as `:root`.
    Root,
    /// An element with no element child and no text that isn't empty, as `:empty`.
    Empty,
    /// An element whose place among its siblings, from 1, is `a*k+b` for some k of 0 or more, as `:nth-child(a n + b)`.
    Nth {
        /// The step.
        a: i32,
        /// The offset.
        b: i32,
        /// Whether places are counted from the last sibling.
        from_end: bool,
        /// Whether only siblings of the same name are counted.
        of_name: bool,
    },
    /// An only child, as `:only-child` and `:only-of-type`.
    Only {
        /// Whether only siblings of the same name are counted.
        of_name: bool,
    },
    /// An element for which some chain gives something, as `:is()`.
    Is(Boxed<Selector>),
    /// An element for which no chain gives something, as `:not()`.
    Not(Boxed<Selector>),
    /// An element from which some chain leads to something, as `:has()`.
    Has(Boxed<Selector>),
    /// An element with such a text, as `:has-text()`.
    HasText(Arg),
    /// An element with at least so many UTF-16 units of text, as `:min-text-length()`.
    MinText(u32),
    /// Every element of a page with such a path, as `:matches-path()`.
    MatchesPath(Arg),
    /// An element with an attribute of such a name and such a value, as `:matches-attr()`.
    MatchesAttr {
        /// What the name is.
        name: Arg,
        /// What the value is; with none, any value fits.
        value: Option<Arg>,
    },
    /// Every element, as `:watch-attr()`: it asks for nothing, since each change is looked at.
    WatchAttr(Names),
}

/// One step of a chain: it takes a list of elements to a list of elements.
#[cycle(selector)]
#[derive(Debug, Drop)]
pub enum Step {
    /// To those for which a test holds.
    Keep(Test),
    /// To those that are there from one of them.
    Move(Place),
    /// To their ancestors of this degree, as `:upward(n)`. The number is 1 to 255; 0 leads to nothing.
    Upward(u8),
    /// To the nearest proper ancestor of each that a selector selects, as `:upward(selector)`.
    UpwardTo(Boxed<Selector>),
    /// To the elements beside them and beside what is above them, as `:others()`.
    Others,
}

/// Steps that follow each other, the first from all elements.
pub type Chain = Listed<Step>;

/// Chains of which some one has to select an element.
pub type Selector = Listed<Chain>;
