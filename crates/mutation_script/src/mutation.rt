// What a line of a script says.
use listed::Text;

/// A change of the page, as a line of a script asks for it. Nodes are named by their numbers, and places among the
/// children of a node count from 0.
#[derive(Debug, Drop)]
pub enum Mutation {
    /// The element gets the attribute, or another value for it. The name is in lower case.
    SetAttr { n: u32, name: Text, value: Text },
    /// The element loses the attribute. The name is in lower case.
    DropAttr { n: u32, name: Text },
    /// The text node gets another text.
    SetText { n: u32, text: Text },
    /// The nodes of the fragment of HTML come to a place among the children of the parent.
    Insert { parent: u32, place: u32, html: Text },
    /// The node goes, with all below it.
    Delete { n: u32 },
    /// The node goes to a place among the children of the parent, with all below it.
    Relink { n: u32, parent: u32, place: u32 },
    /// The path of the page's address is another.
    Path { path: Text },
}

/// Why a line of a script is bad.
#[derive(Clone, Copy, Debug, PartialEq, Eq)]
pub enum BadLine {
    /// The line isn't UTF-8.
    NotUtf8,
    /// Its first field is none of the words.
    UnknownWord,
    /// It ends before the space in front of a field.
    MissingField,
    /// A number isn't `0` or digits without a leading zero, or is past 4,294,967,295.
    BadNumber,
    /// The name of an attribute is empty, or holds white space or one of `>`, `<`, `/`, `=`, `"` and `'`.
    BadName,
    /// A path doesn't begin with `/`.
    BadPath,
    /// Something stands behind the last field.
    ExtraField,
}

/// What a line of a script is.
#[derive(Debug, Drop)]
pub enum ScriptLine {
    /// A change of the page.
    Mutation(Mutation),
    /// Nothing but white space.
    Blank,
    /// None of these, for this cause.
    Bad(BadLine),
}
