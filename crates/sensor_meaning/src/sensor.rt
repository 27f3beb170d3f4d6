use listed::{Listed, Text};

/// What a sensor observes at the place of a change.
#[derive(Debug, Drop)]
pub enum Observes {
    /// The attribute of this name.
    Attr(Text),
    /// All attributes.
    AnyAttr,
    /// The text below.
    Text,
    /// The children, and the nodes below.
    Children,
    /// The path of the page's address.
    Path,
}

/// One direction of a route, from an element or the document.
#[derive(Clone, Copy, Debug, PartialEq, Eq)]
pub enum Way {
    /// To its children.
    ToChild,
    /// To all elements below it.
    ToBelow,
    /// To its parent.
    ToParent,
    /// To all that it is below.
    ToAbove,
    /// To the next element sibling.
    ToNext,
    /// To the previous element sibling.
    ToPrevious,
    /// To all later element siblings.
    ToAfter,
    /// To all earlier element siblings.
    ToBefore,
    /// To all elements of the page.
    Whole,
}

/// Directions that are followed one after another.
pub type Route = Listed<Way>;

/// What is observed at the place of a change, and the route from there to the elements whose answer depends on it.
#[derive(Debug, Drop)]
pub struct Sensor {
    /// What is observed.
    pub observes: Observes,
    /// The route.
    pub route: Route,
}
