use crate::selector::Selector;
use listed::{Listed, Numbers, Text};

/// What is done with the elements that a filter selects.
#[derive(Clone, Copy, Debug, PartialEq, Eq)]
pub enum Action {
    /// They are hidden.
    Hide,
    /// They are taken out of the page, as by `:remove()`.
    Remove,
}

/// A filter with the place that it was read from.
#[derive(Debug, Drop)]
pub struct Filter {
    /// The list's place among the lists, from 1.
    pub list: u32,
    /// The line of that list, from 1.
    pub line: u32,
    /// What it selects.
    pub selector: Selector,
    /// What is done with it.
    pub action: Action,
    /// The selector and the action in their one spelling; an exception takes away the filters that have it too.
    pub canonical: Text,
}

/// The filters that are used on a page, in order.
pub type Active = Listed<Filter>;

/// A hidden element, with the hide filters that select it.
#[derive(Debug, Drop)]
pub struct HiddenRow {
    /// The element's number.
    pub node: u32,
    /// The places of the filters among the active ones, from 0.
    pub filters: Numbers,
}

/// Hidden elements in document order.
pub type Rows = Listed<HiddenRow>;

/// An element that was taken out, with the remove filters that select it.
#[derive(Debug, Drop)]
pub struct Taken {
    /// The round in which it went, from 1.
    pub round: u32,
    /// The element's number.
    pub node: u32,
    /// The element's name.
    pub name: Text,
    /// The places of the filters among the active ones, from 0.
    pub filters: Numbers,
}

/// Elements that were taken out, by rounds and in document order.
pub type TakenList = Listed<Taken>;
