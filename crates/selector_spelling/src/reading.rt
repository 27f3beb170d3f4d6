use listed::{Listed, Text};
use selector_tree::{Chain, Selector};

/// A pattern that a maker is to be asked for.
#[derive(Debug, Drop)]
pub struct Ask {
    /// The `:` of its piece.
    pub at: usize,
    /// The text between the slashes.
    pub body: Text,
    /// The flags behind them.
    pub flags: u8,
}

/// Patterns in text order.
pub type Asks = Listed<Ask>;

/// What is said of a part of a text beside its steps.
#[derive(Debug, Drop)]
pub struct Notes {
    /// The patterns in it.
    pub asks: Asks,
    /// Whether the action Remove stands in it.
    pub removes: bool,
    /// Whether an operator that may not stand in the argument of `:upward` stands in it, at any depth.
    pub operates: bool,
}

/// What some pieces are read as.
#[derive(Debug, Drop)]
pub struct Reading {
    /// Their steps, with 0 for the number of each pattern.
    pub steps: Chain,
    /// What else is said of them.
    pub notes: Notes,
}

/// What a text is read as.
#[derive(Debug, Drop)]
pub struct Chains {
    /// Its chains, with 0 for the number of each pattern.
    pub chains: Selector,
    /// What else is said of them.
    pub notes: Notes,
}

/// Where a compound stands.
#[derive(Debug, Clone, Copy)]
pub struct Setting {
    /// In an argument.
    pub nested: bool,
    /// In a text of several chains.
    pub several: bool,
    /// Last in its chain.
    pub last: bool,
}
