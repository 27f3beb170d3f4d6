use crate::Notices;
use address_patterns::{AddressPattern, HideOptions};
use filter_scope::Scope;
use listed::Listed;
use selector_tree::{Filter, Text};

/// What a line of a list gives.
#[derive(Debug, Drop)]
pub enum Entry {
    /// A filter, and the pages on which it is used.
    Filter {
        /// The filter.
        filter: Filter,
        /// Where it applies.
        scope: Scope,
    },
    /// An exception, which takes away filters.
    Exception {
        /// The canonical text of the filters that it takes away.
        canonical: Text,
        /// Where it applies.
        scope: Scope,
    },
    /// A page option, which switches filters off on pages.
    Page {
        /// The pages' addresses.
        pattern: AddressPattern,
        /// The pages' hosts, where it names some.
        domain: Option<Scope>,
        /// Which filters it switches off.
        options: HideOptions,
    },
}

/// Entries in the order of lines.
pub type Entries = Listed<Entry>;

/// What a list gives.
#[derive(Debug, Drop)]
pub struct ListRead {
    /// Its entries, in the order of lines.
    pub entries: Entries,
    /// What is said of the lines that give none.
    pub notices: Notices,
}

/// What lists give, in their order.
pub type Lists = Listed<ListRead>;
