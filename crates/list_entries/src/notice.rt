use listed::Listed;
use selector_spelling::{Cause, Kind};

/// What is said of a line that gives no filter.
#[derive(Clone, Copy, Debug, PartialEq, Eq)]
pub enum Notice {
    /// A form that is set aside.
    SetAside {
        /// The line's number, from 1.
        line: u32,
        /// Its kind.
        kind: Kind,
    },
    /// A line that is malformed.
    Malformed {
        /// The line's number, from 1.
        line: u32,
        /// Its first cause.
        cause: Cause,
        /// The place of it in the line, in bytes, before white space is trimmed.
        at: usize,
    },
}

/// Notices in the order of lines.
pub type Notices = Listed<Notice>;
