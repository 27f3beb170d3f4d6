//! What must be asked again after changes of a page, so that kept answers stay right, and how often is asked. This crate has
//! definitions and their laws alone.
//!
//! `specs/Pending.antt` has the sets of pairs of a filter and an element, and what is pending after some changes;
//! `specs/Laws.antt` the laws: what each change makes dirty is enough, asking it again makes the marks exact, and how often is
//! asked at most. Nothing is said of what a page or a filter is.
#![tactic(auto)]

ghost use Rattle.retest_laws.specs.Laws.{Noted, Retested, Resting, Starting, Dropped, Grouped, Bounded, SoleAsking};

/// States the laws of kept answers.
pub fn state()
    ensures noted { Noted }
    ensures retested { Retested }
    ensures resting { Resting }
    ensures starting { Starting }
    ensures dropped { Dropped }
    ensures grouped { Grouped }
{}

/// States how often is asked.
pub fn state_counts()
    ensures bounded { Bounded }
    ensures sole { SoleAsking }
{}
