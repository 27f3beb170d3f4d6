//! What a text means as a selector with its action, which kind it is set aside for, or which cause it has and where, as
//! contracts speak of it. This crate has definitions alone, and the types that its answers are made of.
//!
//! A text is judged by four stages, and the first with a finding decides: balance of brackets and quotes, depth of nested
//! arguments, the pieces in text order, and the patterns. `specs/Bytes.antt` has words on bytes, `Names.antt` names,
//! strings and escapes, `Operators.antt` what each `:name(..)` is, `Scan.antt` what is open at each place with the first two
//! stages, `Cuts.antt` how a text falls into chains and compounds, `Attributes.antt` the inside of `[..]`, `Arguments.antt`
//! the arguments of operators, `Pieces.antt` the pieces of a compound, and `Texts.antt` whole texts. `proofs/Accepted.antt`
//! and `Refused.antt` compute what some texts are read as.
#![tactic(auto)]

mod finding;
mod open;
mod operator;
mod reading;

pub use finding::{Cause, Finding, Kind};
pub use open::Open;
pub use operator::{Operator, Plain};
pub use reading::{Ask, Asks, Chains, Notes, Reading, Setting};
