//! What the reader of a selector's text meets letter by letter: what is open at each byte, the places where a text is cut,
//! fronts of a class of bytes, names and strings with their escapes, and numbers. The grammar above, `spelling_reader`,
//! takes a text apart by these calls; of the pieces of a selector only the names of `:name(..)` are known here, since what
//! such a bracket opens goes by the operator that the name is.
//!
//! What each call finds is said in `selector_spelling`, and each function here gives just that. Parts are slices of the
//! text; memory is taken for what is open, for the letters of names and strings, and for `an+b` in lower case.
//!
//! `operators.rt` says what each `:name(..)` is, `stack.rt` and `scan.rt` follow what is open, `cuts.rt` has the places
//! where a text is cut and the ends of arguments, `fronts.rt` runs of bytes of one class, `names.rt` names, strings and
//! escapes, `numbers.rt` numbers with their limits and `an+b`, and `stop.rt` why a reader stops.
#![tactic(auto)]

mod cuts;
mod fronts;
mod names;
mod numbers;
mod operators;
mod scan;
mod stack;
mod stop;

pub use cuts::{Behind, Cut, First, argument, first_part, text_behind, too_nested, unbalanced};
pub use fronts::{
    Class, begins_with, front_length, is_blank, split_before, split_behind, split_front, trim_start,
};
pub use names::{begins_name, push_name, push_string, split_first};
pub use numbers::{degree, is_number, nth, text_units};
pub use operators::{is, is_one_of, operator_of};
pub use scan::opens;
pub use stop::{Stop, bad};
