//! What an engine of filters answers of a page, as contracts speak of it. This crate has definitions alone.
//!
//! `specs/Filters.antt` says which filters hide and which remove, and when they may be asked. `Hidden.antt` has the elements
//! that are hidden, `Rounds.antt` what the filters that remove take out of a page, round by round, and `States.antt` the
//! same for a page with its path and its filters. `proofs/Example.antt` computes small pages.
#![tactic(auto)]
