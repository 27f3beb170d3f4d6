//! What a selector selects on a page, as contracts speak of it. This crate has definitions alone, and their laws.
//!
//! `specs/Texts.antt` has the tests on texts, `Meaning.antt` what each test, step, chain and selector means, and
//! `Hidden.antt` which elements are hidden and by which selectors. `proofs/Laws.antt` has one equation for each test and
//! step, and `Example.antt` computes what some selectors select on a small page.
#![tactic(auto)]
