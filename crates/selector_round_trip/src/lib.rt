//! The law of the canonical text of selectors: where a text is read as a selector and an action, its canonical text is read
//! as the same ones.
//!
//! `specs/RoundTrip.antt` states it. It is of selectors in whose `:matches-attr` a pattern that stands beside a literal has
//! brackets that close each other; `specs/Balanced.antt` says so, and `proofs/Unread.antt` computes two texts for which the law
//! fails without it: there the brackets of the two are each other's partners, and those of the literal count no more once they
//! have a backslash.
//!
//! How it is proved: `proofs/Scanned.antt` follows the scan of brackets through a front of a text. `Names`, `NameScans`,
//! `Literals`, `Bodies`, `Numbers`, `Attributes`, `Args` and `Watched` are the parts of pieces, each with its text read back
//! and scanned. `Operators`, `Pieces` and `PiecesRead` are the pieces, `Compounds`, `Links`, `Chains` and `Selectors` what is
//! made of them, level by level, and `Law` is the whole. `Closed` and `Marks` follow the balance of brackets in a raw argument,
//! from the bracket that closes it to the literals and patterns in it.
#![tactic(auto)]

ghost use Rattle.selector_round_trip.specs.RoundTrip.{AreTold, IsReadBack};

/// Where the text is read as a selector and an action, its canonical text is read as the same ones. A law for proofs; it
/// does nothing.
pub fn canonical_text_law(text: &[u8])
    ensures { IsReadBack text.now }
{
    let _text = text;
}

/// Two texts whose selectors and actions have the same canonical text are read as the same selector with the same action. A
/// law for proofs; it does nothing.
pub fn same_text_law(first: &[u8], second: &[u8])
    ensures { AreTold first.now second.now }
{
    let _first = first;
    let _second = second;
}
