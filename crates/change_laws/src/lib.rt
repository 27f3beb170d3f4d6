//! What an engine uses of a change of a page: what the filters answer differently afterwards is dirty, and so is what came.
//! This crate has laws alone, about the definitions of `sensor_meaning`.
//!
//! `specs/Laws.antt` has the laws of changes, and `specs/Made.antt` those of edits: each that isn't refused is a change of its
//! kind, and which elements go with a node. In `proofs`, `Outer` shows that a filter that may be asked has `:others()` in its
//! own chains alone, as the law of sensors asks, `Came` that what came is brought, and `Seen` puts both together.
#![tactic(auto)]

ghost use Rattle.change_laws.specs.Laws.{ProperIsOuter, NewIsBrought, ChangeIsSeen};
ghost use Rattle.change_laws.specs.Made.{AttrSetMade, AttrDroppedMade, TextSetMade, TakenOutMade, FragmentMade, MovedMade, GoesWithNode};

/// States the laws of changes.
pub fn state()
    ensures outer { ProperIsOuter }
    ensures brought { NewIsBrought }
    ensures seen { ChangeIsSeen }
{}

/// States the laws of edits.
pub fn state_made()
    ensures attr_set { AttrSetMade }
    ensures attr_dropped { AttrDroppedMade }
    ensures text_set { TextSetMade }
    ensures taken_out { TakenOutMade }
    ensures fragment { FragmentMade }
    ensures moved { MovedMade }
    ensures gone { GoesWithNode }
{}
