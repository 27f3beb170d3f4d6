//! The law that sensors miss no change. This crate has laws alone, about the definitions of `sensor_meaning`.
//!
//! `specs/Frame.antt` has the facts of a change that the laws use, `specs/Laws.antt` the law whole, and `specs/Edits.antt`
//! that each edit of a tree is a change. In `proofs`, from below: `Quiet` (where no sensor is hit), `Steps` and `Tests`
//! (each step and test), `Chains`, `Induct` (all operators together), `Complete` (the three laws); `Sound`, `Facts` (the
//! frame from facts of single elements), `Rewritten`, `PartFrames`, `MovedFrame`, `PathFrame` (one for each kind of change),
//! `Completeness`, and `FromEdits`.
#![tactic(auto)]

ghost use Rattle.sensor_laws.specs.Laws.{Completeness, Unobserved};
ghost use Rattle.sensor_laws.specs.Edits.{AttrSet, AttrDropped, TextSet, TakenOut, FragmentCame, NodeMoved, PathSet};

/// States the laws: whatever the kind of change, each element of both trees whose answer differs is dirty; and where no
/// sensor observes a change that brings and moves nothing, nothing is.
pub fn state()
    ensures complete { Completeness }
    ensures unobserved { Unobserved }
{}

/// States that each edit of a tree is a change of its kind.
pub fn state_edits()
    ensures attr_set { AttrSet }
    ensures attr_dropped { AttrDropped }
    ensures text_set { TextSet }
    ensures taken_out { TakenOut }
    ensures fragment_came { FragmentCame }
    ensures node_moved { NodeMoved }
    ensures path_set { PathSet }
{}
