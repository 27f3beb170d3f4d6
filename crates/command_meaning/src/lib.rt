//! What the commands write and answer, as contracts speak of it. This crate has definitions and their laws alone.
//!
//! `specs/Report.antt` has the texts of `apply`, `lists` and `drill`, `Generator.antt` the page, the list and the script of a drill,
//! and `Output.antt` what comes of a command: its answer, the files begun for it, and what is written. `Laws.antt` says that the
//! numbers of patterns, which are those of a table, have no part in what is written.
#![tactic(auto)]

ghost use Rattle.command_meaning.specs.Laws.{ActiveUnnumbered, ApplyUnnumbered, DrillUnnumbered, ListsUnnumbered};

/// States that the numbers of patterns have no part in what is written.
pub fn state()
    ensures active { ActiveUnnumbered }
    ensures lists { ListsUnnumbered }
    ensures apply { ApplyUnnumbered }
    ensures drill { DrillUnnumbered }
{}
