// What is known of the hidden elements of a page, so that they aren't made again where they are the same.
ghost use Rattle.std.specs.Prelude.{◌≡◌, if◌then◌else◌, length, map, IfOk};
ghost use Rattle.cos_patterns.specs.Found.{pattern_found};
ghost use Rattle.engine_meaning.specs.Hidden.{pair_of};
ghost use Rattle.engine_meaning.specs.States.{hidden_of};
ghost use Rattle.page_steps.specs.Known.{Knows};

use hide_engine::Engine;
use selector_tree::Rows;
use std::alloc::{AllocError, Global};

/// What was told of the hidden elements of a page and still holds: nothing, how many they are, or all of them.
#[derive(Drop)]
pub(crate) enum Known {
    Nothing,
    Count(usize),
    Rows(Rows),
}

impl Known {
    /// What is still known behind a line of a script, where it left the hidden elements the same; else nothing.
    pub(crate) fn behind_line(self, same: bool) -> Known
        ensures { result ≡ (if same then self else Known.Nothing) }
    {
        if same { self } else { Known::Nothing }
    }

    /// How many hidden elements the page of an engine has.
    pub(crate) fn into_count(self, engine: &Engine) -> usize
        requires { Knows self engine.now }
        ensures { result ≡ length (hidden_of pattern_found engine.now) }
    {
        match self {
            Known::Nothing => engine.hidden_count(),
            Known::Count(count) => count,
            Known::Rows(rows) => rows.len(),
        }
    }

    /// The hidden elements of the page of an engine, made only where they aren't known.
    pub(crate) fn into_rows(self, alloc: Global, engine: &Engine) -> Result<Rows, AllocError>
        requires { Knows self engine.now }
        ensures { IfOk result (λ rows. map pair_of rows ≡ hidden_of pattern_found engine.now) }
    {
        match self {
            Known::Nothing | Known::Count(_) => engine.hidden(alloc),
            Known::Rows(rows) => Ok(rows),
        }
    }
}
