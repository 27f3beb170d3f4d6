ghost use Rattle.std.specs.Prelude.{◌≡◌, IfOk};
ghost use Rattle.selector_spelling.specs.Texts.{selector_of};
ghost use Rattle.spelling_reader.specs.Spelled.{spelled};

use crate::reading::read_chains;
use listed::Listed;
use selector_lexer::{Stop, too_nested, unbalanced};
use selector_spelling::{Cause, Chains, Finding, Notes};
use std::alloc::{AllocError, Global};

/// What a text is read as by its balance, its depth and its pieces: its chains with the patterns that are still to be asked
/// for, or the finding of the first of these stages that has one.
pub fn read_spelling(alloc: Global, text: &str) -> Result<Result<Chains, Finding>, AllocError>
    ensures { IfOk result (λ read. read ≡ spelled text.now) }
{
    if let Some(at) = unbalanced(alloc, text.as_bytes())? {
        return Ok(Err(Finding::Malformed(Cause::Unbalanced, at)));
    }
    if let Some(at) = too_nested(alloc, text.as_bytes())? {
        return Ok(Err(Finding::Malformed(Cause::TooNested, at)));
    }
    read_balanced(alloc, text)
}

/// What the pieces of a text are read as.
fn read_balanced(alloc: Global, text: &str) -> Result<Result<Chains, Finding>, AllocError>
    ensures { IfOk result (λ read. read ≡ selector_of text.now) }
{
    let mut notes = Notes {
        asks: Listed::new(alloc),
        removes: false,
        operates: false,
    };
    match read_chains(alloc, 16, false, false, text, 0, &mut notes) {
        Ok(chains) => Ok(Ok(Chains { chains, notes })),
        Err(Stop::Found(finding)) => Ok(Err(finding)),
        Err(Stop::NoMemory) => Err(AllocError),
    }
}
