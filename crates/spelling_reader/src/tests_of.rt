ghost use Rattle.std.specs.Prelude.{◌≡◌, ◌<◌, false, length, [], ◌∷◌, ◌++◌, Some, None, Result, MatchResult, IfOk};
ghost use Rattle.selector_spelling.specs.declared.finding.Finding.{Finding};
ghost use Rattle.selector_spelling.specs.Bytes.{square_open, colon, begins_with};
ghost use Rattle.selector_spelling.specs.declared.reading.Setting.{Setting};
ghost use Rattle.selector_spelling.specs.Pieces.{Piece, attributed};
ghost use Rattle.selector_lexer.specs.Stops.{Fails};
ghost use Rattle.spelling_reader.specs.Readings.{Inner, ReadsTest, piece_at};
ghost use Rattle.selector_spelling.specs.Names.{name};
ghost use Rattle.selector_lexer.specs.declared.stop.Stop.TheVariants as stop;
ghost use Rattle.spelling_reader.specs.Named.{of_name, NamesTest, FailsName};

use crate::attributes::attribute;
use listed::Text;
use selector_lexer::{Stop, argument, bad, push_name, split_behind};
use selector_spelling::{Cause, Open};
use selector_tree::{Chain, Step, Test};
use std::alloc::{AllocError, Global};

/// What a name is the name of.
#[derive(Clone, Copy)]
pub(crate) enum Named {
    /// An id.
    Id,
    /// A class.
    Class,
    /// An element.
    Tag,
}

/// The test of a name.
fn of_name(alloc: Global, named: Named, name: Text) -> Result<Test, AllocError>
    ensures { IfOk result (λ test. test ≡ of_name named name) }
{
    match named {
        Named::Id => Ok(Test::Id(name)),
        Named::Class => Ok(Test::Class(name)),
        Named::Tag => Ok(Test::Tag(Text::lower(alloc, name.as_str())?)),
    }
}

/// Adds the test of the name at the front, and gives what stands behind it.
fn push_named<'a>(
    alloc: Global,
    named: Named,
    text: &'a str,
    at: usize,
    steps: &mut Chain,
) -> Result<&'a str, Stop>
    ensures { MatchResult result (λ rest. NamesTest named steps.old steps.new text.now rest.now) (FailsName at text.now) }
{
    let mut name = Text::new(alloc);
    let Some(rest) = push_name(&mut name, text)? else {
        return Err(bad(Cause::BadName, at));
    };
    steps.push(Step::Keep(of_name(alloc, named, name)?))?;
    Ok(rest)
}

/// Adds the test that stands in `[..]`, from behind the `[` on, and gives what stands behind it.
fn push_attribute<'a>(
    alloc: Global,
    text: &'a str,
    at: usize,
    steps: &mut Chain,
) -> Result<&'a str, Stop>
    ensures { (given : Result Piece Finding) → given ≡ attributed at text.now →
        MatchResult result (λ rest. ReadsTest steps.old steps.new (square_open ∷ text.now) rest.now given) (λ stop. Fails stop given) }
{
    let (inside, rest) = argument(alloc, Open::Square, text, at)?;
    let Some(test) = attribute(alloc, inside)? else {
        return Err(bad(Cause::BadAttribute, at));
    };
    steps.push(Step::Keep(test))?;
    Ok(rest)
}

/// Reads the piece at the front, which doesn't begin with `:`, and gives what stands behind it.
pub(crate) fn read_test<'a>(
    alloc: Global,
    first: bool,
    text: &'a str,
    at: usize,
    steps: &mut Chain,
) -> Result<&'a str, Stop>
    requires some { 0 < length text.now }
    requires other { begins_with colon text.now ≡ false }
    ensures { (inner : Inner) (setting : Setting) →
        MatchResult result (λ rest. ReadsTest steps.old steps.new text.now rest.now (piece_at inner setting first at text.now))
        (λ stop. Fails stop (piece_at inner setting first at text.now)) }
{
    let byte = text.as_bytes()[0];
    if byte == b'#' {
        return push_named(alloc, Named::Id, split_behind(text, 1).1, at, steps);
    }
    if byte == b'.' {
        return push_named(alloc, Named::Class, split_behind(text, 1).1, at, steps);
    }
    if byte == b'[' {
        return push_attribute(alloc, split_behind(text, 1).1, at, steps);
    }
    if !first {
        return Err(bad(Cause::BadName, at));
    }
    if byte == b'*' {
        steps.push(Step::Keep(Test::Any))?;
        return Ok(split_behind(text, 1).1);
    }
    push_named(alloc, Named::Tag, text, at, steps)
}
