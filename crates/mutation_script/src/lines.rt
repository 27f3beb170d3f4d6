// What a line of a script says.
ghost use Rattle.std.specs.Prelude.{◌≡◌, option_copied, IfOk};
ghost use Rattle.std.specs.List.{list_all};
ghost use Rattle.std.specs.Str.{str_to_ascii_lowercase};
ghost use Rattle.cos_source.specs.Spaces.{is_space};
ghost use Rattle.mutation_script.specs.Lines.{attr_line, unset_line, text_line, insert_line, delete_line, move_line, path_line, by_word, mutation_of, script_line};
ghost use Rattle.mutation_script.specs.Reads.{Gives};

use crate::fields::{at_end, cut, name_field, number_field, path_field};
use crate::{BadLine, Mutation, ScriptLine};
use cos_source::is_space;
use listed::Text;
use std::alloc::{AllocError, Global};

// Why no mutation was read.
#[derive(Clone, Copy, Debug)]
pub(crate) enum LineError {
    Bad(BadLine),
    NoMemory,
}

impl From<BadLine> for LineError {
    ghost use Rattle.mutation_script.specs.declared.lines.LineError.TheVariants.{Bad};

    ghost from_gives = { λ cause error. error ≡ Bad cause };

    fn from(cause: BadLine) -> Self {
        LineError::Bad(cause)
    }
}

impl From<AllocError> for LineError {
    ghost use Rattle.mutation_script.specs.declared.lines.LineError.TheVariants.{NoMemory};

    ghost from_gives = { λ _ error. error ≡ NoMemory };

    fn from(_: AllocError) -> Self {
        LineError::NoMemory
    }
}

/// Reads a line of a script, given without what ends it. A line of white space alone is `Blank`.
///
/// The words are `attr N NAME VALUE`, `unset N NAME`, `text N TEXT`, `insert P K HTML`, `delete N`, `move N P K` and
/// `path PATH`, with one space before each field. VALUE, TEXT, HTML and PATH are all of what is left; where they are
/// missing they are empty, but for PATH. The cause of a bad line is the first of `NotUtf8`, `UnknownWord`, then from field
/// to field `MissingField`, `BadNumber`, `BadName` and `BadPath`, and at last `ExtraField`.
pub fn read_line(alloc: Global, bytes: &[u8]) -> Result<ScriptLine, AllocError>
    ensures { IfOk result (λ line. line ≡ script_line bytes.now) }
{
    if is_blank(bytes) {
        return Ok(ScriptLine::Blank);
    }
    let Ok(line) = str::from_utf8(bytes) else {
        return Ok(ScriptLine::Bad(BadLine::NotUtf8));
    };
    match mutation_of(alloc, line) {
        Ok(mutation) => Ok(ScriptLine::Mutation(mutation)),
        Err(LineError::Bad(cause)) => Ok(ScriptLine::Bad(cause)),
        Err(LineError::NoMemory) => Err(AllocError),
    }
}

fn is_blank(bytes: &[u8]) -> bool
    ensures { result ≡ list_all is_space bytes.now }
{
    bytes.iter().all(|byte| is_space(*byte))
}

fn mutation_of(alloc: Global, line: &str) -> Result<Mutation, LineError>
    ensures { Gives result (mutation_of line.now) }
{
    let (word, rest) = cut(line);
    if word == "attr" {
        attr_line(alloc, rest)
    } else if word == "unset" {
        unset_line(alloc, rest)
    } else if word == "text" {
        text_line(alloc, rest)
    } else if word == "insert" {
        insert_line(alloc, rest)
    } else if word == "delete" {
        delete_line(rest)
    } else if word == "move" {
        move_line(rest)
    } else if word == "path" {
        path_line(alloc, rest)
    } else {
        Err(LineError::Bad(BadLine::UnknownWord))
    }
}

// `attr N NAME VALUE`
fn attr_line(alloc: Global, rest: Option<&str>) -> Result<Mutation, LineError>
    ensures { Gives result (attr_line (option_copied rest.entry)) }
{
    let (n, rest) = number_field(rest)?;
    let (name, rest) = name_field(rest)?;
    let name = Text::lower(alloc, name)?;
    let value = Text::of(alloc, rest.unwrap_or(""))?;
    Ok(Mutation::SetAttr { n, name, value })
}

// `unset N NAME`
fn unset_line(alloc: Global, rest: Option<&str>) -> Result<Mutation, LineError>
    ensures { Gives result (unset_line (option_copied rest.entry)) }
{
    let (n, rest) = number_field(rest)?;
    let (name, rest) = name_field(rest)?;
    at_end(rest)?;
    let name = Text::lower(alloc, name)?;
    Ok(Mutation::DropAttr { n, name })
}

// `text N TEXT`
fn text_line(alloc: Global, rest: Option<&str>) -> Result<Mutation, LineError>
    ensures { Gives result (text_line (option_copied rest.entry)) }
{
    let (n, rest) = number_field(rest)?;
    let text = Text::of(alloc, rest.unwrap_or(""))?;
    Ok(Mutation::SetText { n, text })
}

// `insert P K HTML`
fn insert_line(alloc: Global, rest: Option<&str>) -> Result<Mutation, LineError>
    ensures { Gives result (insert_line (option_copied rest.entry)) }
{
    let (parent, rest) = number_field(rest)?;
    let (place, rest) = number_field(rest)?;
    let html = Text::of(alloc, rest.unwrap_or(""))?;
    Ok(Mutation::Insert {
        parent,
        place,
        html,
    })
}

// `delete N`
fn delete_line(rest: Option<&str>) -> Result<Mutation, LineError>
    ensures { Gives result (delete_line (option_copied rest.entry)) }
{
    let (n, rest) = number_field(rest)?;
    at_end(rest)?;
    Ok(Mutation::Delete { n })
}

// `move N P K`
fn move_line(rest: Option<&str>) -> Result<Mutation, LineError>
    ensures { Gives result (move_line (option_copied rest.entry)) }
{
    let (n, rest) = number_field(rest)?;
    let (parent, rest) = number_field(rest)?;
    let (place, rest) = number_field(rest)?;
    at_end(rest)?;
    Ok(Mutation::Relink { n, parent, place })
}

// `path PATH`
fn path_line(alloc: Global, rest: Option<&str>) -> Result<Mutation, LineError>
    ensures { Gives result (path_line (option_copied rest.entry)) }
{
    let path = Text::of(alloc, path_field(rest)?)?;
    Ok(Mutation::Path { path })
}
