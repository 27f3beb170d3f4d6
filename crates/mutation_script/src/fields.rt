// The fields of a line, from left to right. What is left of a line is `Some` text behind a space, or `None` where the line
// has ended.
ghost use Rattle.std.specs.Prelude.{◌≡◌, option_copied};
ghost use Rattle.std.specs.List.{list_all};
ghost use Rattle.std.specs.Str.{str_to_ascii_lowercase};
ghost use Rattle.mutation_script.specs.Fields.{field, left, is_name_byte, is_name, is_path, number_field, name_field, path_field, at_end};
ghost use Rattle.mutation_script.specs.Reads.{Reads};

use crate::BadLine;
use cos_source::{is_space, plain_number, split_once};

// The first field of a text, and what is left behind it.
pub fn cut(text: &str) -> (&str, Option<&str>)
    ensures field { result.0.now ≡ field text.now }
    ensures rest { option_copied result.1 ≡ left text.now }
{
    split_once(text, b' ')
}

// The next field as a number.
pub fn number_field(rest: Option<&str>) -> Result<(u32, Option<&str>), BadLine>
    ensures { Reads (λ read. (read.0, option_copied read.1)) result (number_field (option_copied rest.entry)) }
{
    let (field, rest) = cut(rest.ok_or(BadLine::MissingField)?);
    let number = plain_number(field, u32::MAX).ok_or(BadLine::BadNumber)?;
    Ok((number, rest))
}

// The next field as the name of an attribute, in the letter case of the line.
pub fn name_field(rest: Option<&str>) -> Result<(&str, Option<&str>), BadLine>
    ensures { Reads (λ read. (str_to_ascii_lowercase read.0.now, option_copied read.1)) result
        (name_field (option_copied rest.entry)) }
{
    let (field, rest) = cut(rest.ok_or(BadLine::MissingField)?);
    if !is_name(field) {
        return Err(BadLine::BadName);
    }
    Ok((field, rest))
}

// All of what is left, as a path.
pub fn path_field(rest: Option<&str>) -> Result<&str, BadLine>
    ensures { Reads (λ path. path.now) result (path_field (option_copied rest.entry)) }
{
    let path = rest.ok_or(BadLine::MissingField)?;
    if !is_path(path.as_bytes()) {
        return Err(BadLine::BadPath);
    }
    Ok(path)
}

// Nothing may be left behind the last field.
pub fn at_end(rest: Option<&str>) -> Result<(), BadLine>
    ensures { Reads (λ end. end) result (at_end tt (option_copied rest.entry)) }
{
    match rest {
        Some(_) => Err(BadLine::ExtraField),
        None => Ok(()),
    }
}

// Whether a text may be the path of an address.
fn is_path(text: &[u8]) -> bool
    ensures { result ≡ is_path text.now }
{
    match text.first() {
        Some(first) => *first == b'/',
        None => false,
    }
}

// Whether a text may be the name of an attribute.
fn is_name(text: &str) -> bool
    ensures { result ≡ is_name text.now }
{
    !text.is_empty() && are_name_bytes(text.as_bytes())
}

fn are_name_bytes(text: &[u8]) -> bool
    ensures { result ≡ list_all is_name_byte text.now }
{
    text.iter().all(|byte| is_name_byte(*byte))
}

fn is_name_byte(byte: u8) -> bool
    ensures { result ≡ is_name_byte byte }
{
    !(is_space(byte)
        || byte == b'>'
        || byte == b'<'
        || byte == b'/'
        || byte == b'='
        || byte == b'"'
        || byte == b'\'')
}
