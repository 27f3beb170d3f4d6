ghost use Rattle.std.specs.Prelude.{◌≡◌, ◌<◌, [], ◌∷◌, ◌++◌, ◌==◌, ◌&&◌, not, if◌then◌else◌, false, encode_utf8, MatchOption, OnOk, codes};
ghost use Rattle.std.specs.Char.{digit_char};
ghost use Rattle.selector_tree.specs.Letters.{is_within, is_digit, is_name_byte, is_control, numbered, is_numbered, is_marked, letters, begun, name_text, string_text, literal_text, body_text, flags_text};

use listed::Text;
use std::alloc::AllocError;

/// What a text is spelled as.
#[derive(Clone, Copy, Debug, PartialEq, Eq)]
pub enum Spelling {
    /// A name, or a part of it.
    Name,
    /// The value of an attribute, in quotes.
    Quoted,
    /// A literal argument, in quotes.
    Literal,
}

/// The first character of a text, and the text behind it.
fn split_first(text: &str) -> Option<(char, &str)>
    ensures { MatchOption result (text.now ≡ []) (λ p. text.now ≡ encode_utf8 p.0 ++ p.1.now) }
{
    let mut chars = text.chars();
    let first = chars.next()?;
    Some((first, chars.as_str()))
}

fn is_within(low: char, high: char, c: char) -> bool
    ensures { result ≡ is_within low high c }
{
    low <= c && c <= high
}

fn is_digit(c: char) -> bool
    ensures { result ≡ is_digit c }
{
    is_within('0', '9', c)
}

fn is_name_char(c: char) -> bool
    ensures { result ≡ is_name_byte c }
{
    is_within('a', 'z', c)
        || is_within('A', 'Z', c)
        || is_digit(c)
        || c == '-'
        || c == '_'
        || '\u{80}' <= c
}

fn is_control(c: char) -> bool
    ensures { result ≡ is_control c }
{
    is_within('\u{1}', '\u{1f}', c) || c == '\u{7f}'
}

fn is_numbered(spelling: Spelling, c: char) -> bool
    ensures { result ≡ is_numbered spelling c }
{
    match spelling {
        Spelling::Name | Spelling::Quoted => is_control(c),
        Spelling::Literal => false,
    }
}

fn is_marked(spelling: Spelling, c: char) -> bool
    ensures { result ≡ is_marked spelling c }
{
    match spelling {
        Spelling::Name => !is_name_char(c),
        Spelling::Quoted => c == '"' || c == '\\',
        Spelling::Literal => c == '\\' || c == '/' || c == '"' || c == '(' || c == ')',
    }
}

/// Adds a hexadecimal digit.
fn push_digit(out: &mut Text, digit: u32) -> Result<(), AllocError>
    requires { digit < 16 }
    ensures { OnOk result (out.new ≡ out.old ++ digit_char digit ∷ []) }
{
    match char::from_digit(digit, 16) {
        Some(c) => out.push(c),
        None => unreachable!(),
    }
}

/// Adds a character by its number.
fn push_numbered(out: &mut Text, c: char) -> Result<(), AllocError>
    requires { c < 128 }
    ensures { OnOk result (out.new ≡ out.old ++ numbered c) }
{
    let number = c as u32;
    out.push('\\')?;
    if number >= 16 {
        push_digit(out, number / 16)?;
    }
    push_digit(out, number % 16)?;
    out.push(' ')
}

/// Adds a character, with a `\` before it where it is marked.
fn push_marked(out: &mut Text, marked: bool, c: char) -> Result<(), AllocError>
    ensures { OnOk result (out.new ≡ out.old ++ (if marked then 92 ∷ encode_utf8 c else encode_utf8 c)) }
{
    if !marked {
        return out.push(c);
    }
    out.push('\\')?;
    out.push(c)
}

/// Adds a character as it is spelled.
fn push_letter(out: &mut Text, spelling: Spelling, c: char) -> Result<(), AllocError>
    ensures { OnOk result (out.new ≡ out.old ++ letters spelling (encode_utf8 c)) }
{
    if is_numbered(spelling, c) {
        return push_numbered(out, c);
    }
    push_marked(out, is_marked(spelling, c), c)
}

/// Adds a text, each character as it is spelled.
fn push_letters(out: &mut Text, spelling: Spelling, text: &str) -> Result<(), AllocError>
    ensures { OnOk result (out.new ≡ out.old ++ letters spelling text.now) }
{
    let mut rest = text;
    while let Some((c, behind)) = split_first(rest) {
        push_letter(out, spelling, c)?;
        rest = behind;
    }
    Ok(())
}

/// Adds a name from its first character on, or from the one behind a first `-`.
fn push_begun(out: &mut Text, first: char, rest: &str) -> Result<(), AllocError>
    ensures { OnOk result (out.new ≡ out.old ++ begun (encode_utf8 first ++ rest.now)) }
{
    if is_digit(first) {
        push_numbered(out, first)?;
        return push_letters(out, Spelling::Name, rest);
    }
    push_letter(out, Spelling::Name, first)?;
    push_letters(out, Spelling::Name, rest)
}

/// Adds a name.
pub fn push_name(out: &mut Text, name: &str) -> Result<(), AllocError>
    ensures { OnOk result (out.new ≡ out.old ++ name_text name.now) }
{
    let Some((first, rest)) = split_first(name) else {
        return Ok(());
    };
    if first != '-' {
        return push_begun(out, first, rest);
    }
    let Some((second, behind)) = split_first(rest) else {
        return out.push_str("\\-");
    };
    out.push('-')?;
    push_begun(out, second, behind)
}

/// Adds a text in quotes.
fn push_quoted(out: &mut Text, spelling: Spelling, text: &str) -> Result<(), AllocError>
    ensures { OnOk result (out.new ≡ out.old ++ (codes "\"" ++ letters spelling text.now ++ codes "\"")) }
{
    out.push_str("\"")?;
    push_letters(out, spelling, text)?;
    out.push_str("\"")
}

/// Adds the value of an attribute.
pub fn push_string(out: &mut Text, value: &str) -> Result<(), AllocError>
    ensures { OnOk result (out.new ≡ out.old ++ string_text value.now) }
{
    push_quoted(out, Spelling::Quoted, value)
}

/// Adds a literal argument.
pub fn push_literal(out: &mut Text, text: &str) -> Result<(), AllocError>
    ensures { OnOk result (out.new ≡ out.old ++ literal_text text.now) }
{
    push_quoted(out, Spelling::Literal, text)
}

/// Whether a character is a sign, and no second one of a pair.
fn is_bare(c: char, sign: char, paired: bool) -> bool
    ensures { result ≡ (c == sign && not paired) }
{
    c == sign && !paired
}

/// Adds the body of a pattern.
pub fn push_body(out: &mut Text, body: &str) -> Result<(), AllocError>
    ensures { OnOk result (out.new ≡ out.old ++ body_text false body.now) }
{
    let mut paired = false;
    let mut rest = body;
    while let Some((c, behind)) = split_first(rest) {
        push_marked(out, is_bare(c, '/', paired), c)?;
        paired = is_bare(c, '\\', paired);
        rest = behind;
    }
    Ok(())
}

/// Adds the flags of a pattern in their order.
pub fn push_flags(out: &mut Text, flags: u8) -> Result<(), AllocError>
    ensures { OnOk result (out.new ≡ out.old ++ flags_text flags) }
{
    if flags % 2 == 1 {
        out.push('i')?;
    }
    if flags / 2 % 2 == 1 {
        out.push('m')?;
    }
    if flags / 4 % 2 == 1 {
        out.push('s')?;
    }
    Ok(())
}
