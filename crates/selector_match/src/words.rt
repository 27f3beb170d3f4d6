//! The words of an attribute's value.
ghost use Rattle.std.specs.Prelude.{◌≡◌, ◌⊎◌, ◌<◌, ◌≤◌, [], ◌∷◌, length, MatchOption};
ghost use Rattle.std.specs.Char.{is_ascii_whitespace};
ghost use Rattle.std.specs.List.{list_any, position, position_or_len};
ghost use Rattle.std.specs.Str.{bytes_eq};
ghost use Rattle.page_tree.specs.Words.{words};
ghost use Rattle.selector_meaning.specs.Texts.{spelled};

use crate::texts::is_same;

// Whether some word of the value is this one, letter case ignored or not. Words are cut at space, tab, LF, FF and CR
// (DOM, "ordered set parser").
pub(crate) fn has_word(value: &[u8], word: &[u8], ignore_case: bool) -> bool
    ensures { result ≡ list_any (λ piece. bytes_eq (spelled ignore_case piece) (spelled ignore_case word.now)) (words value.now) }
{
    let mut rest = value;
    'words: while let Some((next, more)) = next_word(rest) {
        if is_same(next, word, ignore_case) {
            return true;
        }
        rest = more;
    }
    false
}

// The first word of a text, and what stands behind it.
fn next_word(text: &[u8]) -> Option<(&[u8], &[u8])>
    ensures words { MatchOption result (words text.now ≡ []) (λ p. words text.now ≡ p.0.now ∷ words p.1.now) }
    ensures shorter { MatchOption result (words text.now ≡ []) (λ p. length p.1.now < length text.now) }
{
    let text = skip_spaces(text);
    if text.is_empty() {
        return None;
    }
    let end = word_length(text);
    Some((&text[..end], &text[end..]))
}

fn skip_spaces(text: &[u8]) -> &[u8]
    ensures words { words result.now ≡ words text.now }
    ensures word { length result.now ≡ 0 ⊎ 0 < position_or_len is_ascii_whitespace result.now }
    ensures no_longer { length result.now ≤ length text.now }
{
    let mut rest = text;
    'spaces: while let Some((first, more)) = rest.split_first() {
        if !first.is_ascii_whitespace() {
            break;
        }
        rest = more;
    }
    rest
}

// How many bytes stand before the first white space.
fn word_length(text: &[u8]) -> usize
    ensures length { result ≡ position_or_len is_ascii_whitespace text.now }
    ensures within { result ≤ length text.now }
{
    match space_at(text) {
        Some(end) => end,
        None => text.len(),
    }
}

fn space_at(text: &[u8]) -> Option<usize>
    ensures { result ≡ position is_ascii_whitespace text.now }
{
    text.iter().position(|b| b.is_ascii_whitespace())
}
