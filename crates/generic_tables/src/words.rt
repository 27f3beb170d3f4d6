//! The words of a text.
ghost use Rattle.std.specs.Prelude.{◌≡◌, ◌<◌, [], ◌∷◌, length, MatchOption};
ghost use Rattle.std.specs.List.{position, position_or_len};
ghost use Rattle.std.specs.Char.{is_ascii_whitespace};
ghost use Rattle.page_tree.specs.Words.{words};

// The first word of a text, and what stands behind it. Words are cut at space, tab, LF, FF and CR (DOM, "ordered set
// parser").
pub(crate) fn next_word(text: &str) -> Option<(&str, &str)>
    ensures words { MatchOption result (words text.now ≡ [])
        (λ p. words text.now ≡ p.0.now ∷ words p.1.now) }
    ensures shorter { MatchOption result (words text.now ≡ [])
        (λ p. length p.1.now < length text.now) }
{
    let text = text.trim_ascii_start();
    if text.is_empty() {
        return None;
    }
    Some(text.split_at(word_length(text)))
}

// How many bytes stand before the first white space.
fn word_length(text: &str) -> usize
    ensures { result ≡ position_or_len is_ascii_whitespace text.now }
{
    match space_at(text.as_bytes()) {
        Some(end) => end,
        None => text.len(),
    }
}

fn space_at(text: &[u8]) -> Option<usize>
    ensures { result ≡ position is_ascii_whitespace text.now }
{
    text.iter().position(|b| b.is_ascii_whitespace())
}
