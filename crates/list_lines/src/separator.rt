// The sign between the hosts and the selector of a line.
ghost use Rattle.std.specs.Prelude.{◌≡◌, ◌+◌, Some, None, length, take, drop, MatchOption};
ghost use Rattle.list_lines.specs.Separators.{separator, separator_of, foreign_separator, first_separator};

/// What stands between the hosts of a line and what they are for.
#[derive(Clone, Copy, Debug, PartialEq, Eq)]
pub struct Separator {
    /// How many bytes it has.
    pub size: usize,
    /// Whether it makes an exception, by its `@`.
    pub exception: bool,
    /// Whether what follows is of another engine, by its `$` or `%`.
    pub foreign: bool,
}

// A line at its first separator.
#[derive(Clone, Copy)]
pub(crate) struct Separated<'a> {
    pub hosts: &'a str,
    pub separator: Separator,
    pub body: &'a str,
}

// What stands before the first separator of a text, and behind it.
pub(crate) fn split_line(text: &str) -> Option<Separated<'_>>
    ensures { MatchOption result (first_separator 0 text.now ≡ None) (λ found.
        (first_separator 0 text.now ≡ Some (length found.hosts.now, found.separator))
        × (found.hosts.now ≡ take (length found.hosts.now) text.now)
        × (found.body.now ≡ drop (length found.hosts.now + found.separator.size) text.now)
        × (length found.hosts.now + found.separator.size + length found.body.now ≡ length text.now)) }
{
    let mut place = 0;
    while place < text.len() {
        if text.as_bytes()[place] == b'#' {
            let (hosts, rest) = text.split_at(place);
            if let Some((separator, body)) = strip_separator(rest) {
                return Some(Separated {
                    hosts,
                    separator,
                    body,
                });
            }
        }
        place += 1;
    }
    None
}

// The separator that a text begins with, and what stands behind it.
fn strip_separator(text: &str) -> Option<(Separator, &str)>
    ensures { MatchOption result (separator_of text.now ≡ None) (λ found.
        (separator_of text.now ≡ Some found.0) × (found.1.now ≡ drop found.0.size text.now)
        × (found.0.size + length found.1.now ≡ length text.now)) }
{
    if let Some(body) = text.strip_prefix("##") {
        Some((sign(2, false, false), body))
    } else if let Some(body) = text.strip_prefix("#@#") {
        Some((sign(3, true, false), body))
    } else if let Some(body) = text.strip_prefix("#?#") {
        Some((sign(3, false, false), body))
    } else if let Some(body) = text.strip_prefix("#@?#") {
        Some((sign(4, true, false), body))
    } else {
        strip_foreign(text)
    }
}

// The same of those of other engines.
fn strip_foreign(text: &str) -> Option<(Separator, &str)>
    ensures { MatchOption result (foreign_separator text.now ≡ None) (λ found.
        (foreign_separator text.now ≡ Some found.0) × (found.1.now ≡ drop found.0.size text.now)
        × (found.0.size + length found.1.now ≡ length text.now)) }
{
    if let Some(body) = text.strip_prefix("#$#") {
        Some((sign(3, false, true), body))
    } else if let Some(body) = text.strip_prefix("#@$#") {
        Some((sign(4, true, true), body))
    } else if let Some(body) = text.strip_prefix("#%#") {
        Some((sign(3, false, true), body))
    } else if let Some(body) = text.strip_prefix("#@%#") {
        Some((sign(4, true, true), body))
    } else if let Some(body) = text.strip_prefix("#$?#") {
        Some((sign(4, false, true), body))
    } else if let Some(body) = text.strip_prefix("#@$?#") {
        Some((sign(5, true, true), body))
    } else {
        None
    }
}

fn sign(size: usize, exception: bool, foreign: bool) -> Separator
    ensures { result ≡ separator size exception foreign }
{
    Separator {
        size,
        exception,
        foreign,
    }
}
