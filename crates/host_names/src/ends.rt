// The labels of a name, and the ends that it has by them.
ghost use Rattle.std.specs.Prelude.{◌≡◌, ◌+◌, [], ◌∷◌, ◌++◌, length, MatchOption};
ghost use Rattle.std.specs.Option.{option_copied};
ghost use Rattle.host_names.specs.Hosts.{ends_of, labels_of};
ghost use Rattle.host_names.specs.Left.{ends_left, labels_left};

use cos_source::split_once;
use std::marker::Model;

/// The ends of a name: all of it, and what stands behind each of its dots, longest first. Contracts see those that are
/// still to come.
#[derive(Drop)]
pub struct Ends<'a> {
    next: Option<&'a str>,
}

impl<'a> Model for Ends<'a> {
    ghost use Rattle.std.specs.Prelude.{List, ℕ};
    ghost use Rattle.std.specs.Option.{option_copied};
    ghost use Rattle.host_names.specs.Left.{ends_left};

    ghost Value = { List (List ℕ) };

    ghost view = { λ ends. ends_left (option_copied ends.next) };
}

impl<'a> Ends<'a> {
    /// The ends of a name. It takes no memory.
    pub fn new(name: &'a str) -> Ends<'a>
        ensures { result ≡ ends_of name.now }
    {
        Ends { next: Some(name) }
    }

    /// The next end; `None` behind the last label. It takes no memory.
    pub fn next(&mut self) -> Option<&'a str>
        ensures { MatchOption result ((self.old ≡ []) × (self.new ≡ [])) (λ end. self.old ≡ end.now ∷ self.new) }
    {
        let end = self.next?;
        self.next = split_once(end, b'.').1;
        Some(end)
    }
}

// How many labels a name has.
pub(crate) fn label_count(name: &str) -> usize
    ensures { result ≡ length (labels_of name.now) }
{
    let bytes = name.as_bytes();
    let mut count = 1;
    'bytes: for byte in bytes {
        if *byte == b'.' {
            count += 1;
        }
    }
    count
}

// The last label of a name, and what stands before its dot, if it has one.
pub(crate) fn split_last(name: &str) -> (Option<&str>, &str)
    ensures { labels_of name.now ≡ labels_left (option_copied result.0) ++ result.1.now ∷ [] }
{
    match name.rsplit_once('.') {
        Some((front, label)) => (Some(front), label),
        None => (None, name),
    }
}
