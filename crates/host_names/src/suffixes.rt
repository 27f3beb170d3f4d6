// Public suffix rules.
ghost use Rattle.std.specs.Prelude.{◌≡◌, ◌<◌, ◌^◌, ℕ, Bool, List, [], ◌∷◌, length, IfOk, OnOk};
ghost use Rattle.std.specs.List.{list_any};
ghost use Rattle.std.specs.Option.{option_copied};
ghost use Rattle.cos_source.specs.Lines.{lines_of, numbered};
ghost use Rattle.host_names.specs.Held.{is_whole, kinds_at, rule_by, with_kind};
ghost use Rattle.host_names.specs.Hosts.{labels_of};
ghost use Rattle.host_names.specs.Suffixes.{before, has_no_name, longest, rest, suffix_count};
ghost use Rattle.host_names.specs.SuffixLines.{bad_lines, rules_of};

use crate::Host;
use crate::ends::{Ends, label_count, split_last};
use crate::line::{RuleSort, SpelledLine, read_line};
use cos_source::{Lines, is_digits, split_once};
use indexmap::IndexMap;
use listed::Numbers;
use std::alloc::{AllocError, Global};
use std::marker::Model;

// Which rules a name has.
#[derive(Clone, Copy, Drop)]
pub(crate) struct RuleKinds {
    // The name itself is a rule.
    pub(crate) plain: bool,
    // The name with `*` before it is a rule.
    pub(crate) star: bool,
    // The name is an exception.
    pub(crate) exception: bool,
}

impl RuleKinds {
    // One more kind.
    fn with(self, sort: RuleSort) -> RuleKinds
        ensures { result ≡ with_kind sort self }
    {
        let mut kinds = self;
        match sort {
            RuleSort::Plain => kinds.plain = true,
            RuleSort::Star => kinds.star = true,
            RuleSort::Exception => kinds.exception = true,
        }
        kinds
    }
}

/// Rules of public suffixes, by their names. Contracts see them as a list of rules.
#[derive(Drop)]
pub struct Suffixes {
    by_name: IndexMap<String, RuleKinds>,
}

impl Model for Suffixes {
    ghost use Rattle.std.specs.Prelude.{List};
    ghost use Rattle.std.specs.String.{string_eq};
    ghost use Rattle.indexmap.specs.IndexMap.{IsUnique};
    ghost use Rattle.host_names.specs.Held.{rules_in};
    ghost use Rattle.host_names.specs.Suffixes.{Rule, rules_code};

    ghost Value = { List Rule };

    ghost coded = { rules_code };

    ghost view = { λ suffixes. rules_in suffixes.by_name.entries };

    ghost invariant = { λ suffixes. IsUnique string_eq suffixes.by_name };
}

/// The rules of a file, and what is malformed in it.
#[derive(Drop)]
pub struct SuffixesRead {
    /// The rules.
    pub rules: Suffixes,
    /// The numbers of the malformed lines, from 1, in order.
    pub bad: Numbers,
}

impl Suffixes {
    /// No rules: each last label is a public suffix. It takes no memory.
    pub fn none(alloc: Global) -> Suffixes
        ensures { result ≡ [] }
    {
        Suffixes {
            by_name: IndexMap::new(alloc),
        }
    }

    /// Reads the lines of a file of public suffix rules (publicsuffix.org, "Format"), which is shorter than 2^32 bytes. `*`
    /// is allowed as the first label alone. Rules that stand twice are held once.
    pub fn read(alloc: Global, bytes: &[u8]) -> Result<SuffixesRead, AllocError>
        requires { length bytes.now < 2 ^ 32 }
        // Each host has the rest that the file's rules give it.
        ensures rules { IfOk result (λ read. (host : List ℕ) →
            rest read.rules host ≡ rest (rules_of (numbered 1 (lines_of bytes.now))) host) }
        ensures bad { IfOk result (λ read. read.bad ≡ bad_lines (numbered 1 (lines_of bytes.now))) }
    {
        let mut rules = Suffixes::none(alloc);
        let mut bad = Numbers::new(alloc);
        let mut lines = Lines::new(bytes);
        'lines: while let Some(line) = lines.next() {
            match read_line(alloc, line.bytes)? {
                SpelledLine::Nothing => {}
                // What holds where no rule matches.
                SpelledLine::Any => {}
                SpelledLine::Named(sort, name) => rules.put(sort, name)?,
                SpelledLine::Bad => bad.push(line.number)?,
            }
        }
        Ok(SuffixesRead { rules, bad })
    }

    // Adds the rule of this sort with this name.
    fn put(&mut self, sort: RuleSort, name: Host) -> Result<(), AllocError>
        ensures { OnOk result ((exceptions : Bool) → (labels : List (List ℕ)) →
            longest exceptions self.new labels ≡ longest exceptions (rule_by sort name ∷ self.old) labels) }
    {
        let kinds = kinds_at(&self.by_name, name.as_str()).with(sort);
        self.by_name.insert(name.into_string(), kinds)?;
        Ok(())
    }

    // Whether a rule has just as many labels as this end of a host and matches it, among the exceptions or the others.
    fn has_rule(&self, end: &str, exceptions: bool) -> bool
        ensures { result ≡ list_any (is_whole exceptions (labels_of end.now)) self.now }
    {
        let kinds = kinds_at(&self.by_name, end);
        if exceptions {
            return kinds.exception;
        }
        if kinds.plain {
            return true;
        }
        match split_once(end, b'.').1 {
            Some(behind) => kinds_at(&self.by_name, behind).star,
            None => false,
        }
    }

    // How many labels the longest rule has that matches a host, among the exceptions or among the others; 0 for none.
    fn longest(&self, host: &str, exceptions: bool) -> usize
        ensures { result ≡ longest exceptions self.now (labels_of host.now) }
    {
        let mut count = label_count(host);
        let mut ends = Ends::new(host);
        'ends: while let Some(end) = ends.next() {
            if self.has_rule(end, exceptions) {
                return count;
            }
            count -= 1;
        }
        0
    }

    // How many labels of a host are its public suffix.
    fn suffix_count(&self, host: &str) -> usize
        ensures { result ≡ suffix_count self.now (labels_of host.now) }
    {
        let exception = self.longest(host, true);
        if exception > 0 {
            exception - 1
        } else {
            self.longest(host, false).max(1)
        }
    }

    /// The rest of a host: it without its public suffix and the dot before that. There is none where the host is its public
    /// suffix, is empty, is an address in brackets, or has a last label of digits alone. It takes no memory.
    pub fn rest<'a>(&self, host: &'a Host) -> Option<&'a str>
        ensures { option_copied result ≡ rest self.now host.now }
    {
        let text = host.as_str();
        if has_no_name(text) {
            return None;
        }
        before_labels(text, self.suffix_count(text))
    }
}

// Which rules a name has.
fn kinds_at(by_name: &IndexMap<String, RuleKinds>, name: &str) -> RuleKinds
    ensures { result ≡ kinds_at by_name.now name.now }
{
    match by_name.get(name) {
        Some(kinds) => *kinds,
        None => RuleKinds {
            plain: false,
            star: false,
            exception: false,
        },
    }
}

// Whether a host is empty, an address in brackets, or has a last label of digits alone.
fn has_no_name(host: &str) -> bool
    ensures { result ≡ has_no_name host.now }
{
    host.is_empty() || host.starts_with('[') || is_digits(split_last(host).1.as_bytes())
}

// The labels of a host before the last ones, as many as that, if there are any.
fn before_labels(host: &str, count: usize) -> Option<&str>
    ensures { option_copied result ≡ before count (labels_of host.now) }
{
    let mut left = host;
    let mut more = count;
    'labels: while more > 0 {
        left = split_last(left).0?;
        more -= 1;
    }
    Some(left)
}
