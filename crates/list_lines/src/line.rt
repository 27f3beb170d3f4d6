// What a line is by its bytes.
ghost use Rattle.std.specs.Prelude.{◌≡◌, ◌≤◌, ◌<◌, ◌+◌, ◌-◌, length, slice_index, option_map, IfSome};
ghost use Rattle.std.specs.List.{list_any};
ghost use Rattle.cos_source.specs.Parts.{parts, placed};
ghost use Rattle.list_lines.specs.Lines.{aside, body_line, directive_line, directive_named, directive_of, dollar_line, ends_with, hide_line, holds, is_header, is_lone_hash, is_network_sign, is_regex, is_regex_address, last_place, line_of, network_line, option_line, separated_line, switch_line, switches_by, trimmed_line};
ghost use Rattle.list_lines.specs.Meanings.{besides_of, directive_meaning, meaning_of, domain_of, part_of, DomainBy, EndsBy, HostsBy, PartBy};
ghost use Rattle.list_lines.specs.Separators.{first_separator};

use crate::LINE_LIMIT;
use crate::options::{Domain, PageOptions, read_options};
use crate::separator::{Separator, split_line};
use address_patterns::HideOptions;
use cos_source::{Class, Part, space_count, split_front, trim_text};
use selector_spelling::{Cause, Finding, Kind};

/// A line that decides which lines are live.
#[derive(Clone, Copy)]
pub enum Directive<'a> {
    /// `!#if`, with its condition.
    If(&'a str),
    /// `!#else`.
    Else,
    /// `!#endif`.
    Endif,
    /// `!#include`.
    Include,
}

/// A line with a filter or an exception.
#[derive(Clone, Copy)]
pub struct HideLine<'a> {
    /// Whether it is an exception.
    pub exception: bool,
    /// The hosts, with the white space at their end.
    pub hosts: Part<'a>,
    /// The selector.
    pub selector: Part<'a>,
}

/// A line with a page option.
#[derive(Clone, Copy)]
pub struct PageLine<'a> {
    /// The pattern of addresses.
    pub pattern: &'a str,
    /// Which filters it switches off.
    pub options: HideOptions,
    /// The hosts of its `domain=` or `from=`.
    pub domain: Option<Part<'a>>,
}

/// What a line is by its bytes. The place of a part is its place in the line.
#[derive(Clone, Copy)]
pub enum LineForm<'a> {
    /// Nothing, or a comment.
    Nothing,
    /// A directive, with the place of its `!`.
    Directive(usize, Directive<'a>),
    /// A filter or an exception.
    Hide(HideLine<'a>),
    /// A page option.
    Page(PageLine<'a>),
    /// A line that is noted.
    Noted(Finding),
}

/// Reads a line by its bytes. It takes no memory.
pub fn read_line(line: &[u8]) -> LineForm<'_>
    ensures meaning { meaning_of result ≡ line_of line.now }
    ensures within { EndsBy LINE_LIMIT result }
{
    if line.len() > LINE_LIMIT {
        return LineForm::Noted(Finding::Malformed(Cause::LineTooLong, LINE_LIMIT));
    }
    match str::from_utf8(line) {
        Ok(text) => read_trimmed(space_count(text.as_bytes()), trim_text(text)),
        Err(error) => LineForm::Noted(Finding::Malformed(Cause::NotUtf8, error.valid_up_to())),
    }
}

// A line that is set aside.
fn aside<'a>(kind: Kind) -> LineForm<'a>
    ensures meaning { meaning_of result ≡ aside kind }
    ensures within { EndsBy LINE_LIMIT result }
{
    LineForm::Noted(Finding::SetAside(kind))
}

// A trimmed line, which begins at this place of the whole line.
fn read_trimmed(at: usize, text: &str) -> LineForm<'_>
    requires { at + length text.now ≤ LINE_LIMIT }
    ensures meaning { meaning_of result ≡ trimmed_line at text.now }
    ensures within { EndsBy LINE_LIMIT result }
{
    if text.is_empty() {
        LineForm::Nothing
    } else if text.starts_with("!") {
        read_directive_line(at, text)
    } else if is_header(text.as_bytes()) {
        LineForm::Nothing
    } else if text.starts_with("[$") {
        aside(Kind::Modifier)
    } else if is_lone_hash(text) {
        LineForm::Nothing
    } else {
        read_separated(at, text)
    }
}

// A line that begins with `!`.
fn read_directive_line(at: usize, text: &str) -> LineForm<'_>
    ensures meaning { meaning_of result ≡ directive_line at (directive_of text.now) }
    ensures within { EndsBy LINE_LIMIT result }
{
    match read_directive(text) {
        Some(directive) => LineForm::Directive(at, directive),
        None => LineForm::Nothing,
    }
}

fn read_directive(text: &str) -> Option<Directive<'_>>
    ensures { option_map directive_meaning result ≡ directive_of text.now }
{
    let rest = text.strip_prefix("!#")?;
    let (word, rest) = split_front(Class::Letter, rest);
    named_directive(word, rest)
}

// The directive of a word.
fn named_directive<'a>(word: &str, rest: &'a str) -> Option<Directive<'a>>
    ensures { option_map directive_meaning result ≡ directive_named word.now rest.entry.now }
{
    if word == "if" {
        Some(Directive::If(rest))
    } else if word == "else" {
        Some(Directive::Else)
    } else if word == "endif" {
        Some(Directive::Endif)
    } else if word == "include" {
        Some(Directive::Include)
    } else {
        None
    }
}

fn is_header(text: &[u8]) -> bool
    ensures { result ≡ is_header text.now }
{
    match text {
        [b'[', second, .., b']'] => second.is_ascii_alphabetic(),
        _ => false,
    }
}

fn is_lone_hash(text: &str) -> bool
    ensures { result ≡ is_lone_hash text.now }
{
    text == "#" || text.starts_with("# ") || text.starts_with("#\t")
}

// A line by its first separator.
fn read_separated(at: usize, text: &str) -> LineForm<'_>
    requires { at + length text.now ≤ LINE_LIMIT }
    ensures meaning { meaning_of result ≡ separated_line at text.now (first_separator 0 text.now) }
    ensures within { EndsBy LINE_LIMIT result }
{
    match split_line(text) {
        Some(found) => {
            let body = Part {
                place: at + found.hosts.len() + found.separator.size,
                text: found.body,
            };
            read_hide_line(at, found.hosts, found.separator, body.trimmed())
        }
        None => read_network_line(at, text),
    }
}

// A line with a separator: its hosts, which begin at the place `at`, and what stands behind the separator.
fn read_hide_line<'a>(
    at: usize,
    hosts: &'a str,
    separator: Separator,
    body: Part<'a>,
) -> LineForm<'a>
    requires hosts { at + length hosts.now ≤ LINE_LIMIT }
    requires body { PartBy LINE_LIMIT body }
    ensures meaning { meaning_of result ≡ hide_line at hosts.entry.now separator (part_of body.entry) }
    ensures within { EndsBy LINE_LIMIT result }
{
    if holds(b'/', hosts.as_bytes()) {
        aside(if is_regex(trim_text(hosts)) {
            Kind::RegexHost
        } else {
            Kind::Network
        })
    } else if has_network_sign(hosts.as_bytes()) {
        aside(Kind::Network)
    } else {
        let hosts = Part {
            place: at,
            text: hosts,
        };
        read_body(separator, hosts, body)
    }
}

// A line whose hosts are no address.
fn read_body<'a>(separator: Separator, hosts: Part<'a>, body: Part<'a>) -> LineForm<'a>
    requires hosts { PartBy LINE_LIMIT hosts }
    requires body { PartBy LINE_LIMIT body }
    ensures meaning { meaning_of result ≡ body_line separator (part_of hosts.entry) (part_of body.entry) }
    ensures within { EndsBy LINE_LIMIT result }
{
    if separator.foreign {
        aside(Kind::Snippet)
    } else if body.text.starts_with("+js(") {
        aside(Kind::Scriptlet)
    } else if body.text.starts_with("^") {
        aside(Kind::HtmlFilter)
    } else {
        LineForm::Hide(HideLine {
            exception: separator.exception,
            hosts,
            selector: body,
        })
    }
}

fn holds(byte: u8, text: &[u8]) -> bool
    ensures { result ≡ holds byte text.now }
{
    text.iter().any(|one| *one == byte)
}

// Whether hosts are a regular expression.
fn is_regex(hosts: &str) -> bool
    ensures { result ≡ is_regex hosts.now }
{
    (hosts.starts_with("/") || hosts.starts_with("~/")) && ends_with_slash(hosts.as_bytes())
}

fn ends_with_slash(text: &[u8]) -> bool
    ensures { result ≡ ends_with 47 text.now }
{
    match text.last() {
        Some(byte) => *byte == b'/',
        None => false,
    }
}

fn has_network_sign(text: &[u8]) -> bool
    ensures { result ≡ list_any is_network_sign text.now }
{
    text.iter().any(|byte| is_network_sign(*byte))
}

// A byte that no host has, and an address or its options may have.
fn is_network_sign(byte: u8) -> bool
    ensures { result ≡ is_network_sign byte }
{
    matches!(byte, b'|' | b'^' | b'$' | b'=' | b'?' | b'&')
}

// A line without a separator that isn't a comment.
fn read_network_line(at: usize, text: &str) -> LineForm<'_>
    requires { at + length text.now ≤ LINE_LIMIT }
    ensures meaning { meaning_of result ≡ network_line at text.now }
    ensures within { EndsBy LINE_LIMIT result }
{
    match text.strip_prefix("@@") {
        Some(rest) => read_dollar_line(at + 2, rest),
        None => aside(Kind::Network),
    }
}

// What stands behind `@@`, by its last `$`.
fn read_dollar_line(at: usize, text: &str) -> LineForm<'_>
    requires { at + length text.now ≤ LINE_LIMIT }
    ensures meaning { meaning_of result ≡ dollar_line at text.now (last_place 36 0 text.now) }
    ensures within { EndsBy LINE_LIMIT result }
{
    match last_dollar(text.as_bytes()) {
        Some(place) => {
            let pattern = text.split_at(place).0;
            let options = text.split_at(place + 1).1;
            read_option_line(at + place + 1, pattern, options)
        }
        None => aside(Kind::Network),
    }
}

fn last_dollar(text: &[u8]) -> Option<usize>
    ensures place { result ≡ last_place 36 0 text.now }
    ensures dollar { IfSome result (λ place. (place < length text.now) × (slice_index text.now place ≡ 36)) }
{
    let mut last = None;
    let mut place = 0;
    while place < text.len() {
        if text[place] == b'$' {
            last = Some(place);
        }
        place += 1;
    }
    last
}

// A page option's line, or one that blocks requests.
fn read_option_line<'a>(at: usize, pattern: &'a str, options: &'a str) -> LineForm<'a>
    requires { at + length options.now ≤ LINE_LIMIT }
    ensures meaning { meaning_of result ≡ option_line at pattern.entry.now (placed 0 (parts 44 options.entry.now)) }
    ensures within { EndsBy LINE_LIMIT result }
{
    let read = read_options(options);
    if read.hide.elem || read.hide.generic || read.hide.specific {
        read_switch_line(at, pattern, read)
    } else {
        aside(Kind::Network)
    }
}

// The same where some option hides; the options begin at the place `at`.
fn read_switch_line<'a>(at: usize, pattern: &'a str, options: PageOptions<'a>) -> LineForm<'a>
    requires at { at ≤ LINE_LIMIT }
    requires domain { HostsBy (LINE_LIMIT - at) options.domain }
    ensures meaning { meaning_of result ≡ switch_line at pattern.entry.now options.entry.hide (besides_of options.entry.domain) }
    ensures within { EndsBy LINE_LIMIT result }
{
    match options.domain {
        Domain::Unread => aside(Kind::Option),
        Domain::Silent => page_line(pattern, options.hide, None),
        Domain::Hosts(hosts) => {
            let hosts = Part {
                place: at + hosts.place,
                text: hosts.text,
            };
            page_line(pattern, options.hide, Some(hosts))
        }
    }
}

// A page option's line whose options are read.
fn page_line<'a>(pattern: &'a str, options: HideOptions, domain: Option<Part<'a>>) -> LineForm<'a>
    requires { DomainBy LINE_LIMIT domain }
    ensures meaning { meaning_of result ≡ switches_by pattern.entry.now options (domain_of domain.entry) }
    ensures within { EndsBy LINE_LIMIT result }
{
    if is_regex_address(pattern) {
        return aside(Kind::RegexAddress);
    }
    LineForm::Page(PageLine {
        pattern,
        options,
        domain,
    })
}

fn is_regex_address(pattern: &str) -> bool
    ensures { result ≡ is_regex_address pattern.now }
{
    pattern.len() >= 2 && pattern.starts_with("/") && ends_with_slash(pattern.as_bytes())
}
