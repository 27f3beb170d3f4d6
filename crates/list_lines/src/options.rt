// The options of a page option's line.
ghost use Rattle.std.specs.Prelude.{◌≡◌, ℕ, ◌+◌, ◌<◌, ◌^◌, ◌||◌, length};
ghost use Rattle.cos_source.specs.Parts.{parts, placed};
ghost use Rattle.list_lines.specs.Meanings.{besides_of, HostsBy};
ghost use Rattle.list_lines.specs.Options.{besides, both, hide_options, is_elem, is_generic, is_specific, option_besides};

use address_patterns::HideOptions;
use cos_source::{Part, Parts};

/// What options say besides those that hide.
#[derive(Clone, Copy)]
pub enum Domain<'a> {
    /// Nothing.
    Silent,
    /// A list of hosts, with its place in the options.
    Hosts(Part<'a>),
    /// What isn't read.
    Unread,
}

/// What the options of a line say.
#[derive(Clone, Copy)]
pub struct PageOptions<'a> {
    /// Which filters they switch off.
    pub hide: HideOptions,
    /// What they say besides.
    pub domain: Domain<'a>,
}

// Reads the options between commas.
pub(crate) fn read_options(text: &str) -> PageOptions<'_>
    ensures hide { result.hide ≡ hide_options (placed 0 (parts 44 text.now)) }
    ensures domain { besides_of result.domain ≡ besides (placed 0 (parts 44 text.now)) }
    ensures within { HostsBy (length text.now) result.domain }
{
    let mut hide = HideOptions {
        elem: false,
        generic: false,
        specific: false,
    };
    let mut domain = Domain::Silent;
    let mut parts = Parts::new(text, b',');
    'options: while let Some(part) = parts.next() {
        hide = with_option(hide, part.text);
        domain = with_domain(domain, domain_of(part));
    }
    PageOptions { hide, domain }
}

// One more option that hides, if it does.
fn with_option(hide: HideOptions, option: &str) -> HideOptions
    ensures elem { result.elem ≡ (hide.elem || is_elem option.now) }
    ensures generic { result.generic ≡ (hide.generic || is_generic option.now) }
    ensures specific { result.specific ≡ (hide.specific || is_specific option.now) }
{
    HideOptions {
        elem: hide.elem || is_elem(option),
        generic: hide.generic || is_generic(option),
        specific: hide.specific || is_specific(option),
    }
}

fn is_elem(option: &str) -> bool
    ensures { result ≡ is_elem option.now }
{
    option == "elemhide" || option == "ehide"
}

fn is_generic(option: &str) -> bool
    ensures { result ≡ is_generic option.now }
{
    option == "generichide" || option == "ghide"
}

fn is_specific(option: &str) -> bool
    ensures { result ≡ is_specific option.now }
{
    option == "specifichide" || option == "shide"
}

// What one option says besides.
fn domain_of(option: Part<'_>) -> Domain<'_>
    requires { option.place + length option.text.now < 2 ^ 64 }
    ensures domain { besides_of result ≡ option_besides option.entry.place option.entry.text.now }
    ensures within { HostsBy (option.entry.place + length option.entry.text.now) result }
{
    let text = option.text;
    if is_elem(text) || is_generic(text) || is_specific(text) {
        Domain::Silent
    } else if let Some(hosts) = text.strip_prefix("domain=") {
        Domain::Hosts(Part {
            place: option.place + 7,
            text: hosts,
        })
    } else if let Some(hosts) = text.strip_prefix("from=") {
        Domain::Hosts(Part {
            place: option.place + 5,
            text: hosts,
        })
    } else {
        Domain::Unread
    }
}

// What two options say; at most one has a list of hosts.
fn with_domain<'a>(domain: Domain<'a>, more: Domain<'a>) -> Domain<'a>
    ensures domain { besides_of result ≡ both (besides_of domain.entry) (besides_of more.entry) }
    ensures within { (limit : ℕ) → HostsBy limit domain.entry → HostsBy limit more.entry → HostsBy limit result }
{
    match (domain, more) {
        (Domain::Silent, _) => more,
        (Domain::Hosts(_), Domain::Silent) => domain,
        _ => Domain::Unread,
    }
}
