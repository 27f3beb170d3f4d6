ghost use Rattle.std.specs.Prelude.{◌≡◌, length, IfOk};
ghost use Rattle.url.specs.declared.slicing.Position.TheVariants.{BeforeScheme, BeforeHost, AfterHost};
ghost use Rattle.url.specs.Parts.{text_between};
ghost use Rattle.address_patterns.specs.Pages.{host_in, host_place, page_of, without_dot};

use host_names::Host;
use listed::Text;
use std::alloc::{AllocError, Global};
use url::{Position, Url};

/// A page, by its address. Numbers are places in the address, in bytes.
#[derive(Debug, Drop)]
pub struct Page {
    /// The address without a fragment, as `url` prints it.
    pub address: Text,
    /// Its host without one dot at the end; empty where it has none.
    pub host: Host,
    /// Where the host begins in the address, as printed there; 0 where there is none.
    pub host_from: u32,
    /// Where the host ends in the address, with a dot at its end; 0 where there is none.
    pub host_to: u32,
    /// The path, and the query with its `?` where there is one.
    pub path: Text,
}

impl Page {
    /// The page of an address.
    pub fn of(alloc: Global, url: &Url) -> Result<Page, AllocError>
        ensures { IfOk result (λ page. page ≡ page_of url.now) }
    {
        let (host_from, host_to) = host_places(url)?;
        Ok(Page {
            address: Text::of(
                alloc,
                url.slice(Position::BeforeScheme, Position::AfterQuery),
            )?,
            host: host_of(alloc, url)?,
            host_from,
            host_to,
            path: Text::of(alloc, url.slice(Position::BeforePath, Position::AfterQuery))?,
        })
    }
}

// The host as the address prints it, without one dot at its end; empty where the address has none.
fn host_of(alloc: Global, url: &Url) -> Result<Host, AllocError>
    ensures { IfOk result (λ host. host ≡ without_dot (host_in url.now)) }
{
    let text = url.slice(Position::BeforeHost, Position::AfterHost);
    match text.strip_suffix('.') {
        Some(name) => Host::of_page(alloc, name),
        None => Host::of_page(alloc, text),
    }
}

// The places in the address between which its host stands; both are 0 where there is none.
fn host_places(url: &Url) -> Result<(u32, u32), AllocError>
    ensures { IfOk result (λ places. places ≡ (host_place url.now (length (text_between url.now BeforeScheme BeforeHost)), host_place url.now (length (text_between url.now BeforeScheme AfterHost)))) }
{
    let host = url.slice(Position::BeforeHost, Position::AfterHost);
    if host.is_empty() {
        return Ok((0, 0));
    }
    let from = url.slice(Position::BeforeScheme, Position::BeforeHost);
    let to = url.slice(Position::BeforeScheme, Position::AfterHost);
    Ok((place_of(from.len())?, place_of(to.len())?))
}

// A place as it is kept. `url` keeps its places in 32 bits too, so that want of memory stands for none here.
fn place_of(bytes: usize) -> Result<u32, AllocError>
    ensures { IfOk result (λ place. place ≡ bytes) }
{
    match u32::try_from(bytes) {
        Ok(place) => Ok(place),
        Err(_) => Err(AllocError),
    }
}
