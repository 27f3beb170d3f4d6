// What each command reads.
ghost use Rattle.std.specs.Prelude.{◌≡◌, ◌+◌, ◌≤◌, ◌∷◌, ◌++◌, [], length, sum_by, IsTrue, IfOk, IfErr, OnOk, IsErrOf};
ghost use Rattle.cos_patterns.specs.declared.written.Asked.TheVariants.{Address};
ghost use Rattle.command_inputs.specs.Inputs.{sources_due, lists_inputs, address_by, page_inputs, apply_inputs};
ghost use Rattle.command_inputs.specs.Reads.{IsAddressError, IsDue, IsFileError, IsInputError, ReadsAs};

use crate::page::read_tree;
use crate::{ADDRESS_LIMIT, FILE_LIMIT, File, InputRefusal, LIST_LIMIT, Status, files};
use address_patterns::Page;
use command_words::{Apply, Lists};
use cos_outside::Shelf;
use cos_patterns::{MakeError, Maker};
use dom_arena::Dom;
use listed::{Bytes, Listed, Names, Text};
use std::alloc::Global;

/// The bytes of the rules of public suffixes, and of the lists.
#[derive(Drop)]
pub struct Sources {
    /// The file of the rules; without one, no bytes.
    pub suffixes: Bytes,
    /// The lists, in order.
    pub lists: Listed<Bytes>,
}

/// What `apply` reads.
#[derive(Drop)]
pub struct ApplyInputs {
    /// The page, by its address.
    pub page: Page,
    /// The rules of public suffixes and the lists.
    pub sources: Sources,
    /// The nodes of the page.
    pub tree: Dom,
    /// The script; without one, no bytes.
    pub script: Bytes,
}

/// Reads what `lists` names: the rules of public suffixes, then the lists. The first refusal decides.
pub fn read_lists<S: Shelf>(alloc: Global, words: &Lists, shelf: &mut S) -> Result<Sources, Status>
    ensures reads { ReadsAs S.tells S.files S.begun S.faults shelf.old shelf.new
        (lists_inputs words.now) result }
    ensures kinds { IfErr result IsFileError }
    ensures within { IfOk result (λ sources. sum_by length sources.lists ≤ FILE_LIMIT) }
    ensures few { IfOk result (λ sources. length sources.lists ≤ LIST_LIMIT) }
    ensures suffixes { IfOk result (λ sources. length sources.suffixes ≤ FILE_LIMIT) }
{
    if LIST_LIMIT < words.lists.len() {
        return Err(Status::Refused(InputRefusal::TooManyLists));
    }
    read_sources(alloc, &words.suffixes, &words.lists, shelf)
}

/// Reads what `apply` names: the address, the rules of public suffixes, the lists, the page, and the script. The first refusal
/// decides.
pub fn read_apply<S: Shelf, M: Maker>(
    alloc: Global,
    words: &Apply,
    shelf: &mut S,
    maker: &mut M,
) -> Result<ApplyInputs, Status>
    ensures reads { ReadsAs S.tells S.files S.begun S.faults shelf.old shelf.new
        (apply_inputs words.now) result }
    ensures kinds { IfErr result IsInputError }
    ensures within { IfOk result (λ inputs. sum_by length inputs.sources.lists ≤ FILE_LIMIT) }
    ensures few { IfOk result (λ inputs. length inputs.sources.lists ≤ LIST_LIMIT) }
    ensures suffixes { IfOk result (λ inputs. length inputs.sources.suffixes ≤ FILE_LIMIT) }
    ensures numbers { IfOk result (λ inputs. inputs.tree.next ≤ FILE_LIMIT + 1) }
    ensures script { IfOk result (λ inputs. length inputs.script ≤ FILE_LIMIT) }
    // The address is refused for size only where the maker says so, which then is the one text that it refused.
    ensures too_large { IsErrOf result (Status.Refused InputRefusal.AddressTooLarge) →
        M.large maker.new ≡ M.large maker.old ++ Address words.now.url ∷ [] }
    ensures large { OnOk result (M.large maker.new ≡ M.large maker.old) }
    ensures unread { M.unread maker.new ≡ M.unread maker.old }
{
    if LIST_LIMIT < words.lists.len() {
        return Err(Status::Refused(InputRefusal::TooManyLists));
    }
    let page = read_address(alloc, &words.url, maker)?;
    read_files(alloc, words, page, shelf)
}

// Reads the files of a page at its address: the rules of public suffixes, the lists, the page, and the script.
fn read_files<S: Shelf>(
    alloc: Global,
    words: &Apply,
    page: Page,
    shelf: &mut S,
) -> Result<ApplyInputs, Status>
    requires { length words.now.lists ≤ 32 }
    ensures reads { ReadsAs S.tells S.files S.begun S.faults shelf.old shelf.new
        (page_inputs words.now page) result }
    ensures kinds { IfErr result IsFileError }
    ensures within { IfOk result (λ inputs. sum_by length inputs.sources.lists ≤ FILE_LIMIT) }
    ensures few { IfOk result (λ inputs. length inputs.sources.lists ≤ LIST_LIMIT) }
    ensures suffixes { IfOk result (λ inputs. length inputs.sources.suffixes ≤ FILE_LIMIT) }
    ensures numbers { IfOk result (λ inputs. inputs.tree.next ≤ FILE_LIMIT + 1) }
    ensures script { IfOk result (λ inputs. length inputs.script ≤ FILE_LIMIT) }
{
    let sources = read_sources(alloc, &words.suffixes, &words.lists, shelf)?;
    let tree = read_tree(alloc, shelf, words.page.as_str())?;
    let script = files::read_optional(alloc, shelf, File::Script, &words.script)?;
    Ok(ApplyInputs {
        page,
        sources,
        tree,
        script,
    })
}

// Reads the rules of public suffixes, then the lists.
fn read_sources<S: Shelf>(
    alloc: Global,
    suffixes: &Option<Text>,
    lists: &Names,
    shelf: &mut S,
) -> Result<Sources, Status>
    requires { length lists.now ≤ 32 }
    ensures reads { ReadsAs S.tells S.files S.begun S.faults shelf.old shelf.new
        (sources_due suffixes.now lists.now) result }
    ensures kinds { IfErr result IsFileError }
    ensures within { IfOk result (λ sources. sum_by length sources.lists ≤ FILE_LIMIT) }
    ensures few { IfOk result (λ sources. length sources.lists ≤ LIST_LIMIT) }
    ensures suffixes { IfOk result (λ sources. length sources.suffixes ≤ FILE_LIMIT) }
{
    let suffixes = files::read_optional(alloc, shelf, File::Suffixes, suffixes)?;
    let lists = files::read_lists(alloc, shelf, lists)?;
    Ok(Sources { suffixes, lists })
}

// The page of an address.
fn read_address<M: Maker>(alloc: Global, address: &Text, maker: &mut M) -> Result<Page, Status>
    ensures due { IsDue result (address_by address.now) }
    ensures kinds { IfErr result IsAddressError }
    ensures too_large { IsErrOf result (Status.Refused InputRefusal.AddressTooLarge) →
        M.large maker.new ≡ M.large maker.old ++ Address address.now ∷ [] }
    ensures large { OnOk result (M.large maker.new ≡ M.large maker.old) }
    ensures unread { M.unread maker.new ≡ M.unread maker.old }
{
    if ADDRESS_LIMIT < address.as_str().len() {
        return Err(Status::Refused(InputRefusal::AddressTooLong));
    }
    match maker.address(address.as_str()) {
        Ok(url) => Ok(Page::of(alloc, &url)?),
        Err(MakeError::Unreadable) => Err(Status::Refused(InputRefusal::BadAddress)),
        Err(MakeError::TooLarge) => Err(Status::Refused(InputRefusal::AddressTooLarge)),
        Err(MakeError::NoMemory) => Err(Status::NoMemory),
    }
}
