// The tree of a page.
ghost use Rattle.std.specs.Prelude.{◌+◌, ◌≤◌, length, IfOk, IfErr};
ghost use Rattle.cos_source.specs.Mark.{without_mark};
ghost use Rattle.command_inputs.specs.Inputs.{tree_of_source, tree_of_bytes, page_due};
ghost use Rattle.command_inputs.specs.Reads.{IsDue, IsFileError, IsPageError, ReadsAs};

use crate::files::read_within;
use crate::{FILE_LIMIT, File, InputRefusal, Status};
use cos_outside::Shelf;
use cos_source::text_without_mark;
use dom_arena::Dom;
use html_tree::{PageError, read_page};
use std::alloc::Global;

/// Reads the page.
pub fn read_tree<S: Shelf>(alloc: Global, shelf: &mut S, name: &str) -> Result<Dom, Status>
    ensures reads { ReadsAs S.tells S.files S.begun S.faults shelf.old shelf.new
        (page_due name.now) result }
    ensures kinds { IfErr result IsFileError }
    ensures numbers { IfOk result (λ tree. tree.next ≤ FILE_LIMIT + 1) }
{
    let bytes = read_within(alloc, shelf, File::Page, FILE_LIMIT, name)?;
    tree_of(alloc, bytes.as_slice())
}

// The tree of a page from the bytes of its file.
fn tree_of(alloc: Global, bytes: &[u8]) -> Result<Dom, Status>
    ensures due { IsDue result (tree_of_bytes bytes.now) }
    ensures numbers { IfOk result (λ tree. tree.next ≤ length bytes.now + 1) }
    ensures kinds { IfErr result IsPageError }
{
    match str::from_utf8(bytes) {
        Ok(text) => tree_of_text(alloc, text),
        Err(error) => Err(Status::Refused(InputRefusal::PageNotUtf8(error.valid_up_to()))),
    }
}

/// The tree of a page from its text; a byte order mark at its start is skipped.
pub fn tree_of_text(alloc: Global, text: &str) -> Result<Dom, Status>
    ensures due { IsDue result (tree_of_source (without_mark text.now)) }
    ensures numbers { IfOk result (λ tree. tree.next ≤ length text.now + 1) }
    ensures kinds { IfErr result IsPageError }
{
    match read_page(alloc, text_without_mark(text)) {
        Ok(tree) => Ok(tree),
        Err(PageError::TooDeep) => Err(Status::Refused(InputRefusal::PageTooDeep)),
        Err(PageError::TooManyNodes) => Err(Status::Refused(InputRefusal::PageTooManyNodes)),
        Err(PageError::NoMemory) => Err(Status::NoMemory),
    }
}
