ghost use Rattle.std.specs.Prelude.{◌≡◌};

use std::alloc::AllocError;

/// A file that the words name.
#[derive(Clone, Copy, Debug, PartialEq, Eq)]
pub enum File {
    /// The rules of public suffixes.
    Suffixes,
    /// A list, by its number from 1.
    List(u32),
    /// The page.
    Page,
    /// The script.
    Script,
}

/// Why the input of a command is refused.
#[derive(Clone, Copy, Debug, PartialEq, Eq)]
pub enum InputRefusal {
    /// There are more than `LIST_LIMIT` lists.
    TooManyLists,
    /// The address has more than `ADDRESS_LIMIT` bytes.
    AddressTooLong,
    /// The text is no address.
    BadAddress,
    /// The address is refused for size.
    AddressTooLarge,
    /// The file has more than `FILE_LIMIT` bytes, or the lists up to this one have, together.
    TooLong(File),
    /// The page isn't UTF-8: the offset in the file, in bytes, at which the longest UTF-8 text ends that it begins with.
    PageNotUtf8(usize),
    /// A node of the page stands deeper than 512, before any is one too many.
    PageTooDeep,
    /// The page has more than 1,000,000 nodes.
    PageTooManyNodes,
}

/// How a run ends.
#[derive(Clone, Copy, Debug, PartialEq, Eq)]
pub enum Status {
    /// The whole output was written.
    Done,
    /// The words are no command.
    Usage,
    /// A file could not be read.
    ReadFault,
    /// The output could not be written.
    WriteFault,
    /// The input is refused, and nothing was written.
    Refused(InputRefusal),
    /// Memory ran out.
    NoMemory,
}

impl From<AllocError> for Status {
    ghost use Rattle.command_inputs.specs.declared.status.Status.TheVariants.{NoMemory};

    ghost from_gives = { λ _ status. status ≡ NoMemory };

    fn from(_: AllocError) -> Self {
        Status::NoMemory
    }
}
