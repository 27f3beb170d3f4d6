// The command that reports filter lists alone.
ghost use Rattle.std.specs.Prelude.{◌≡◌, [], IsErrOf};
ghost use Rattle.command_words.specs.declared.command.Command.TheVariants.{Lists as ListsCommand};
ghost use Rattle.command_inputs.specs.declared.status.Status.TheVariants.{Refused};
ghost use Rattle.command_inputs.specs.declared.status.InputRefusal.TheVariants.{AddressTooLarge};
ghost use Rattle.command_meaning.specs.Output.{texts_due};
ghost use Rattle.cosmetic_top.specs.Runs.{RunsAs};

use crate::end::status_of;
use command_inputs::{Status, read_lists};
use command_words::Lists;
use cos_outside::{Shelf, Sink};
use cos_patterns::Maker;
use list_files::{read_sources, write_lists_report};
use std::alloc::Global;

/// Reads what the words name, and writes the notices and how many entries of each kind the lists have.
pub(crate) fn lists<S: Shelf, O: Sink, M: Maker>(
    alloc: Global,
    words: &Lists,
    shelf: &mut S,
    out: &mut O,
    maker: &mut M,
) -> Result<(), Status>
    requires large { M.large maker.old ≡ [] }
    requires unread { M.unread maker.old ≡ [] }
    ensures runs { RunsAs S.tells S.files S.begun S.faults shelf.old shelf.new
        O.tells O.written O.faults out.old out.new
        (M.large maker.new) (M.unread maker.new) (texts_due (ListsCommand words.now)) result }
    ensures other { IsErrOf result (Refused AddressTooLarge) → ⊥ }
{
    let sources = read_lists(alloc, words, shelf)?;
    let read = read_sources(alloc, &words.env, &sources, maker)?;
    match write_lists_report(alloc, out, &read) {
        Ok(()) => Ok(()),
        Err(error) => Err(status_of(error)),
    }
}
