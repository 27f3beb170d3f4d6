// The program's one call.
ghost use Rattle.std.specs.Prelude.{◌≡◌, ◌↔◌, ◌+◌, ◌≤◌, ◌++◌, [], false, None, map, string_bytes, IsTrue, IsErrOf};
ghost use Rattle.cos_outside.specs.Causes.{Rose};
ghost use Rattle.cos_outside.specs.Runs.{AppendsPrefix};
ghost use Rattle.command_words.specs.Commands.{command_of};
ghost use Rattle.command_inputs.specs.Reads.{is_failure};
ghost use Rattle.command_meaning.specs.Output.{command_due, due, output_of, texts_due, texts_of};
ghost use Rattle.remove_rounds.specs.Costs.{questions, single_tests};
ghost use Rattle.cosmetic_top.specs.Costs.{command_cost, words_cost};
ghost use Rattle.cosmetic_top.specs.Statuses.{address_of, addresses_of, is_refusal};
ghost use Rattle.cosmetic_top.specs.Runs.{AppendsWhole, RunsAs};
ghost use Rattle.command_inputs.specs.declared.status.Status.TheVariants.{Refused};
ghost use Rattle.command_inputs.specs.declared.status.InputRefusal.TheVariants.{AddressTooLarge};

use crate::apply::apply;
use crate::drill::drill;
use crate::lists::lists;
use command_inputs::Status;
use command_words::{Command, read_command};
use cos_outside::{Shelf, Sink, Steps};
use cos_patterns::Maker;
use std::alloc::Global;
use std::sync::ledger::Ledger;

/// All that the program does. `words` are those behind the program's own name.
///
/// `apply` reads filter lists, public suffix rules, a page and a script from the shelf, and writes to the sink the notices of the
/// files, the active filters, and which elements of the page are taken out and hidden, by which filters; so again after each line
/// of the script. `lists` writes the notices and how many entries the lists have, and `drill` makes its files for a size, and
/// writes one line about them. All other words are `Usage`. The first refusal decides: the number of lists, the address, then
/// each file in its order. Nothing is written before all input is accepted.
///
/// `maker` makes the patterns of the lists and the page's address. Each question whether a filter selects an element counts as one
/// of the `checks`, and each single test that is asked for it as one of the `parts`.
pub fn run<S: Shelf, O: Sink, M: Maker, L: Ledger, P: Ledger>(
    alloc: Global,
    words: &[String],
    shelf: &mut S,
    out: &mut O,
    maker: &mut M,
    checks: &mut Steps<L>,
    parts: &mut Steps<P>,
) -> Status
    requires large { M.large maker.old ≡ [] }
    requires unread { M.unread maker.old ≡ [] }
    ensures usage { (result ≡ Status.NoMemory → ⊥) →
        (result ≡ Status.Usage) ↔ (command_of (map string_bytes words.now) ≡ None) }

    // Where the shelf tells its files, an answer that is no failure is the one that is due. So each refusal comes exactly
    // where it is due, in order, and where no count of faults rose the answer is due or NoMemory.
    ensures answer { IsTrue (S.tells shelf.old) → is_failure result ≡ false →
        result ≡ due (command_of (map string_bytes words.now)) (S.files shelf.old) }
    // The names begun are a front of those up to the first that is missing or refused.
    ensures begun { IsTrue (S.tells shelf.old) →
        AppendsPrefix (S.begun shelf.old) (S.begun shelf.new)
        (command_due (command_of (map string_bytes words.now)) (S.files shelf.old)).begun }
    ensures read_fault { result ≡ Status.ReadFault → Rose (S.faults shelf.old) (S.faults shelf.new) }
    ensures write_fault { result ≡ Status.WriteFault → Rose (O.faults out.old) (O.faults out.new) }
    // The output fails only where the command was accepted.
    ensures accepted { IsTrue (S.tells shelf.old) → result ≡ Status.WriteFault →
        due (command_of (map string_bytes words.now)) (S.files shelf.old) ≡ Status.Done }
    // An address is refused for size only where the maker said so, and of nothing else.
    ensures too_large { result ≡ Refused AddressTooLarge →
        M.large maker.new ≡ addresses_of (command_of (map string_bytes words.now)) }

    ensures output { IsTrue (S.tells shelf.old) → IsTrue (O.tells out.old) → result ≡ Status.Done →
        O.written out.new ≡ O.written out.old ++ output_of (command_of (map string_bytes words.now))
        (S.files shelf.old) (M.large maker.new) (M.unread maker.new) }
    // Whatever the answer, what was written is a prefix of that output; without memory it is whole texts: the notices of files,
    // the head, and steps. Where the command isn't accepted, nothing is written.
    ensures front { IsTrue (S.tells shelf.old) → IsTrue (O.tells out.old) →
        AppendsPrefix (O.written out.old) (O.written out.new)
        (output_of (command_of (map string_bytes words.now))
        (S.files shelf.old) (M.large maker.new) (M.unread maker.new)) }
    ensures whole { IsTrue (S.tells shelf.old) → IsTrue (O.tells out.old) → result ≡ Status.NoMemory →
        AppendsWhole (O.written out.old) (O.written out.new)
        (texts_of (command_of (map string_bytes words.now))
        (S.files shelf.old) (M.large maker.new) (M.unread maker.new)) }
    ensures silent { IsTrue (is_refusal result) → O.written out.new ≡ O.written out.old }

    // No more is asked than the events of the page and its script allow, also where the run ends early; of `lists` nothing is.
    ensures checks { IsTrue (S.tells shelf.old) →
        checks.new ≤ checks.old + words_cost questions (command_of (map string_bytes words.now))
        (S.files shelf.old) (M.large maker.new) (M.unread maker.new) }
    ensures parts { IsTrue (S.tells shelf.old) →
        parts.new ≤ parts.old + words_cost single_tests (command_of (map string_bytes words.now))
        (S.files shelf.old) (M.large maker.new) (M.unread maker.new) }
{
    match read_command(alloc, words) {
        Ok(Some(command)) => match obey(alloc, &command, shelf, out, maker, checks, parts) {
            Ok(()) => Status::Done,
            Err(status) => status,
        },
        Ok(None) => Status::Usage,
        Err(_) => Status::NoMemory,
    }
}

// Does what a command says.
fn obey<S: Shelf, O: Sink, M: Maker, L: Ledger, P: Ledger>(
    alloc: Global,
    command: &Command,
    shelf: &mut S,
    out: &mut O,
    maker: &mut M,
    checks: &mut Steps<L>,
    parts: &mut Steps<P>,
) -> Result<(), Status>
    requires large { M.large maker.old ≡ [] }
    requires unread { M.unread maker.old ≡ [] }
    ensures runs { RunsAs S.tells S.files S.begun S.faults shelf.old shelf.new
        O.tells O.written O.faults out.old out.new
        (M.large maker.new) (M.unread maker.new) (texts_due command.now) result }
    ensures too_large { IsErrOf result (Refused AddressTooLarge) →
        M.large maker.new ≡ address_of command.now }
    ensures checks { IsTrue (S.tells shelf.old) → checks.new ≤ checks.old
        + command_cost questions command.now (S.files shelf.old) (M.large maker.new) (M.unread maker.new) }
    ensures parts { IsTrue (S.tells shelf.old) → parts.new ≤ parts.old
        + command_cost single_tests command.now (S.files shelf.old) (M.large maker.new) (M.unread maker.new) }
{
    match command {
        Command::Apply(words) => apply(alloc, words, shelf, out, maker, checks, parts),
        Command::Lists(words) => lists(alloc, words, shelf, out, maker),
        Command::Drill(words) => drill(alloc, words, out, maker, checks, parts),
    }
}
