ghost use Rattle.std.specs.Prelude.{◌≡◌, [], length, Err, IfOk, OnOk};
ghost use Rattle.cos_patterns.specs.Tables.{Agrees, Extends};
ghost use Rattle.selector_spelling.specs.Texts.{action_of};
ghost use Rattle.selector_parser.specs.Asked.{patterns_of, PutsEach};
ghost use Rattle.selector_parser.specs.Lasting.{Lasts};
ghost use Rattle.selector_parser.specs.Numbered.{numbered};
ghost use Rattle.selector_parser.specs.Readings.{reading, read_by, unnumbered_read, numbered_read, IsProperRead, PlaceBy};

use crate::asks::put_asks;
use crate::numbering::numbered;
use cos_patterns::{Maker, PatternTable};
use selector_spelling::{Cause, Chains, Finding, Kind};
use selector_tree::{Action, Selector};
use spelling_reader::read_spelling;
use std::alloc::{AllocError, Global};

/// What a text is read as.
#[derive(Debug, Drop)]
pub enum Read {
    /// A selector, and what is done with the elements that it selects.
    Filter(Selector, Action),
    /// A form that is set aside.
    SetAside(Kind),
    /// A text that is malformed, with the place of its first finding in bytes from the text's start.
    Malformed(Cause, usize),
}

/// Reads a selector with its action (Selectors Level 4, and the uBlock Origin wiki, "Procedural cosmetic filters").
///
/// Patterns are asked for in text order, where the text has no other finding, and up to the first that is refused. The
/// numbers in the answer are those of the table. `BadPattern` and `PatternTooLarge` come by what the maker refused, in this
/// call or before.
pub fn read_selector<M: Maker>(
    alloc: Global,
    text: &str,
    table: &mut PatternTable,
    maker: &mut M,
) -> Result<Read, AllocError>
    requires agrees { Agrees table.old (M.large maker.old) (M.unread maker.old) }
    ensures agrees { Agrees table.new (M.large maker.new) (M.unread maker.new) }
    ensures extends { Extends table.old table.new }
    // The answer is under what the maker refused, in this call or before, and stays true for what the table notes later.
    ensures lasting { IfOk result (λ read. Lasts table.new (λ large unread. unnumbered_read read ≡ read_by large unread text.now)) }
    ensures proper { IfOk result (IsProperRead table.new.patterns) }
    ensures within { IfOk result (PlaceBy (length text.now)) }
    ensures asked { OnOk result (PutsEach M.asks (patterns_of text.now) table.old maker.old table.new maker.new) }
    ensures numbers { IfOk result (λ read. read ≡ numbered_read table.new.patterns read) }
{
    let chains = match read_spelling(alloc, text)? {
        Ok(chains) => chains,
        Err(finding) => return Ok(refused(finding)),
    };
    match put_asks(table, maker, chains.notes.asks.as_slice())? {
        Some(finding) => Ok(refused(finding)),
        None => {
            let action = action_of(chains.notes.removes);
            let selector = with_numbers(alloc, table, chains)?;
            Ok(Read::Filter(selector, action))
        }
    }
}

// The chains with the numbers of their patterns. Those without a pattern aren't copied.
fn with_numbers(alloc: Global, table: &PatternTable, read: Chains) -> Result<Selector, AllocError>
    requires { read.notes.asks ≡ [] → numbered table.now.patterns read.chains ≡ read.chains }
    ensures { IfOk result (λ selector. selector ≡ numbered table.now.patterns read.chains) }
{
    if read.notes.asks.len() == 0 {
        return Ok(read.chains);
    }
    numbered(alloc, table, &read.chains)
}

// The answer for a text that is no selector.
fn refused(finding: Finding) -> Read
    ensures { result ≡ reading (Err finding) }
{
    match finding {
        Finding::SetAside(kind) => Read::SetAside(kind),
        Finding::Malformed(cause, at) => Read::Malformed(cause, at),
    }
}

// The action of a text, by whether `:remove()` stands in it.
fn action_of(removes: bool) -> Action
    ensures { result ≡ action_of removes }
{
    if removes {
        Action::Remove
    } else {
        Action::Hide
    }
}
