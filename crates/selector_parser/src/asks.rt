// The patterns of a text, put into a table in text order.
ghost use Rattle.std.specs.Prelude.{◌≡◌, ◌+◌, ◌<◌, nat_lt, length, Option, None, true, IfOk, OnOk};
ghost use Rattle.std.specs.List.{All};
ghost use Rattle.std.specs.Option.{is_none, option_or};
ghost use Rattle.cos_patterns.specs.Tables.{Agrees, Extends};
ghost use Rattle.cos_patterns.specs.Written.{written, is_in};
ghost use Rattle.selector_spelling.specs.declared.finding.Finding.{Finding};
ghost use Rattle.selector_spelling.specs.Texts.{by_answer, first_refused};
ghost use Rattle.selector_parser.specs.Answers.{answer_by};
ghost use Rattle.selector_parser.specs.Asked.{Puts, PutsEach};
ghost use Rattle.selector_parser.specs.Lasting.{Lasts};

use cos_patterns::{Maker, PatternError, PatternTable};
use selector_spelling::{Ask, Cause, Finding};
use std::alloc::AllocError;

// Puts patterns, up to the first that is refused, and gives its finding.
pub(crate) fn put_asks<M: Maker>(
    table: &mut PatternTable,
    maker: &mut M,
    asks: &[Ask],
) -> Result<Option<Finding>, AllocError>
    requires flags { All (λ ask. ask.flags < 8) asks.now }
    requires agrees { Agrees table.old (M.large maker.old) (M.unread maker.old) }
    ensures agrees { Agrees table.new (M.large maker.new) (M.unread maker.new) }
    ensures extends { Extends table.old table.new }
    ensures answer { IfOk result (λ refusal. Lasts table.new (λ large unread. refusal ≡ first_refused (answer_by large unread) asks.now)) }
    ensures held { IfOk result (λ refusal. refusal ≡ None →
        All (λ ask. is_in (written ask.body ask.flags) table.new.patterns ≡ true) asks.now) }
    ensures asked { OnOk result (PutsEach M.asks asks.now table.old maker.old table.new maker.new) }
{
    for ask in asks {
        if let Some(refusal) = put_ask(table, maker, ask)? {
            return Ok(Some(refusal));
        }
    }
    Ok(None)
}

// Puts one pattern, and gives its finding where it is refused.
fn put_ask<M: Maker>(
    table: &mut PatternTable,
    maker: &mut M,
    ask: &Ask,
) -> Result<Option<Finding>, AllocError>
    requires flags { ask.now.flags < 8 }
    requires agrees { Agrees table.old (M.large maker.old) (M.unread maker.old) }
    ensures agrees { Agrees table.new (M.large maker.new) (M.unread maker.new) }
    ensures extends { Extends table.old table.new }
    ensures answer { IfOk result (λ refusal. Lasts table.new (λ large unread. (others : Option Finding) →
        by_answer (answer_by large unread ask.now.body ask.now.flags) ask.now.at others ≡ option_or refusal others)) }
    ensures held { IfOk result (λ refusal. is_in (written ask.now.body ask.now.flags) table.new.patterns ≡ is_none refusal) }
    ensures asked { OnOk result (Puts M.asks (written ask.now.body ask.now.flags) table.old maker.old table.new maker.new) }
{
    if !has_room(table, ask.body.as_str()) {
        return Err(AllocError);
    }
    match table.put(maker, ask.body.as_str(), ask.flags) {
        Ok(_) => Ok(None),
        Err(PatternError::BadPattern) => Ok(Some(Finding::Malformed(Cause::BadPattern, ask.at))),
        Err(PatternError::PatternTooLarge) => {
            Ok(Some(Finding::Malformed(Cause::PatternTooLarge, ask.at)))
        }
        Err(PatternError::NoMemory) => Err(AllocError),
    }
}

// Whether a number is left for a pattern of this text. Only a table of about four billion patterns has none.
fn has_room(table: &PatternTable, text: &str) -> bool
    ensures { result ≡ nat_lt (length table.now.patterns + length text.now) 4294967295 }
{
    let most = u32::MAX as usize;
    text.len() < most && table.len() < most - text.len()
}
