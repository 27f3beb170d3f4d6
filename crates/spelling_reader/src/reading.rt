ghost use Rattle.std.specs.Prelude.{◌≡◌, ◌+◌, ◌<◌, ◌≤◌, ◌^◌, ◌∷◌, ◌++◌, ◌==◌, ◌&&◌, zero, true, length, Some, is_some, is_none, MatchResult, OnOk};
ghost use Rattle.std.specs.Str.{str_to_ascii_lowercase};
ghost use Rattle.selector_spelling.specs.declared.operator.Operator.{Operator as TheOperator};
ghost use Rattle.selector_spelling.specs.Bytes.{colon, is_blank};
ghost use Rattle.selector_spelling.specs.Pieces.{pseudo, pieces, by_operator, upward, without_argument_reading, pseudo_element, Piece};
ghost use Rattle.selector_spelling.specs.Texts.{place_of, argument as the_argument, selector};
ghost use Rattle.selector_lexer.specs.Splits.{length_behind, text_after};
ghost use Rattle.selector_lexer.specs.Stops.{Fails};
ghost use Rattle.spelling_reader.specs.Readings.{Reads, ReadsChains, ReadsPiece, piece_at};
ghost use Rattle.spelling_reader.specs.Chains.{compounds_read, signed_read, chain_read, lead};

use crate::operators::{
    Searched, note_action, push_degree, push_nth, push_others, push_pair, push_search, push_units,
    push_watch,
};
use crate::tables::plain_of;
use crate::tests_of::read_test;
use cos_source::trim_text;
use listed::Listed;
use selector_lexer::{
    Behind, Class, Cut, First, Stop, argument, bad, begins_name, begins_with, first_part, is_blank,
    is_number, opens, operator_of, split_behind, split_front, text_behind, trim_start,
};
use selector_spelling::{Cause, Finding, Kind, Notes, Operator, Plain, Setting};
use selector_tree::{Chain, Place, Selector, Step, Test};
use sqlite_items::Boxed;
use std::alloc::{AllocError, Global};

/// The combinator of a sign.
fn place_of(sign: u8) -> Place
    ensures { result ≡ place_of sign }
{
    if sign == b'>' {
        Place::Child
    } else if sign == b'+' {
        Place::Next
    } else if sign == b'~' {
        Place::After
    } else {
        Place::Descendant
    }
}

/// Adds the step that a chain of `:has` begins with where no sign does.
fn push_lead(in_has: bool, steps: &mut Chain) -> Result<(), AllocError>
    ensures { OnOk result (steps.new ≡ steps.old ++ lead in_has) }
{
    if in_has {
        steps.push(Step::Move(Place::Descendant))?;
    }
    Ok(())
}

/// `:name` without an argument.
fn push_plain(name: &[u8], at: usize, steps: &mut Chain, notes: &mut Notes) -> Result<(), Stop>
    ensures { let given = without_argument_reading at (str_to_ascii_lowercase name.now) in
        MatchResult result (λ _. Reads steps.old steps.new notes.old notes.new given) (λ stop. Fails stop given) }
{
    let Some(plain) = plain_of(name) else {
        return Err(bad(Cause::UnknownPseudo, at));
    };
    match plain {
        Plain::Root => steps.push(Step::Keep(Test::Root))?,
        Plain::Empty => steps.push(Step::Keep(Test::Empty))?,
        Plain::Nth { from_end, of_name } => steps.push(Step::Keep(Test::Nth {
            a: 0,
            b: 1,
            from_end,
            of_name,
        }))?,
        Plain::Only { of_name } => steps.push(Step::Keep(Test::Only { of_name }))?,
        Plain::Aside(kind) => return Err(Stop::Found(Finding::SetAside(kind))),
    }
    Ok(())
}

/// Why `::` stops a reader, from behind it on.
fn element_stop(text: &str, at: usize) -> Stop
    ensures { Fails result (pseudo_element at text.now) }
{
    if begins_name(text) {
        Stop::Found(Finding::SetAside(Kind::PseudoElement))
    } else {
        bad(Cause::BadName, at)
    }
}

/// The setting of the last compound of a part, by whether others follow.
fn setting_with(setting: Setting, last: bool) -> Setting
    ensures { result ≡ record setting { last = last } }
{
    Setting { last, ..setting }
}

/// Whether a compound is the last of its chain, by what stands behind it.
fn is_last(behind: &str, setting: Setting) -> bool
    ensures { result ≡ (length behind.now == 0 && setting.last) }
{
    behind.is_empty() && setting.last
}

/// Whether a chain of `:has` begins with a sign.
fn begins_with_sign(in_has: bool, first: &First) -> bool
    ensures { result ≡ (in_has && (is_blank first.now.text.now && is_some first.now.behind)) }
{
    in_has && is_blank(first.text.as_bytes()) && first.behind.is_some()
}

/// Reads the argument of an operator as a selector, where so many levels are left.
#[cycle(reading)]
fn read_argument(
    alloc: Global,
    levels: u32,
    in_has: bool,
    text: &str,
    at: usize,
    notes: &mut Notes,
) -> Result<Selector, Stop>
    requires { at + length text.now < 2 ^ 64 }
    ensures { let given = the_argument levels in_has at text.now in
        MatchResult result (λ chains. ReadsChains chains notes.old notes.new given) (λ stop. Fails stop given) }
{
    if levels == 0 {
        return Err(bad(Cause::TooNested, at));
    }
    read_chains(alloc, levels - 1, true, in_has, text, at, notes)
}

/// Reads the chains of a text.
#[cycle(reading)]
pub(crate) fn read_chains(
    alloc: Global,
    levels: u32,
    nested: bool,
    in_has: bool,
    text: &str,
    at: usize,
    notes: &mut Notes,
) -> Result<Selector, Stop>
    requires { at + length text.now < 2 ^ 64 }
    ensures { let given = selector (the_argument levels) nested in_has at text.now in
        MatchResult result (λ chains. ReadsChains chains notes.old notes.new given) (λ stop. Fails stop given) }
{
    let mut chains = Listed::new(alloc);
    let mut part = first_part(alloc, Cut::Comma, text)?;
    let setting = Setting {
        nested,
        several: part.behind.is_some(),
        last: true,
    };
    let mut place = at;
    'chains: loop {
        let mut steps = Listed::new(alloc);
        read_chain(
            alloc, levels, setting, in_has, part.text, place, &mut steps, notes,
        )?;
        chains.push(steps)?;
        let Some(behind) = part.behind else {
            return Ok(chains);
        };
        place += part.text.len() + 1;
        part = first_part(alloc, Cut::Comma, behind.text)?;
    }
}

/// Reads a chain.
#[cycle(reading)]
fn read_chain(
    alloc: Global,
    levels: u32,
    setting: Setting,
    in_has: bool,
    text: &str,
    at: usize,
    steps: &mut Chain,
    notes: &mut Notes,
) -> Result<(), Stop>
    requires { at + length text.now < 2 ^ 64 }
    ensures { let given = chain_read (the_argument levels) setting in_has at text.now in
        MatchResult result (λ _. Reads steps.old steps.new notes.old notes.new given) (λ stop. Fails stop given) }
{
    let first = first_part(alloc, Cut::Sign, text)?;
    let place = at + first.text.len();
    if begins_with_sign(in_has, &first) {
        return read_signed(alloc, levels, setting, first.behind, place, steps, notes);
    }
    push_lead(in_has, steps)?;
    let last = setting_with(setting, first.behind.is_none());
    read_compounds(alloc, levels, last, first.text, at, steps, notes)?;
    read_signed(alloc, levels, setting, first.behind, place, steps, notes)
}

/// Reads what stands behind the first sign of a chain, with that sign, which stands at a place.
#[cycle(reading)]
fn read_signed(
    alloc: Global,
    levels: u32,
    setting: Setting,
    behind: Option<Behind>,
    at: usize,
    steps: &mut Chain,
    notes: &mut Notes,
) -> Result<(), Stop>
    requires { at + length_behind behind < 2 ^ 64 }
    ensures { let given = signed_read (the_argument levels) setting at behind.entry in
        MatchResult result (λ _. Reads steps.old steps.new notes.old notes.new given) (λ stop. Fails stop given) }
{
    let mut next = behind;
    let mut place = at;
    'signs: while let Some(behind) = next {
        steps.push(Step::Move(place_of(behind.sign)))?;
        let first = first_part(alloc, Cut::Sign, behind.text)?;
        let last = setting_with(setting, first.behind.is_none());
        read_compounds(alloc, levels, last, first.text, place + 1, steps, notes)?;
        place += 1 + first.text.len();
        next = first.behind;
    }
    Ok(())
}

/// Reads the compounds that stand between two signs.
#[cycle(reading)]
fn read_compounds(
    alloc: Global,
    levels: u32,
    setting: Setting,
    text: &str,
    at: usize,
    steps: &mut Chain,
    notes: &mut Notes,
) -> Result<(), Stop>
    requires { at + length text.now < 2 ^ 64 }
    ensures { let given = compounds_read (the_argument levels) setting at text.now in
        MatchResult result (λ _. Reads steps.old steps.new notes.old notes.new given) (λ stop. Fails stop given) }
{
    let mut rest = trim_start(text);
    if rest.is_empty() {
        return Err(bad(Cause::EmptyPart, at + text.len()));
    }
    let end = at + text.len();
    'words: loop {
        let first = first_part(alloc, Cut::Space, rest)?;
        let behind = trim_start(text_behind(&first));
        let last = setting_with(setting, is_last(behind, setting));
        read_compound(
            alloc,
            levels,
            last,
            first.text,
            end - rest.len(),
            steps,
            notes,
        )?;
        if behind.is_empty() {
            return Ok(());
        }
        steps.push(Step::Move(Place::Descendant))?;
        rest = behind;
    }
}

/// Reads the pieces of a compound.
#[cycle(reading)]
fn read_compound(
    alloc: Global,
    levels: u32,
    setting: Setting,
    text: &str,
    at: usize,
    steps: &mut Chain,
    notes: &mut Notes,
) -> Result<(), Stop>
    requires { at + length text.now < 2 ^ 64 }
    ensures { let given = pieces (the_argument levels) setting true at zero text.now in
        MatchResult result (λ _. Reads steps.old steps.new notes.old notes.new given) (λ stop. Fails stop given) }
{
    let end = at + text.len();
    let mut rest = text;
    let mut first = true;
    'pieces: while !rest.is_empty() {
        rest = read_piece(
            alloc,
            levels,
            setting,
            first,
            rest,
            end - rest.len(),
            steps,
            notes,
        )?;
        first = false;
    }
    Ok(())
}

/// Reads the piece at the front, and gives what stands behind it.
#[cycle(reading)]
fn read_piece<'a>(
    alloc: Global,
    levels: u32,
    setting: Setting,
    first: bool,
    text: &'a str,
    at: usize,
    steps: &mut Chain,
    notes: &mut Notes,
) -> Result<&'a str, Stop>
    requires some { 0 < length text.now }
    requires room { at + length text.now < 2 ^ 64 }
    ensures { let given = piece_at (the_argument levels) setting first at text.now in
        MatchResult result (λ rest. ReadsPiece steps.old steps.new notes.old notes.new text.now rest.now given) (λ stop. Fails stop given) }
{
    if !begins_with(b':', text.as_bytes()) {
        return read_test(alloc, first, text, at, steps);
    }
    read_pseudo(
        alloc,
        levels,
        setting,
        first,
        split_behind(text, 1).1,
        at,
        steps,
        notes,
    )
}

/// Reads the piece at the front from behind its `:` on, which stands at a place, and gives what stands behind it.
#[cycle(reading)]
fn read_pseudo<'a>(
    alloc: Global,
    levels: u32,
    setting: Setting,
    first: bool,
    text: &'a str,
    at: usize,
    steps: &mut Chain,
    notes: &mut Notes,
) -> Result<&'a str, Stop>
    requires { at + 1 + length text.now < 2 ^ 64 }
    ensures { let given = pseudo (the_argument levels) setting first at text.now in
        MatchResult result (λ rest. ReadsPiece steps.old steps.new notes.old notes.new (colon ∷ text.now) rest.now given) (λ stop. Fails stop given) }
{
    if begins_with(b':', text.as_bytes()) {
        return Err(element_stop(split_behind(text, 1).1, at));
    }
    let (name, behind) = split_front(Class::Pseudo, text);
    if !begins_name(name) {
        return Err(bad(Cause::BadName, at));
    }
    if !begins_with(b'(', behind.as_bytes()) {
        push_plain(name.as_bytes(), at, steps, notes)?;
        return Ok(behind);
    }
    let inside = split_behind(behind, 1).1;
    let opened = opens(name.as_bytes(), inside.as_bytes());
    let (argument, rest) = argument(alloc, opened, inside, at)?;
    let Some(operator) = operator_of(name.as_bytes()) else {
        return Err(bad(Cause::UnknownPseudo, at));
    };
    let from = at + 2 + name.len();
    read_operator(
        alloc,
        levels,
        operator,
        setting,
        first,
        rest.is_empty(),
        at,
        argument,
        from,
        steps,
        notes,
    )?;
    Ok(rest)
}

/// Reads `:name(..)`, whose `:` and whose argument stand at two places.
#[cycle(reading)]
fn read_operator(
    alloc: Global,
    levels: u32,
    operator: Operator,
    setting: Setting,
    alone: bool,
    ends: bool,
    at: usize,
    argument: &str,
    from: usize,
    steps: &mut Chain,
    notes: &mut Notes,
) -> Result<(), Stop>
    requires { from + length argument.now < 2 ^ 64 }
    ensures { let given = by_operator (the_argument levels) setting alone ends at from argument.now (Some operator) in
        MatchResult result (λ _. Reads steps.old steps.new notes.old notes.new given) (λ stop. Fails stop given) }
{
    match operator {
        Operator::Is => {
            let chains = read_argument(alloc, levels, false, argument, from, notes)?;
            steps.push(Step::Keep(Test::Is(Boxed::new(alloc, chains)?)))?;
            Ok(())
        }
        Operator::Not => {
            let chains = read_argument(alloc, levels, false, argument, from, notes)?;
            steps.push(Step::Keep(Test::Not(Boxed::new(alloc, chains)?)))?;
            Ok(())
        }
        Operator::Has => {
            let chains = read_argument(alloc, levels, true, argument, from, notes)?;
            steps.push(Step::Keep(Test::Has(Boxed::new(alloc, chains)?)))?;
            Ok(())
        }
        Operator::Nth { from_end, of_name } => push_nth(
            alloc, from_end, of_name, at, argument, steps, notes,
        ),
        Operator::HasText => push_search(alloc, Searched::Text, at, argument, steps, notes),
        Operator::MinText => push_units(at, argument, steps, notes),
        Operator::MatchesPath => push_search(alloc, Searched::Path, at, argument, steps, notes),
        Operator::MatchesAttr => push_pair(alloc, at, argument, steps, notes),
        Operator::WatchAttr => push_watch(alloc, at, argument, steps, notes),
        Operator::Upward => read_upward(alloc, levels, at, argument, from, steps, notes),
        Operator::Others => push_others(setting, at, argument, steps, notes),
        Operator::Remove => note_action(setting, alone, ends, at, argument, steps, notes),
        Operator::Aside(kind) => Err(Stop::Found(Finding::SetAside(kind))),
    }
}

/// Reads `:upward(..)`.
#[cycle(reading)]
fn read_upward(
    alloc: Global,
    levels: u32,
    at: usize,
    argument: &str,
    from: usize,
    steps: &mut Chain,
    notes: &mut Notes,
) -> Result<(), Stop>
    requires { from + length argument.now < 2 ^ 64 }
    ensures { let given = upward (the_argument levels) at from argument.now in
        MatchResult result (λ _. Reads steps.old steps.new notes.old notes.new given) (λ stop. Fails stop given) }
{
    let trimmed = trim_text(argument);
    if is_number(trimmed.as_bytes()) {
        return push_degree(at, trimmed, steps, notes);
    }
    notes.operates = false;
    let chains = read_argument(alloc, levels, false, argument, from, notes)?;
    if notes.operates {
        return Err(bad(Cause::BadOperatorArgument, at));
    }
    notes.operates = true;
    steps.push(Step::UpwardTo(Boxed::new(alloc, chains)?))?;
    Ok(())
}
