ghost use Rattle.std.specs.Prelude.{◌≡◌, ◌++◌, [], map, codes, if◌then◌else◌, decimal, false, OnOk, IfOk};
ghost use Rattle.std.specs.Fmt.{signed_decimal};
ghost use Rattle.selector_tree.specs.Canonical.{joined, arg_text, op_text, value_text, nth_text, only_text, offset_text, given_text, place_text, sign_text, chain_text, selector_text, text_of_step, text_of_test, action_text, canonical_text};

use crate::filter::Action;
use crate::letters::{push_body, push_flags, push_literal, push_name, push_string};
use crate::selector::{Arg, AttrOp, Chain, Place, Selector, Step, Test};
use listed::{Names, Text};
use sqlite_items::Boxed;
use std::alloc::{AllocError, Global};

/// Adds an unsigned number.
fn push_number(alloc: Global, out: &mut Text, number: u32) -> Result<(), AllocError>
    ensures { OnOk result (out.new ≡ out.old ++ decimal number) }
{
    out.push_str(format!(in alloc; "{number}")?.as_str())
}

/// Adds a number, with `-` where it is negative.
fn push_signed(alloc: Global, out: &mut Text, number: i32) -> Result<(), AllocError>
    ensures { OnOk result (out.new ≡ out.old ++ signed_decimal number) }
{
    out.push_str(format!(in alloc; "{number}")?.as_str())
}

/// Adds a number with its sign.
fn push_offset(alloc: Global, out: &mut Text, number: i32) -> Result<(), AllocError>
    ensures { OnOk result (out.new ≡ out.old ++ offset_text number) }
{
    if number >= 0 {
        out.push('+')?;
    }
    push_signed(alloc, out, number)
}

fn place_text(place: Place) -> &'static str
    ensures { result.now ≡ place_text place }
{
    match place {
        Place::Child => " > ",
        Place::Descendant => " ",
        Place::Next => " + ",
        Place::After => " ~ ",
    }
}

fn sign_text(place: Place) -> &'static str
    ensures { result.now ≡ sign_text place }
{
    match place {
        Place::Child => "> ",
        Place::Descendant => "",
        Place::Next => "+ ",
        Place::After => "~ ",
    }
}

fn op_text(op: AttrOp) -> &'static str
    ensures { result.now ≡ op_text op }
{
    match op {
        AttrOp::Exists => "",
        AttrOp::Equals => "=",
        AttrOp::Word => "~=",
        AttrOp::Dash => "|=",
        AttrOp::Prefix => "^=",
        AttrOp::Suffix => "$=",
        AttrOp::Part => "*=",
    }
}

fn nth_text(from_end: bool, of_name: bool) -> &'static str
    ensures { result.now ≡ nth_text from_end of_name }
{
    match (from_end, of_name) {
        (false, false) => ":nth-child(",
        (true, false) => ":nth-last-child(",
        (false, true) => ":nth-of-type(",
        (true, true) => ":nth-last-of-type(",
    }
}

fn only_text(of_name: bool) -> &'static str
    ensures { result.now ≡ only_text of_name }
{
    if of_name {
        ":only-of-type"
    } else {
        ":only-child"
    }
}

/// Adds what stands behind the name of an attribute.
fn push_value(out: &mut Text, op: AttrOp, value: &str, ignore_case: bool) -> Result<(), AllocError>
    ensures { OnOk result (out.new ≡ out.old ++ value_text op value.now ignore_case) }
{
    if op == AttrOp::Exists {
        return Ok(());
    }
    out.push_str(op_text(op))?;
    push_string(out, value)?;
    out.push_str(if ignore_case { " i" } else { "" })
}

/// Adds an argument.
fn push_arg(out: &mut Text, arg: &Arg) -> Result<(), AllocError>
    ensures { OnOk result (out.new ≡ out.old ++ arg_text arg.now) }
{
    match arg {
        Arg::Literal(text) => push_literal(out, text.as_str()),
        Arg::Pattern { body, flags, .. } => {
            out.push_str("/")?;
            push_body(out, body.as_str())?;
            out.push_str("/")?;
            push_flags(out, *flags)
        }
    }
}

/// Adds the value that is asked for behind `=`, if there is one.
fn push_given(out: &mut Text, value: &Option<Arg>) -> Result<(), AllocError>
    ensures { OnOk result (out.new ≡ out.old ++ given_text value.now) }
{
    match value {
        None => Ok(()),
        Some(arg) => {
            out.push_str("=")?;
            push_arg(out, arg)
        }
    }
}

/// Adds `, ` behind something.
fn push_comma(out: &mut Text, behind: bool) -> Result<(), AllocError>
    ensures { OnOk result (out.new ≡ out.old ++ (if behind then codes ", " else [])) }
{
    out.push_str(if behind { ", " } else { "" })
}

/// Adds names with `, ` between them.
fn push_names(out: &mut Text, names: &Names) -> Result<(), AllocError>
    ensures { OnOk result (out.new ≡ out.old ++ joined names.now) }
{
    let mut behind = false;
    for name in names.as_slice() {
        push_comma(out, behind)?;
        out.push_str(name.as_str())?;
        behind = true;
    }
    Ok(())
}

/// Adds an operator with an argument in its brackets.
fn push_searching(out: &mut Text, front: &str, arg: &Arg) -> Result<(), AllocError>
    ensures { OnOk result (out.new ≡ out.old ++ (front.now ++ arg_text arg.now ++ codes ")")) }
{
    out.push_str(front)?;
    push_arg(out, arg)?;
    out.push_str(")")
}

/// Adds the operator that asks for an attribute.
fn push_matches_attr(out: &mut Text, name: &Arg, value: &Option<Arg>) -> Result<(), AllocError>
    ensures { OnOk result (out.new ≡ out.old ++ (codes ":matches-attr(" ++ arg_text name.now ++ given_text value.now ++ codes ")")) }
{
    out.push_str(":matches-attr(")?;
    push_arg(out, name)?;
    push_given(out, value)?;
    out.push_str(")")
}

/// Adds an operator with names in its brackets.
fn push_listing(out: &mut Text, front: &str, names: &Names) -> Result<(), AllocError>
    ensures { OnOk result (out.new ≡ out.old ++ (front.now ++ joined names.now ++ codes ")")) }
{
    out.push_str(front)?;
    push_names(out, names)?;
    out.push_str(")")
}

/// Adds an operator with a number in its brackets.
fn push_counting(alloc: Global, out: &mut Text, front: &str, number: u32) -> Result<(), AllocError>
    ensures { OnOk result (out.new ≡ out.old ++ (front.now ++ decimal number ++ codes ")")) }
{
    out.push_str(front)?;
    push_number(alloc, out, number)?;
    out.push_str(")")
}

/// Adds the chains of a selector with `, ` between them; in `:has` their first steps lead.
#[cycle(print)]
fn push_selector(
    alloc: Global,
    out: &mut Text,
    selector: &Selector,
    leads: bool,
) -> Result<(), AllocError>
    ensures { OnOk result (out.new ≡ out.old ++ selector_text leads (map (map text_of_step) selector.now)) }
{
    let mut behind = false;
    for chain in selector.as_slice() {
        push_comma(out, behind)?;
        push_chain(alloc, out, chain, leads)?;
        behind = true;
    }
    Ok(())
}

/// Adds the steps of a chain; the first one may lead.
#[cycle(print)]
fn push_chain(alloc: Global, out: &mut Text, chain: &Chain, leads: bool) -> Result<(), AllocError>
    ensures { OnOk result (out.new ≡ out.old ++ chain_text leads (map text_of_step chain.now)) }
{
    let mut first = leads;
    for step in chain.as_slice() {
        push_step(alloc, out, step, first)?;
        first = false;
    }
    Ok(())
}

#[cycle(print)]
fn push_step(alloc: Global, out: &mut Text, step: &Step, leads: bool) -> Result<(), AllocError>
    ensures { OnOk result (out.new ≡ out.old ++ text_of_step step.now leads) }
{
    match step {
        Step::Keep(test) => push_test(alloc, out, test),
        Step::Move(place) => out.push_str(if leads {
            sign_text(*place)
        } else {
            place_text(*place)
        }),
        Step::Upward(degree) => push_counting(alloc, out, ":upward(", u32::from(*degree)),
        Step::UpwardTo(selector) => push_called(alloc, out, ":upward(", selector, false),
        Step::Others => out.push_str(":others()"),
    }
}

/// Adds a pseudo-class with a selector in its brackets.
#[cycle(print)]
fn push_called(
    alloc: Global,
    out: &mut Text,
    front: &str,
    selector: &Boxed<Selector>,
    leads: bool,
) -> Result<(), AllocError>
    ensures { OnOk result (out.new ≡ out.old ++ (front.now ++ selector_text leads (map (map text_of_step) selector.now) ++ codes ")")) }
{
    out.push_str(front)?;
    push_selector(alloc, out, selector.get(), leads)?;
    out.push_str(")")
}

#[cycle(print)]
fn push_test(alloc: Global, out: &mut Text, test: &Test) -> Result<(), AllocError>
    ensures { OnOk result (out.new ≡ out.old ++ text_of_test test.now) }
{
    match test {
        Test::Any => out.push_str("*"),
        Test::Tag(name) => push_name(out, name.as_str()),
        Test::Id(id) => {
            out.push_str("#")?;
            push_name(out, id.as_str())
        }
        Test::Class(class) => {
            out.push_str(".")?;
            push_name(out, class.as_str())
        }
        Test::Attr {
            name,
            op,
            value,
            ignore_case,
        } => {
            out.push_str("[")?;
            push_name(out, name.as_str())?;
            push_value(out, *op, value.as_str(), *ignore_case)?;
            out.push_str("]")
        }
        Test::Root => out.push_str(":root"),
        Test::Empty => out.push_str(":empty"),
        Test::Nth {
            a,
            b,
            from_end,
            of_name,
        } => {
            out.push_str(nth_text(*from_end, *of_name))?;
            push_signed(alloc, out, *a)?;
            out.push_str("n")?;
            push_offset(alloc, out, *b)?;
            out.push_str(")")
        }
        Test::Only { of_name } => out.push_str(only_text(*of_name)),
        Test::Is(selector) => push_called(alloc, out, ":is(", selector, false),
        Test::Not(selector) => push_called(alloc, out, ":not(", selector, false),
        Test::Has(selector) => push_called(alloc, out, ":has(", selector, true),
        Test::HasText(arg) => push_searching(out, ":has-text(", arg),
        Test::MinText(units) => push_counting(alloc, out, ":min-text-length(", *units),
        Test::MatchesPath(arg) => push_searching(out, ":matches-path(", arg),
        Test::MatchesAttr { name, value } => push_matches_attr(out, name, value),
        Test::WatchAttr(names) => push_listing(out, ":watch-attr(", names),
    }
}

/// The one text of a selector with its action. Two filters with equal texts select the same elements.
pub fn canonical(alloc: Global, selector: &Selector, action: &Action) -> Result<Text, AllocError>
    ensures { IfOk result (λ text. text ≡ canonical_text selector.now action.now) }
{
    let mut out = Text::new(alloc);
    push_selector(alloc, &mut out, selector, false)?;
    if *action == Action::Remove {
        out.push_str(":remove()")?;
    }
    Ok(out)
}
