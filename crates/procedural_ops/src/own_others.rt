//! `:others()` in a filter's own chain, where what was found out for all children of a parent is remembered.
ghost use Rattle.std.specs.Prelude.{◌≡◌, ◌≤◌, ◌+◌, ◌*◌, true, length, take, IfOk};
ghost use Rattle.page_tree.specs.Standings.{all};
ghost use Rattle.selector_meaning.specs.Meaning.{is_other, parent};
ghost use Rattle.selector_match.specs.Asked.{IsElement};
ghost use Rattle.proper_filters.specs.Proper.{are_own};
ghost use Rattle.procedural_ops.specs.Noted.{chain_tests};
ghost use Rattle.procedural_ops.specs.Origins.{chain_of};
ghost use Rattle.procedural_ops.specs.Others.{AreRight};
ghost use Rattle.procedural_ops.specs.Reaching.{reached};

use crate::context::MatchingContext;
use crate::count::behind;
use crate::inquiry::Inquiry;
use crate::places::is_shown;
use crate::search::{reaches_above, reaches_below, reaches_below_parent};
use cos_outside::Steps;
use dom_arena::Dom;
use remembered::{Front, Members, Noted};
use selector_match::parent;
use selector_tree::{Active, Step};
use std::alloc::AllocError;
use std::sync::ledger::Ledger;

/// A chain of an active filter, by their places.
#[derive(Clone, Copy)]
pub(crate) struct Origin<'a> {
    pub(crate) active: &'a Active,
    pub(crate) filter: u32,
    pub(crate) chain: usize,
}

/// Whether `:others()` leads to an element from those to which the steps before it lead: they lead neither to it nor to what is
/// above or below it, but to something that stands below its parent. The last is the same for all children of a parent, and
/// so it is found out once.
pub(crate) fn is_other_of_front<P: Ledger>(
    context: &MatchingContext<'_, '_>,
    origin: &Origin<'_>,
    steps: &[Step],
    x: u32,
    members: &mut Members,
    parts: &mut Steps<P>,
) -> Result<bool, AllocError>
    requires element { IsElement context.now.dom.now x }
    requires proper { are_own context.now.table.now.patterns steps.now ≡ true }
    requires front { steps.now ≡ take (length steps.now) (chain_of origin.now) }
    requires right { AreRight context.now.dom.now context.now.path.now origin.now.active.now
        members.old }
    ensures answer { IfOk result (λ answer. answer ≡
        is_other context.now.dom.now (reached context.now.dom.now context.now.path.now steps.now)
        x) }
    ensures right { AreRight context.now.dom.now context.now.path.now origin.now.active.now
        members.new }
    ensures asked { parts.new
        ≤ parts.old + length (chain_tests steps.now) * length (all context.now.dom.now) }
{
    context.dom.is_tree();
    if !is_shown(context.dom, x) {
        return Ok(false);
    }
    let inquiry = Inquiry {
        context: *context,
        chain: steps,
    };
    let mut notes = Noted::new(context.alloc, behind(0, steps)?)?;
    if reaches_above(&inquiry, steps, x, 0, &mut notes, parts)? {
        return Ok(false);
    }
    if reaches_below(&inquiry, steps, x, 0, &mut notes, parts)? {
        return Ok(false);
    }
    let front = Front {
        filter: origin.filter,
        chain: origin.chain,
        steps: steps.len(),
        parent: parent_or_document(context.dom, x),
    };
    if let Some(known) = members.answer(front) {
        return Ok(known);
    }
    let found = reaches_below_parent(&inquiry, steps, x, 0, &mut notes, parts)?;
    members.put(front, found)?;
    Ok(found)
}

// The parent of an element, or the document.
fn parent_or_document(dom: &Dom, x: u32) -> u32
    requires { IsElement dom.now x }
    ensures { result ≡ parent dom.now x }
{
    match parent(dom, x) {
        Some(above) => above,
        None => 0,
    }
}
