ghost use Rattle.std.specs.Prelude.{◌≡◌, ◌+◌, ◌*◌, ◌<◌, ◌≤◌, true, length, IfOk};
ghost use Rattle.page_tree.specs.Standings.{all};
ghost use Rattle.page_tree.specs.Directions.{is_in};
ghost use Rattle.cos_patterns.specs.Found.{pattern_found};
ghost use Rattle.selector_meaning.specs.Meaning.{selects};
ghost use Rattle.selector_match.specs.Asked.{IsElement};
ghost use Rattle.proper_filters.specs.Proper.{is_proper, are_own};
ghost use Rattle.procedural_ops.specs.Noted.{chain_tests, simple_tests};
ghost use Rattle.procedural_ops.specs.Origins.{chain_of};
ghost use Rattle.procedural_ops.specs.Others.{AreRight};
ghost use Rattle.procedural_ops.specs.Reaching.{reached, is_selected};
ghost use Rattle.procedural_ops.specs.Told.{selector_at};

use crate::context::MatchingContext;
use crate::own_others::Origin;
use crate::{own, plain};
use cos_outside::Steps;
use remembered::Members;
use selector_tree::{Active, Chain, Step};
use std::alloc::AllocError;
use std::marker::Model;
use std::sync::ledger::Ledger;

/// Whether a filter selects an element. `test` alone makes it.
#[derive(Debug, Drop)]
pub struct Verdict {
    filter: u32,
    element: u32,
    yes: bool,
}

impl Model for Verdict {
    ghost use Rattle.procedural_ops.specs.Told.{Told};

    ghost Value = { Told };

    ghost view = { λ verdict. record { filter = verdict.filter; element = verdict.element; yes = verdict.yes } };
}

impl Verdict {
    /// The filter's place among the active ones.
    pub fn filter(&self) -> u32
        ensures { result ≡ self.now.filter }
    {
        self.filter
    }

    /// The element's number.
    pub fn element(&self) -> u32
        ensures { result ≡ self.now.element }
    {
        self.element
    }

    /// Whether the filter selects the element.
    pub fn yes(&self) -> bool
        ensures { result ≡ self.now.yes }
    {
        self.yes
    }
}

/// Whether the filter at a place among the active ones selects an element.
///
/// The table has each pattern of the filter under its number, and `:others()` stands in the filter's own chains alone. Each
/// call counts as one check, and each test without selectors in it that is asked of an element as one of the `parts`, also
/// where there is no memory. Each of them, at whatever depth of the filter it stands, is asked at most once of each element.
///
/// What is found out of `:others()` for all children of a parent is remembered in `members`, for further questions about the
/// same page as it stands and the same filters: whoever asks about another state of the page begins with an empty one.
pub fn test<L: Ledger, P: Ledger>(
    context: &MatchingContext<'_, '_>,
    active: &Active,
    f: u32,
    x: u32,
    members: &mut Members,
    checks: &mut Steps<L>,
    parts: &mut Steps<P>,
) -> Result<Verdict, AllocError>
    requires filter { f < length active.now }
    requires element { IsElement context.now.dom.now x }
    requires proper { is_proper context.now.table.now.patterns (selector_at active.now f) ≡ true }
    requires right { AreRight context.now.dom.now context.now.path.now active.now members.old }
    ensures filter { IfOk result (λ verdict. verdict.filter ≡ f) }
    ensures element { IfOk result (λ verdict. verdict.element ≡ x) }
    ensures answer { IfOk result (λ verdict. verdict.yes ≡
        selects pattern_found context.now.dom.now context.now.path.now (selector_at active.now f)
        x) }
    ensures right { AreRight context.now.dom.now context.now.path.now active.now members.new }
    ensures counted { checks.new ≡ checks.old + 1 }
    ensures asked { parts.new ≤ parts.old
        + simple_tests (selector_at active.now f) * length (all context.now.dom.now) }
{
    checks.tick();
    let yes = decide(context, active, f, x, members, parts)?;
    Ok(Verdict {
        filter: f,
        element: x,
        yes,
    })
}

// Whether the filter at a place selects an element.
fn decide<P: Ledger>(
    context: &MatchingContext<'_, '_>,
    active: &Active,
    f: u32,
    x: u32,
    members: &mut Members,
    parts: &mut Steps<P>,
) -> Result<bool, AllocError>
    requires filter { f < length active.now }
    requires element { IsElement context.now.dom.now x }
    requires proper { is_proper context.now.table.now.patterns (selector_at active.now f) ≡ true }
    requires right { AreRight context.now.dom.now context.now.path.now active.now members.old }
    ensures answer { IfOk result (λ yes. yes ≡
        selects pattern_found context.now.dom.now context.now.path.now (selector_at active.now f)
        x) }
    ensures right { AreRight context.now.dom.now context.now.path.now active.now members.new }
    ensures asked { parts.new ≤ parts.old
        + simple_tests (selector_at active.now f) * length (all context.now.dom.now) }
{
    match active.at(f as usize) {
        Some(filter) => selects(
            context,
            active,
            f,
            filter.selector.as_slice(),
            x,
            members,
            parts,
        ),
        None => Ok(false),
    }
}

// Whether some chain of a filter leads from all elements to an element.
fn selects<P: Ledger>(
    context: &MatchingContext<'_, '_>,
    active: &Active,
    f: u32,
    selector: &[Chain],
    x: u32,
    members: &mut Members,
    parts: &mut Steps<P>,
) -> Result<bool, AllocError>
    requires selector { selector.now ≡ selector_at active.now f }
    requires element { IsElement context.now.dom.now x }
    requires proper { is_proper context.now.table.now.patterns selector.now ≡ true }
    requires right { AreRight context.now.dom.now context.now.path.now active.now members.old }
    ensures answer { IfOk result (λ answer. answer ≡
        is_selected context.now.dom.now context.now.path.now selector.now x) }
    ensures right { AreRight context.now.dom.now context.now.path.now active.now members.new }
    ensures asked { parts.new
        ≤ parts.old + simple_tests selector.now * length (all context.now.dom.now) }
{
    for (i, chain) in selector.iter().enumerate() {
        let origin = Origin {
            active,
            filter: f,
            chain: i,
        };
        if chain_selects(context, &origin, chain.as_slice(), x, members, parts)? {
            return Ok(true);
        }
    }
    Ok(false)
}

// Whether a chain leads from all elements to an element.
fn chain_selects<P: Ledger>(
    context: &MatchingContext<'_, '_>,
    origin: &Origin<'_>,
    steps: &[Step],
    x: u32,
    members: &mut Members,
    parts: &mut Steps<P>,
) -> Result<bool, AllocError>
    requires element { IsElement context.now.dom.now x }
    requires proper { are_own context.now.table.now.patterns steps.now ≡ true }
    requires chain { steps.now ≡ chain_of origin.now }
    requires right { AreRight context.now.dom.now context.now.path.now origin.now.active.now
        members.old }
    ensures answer { IfOk result (λ answer. answer ≡
        is_in (reached context.now.dom.now context.now.path.now steps.now) x) }
    ensures right { AreRight context.now.dom.now context.now.path.now origin.now.active.now
        members.new }
    ensures asked { parts.new
        ≤ parts.old + length (chain_tests steps.now) * length (all context.now.dom.now) }
{
    if plain::is_plain(steps) {
        plain::is_reached(context, steps, x, parts)
    } else {
        own::is_reached(context, origin, steps, x, members, parts)
    }
}
