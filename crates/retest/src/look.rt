//! A look at what chains ask for last, which spares questions.
ghost use Rattle.std.specs.Prelude.{◌≡◌, false};
ghost use Rattle.cos_patterns.specs.Found.{pattern_found};
ghost use Rattle.page_tree.specs.Directions.{is_in};
ghost use Rattle.selector_meaning.specs.Meaning.{holds, selects};
ghost use Rattle.selector_match.specs.Asked.{IsElement};
ghost use Rattle.procedural_ops.specs.Reaching.{reached};

use procedural_ops::{MatchingContext, is_shown};
use selector_match::holds_by_page;
use selector_tree::{Chain, Step, Test};

/// Whether a selector may select an element: a no is right, and a yes says nothing.
///
/// Looked at are the tests behind each chain's last step that is no test, as far as they ask for the element's own name and
/// attributes, and behind `:others()` the name too. It takes no memory and counts nothing.
pub(crate) fn may_select(context: &MatchingContext<'_, '_>, selector: &[Chain], x: u32) -> bool
    requires { IsElement context.now.dom.now x }
    ensures { result ≡ false →
        selects pattern_found context.now.dom.now context.now.path.now selector.now x ≡ false }
{
    for chain in selector {
        if may_lead(context, chain.as_slice(), x) {
            return true;
        }
    }
    false
}

// Whether steps may lead to an element.
fn may_lead(context: &MatchingContext<'_, '_>, steps: &[Step], x: u32) -> bool
    requires { IsElement context.now.dom.now x }
    ensures { result ≡ false →
        is_in (reached context.now.dom.now context.now.path.now steps.now) x ≡ false }
{
    let mut left = steps;
    'tests: while let Some((last, before)) = left.split_last() {
        match last {
            Step::Keep(test) => {
                if !may_hold(context, test, x) {
                    return false;
                }
                left = before;
            }
            Step::Others => return is_shown(context.dom, x),
            _ => return true,
        }
    }
    true
}

// Whether a test may hold for an element: those of its own name and attributes are asked.
fn may_hold(context: &MatchingContext<'_, '_>, test: &Test, x: u32) -> bool
    requires { IsElement context.now.dom.now x }
    ensures { result ≡ false →
        holds pattern_found context.now.dom.now context.now.path.now test.now x ≡ false }
{
    match test {
        Test::Tag(_) | Test::Id(_) | Test::Class(_) | Test::Attr { .. } => {
            holds_by_page(context.dom, context.path, test, x)
        }
        _ => true,
    }
}
