// Asking again what is pending.
ghost use Rattle.std.specs.Prelude.{◌≡◌, ◌==◌, ◌+◌, ◌≤◌, ◌<◌, ◌&&◌, ◌||◌, not, nat_eq, cond, ℕ, true, false, length, IfOk, OnOk, slice_get, unwrap_or};
ghost use Rattle.std.specs.List.{list_any};
ghost use Rattle.page_tree.specs.Standings.{all};
ghost use Rattle.page_tree.specs.Directions.{is_in};
ghost use Rattle.selector_match.specs.Asked.{IsElement};
ghost use Rattle.generic_tables.specs.Carried.{key_in};
ghost use Rattle.generic_tables.specs.FilterTables.{has_key, IsTableOf};
ghost use Rattle.kept_marks.specs.Kept.{is_marked, Sets, IsSame};
ghost use Rattle.retest_laws.specs.Pending.{asked_again, due_at, budget, IsRightBut, IsExact};
ghost use Rattle.retest.specs.Asked.{answers, carried, group_in, pends, IsReady, AreRightFor};
ghost use Rattle.retest.specs.Priced.{price, IsPriced};

use crate::look::may_select;
use crate::{Everything, Pending, Pends};
use cos_outside::Steps;
use generic_tables::{FilterTable, KeyRef, keys_at};
use indexmap::IndexSet;
use kept_marks::Marks;
use listed::Numbers;
use procedural_ops::{MatchingContext, test};
use remembered::Members;
use selector_match::{is_element, next_element};
use selector_tree::Active;
use std::alloc::{AllocError, Global};
use std::sync::ledger::Ledger;

/// A page, and the filters that are asked of its elements: in order, by the keys of their chains, and the group of each.
#[derive(Clone, Copy)]
pub struct Asking<'a, 'p> {
    pub context: MatchingContext<'a, 'p>,
    pub active: &'a Active,
    pub keyed: &'a FilterTable,
    pub groups: &'a [u32],
}

// The group of a filter; 0 past the last.
fn group_of(groups: &[u32], f: u32) -> u32
    ensures { result ≡ group_in groups.now f }
{
    match groups.get(f as usize) {
        Some(group) => *group,
        None => 0,
    }
}

// Whether a filter may select an element: a no is right.
fn may_answer(asking: &Asking<'_, '_>, f: u32, x: u32) -> bool
    requires { IsElement asking.now.context.dom.now x }
    ensures { result ≡ false → answers asking.now f x ≡ false }
{
    match asking.active.at(f as usize) {
        Some(filter) => may_select(&asking.context, filter.selector.as_slice(), x),
        None => false,
    }
}

// Whether to ask a filter under a key of an element: its group must be pending there. Every element has the key of nothing, so
// a filter under that key is looked at before.
fn is_due<W: Pends>(asking: &Asking<'_, '_>, key: KeyRef<'_>, f: u32, pending: &W, x: u32) -> bool
    requires { IsElement asking.now.context.dom.now x }
    ensures within { result ≡ true →
        W.pends pending.now (group_in asking.now.groups.now f) x ≡ true }
    ensures spared { result ≡ false →
        (W.pends pending.now (group_in asking.now.groups.now f) x
        && answers asking.now f x) ≡ false }
{
    if !pending.has(group_of(asking.groups, f), x) {
        return false;
    }
    match key {
        KeyRef::None => may_answer(asking, f, x),
        _ => true,
    }
}

// Adds the filters under a key of an element that are to be asked of it: none that isn't pending there, and each that is and
// selects it.
fn add_due<W: Pends>(
    asking: &Asking<'_, '_>,
    due: &mut IndexSet<u32>,
    key: KeyRef<'_>,
    pending: &W,
    x: u32,
) -> Result<(), AllocError>
    requires table { IsTableOf asking.now.active.now asking.now.keyed.now }
    requires element { IsElement asking.now.context.dom.now x }
    ensures within { OnOk result ((f : ℕ) → list_any (nat_eq f) due.new.keys ≡ true →
        (list_any (nat_eq f) due.old.keys || (has_key asking.now.active.now (key_in key.entry) f
        && W.pends pending.now (group_in asking.now.groups.now f) x)) ≡ true) }
    ensures enough { OnOk result ((f : ℕ) →
        (list_any (nat_eq f) due.old.keys || (has_key asking.now.active.now (key_in key.entry) f
        && (W.pends pending.now (group_in asking.now.groups.now f) x
        && answers asking.now f x))) ≡ true →
        list_any (nat_eq f) due.new.keys ≡ true) }
{
    let mut filters = asking.keyed.filters_for(asking.active, key);
    'filters: while let Some(f) = filters.next() {
        if is_due(asking, key, f, pending, x) {
            due.insert(f)?;
        }
    }
    Ok(())
}

// The filters to ask at an element, each once. It carries a key of each of them, and their groups are pending there; those that
// are pending there and select it are among them.
fn due_of<W: Pends>(
    asking: &Asking<'_, '_>,
    pending: &W,
    x: u32,
) -> Result<IndexSet<u32>, AllocError>
    requires ready { IsReady asking.now }
    requires element { IsElement asking.now.context.dom.now x }
    ensures within { IfOk result (λ due. (f : ℕ) → list_any (nat_eq f) due.keys ≡ true →
        (carried asking.now f x
        && W.pends pending.now (group_in asking.now.groups.now f) x) ≡ true) }
    ensures enough { IfOk result (λ due. (f : ℕ) →
        (W.pends pending.now (group_in asking.now.groups.now f) x
        && answers asking.now f x) ≡ true →
        list_any (nat_eq f) due.keys ≡ true) }
{
    let mut due = IndexSet::new(asking.context.alloc);
    let mut keys = keys_at(asking.context.dom, x);
    'keys: while let Some(key) = keys.next() {
        add_due(asking, &mut due, key, pending, x)?;
    }
    Ok(due)
}

// The filters that are marked at an element and pending there.
fn stale_of<W: Pends>(
    alloc: Global,
    groups: &[u32],
    pending: &W,
    marked: &[u32],
    x: u32,
) -> Result<Numbers, AllocError>
    ensures { IfOk result (λ stale. (f : ℕ) → is_in stale f ≡
        (is_in marked.now f && W.pends pending.now (group_in groups.now f) x)) }
{
    let mut stale = Numbers::new(alloc);
    for f in marked {
        if pending.has(group_of(groups, *f), x) {
            stale.push(*f)?;
        }
    }
    Ok(stale)
}

// Takes the pairs of some filters and an element out.
fn clear_all(marks: &mut Marks, stale: &[u32], x: u32)
    ensures { (g y : ℕ) → is_marked marks.new g y ≡
        (is_marked marks.old g y && not (y == x && is_in stale.now g)) }
{
    for f in stale {
        marks.clear(*f, x);
    }
}

// Asks a filter of an element, and marks the answer.
fn ask<L: Ledger, P: Ledger>(
    asking: &Asking<'_, '_>,
    f: u32,
    x: u32,
    members: &mut Members,
    marks: &mut Marks,
    checks: &mut Steps<L>,
    parts: &mut Steps<P>,
) -> Result<(), AllocError>
    requires ready { IsReady asking.now }
    requires right { AreRightFor asking.now members.old }
    requires element { IsElement asking.now.context.dom.now x }
    requires filter { f < length asking.now.active.now }
    ensures marks { OnOk result (Sets marks.old marks.new f x (answers asking.now f x)) }
    ensures right { AreRightFor asking.now members.new }
    ensures checks { checks.new ≡ checks.old + 1 }
    ensures parts { IsPriced (price asking.now.active.now asking.now.context.dom.now)
        checks.old checks.new parts.old parts.new }
{
    let verdict = test(&asking.context, asking.active, f, x, members, checks, parts)?;
    marks.put(verdict)
}

// Asks some filters of an element, and marks the answers.
fn ask_all<L: Ledger, P: Ledger>(
    asking: &Asking<'_, '_>,
    due: &[u32],
    x: u32,
    members: &mut Members,
    marks: &mut Marks,
    checks: &mut Steps<L>,
    parts: &mut Steps<P>,
) -> Result<(), AllocError>
    requires ready { IsReady asking.now }
    requires right { AreRightFor asking.now members.old }
    requires element { IsElement asking.now.context.dom.now x }
    requires filters { (f : ℕ) → is_in due.now f ≡ true → f < length asking.now.active.now }
    ensures marks { OnOk result ((g y : ℕ) → is_marked marks.new g y ≡
        cond (y == x && is_in due.now g) (answers asking.now g y) (is_marked marks.old g y)) }
    ensures right { AreRightFor asking.now members.new }
    ensures checks { checks.new ≤ checks.old + length due.now }
    ensures parts { IsPriced (price asking.now.active.now asking.now.context.dom.now)
        checks.old checks.new parts.old parts.new }
{
    for f in due {
        ask(asking, *f, x, members, marks, checks, parts)?;
    }
    Ok(())
}

// Asks again what is pending at an element, and answers whether its marks are others than before.
fn ask_at<W: Pends, L: Ledger, P: Ledger>(
    asking: &Asking<'_, '_>,
    pending: &W,
    x: u32,
    members: &mut Members,
    marks: &mut Marks,
    checks: &mut Steps<L>,
    parts: &mut Steps<P>,
) -> Result<bool, AllocError>
    requires ready { IsReady asking.now }
    requires right { AreRightFor asking.now members.old }
    requires element { IsElement asking.now.context.dom.now x }
    ensures marks { OnOk result ((g y : ℕ) → is_marked marks.new g y ≡
        cond (y == x && W.pends pending.now (group_in asking.now.groups.now g) y)
        (carried asking.now g y && answers asking.now g y) (is_marked marks.old g y)) }
    ensures right { AreRightFor asking.now members.new }
    ensures checks { checks.new ≤ checks.old +
        due_at (length asking.now.active.now) (carried asking.now) (λ f y. W.pends pending.now (group_in asking.now.groups.now f) y) x }
    ensures parts { IsPriced (price asking.now.active.now asking.now.context.dom.now)
        checks.old checks.new parts.old parts.new }
    ensures same { IfOk result (λ changed. changed ≡ false → IsSame marks.old marks.new) }
{
    let alloc = asking.context.alloc;
    let due = due_of(asking, pending, x)?;
    let stale = stale_of(alloc, asking.groups, pending, marks.of(x), x)?;
    let before = copied(alloc, marks.of(x))?;
    clear_all(marks, stale.as_slice(), x);
    ask_all(asking, due.as_slice(), x, members, marks, checks, parts)?;
    Ok(differ(before.as_slice(), marks.of(x)))
}

// A copy of some numbers.
fn copied(alloc: Global, from: &[u32]) -> Result<Numbers, AllocError>
    ensures { IfOk result (λ copy. copy ≡ from.now) }
{
    let mut copy = Numbers::new(alloc);
    copy.extend(from)?;
    Ok(copy)
}

// Whether two lists of numbers differ.
fn differ(a: &[u32], b: &[u32]) -> bool
    ensures { result ≡ false → a.now ≡ b.now }
{
    a != b
}

fn either(a: bool, b: bool) -> bool
    ensures { result ≡ (a || b) }
{
    a || b
}

// Asks again what is pending, at the elements that the page still has, and answers whether a mark is another one than before.
fn ask_pending<L: Ledger, P: Ledger>(
    asking: &Asking<'_, '_>,
    pending: &Pending,
    members: &mut Members,
    marks: &mut Marks,
    checks: &mut Steps<L>,
    parts: &mut Steps<P>,
) -> Result<bool, AllocError>
    requires ready { IsReady asking.now }
    requires right { AreRightFor asking.now members.old }
    ensures marks { OnOk result ((f x : ℕ) → is_marked marks.new f x ≡
        asked_again (all asking.now.context.dom.now) (answers asking.now) (carried asking.now)
        (pends asking.now pending.now) (is_marked marks.old) f x) }
    ensures right { AreRightFor asking.now members.new }
    ensures checks { checks.new ≤ checks.old +
        budget (length asking.now.active.now) (all asking.now.context.dom.now) (carried asking.now) (pends asking.now pending.now) }
    ensures parts { IsPriced (price asking.now.active.now asking.now.context.dom.now)
        checks.old checks.new parts.old parts.new }
    ensures same { IfOk result (λ changed. changed ≡ false → IsSame marks.old marks.new) }
{
    let mut changed = false;
    for x in pending.elements() {
        if is_element(asking.context.dom, *x) {
            let one = ask_at(asking, pending, *x, members, marks, checks, parts)?;
            changed = either(changed, one);
        }
    }
    Ok(changed)
}

/// Asks again what is pending, at the elements that the page still has, each pair of a filter and an element once.
///
/// Where the marks were right but for what is pending, they are exact afterwards. Elements that the page has no more must
/// have left the marks before. The answer is whether a mark is another one than before.
pub fn retest<L: Ledger, P: Ledger>(
    asking: &Asking<'_, '_>,
    pending: &Pending,
    marks: &mut Marks,
    checks: &mut Steps<L>,
    parts: &mut Steps<P>,
) -> Result<bool, AllocError>
    requires { IsReady asking.now }
    ensures marks { OnOk result ((f x : ℕ) → is_marked marks.new f x ≡
        asked_again (all asking.now.context.dom.now) (answers asking.now) (carried asking.now)
        (pends asking.now pending.now) (is_marked marks.old) f x) }
    ensures exact { IsRightBut (all asking.now.context.dom.now) (answers asking.now) (is_marked marks.old)
        (pends asking.now pending.now) →
        OnOk result (IsExact (all asking.now.context.dom.now) (answers asking.now) (is_marked marks.new)) }
    ensures checks { checks.new ≤ checks.old +
        budget (length asking.now.active.now) (all asking.now.context.dom.now) (carried asking.now) (pends asking.now pending.now) }
    ensures parts { IsPriced (price asking.now.active.now asking.now.context.dom.now)
        checks.old checks.new parts.old parts.new }
    ensures same { IfOk result (λ changed. changed ≡ false → IsSame marks.old marks.new) }
{
    let mut members = Members::new(asking.context.alloc);
    ask_pending(asking, pending, &mut members, marks, checks, parts)
}

/// The marks of a page: each filter is asked of the elements that carry a key of it, of each once at most.
pub fn start<L: Ledger, P: Ledger>(
    asking: &Asking<'_, '_>,
    checks: &mut Steps<L>,
    parts: &mut Steps<P>,
) -> Result<Marks, AllocError>
    requires { IsReady asking.now }
    ensures exact { IfOk result (λ marks.
        IsExact (all asking.now.context.dom.now) (answers asking.now) (is_marked marks)) }
    ensures checks { checks.new ≤ checks.old +
        budget (length asking.now.active.now) (all asking.now.context.dom.now) (carried asking.now) (λ f x. true) }
    ensures parts { IsPriced (price asking.now.active.now asking.now.context.dom.now)
        checks.old checks.new parts.old parts.new }
{
    asking.context.dom.is_tree();
    let mut members = Members::new(asking.context.alloc);
    let mut marks = Marks::new(asking.context.alloc);
    let mut at = next_element(asking.context.dom, 0);
    'elements: while let Some(x) = at {
        ask_at(
            asking,
            &Everything,
            x,
            &mut members,
            &mut marks,
            checks,
            parts,
        )?;
        at = next_element(asking.context.dom, x);
    }
    Ok(marks)
}
