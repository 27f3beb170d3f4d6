// Notes of what a change made dirty, and marks of what went.
ghost use Rattle.std.specs.Prelude.{◌≡◌, ◌==◌, ◌&&◌, ◌||◌, not, ℕ, OnOk};
ghost use Rattle.page_tree.specs.Directions.{is_in};
ghost use Rattle.kept_marks.specs.Kept.{is_marked};
ghost use Rattle.retest.specs.Noted.{is_pending};

use crate::Pending;
use kept_marks::Marks;
use std::alloc::AllocError;

/// Notes elements for a group of filters.
pub fn note_each(pending: &mut Pending, group: u32, found: &[u32]) -> Result<(), AllocError>
    ensures { OnOk result ((g x : ℕ) →
        is_pending pending.new g x ≡
        (is_pending pending.old g x || (g == group && is_in found.now x))) }
{
    for x in found {
        pending.note(group, *x)?;
    }
    Ok(())
}

/// Notes elements for every group.
pub fn note_for_all(pending: &mut Pending, found: &[u32]) -> Result<(), AllocError>
    ensures { OnOk result ((g x : ℕ) →
        is_pending pending.new g x ≡ (is_pending pending.old g x || is_in found.now x)) }
{
    for x in found {
        pending.note_whole(*x)?;
    }
    Ok(())
}

/// Takes all pairs of some elements out of the marks. It takes no memory.
pub fn drop_all(marks: &mut Marks, gone: &[u32])
    ensures { (f x : ℕ) →
        is_marked marks.new f x ≡ (is_marked marks.old f x && not (is_in gone.now x)) }
{
    for x in gone {
        marks.drop_node(*x);
    }
}
