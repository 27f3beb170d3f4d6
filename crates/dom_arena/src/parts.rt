//! Nodes taken out with all that is below them, and what is to be known before one is moved.
ghost use Rattle.std.specs.Prelude.{◌≡◌, ◌+◌, max, length};
ghost use Rattle.page_tree.specs.Edits.{without};
ghost use Rattle.page_tree.specs.Forest.{size, height};
ghost use Rattle.dom_arena.specs.Linked.{Stands, tree_of};
ghost use Rattle.dom_arena.specs.Parts.{part_from, HoldPart, AreCleared};
ghost use Rattle.dom_arena.specs.Slots.{IsUsed, past};

use crate::places::{link_from_after, link_from_before};
use crate::table::Table;

// Makes the siblings beside a node, or its parent, lead past it. Its own slot stays as it is.
pub(crate) fn unlink(table: &mut Table, n: u32)
    requires stands { Stands table.old.0 (tree_of table.old.0).nodes }
    requires used { IsUsed table.old.0 n }
    requires below { n ≡ 0 → ⊥ }
    ensures slots { table.new.0 ≡ past n table.old.0 }
    ensures held { table.new.1 ≡ table.old.1 }
{
    let parent = table.parent(n);
    let before = table.previous(n);
    let after = table.next(n);
    link_from_before(table, after, parent, before);
    link_from_after(table, before, parent, after);
}

// Frees the slots of the siblings from one on and of all below them, and answers how many they are. It calls itself for the
// children of each, so at most as deep as the tree is high.
fn clear_all(table: &mut Table, first: u32) -> u32
    requires { HoldPart table.old.0 (part_from table.old.0 first) first }
    ensures cleared { AreCleared (part_from table.old.0 first) table.old.0 table.new.0 }
    ensures count { result ≡ size (part_from table.old.0 first) }
{
    let mut count = 0;
    let mut at = first;
    while at != 0 {
        let below = table.first_child(at);
        let next = table.next(at);
        let more = clear_all(table, below);
        count += more + 1;
        table.clear(at);
        at = next;
    }
    count
}

fn higher(height: u32, other: u32) -> u32
    ensures { result ≡ max height other }
{
    if height < other { other } else { height }
}

// How many levels there are from these siblings on down.
pub(crate) fn height_from(table: &Table, first: u32) -> u32
    requires { HoldPart table.now.0 (part_from table.now.0 first) first }
    ensures { result ≡ height (part_from table.now.0 first) }
{
    let mut height = 0;
    let mut at = first;
    while at != 0 {
        let below = height_from(table, table.first_child(at));
        height = higher(height, below + 1);
        at = table.next(at);
    }
    height
}

// Takes a node out with all that is below it, and answers how many nodes go.
pub(crate) fn take_out(table: &mut Table, n: u32) -> u32
    requires stands { Stands table.old.0 (tree_of table.old.0).nodes }
    requires used { IsUsed table.old.0 n }
    requires below { n ≡ 0 → ⊥ }
    ensures stands { Stands table.new.0 (without n (tree_of table.old.0).nodes) }
    ensures long { length table.new.0 ≡ length table.old.0 }
    ensures count { size (without n (tree_of table.old.0).nodes) + result ≡ size
        (tree_of table.old.0).nodes }
{
    unlink(table, n);
    let first = table.first_child(n);
    let below = clear_all(table, first);
    table.clear(n);
    below + 1
}
