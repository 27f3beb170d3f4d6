// The change that a mutation is.
ghost use Rattle.std.specs.Prelude.{◌≡◌, ◌-◌, true, is_ok, take, drop, IfOk};
ghost use Rattle.std.specs.Str.{str_to_ascii_lowercase};
ghost use Rattle.page_tree.specs.Edits.{children_of};
ghost use Rattle.page_tree.specs.Forest.{rooted, find, children, tops};
ghost use Rattle.page_tree.specs.Trees.{IsTree};
ghost use Rattle.mutation_script.specs.Changes.{change, changed};
ghost use Rattle.mutation_script.specs.declared.mutation.Mutation.{Mutation};
ghost use Rattle.mutation_script.specs.declared.page.PageState.{PageState};
ghost use Rattle.sensor_meaning.specs.declared.change.Change.TheVariants.{Attr as AttrOf};
ghost use Rattle.hide_engine.specs.Changes.{change_of};
ghost use Rattle.hide_engine.specs.Ready.{IsPlanned};

use dom_arena::Dom;
use listed::{Numbers, Text};
use mutation_script::Mutation;
use sensor_meaning::Change;
use std::alloc::{AllocError, Global};

/// The change that a mutation is, as it is known before the mutation is made.
#[derive(Drop)]
pub(crate) enum Planned {
    /// The change.
    Known(Change),
    /// Nodes come to a place among the children of a parent, which has so many before.
    Comes {
        parent: u32,
        place: u32,
        children: usize,
    },
}

impl Planned {
    /// What is known of a mutation's change.
    pub(crate) fn of(alloc: Global, dom: &Dom, mutation: &Mutation) -> Result<Planned, AllocError>
        ensures { IfOk result (λ planned. IsPlanned planned mutation.now dom.now) }
    {
        Ok(match mutation {
            Mutation::SetAttr { n, name, .. } => Planned::Known(attr_change(alloc, *n, name)?),
            Mutation::DropAttr { n, name } => Planned::Known(attr_change(alloc, *n, name)?),
            Mutation::SetText { n, .. } => Planned::Known(Change::Chars { node: *n }),
            Mutation::Insert { parent, place, .. } => Planned::Comes {
                parent: *parent,
                place: *place,
                children: children_of(alloc, dom, *parent)?.len(),
            },
            Mutation::Delete { n } => Planned::Known(Change::Went {
                parent: dom.parent(*n).unwrap_or(0),
            }),
            Mutation::Relink { n, parent, .. } => Planned::Known(Change::Moved {
                node: *n,
                old_parent: dom.parent(*n).unwrap_or(0),
                new_parent: *parent,
            }),
            Mutation::Path { .. } => Planned::Known(Change::Path),
        })
    }

    /// The change, by the tree after it.
    pub(crate) fn made(self, alloc: Global, dom: &Dom) -> Result<Change, AllocError>
        ensures { (mutation : Mutation) (page : PageState) → IsTree page.tree → IsPlanned self mutation page.tree →
            is_ok (change mutation page) ≡ true → dom.now ≡ (changed mutation page).tree →
            IfOk result (λ made. made ≡ change_of mutation page.tree) }
    {
        match self {
            Planned::Known(change) => Ok(change),
            Planned::Comes {
                parent,
                place,
                children,
            } => {
                Ok(Change::Came {
                    parent,
                    tops: children_at(alloc, dom, parent, place, children)?,
                })
            }
        }
    }
}

fn attr_change(alloc: Global, node: u32, name: &Text) -> Result<Change, AllocError>
    ensures { IfOk result (λ change. change ≡ AttrOf node (str_to_ascii_lowercase name.now)) }
{
    Ok(Change::Attr {
        node,
        name: Text::lower(alloc, name.as_str())?,
    })
}

// The children of a node that came to a place, where it had so many before.
fn children_at(
    alloc: Global,
    dom: &Dom,
    n: u32,
    place: u32,
    before: usize,
) -> Result<Numbers, AllocError>
    ensures { IfOk result (λ came. came ≡ take (children_of n dom.now - before)
        (drop place (tops (children (find n (rooted dom.now.nodes)))))) }
{
    let all = children_of(alloc, dom, n)?;
    let mut came = Numbers::new(alloc);
    let place = place as usize;
    if place <= all.len() {
        let rest = &all.as_slice()[place..];
        let count = all.len().saturating_sub(before).min(rest.len());
        came.extend(&rest[..count])?;
    }
    Ok(came)
}

// The children of a node, in order.
fn children_of(alloc: Global, dom: &Dom, n: u32) -> Result<Numbers, AllocError>
    ensures { IfOk result (λ found. found ≡ tops (children (find n (rooted dom.now.nodes)))) }
{
    dom.is_tree();
    let mut found = Numbers::new(alloc);
    let mut at = dom.first_child(n);
    'siblings: while let Some(child) = at {
        found.push(child)?;
        at = dom.next(child);
    }
    Ok(found)
}
