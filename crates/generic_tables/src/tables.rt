ghost use Rattle.std.specs.Prelude.{◌≡◌, ◌==◌, not, ◌&&◌, ◌||◌, ℕ, false, nat_eq, IfOk, OnOk, OnErr};
ghost use Rattle.std.specs.List.{IsDistinct};
ghost use Rattle.page_tree.specs.Directions.{is_in};
ghost use Rattle.page_tree.specs.Standings.{all};
ghost use Rattle.selector_match.specs.Asked.{IsElement};
ghost use Rattle.generic_tables.specs.Keys.{carries};
ghost use Rattle.generic_tables.specs.declared.keys.Key.{Key as AKey};
ghost use Rattle.generic_tables.specs.Filed.{holds, IsBetween};
ghost use Rattle.generic_tables.specs.Tables.{elements_under, stands_under, IsAbsent, IsAsIn, HasSame};

use crate::carried::keys_at;
use crate::filed::Filed;
use crate::keys::Key;
use dom_arena::Dom;
use selector_match::next_element;
use std::alloc::{AllocError, Global};

/// The elements of a page by the keys that they carry.
///
/// An element stands under the keys that it carried when it was put in.
#[derive(Drop)]
pub struct Tables {
    filed: Filed,
}

impl Tables {
    /// All elements of a page.
    pub fn of(alloc: Global, dom: &Dom) -> Result<Tables, AllocError>
        ensures { IfOk result (λ tables. (key : AKey) (x : ℕ) →
            stands_under tables key x ≡ (is_in (all dom.now) x && carries dom.now key x)) }
    {
        dom.is_tree();
        let mut filed = Filed::new(alloc);
        let mut at = next_element(dom, 0);
        'elements: while let Some(x) = at {
            put_in(&mut filed, dom, x)?;
            at = next_element(dom, x);
        }
        Ok(Tables { filed })
    }

    /// Puts in an element that isn't there. Without memory each key has the elements that it had.
    pub fn enter(&mut self, dom: &Dom, n: u32) -> Result<(), AllocError>
        requires element { IsElement dom.now n }
        requires absent { IsAbsent self.old n }
        ensures ok { OnOk result ((key : AKey) (x : ℕ) →
            stands_under self.new key x ≡
            (stands_under self.old key x || (x == n && carries dom.now key n))) }
        ensures err { OnErr result (HasSame self.old self.new) }
    {
        match put_in(&mut self.filed, dom, n) {
            Ok(()) => Ok(()),
            Err(error) => {
                take_out(&mut self.filed, dom, n);
                Err(error)
            }
        }
    }

    /// Takes out an element, which has the keys with which it was put in. It takes no memory.
    pub fn leave(&mut self, dom: &Dom, n: u32)
        requires { IsAsIn dom.now self.old n }
        ensures { (key : AKey) (x : ℕ) →
            stands_under self.new key x ≡ (stands_under self.old key x && not (x == n)) }
    {
        take_out(&mut self.filed, dom, n);
    }

    /// The elements that carry a key, each once, in no order. It takes no memory.
    pub fn candidates(&self, key: &Key) -> &[u32]
        ensures elements { result.now ≡ elements_under self.now key.now }
        ensures once { IsDistinct nat_eq result.now }
    {
        self.filed.of(key.lent())
    }
}

// Puts an element under each of its keys. Without memory it may stand under some of them.
fn put_in(filed: &mut Filed, dom: &Dom, n: u32) -> Result<(), AllocError>
    ensures ok { OnOk result ((key : AKey) (x : ℕ) →
        holds filed.new key x ≡ (holds filed.old key x || (x == n && carries dom.now key n))) }
    ensures err { OnErr result (IsBetween dom.now n filed.old filed.new) }
{
    let mut keys = keys_at(dom, n);
    'all: while let Some(key) = keys.next() {
        filed.put_under(key, n)?;
    }
    Ok(())
}

// Takes an element from under each of its keys.
fn take_out(filed: &mut Filed, dom: &Dom, n: u32)
    ensures { (key : AKey) (x : ℕ) →
        holds filed.new key x ≡ (holds filed.old key x && not (x == n && carries dom.now key n)) }
{
    let mut keys = keys_at(dom, n);
    'all: while let Some(key) = keys.next() {
        filed.take_from(key, n);
    }
}
