// Names as tags spell them, compared without the case of letters.

ghost use Rattle.std.specs.Prelude.{◌≡◌, refl};
ghost use Rattle.std.proofs.Common.{rules};
ghost use Rattle.std.specs.Cmp.{on_equiv, on_total, partial_equiv_from_equiv, partial_order_from_own_ties};
ghost use Rattle.std.specs.Cmp.Lexicographic.{slice_cmp, pointwise, nat_list_eq_equiv};
ghost use Rattle.std.specs.Cmp.Rules.{comparing};
ghost use Rattle.std.specs.Ordering.{nat_cmp, on, as_partial_cmp};
ghost use Rattle.std.specs.Bool.{nat_eq};
ghost use Rattle.std.specs.Str.{str_to_ascii_lowercase};
ghost use Rattle.html_tree.specs.Spelled.{lower_of};

use std::cmp::Ordering;

/// A name as a tag spells it. Names that differ in the case of letters alone are equal, so that none is copied to be found.
#[derive(Clone, Copy)]
pub struct SpelledName<'a> {
    pub spelled: &'a str,
}

/// How two texts are ordered by their bytes, the case of letters ignored.
fn compare(a: &[u8], b: &[u8]) -> Ordering
    ensures { result ≡ slice_cmp nat_cmp (str_to_ascii_lowercase a.now) (str_to_ascii_lowercase b.now) }
{
    let shorter = a.len().min(b.len());
    for i in 0..shorter {
        match a[i].to_ascii_lowercase().cmp(&b[i].to_ascii_lowercase()) {
            Ordering::Less => return Ordering::Less,
            Ordering::Greater => return Ordering::Greater,
            Ordering::Equal => {}
        }
    }
    if shorter < b.len() {
        Ordering::Less
    } else if shorter < a.len() {
        Ordering::Greater
    } else {
        Ordering::Equal
    }
}

impl<'a> PartialEq for SpelledName<'a> {
    ghost eq = { on lower_of (pointwise nat_eq) };

    ghost laws = { partial_equiv_from_equiv (on_equiv lower_of nat_list_eq_equiv) };

    fn eq(&self, other: &SpelledName<'a>) -> bool {
        self.spelled.eq_ignore_ascii_case(other.spelled)
    }
}

impl<'a> Eq for SpelledName<'a> {
    ghost laws = { on_equiv lower_of nat_list_eq_equiv };
}

impl<'a> Ord for SpelledName<'a> {
    ghost cmp = { on lower_of (slice_cmp nat_cmp) };

    ghost total = { Prim.search (comparing, rules) };

    ghost matches_partial_cmp = { Prim.search (comparing, rules) };

    ghost matches_eq = { Prim.search (comparing, rules) };

    fn cmp(&self, other: &SpelledName<'a>) -> Ordering {
        compare(self.spelled.as_bytes(), other.spelled.as_bytes())
    }
}

impl<'a> PartialOrd for SpelledName<'a> {
    ghost partial_cmp = { as_partial_cmp (on lower_of (slice_cmp nat_cmp)) };

    ghost laws = { partial_order_from_own_ties (Prim.search (comparing, rules)) (Prim.search (comparing, rules)) };

    fn partial_cmp(&self, other: &SpelledName<'a>) -> Option<Ordering> {
        Some(self.cmp(other))
    }
}
