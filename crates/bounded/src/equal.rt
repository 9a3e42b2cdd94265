// Lists compared: by their items alone.
ghost use Rattle.std.specs.Prelude.{◌≡◌, Bool};
ghost use Rattle.std.specs.Cmp.Lexicographic.{pointwise};
ghost use Rattle.std.specs.Cmp.Rules.{comparing};
ghost use Rattle.std.proofs.Common.{rules};
ghost use Rattle.bounded.specs.Lists.{listed};
ghost use Rattle.bounded.specs.Tests.{TellsPairs};

use crate::list::Bounded;

// Whether two lists are as long, and alike item by item.
pub fn same_lists<T, P: Fn(&T, &T) -> bool>(a: &[T], b: &[T], alike: P) -> bool
    requires { P.IsAlwaysCallable alike }
    ensures { (p : T → T → Bool) → TellsPairs P.Fn alike p → result ≡ pointwise p a.now b.now }
{
    if a.len() != b.len() {
        return false;
    }
    a.iter().zip(b).all(|(x, y)| alike(x, y))
}

// Written out: a derive would compare the unused places and the filler too.
impl<T: Copy + PartialEq, const N: usize> PartialEq for Bounded<T, N> {
    ghost eq = { λ a b. pointwise T.eq (listed a) (listed b) };

    ghost laws = { Prim.search (comparing, rules) };

    fn eq(&self, other: &Self) -> bool {
        same_lists(self.as_slice(), other.as_slice(), |x, y| x == y)
    }
}
