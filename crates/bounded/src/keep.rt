// Lists made from what passes a test.
ghost use Rattle.std.specs.Prelude.{◌≡◌, Bool, List, ◌++◌, filter};
ghost use Rattle.std.specs.List.{flat_map};
ghost use Rattle.bounded.specs.Lists.{holding, listed};
ghost use Rattle.bounded.specs.Tests.{Tells, Leaves};

use crate::list::Bounded;

impl<T: Copy, const N: usize> Bounded<T, N> {
    // Adds the items that pass, while there is room.
    pub fn extend<P: Fn(&T) -> bool>(&mut self, items: &[T], passes: P)
        requires { P.IsAlwaysCallable passes }
        ensures { (p : T → Bool) → Tells P.Fn passes p → self.new ≡ holding self.old (listed self.old ++ filter p items.now) }
    {
        for item in items {
            if passes(item) {
                let _ = self.push(*item);
            }
        }
    }

    // Lets go what does not pass.
    pub fn retain<P: Fn(&T) -> bool>(&mut self, passes: P)
        requires { P.IsAlwaysCallable passes }
        ensures { (p : T → Bool) → Tells P.Fn passes p → self.new ≡ holding self.old (filter p (listed self.old)) }
    {
        let mut out = Bounded::new(self.filler);
        out.extend(self.as_slice(), passes);
        *self = out;
    }

    // Lends each item to be changed, and lets go what then does not stay.
    pub fn retain_mut<C: Fn(&mut T) -> bool>(&mut self, change: C)
        requires { C.IsAlwaysCallable change }
        ensures { (f : T → List T) → Leaves C.Fn change f → self.new ≡ holding self.old (flat_map f (listed self.old)) }
    {
        let mut out = Bounded::new(self.filler);
        for item in &mut self.items[..self.count] {
            if change(item) {
                let _ = out.push(*item);
            }
        }
        *self = out;
    }
}
