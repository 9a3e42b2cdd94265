// Lists in rising order of a key.
ghost use Rattle.std.specs.Prelude.{◌≡◌};
ghost use Rattle.bounded.specs.Lists.{holding, listed};
ghost use Rattle.bounded.specs.Places.{placed};

use crate::keyed::Keyed;
use crate::list::Bounded;

impl<T: Keyed, const N: usize> Bounded<T, N> {
    // Puts the item where its key belongs, in place of any with the same key.
    pub fn place(&mut self, item: T)
        ensures { self.new ≡ holding self.old (placed T.Keyed.key item (listed self.old)) }
    {
        let key = item.key();
        let mut out = Bounded::new(self.filler);
        out.extend(self.as_slice(), |other| other.key() < key);
        let _ = out.push(item);
        out.extend(self.as_slice(), |other| key < other.key());
        *self = out;
    }
}
