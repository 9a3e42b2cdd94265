// Making a list, adding to it, reading it.
ghost use Rattle.std.specs.Prelude.{◌≡◌, ◌<◌, [], ◌∷◌, ◌++◌, length, is_ok, nat_lt};
ghost use Rattle.bounded.specs.Lists.{holding, listed, packed};

use crate::full::Full;
use crate::list::Bounded;

impl<T: Copy, const N: usize> Bounded<T, N> {
    pub fn new(filler: T) -> Self
        ensures { result ≡ packed N filler [] }
    {
        Bounded {
            count: 0,
            items: [filler; N],
            filler,
        }
    }

    // Adds an item at the end; a full list refuses it, and stays as it was.
    pub fn push(&mut self, item: T) -> Result<(), Full>
        ensures room { is_ok result ≡ nat_lt (length (listed self.old)) N }
        ensures list { self.new ≡ holding self.old (listed self.old ++ (item ∷ [])) }
    {
        if self.count >= N {
            return Err(Full);
        }
        self.items[self.count] = item;
        self.count += 1;
        Ok(())
    }

    pub fn as_slice(&self) -> &[T]
        ensures { result.now ≡ listed self.now }
    {
        &self.items[..self.count]
    }
}
