// Items that go by a key.
ghost use Rattle.std.specs.Prelude.{◌≡◌, ℕ, nat_eq};
ghost use Rattle.std.specs.List.{list_any};

// What has a key. A trait and no closure, since three contracts name the key.
pub trait Keyed: Copy {
    ghost key: { Self → ℕ };

    fn key(&self) -> u16
        ensures { result ≡ key self.now };
}

impl Keyed for u16 {
    ghost key = { λ u. u };

    fn key(&self) -> u16 {
        *self
    }
}

// Whether some item has the key. Searched from the front, since it holds of any list, in order or not.
pub fn has_key<T: Keyed>(items: &[T], key: u16) -> bool
    ensures { result ≡ list_any (λ x. nat_eq (T.Keyed.key x) key) items.now }
{
    items.iter().any(|item| item.key() == key)
}
