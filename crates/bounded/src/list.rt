// The list itself: `count` items, and the filler in every place past them, so that lists with the same items and filler are equal records.
ghost use Rattle.std.specs.Prelude.{◌≡◌, ◌-◌, ◌≤◌, length, drop, replicate};

use std::alloc::AllocError;

// A fixed size and no heap, since a record lies with its node, and narrowing must not fail for want of memory.
pub struct Bounded<T: Copy, const N: usize> {
    pub count: usize,
    pub items: [T; N],
    pub filler: T,
    ghost ok: { (count ≤ N) × (length items ≡ N) × (drop count items ≡ replicate (N - count) filler) },
}

// Written out, since a struct of a parameter's items with a ghost field has no derive of these.
impl<T: Copy, const N: usize> Copy for Bounded<T, N> {}

impl<T: Copy, const N: usize> Clone for Bounded<T, N> {
    ghost is_clone = { λ x y. y ≡ x };

    ghost is_infallible = { λ _. Unit {0} };

    fn clone(&self) -> Result<Self, AllocError> {
        Ok(*self)
    }
}
