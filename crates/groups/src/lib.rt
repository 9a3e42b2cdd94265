#![tactic(auto)]

ghost use Rattle.std.specs.Prelude.{◌≡◌, ℕ, ◌<◌, ◌||◌, ◌==◌};
ghost use Rattle.groups.specs.Groups.{member, inserted, subset, disjoint};

// A set of group numbers 0 to 255, as 32 bytes: group g is bit 7 - g % 8 of byte g / 8, bit 7 the most significant.
// An alias, since a subject borrows its groups out of bytes from elsewhere.
pub type GroupSet = [u8; 32];

pub const NO_GROUPS: GroupSet = [0; 32];

// Whether the group is in the set.
pub fn contains(set: &GroupSet, group: u8) -> bool
    ensures { result ≡ member set.now group }
{
    (set[usize::from(group / 8)] >> (7 - group % 8)) % 2 == 1
}

// Puts the group into the set.
pub fn insert(set: &mut GroupSet, group: u8)
    ensures bytes { set.new ≡ inserted set.old group }
    ensures members { (h : ℕ) → h < 256 → member set.new h ≡ (h == group || member set.old h) }
{
    set[usize::from(group / 8)] |= 1 << (7 - group % 8);
}

// Whether each group of the first set is in the second.
pub fn is_subset(a: &GroupSet, b: &GroupSet) -> bool
    ensures { result ≡ subset a.now b.now }
{
    a.iter().zip(b).all(|(x, y)| x & y == *x)
}

// Whether no group is in both sets.
pub fn is_disjoint(a: &GroupSet, b: &GroupSet) -> bool
    ensures { result ≡ disjoint a.now b.now }
{
    a.iter().zip(b).all(|(x, y)| x & y == 0)
}

#[cfg(test)]
mod tests {
    use super::*;

    #[test]
    fn bits_of_groups(rt: HostRuntime) {
        let mut set = NO_GROUPS;
        for (group, at, byte) in [(0, 0, 0x80), (7, 0, 0x81), (8, 1, 0x80), (255, 31, 0x01)] {
            assert!(rt; !contains(&set, group));
            insert(&mut set, group);
            assert!(rt; contains(&set, group));
            assert_eq!(rt; set[at], byte);
        }
    }
}
