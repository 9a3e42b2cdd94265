// The conjunctive record: no clause contains another, at most one is a lone "user is u", and there are at most two for each level.
ghost use Rattle.std.specs.Prelude.{◌≡◌, ◌*◌, ◌≤◌, true};
ghost use Rattle.bounded.specs.Lists.{listed};
ghost use Rattle.conjunctive.specs.Clauses.{tidy};

use crate::clauses::Clauses;

#[derive(Clone, Copy)]
pub struct Conjunctive {
    pub level: u8,
    pub clauses: Clauses,
    ghost ok: { (level ≤ 16) × (clauses.list.count ≤ 2 * level) × (tidy (listed clauses.list) ≡ true) },
}

const _: () = prove!(size_of::<Conjunctive>() == 216);
