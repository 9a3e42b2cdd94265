// Clauses: at most one literal on the user and one on a group. A clause holds where one of its literals does.
ghost use Rattle.std.specs.Prelude.{◌≡◌, Bool, false, MatchOption};
ghost use Rattle.rights.specs.Subjects.{who_of};
ghost use Rattle.conjunctive.specs.Clauses.{is_absent, number_of, signed, literal_within, holds, within, is_empty, lone, same_clause};
ghost use Rattle.conjunctive.specs.Sameness.{same_laws, partial_laws};

use groups::contains;
use rights::subject::Subject;

// A literal on a number, or none: positive is "user is u" or "in group g", negative "user is not u" or "not in group g".
// That there is none is a case and no `Option` around the type: each enum has a tag of its own, and a tag more
// in each literal would make the record, which lies beside each file and travels with it, larger by more than half.
// An enum, and no struct of a `Sign` and a number, since the two are matched together.
#[derive(Clone, Copy, PartialEq, Eq, Debug)]
pub enum Literal<T> {
    Absent,
    Positive(T),
    Negative(T),
}

#[derive(Clone, Copy, Debug)]
pub struct Clause {
    pub user: Literal<u16>,
    pub group: Literal<u8>,
}

const _: () = prove!(size_of::<Clause>() == 6);

impl<T: Copy> Literal<T> {
    pub fn is_absent(self) -> bool
        ensures { result ≡ is_absent self }
    {
        matches!(self, Literal::Absent)
    }

    // Whether there is a literal that holds, where `fact` says what is so of a number.
    fn holds<F: FnOnce(T) -> bool>(self, fact: F) -> bool
        requires { F.IsAlwaysCallable fact }
        ensures { MatchOption (number_of self) (result ≡ false) (λ n. (so : Bool) × F.post fact n so × (result ≡ signed self so)) }
    {
        match self {
            Literal::Absent => false,
            Literal::Positive(n) => fact(n),
            Literal::Negative(n) => !fact(n),
        }
    }
}

impl<T: Copy + PartialEq> Literal<T> {
    // Whether the other clause has this literal, if there is one.
    fn within(self, other: Literal<T>) -> bool
        ensures { result ≡ literal_within T.eq self other }
    {
        self.is_absent() || self == other
    }
}

impl Clause {
    // The clause without a literal, which holds of nobody.
    pub const EMPTY: Clause = Clause {
        user: Literal::Absent,
        group: Literal::Absent,
    };

    pub fn holds(self, subject: &Subject<'_>) -> bool
        ensures { result ≡ holds self (who_of subject.now) }
    {
        // Each closure captures one part of the subject: of one that captured a reference to it, no result would be inferred.
        let Subject { user, groups } = *subject;
        self.user.holds(|u| user == u) || self.group.holds(|g| contains(groups, g))
    }

    // Whether the other clause has all literals of this one.
    pub fn within(self, other: Clause) -> bool
        ensures { result ≡ within self other }
    {
        self.user.within(other.user) && self.group.within(other.group)
    }

    pub fn is_empty(self) -> bool
        ensures { result ≡ is_empty self }
    {
        self.user.is_absent() && self.group.is_absent()
    }

    // The user of a clause that is exactly "user is u".
    pub fn lone_user(self) -> Option<u16>
        ensures { result ≡ lone self }
    {
        match (self.user, self.group) {
            (Literal::Positive(u), Literal::Absent) => Some(u),
            _ => None,
        }
    }
}

// Written out, as for a line: each within the other, which is the definition.
impl PartialEq for Clause {
    ghost eq = { same_clause };

    ghost laws = { partial_laws };

    fn eq(&self, other: &Clause) -> bool {
        self.within(*other) && other.within(*self)
    }
}

impl Eq for Clause {
    ghost laws = { same_laws };
}
