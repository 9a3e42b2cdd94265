// Adding a clause to the list, by the first rule that settles it.
ghost use Rattle.std.specs.Prelude.{◌≡◌, ◌<◌, ◌≤◌, [], ◌∷◌};
ghost use Rattle.bounded.specs.Lists.{holding, listed};
ghost use Rattle.std.specs.List.{list_any};
ghost use Rattle.conjunctive.specs.Clauses.{is_empty, lone_in};
ghost use Rattle.conjunctive.specs.Adding.{struck, covers, ended, put_left, add_under, all_under, added};
ghost use Rattle.conjunctive.specs.Requirement.{literal_of, clauses_after};

use crate::clause::{Clause, Literal};
use crate::clauses::Clauses;
use bounded::list::Bounded;
use rights::directory::Directory;
use rights::pattern::Sign;

impl Clause {
    // What is left of a clause beside a lone "user is u"; none where it says no more than that one.
    fn struck(self, u: u16) -> Option<Clause>
        ensures { result ≡ struck u self.user self.group }
    {
        let left = Clause {
            user: Literal::Absent,
            group: self.group,
        };
        match self.user {
            Literal::Positive(v) if v == u => None,
            Literal::Negative(v) if v != u => None,
            _ => Some(left),
        }
    }
}

impl Clauses {
    // The user of a lone "user is u" in the list.
    fn lone_user(&self) -> Option<u16>
        ensures { result ≡ lone_in (listed self.now.list) }
    {
        self.list
            .as_slice()
            .iter()
            .find_map(|clause| clause.lone_user())
    }

    // Whether a clause of the list has only literals of this one. A loop, as docs/DECISIONS.md says.
    fn covers(&self, added: Clause) -> bool
        ensures { result ≡ covers (listed self.now.list) added }
    {
        for clause in self.list.as_slice() {
            if clause.within(added) {
                return true;
            }
        }
        false
    }

    fn has_empty(&self) -> bool
        ensures { result ≡ list_any is_empty (listed self.now.list) }
    {
        self.covers(Clause::EMPTY)
    }

    // The list of one clause.
    fn only(&mut self, clause: Clause)
        ensures { self.new.list ≡ holding self.old.list (clause ∷ []) }
    {
        let mut out = Bounded::new(self.list.filler);
        let _ = out.push(clause);
        self.list = out;
    }

    // Takes out the clauses that have all literals of this one, which goes to the end.
    fn put_last(&mut self, added: Clause)
        ensures { self.new.list ≡ holding self.old.list (ended (listed self.old.list) added) }
    {
        self.list.retain(|clause| !added.within(*clause));
        let _ = self.list.push(added);
    }

    // Adds what a lone "user is u" in the list has left of a clause.
    #[tactic(auto, using(crate::proofs::Records::from_clauses))]
    fn put_left(&mut self, left: Option<Clause>)
        ensures { self.new.list ≡ holding self.old.list (put_left (listed self.old.list) left) }
    {
        if let Some(clause) = left {
            if clause.is_empty() {
                self.only(Clause::EMPTY);
            } else if !self.covers(clause) {
                self.put_last(clause);
            }
        }
    }

    // Adds a clause to a list with a lone "user is u".
    #[tactic(auto, using(crate::proofs::Records::from_clauses))]
    fn add_under(&mut self, u: u16, clause: Clause)
        ensures { self.new.list ≡ holding self.old.list (add_under u (listed self.old.list) clause) }
    {
        if self.has_empty() {
            return;
        }
        if clause.is_empty() {
            self.only(Clause::EMPTY);
            return;
        }
        self.put_left(clause.struck(u));
    }

    // Here and below each `requires` asks for another room, so the room is in no type.
    // Begins anew with a lone "user is u", and adds the old clauses to it.
    fn restart(&mut self, u: u16, lone: Clause)
        requires { self.old.list.count < 32 }
        ensures { self.new.list ≡ holding self.old.list (all_under u (lone ∷ []) (listed self.old.list)) }
    {
        let old = self.list;
        self.only(lone);
        for clause in old.as_slice() {
            self.add_under(u, *clause);
        }
    }

    // Adds a clause to a list that has room for one more.
    #[tactic(auto, using(crate::proofs::Records::from_clauses))]
    pub(crate) fn add(&mut self, clause: Clause)
        requires { self.old.list.count < 32 }
        ensures { self.new.list ≡ holding self.old.list (added (listed self.old.list) clause) }
    {
        if self.has_empty() {
            return;
        }
        if clause.is_empty() {
            self.only(Clause::EMPTY);
            return;
        }
        if let Some(u) = self.lone_user() {
            self.put_left(clause.struck(u));
            return;
        }
        if self.covers(clause) {
            return;
        }
        match clause.lone_user() {
            Some(u) => self.restart(u, clause),
            None => self.put_last(clause),
        }
    }
}

impl<T: Copy> Literal<T> {
    fn of(sign: Option<Sign>, number: T) -> Literal<T>
        ensures { result ≡ literal_of sign number }
    {
        match sign {
            None => Literal::Absent,
            Some(Sign::Positive) => Literal::Positive(number),
            Some(Sign::Negative) => Literal::Negative(number),
        }
    }
}

impl Clauses {
    // Adds the clauses of a directory's pattern, in order.
    pub(crate) fn narrow(&mut self, directory: &Directory)
        requires { self.old.list.count ≤ 30 }
        ensures { self.new.list ≡ holding self.old.list (clauses_after directory.now (listed self.old.list)) }
    {
        for shape in directory.execute.clauses() {
            self.add(Clause {
                user: Literal::of(shape.user, directory.owner),
                group: Literal::of(shape.group, directory.group),
            });
        }
    }
}
