// The pending trees of 01, Pass two, by value: their head is taken, two names are put in front, and
// two lists are compared.
#![tactic(auto)]

ghost use Rattle.std.specs.Prelude.{◌≡◌, leb, length};
ghost use Rattle.rules.specs.Limits.{most_pending};
ghost use Rattle.rules.specs.PassTwo.{same_names};
ghost use Rattle.pending.specs.Inner.List.{length_of, list_of, Alone, Took, InFront};

// The most trees pending.
const MOST_PENDING: usize = 16;

// The pending trees: the first `len` of these names, the head last. A length above the most counts
// as the most.
#[derive(Clone, Copy)]
pub struct Pending {
    pub names: [u16; MOST_PENDING],
    pub len: usize,
}

impl Pending {
    // The pending trees at first: a function's parameter alone, tree 0.
    #[tactic(auto, using(crate::proofs::Laws::alone_first))]
    pub fn parameter_alone() -> Pending
        ensures { Alone result }
    {
        Pending {
            names: [0; MOST_PENDING],
            len: 1,
        }
    }

    // How many trees are pending. (A larger length counts as the most, so that nothing is asked of
    // callers, for whom both fields are open. The Scope of `code_scope` counts its names likewise:
    // one line each, over another field.)
    fn count(self) -> usize
        ensures { result ≡ length_of self }
    {
        self.len.min(MOST_PENDING)
    }

    // The pending trees without tree `a`, where it is their head.
    pub fn take_head(self, a: u8) -> Option<Pending>
        ensures { Took self a result }
    {
        let top = self.count().checked_sub(1)?;
        if self.names[top] != u16::from(a) {
            return None;
        }
        Some(Pending { len: top, ..self })
    }

    // Whether no more trees can be pending.
    #[tactic(auto, using(crate::proofs::Laws::full_counted))]
    pub fn is_full(self) -> bool
        ensures { result ≡ leb most_pending (length (list_of self)) }
    {
        MOST_PENDING <= self.count()
    }

    // The pending trees with two more in front, where they fit: the left tree's name, then the
    // right one's.
    #[tactic(auto, using(crate::proofs::Laws::puts))]
    pub fn put_two(self, left: u16, right: u16) -> Pending
        ensures { InFront self left right result }
    {
        let len = self.count();
        if MOST_PENDING < len + 2 {
            return self;
        }
        let mut names = self.names;
        names[len] = right;
        names[len + 1] = left;
        Pending {
            names,
            len: len + 2,
        }
    }

    // Whether the same trees are pending.
    #[tactic(auto, using(crate::proofs::Laws::compared))]
    pub fn is_same(self, other: Pending) -> bool
        ensures { result ≡ same_names (list_of self) (list_of other) }
    {
        let len = self.count();
        if len != other.count() {
            return false;
        }
        self.names[..len]
            .iter()
            .zip(&other.names[..len])
            .all(|(x, y)| x == y)
    }
}
