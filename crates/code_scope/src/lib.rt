// What is known where an expression's code is emitted, and on entering each part of a record.
#![tactic(auto)]

ghost use Rattle.std.specs.Prelude.{◌≡◌, min};
ghost use Rattle.records.specs.Inner.Read.{part_of};
ghost use Rattle.translation.specs.Templates.{word_of};
ghost use Rattle.code_scope.specs.Inner.Around.{most_names, words_in, under_scope, inside_scope};

use records::Part;

// The most names, each on a word of its own.
const MOST_NAMES: usize = 16;

// The word of a name that is not bound.
const NO_WORD: u16 = 0;

// What is known where an expression is emitted: the words that the number names stand on, how many
// names there are, how many words stand above the base, and whether a tree is expected. More names
// than 16 count as 16: no program that passes pass one has more. (The Scope of `pass_one` is
// another: it counts number and tree names, and has none of their words.)
#[derive(Clone, Copy, Debug, PartialEq, Eq)]
pub struct Scope {
    pub words: [u16; MOST_NAMES],
    pub names: usize,
    pub standing: usize,
    pub tree: bool,
}

impl Scope {
    // How many names there are. (More count as the most, so that nothing is asked of callers, for
    // whom all fields are open. `pending: Pending` counts its trees likewise: one line each, over
    // another field.)
    fn count(self) -> usize
        ensures { result ≡ min self.names most_names }
    {
        self.names.min(MOST_NAMES)
    }

    // The word of name a; 0 where it is not bound.
    #[tactic(auto, using(crate::proofs::Scopes::word_read))]
    pub fn word_of(self, a: u8) -> u16
        ensures { result ≡ word_of (words_in self) a }
    {
        self.words[..self.count()]
            .get(usize::from(a))
            .copied()
            .unwrap_or(NO_WORD)
    }

    // The scope with one more number named, on the next word.
    #[tactic(auto, using(crate::proofs::Scopes::under))]
    fn under_number(self) -> Scope
        ensures { result ≡ under_scope self }
    {
        let names = self.count();
        if names == MOST_NAMES {
            return self;
        }
        let mut words = self.words;
        // A cast may lose no bits, so what is above 16 of them is cut off before it.
        words[names] = (self.standing % 65536) as u16;
        Scope {
            words,
            names: names + 1,
            standing: self.standing.wrapping_add(1),
            ..self
        }
    }

    // What is known on entering part i of a record, by what the part is. Trees that are named need
    // no word.
    #[tactic(auto, using(crate::proofs::Scopes::insides))]
    pub fn inside(self, part: Part, i: usize) -> Scope
        ensures { result ≡ inside_scope (part_of part) i self }
    {
        match part {
            Part::Number => Scope {
                standing: self.standing.wrapping_add(i),
                tree: false,
                ..self
            },
            Part::Tree => Scope { tree: true, ..self },
            Part::UnderNumber => self.under_number(),
            Part::Whole | Part::UnderTrees => self,
        }
    }
}
