// The words of one line, taken from the left one at a time. Only the space character separates them.
ghost use Rattle.std.specs.Prelude.{◌≡◌, [], ◌∷◌, List, length, MatchOption, MatchResult};
ghost use Rattle.std.specs.Iterator.{at_most};
ghost use Rattle.script.specs.declared.fault.Fault.TheVariants.{TooFewWords};
ghost use Rattle.script.specs.Grammar.{Item};
ghost use Rattle.script.specs.Readings.{Progress, Took, past_end};
ghost use Rattle.script.specs.Words.{Text, words, coming};

use crate::fault::Fault;

// What is read from the words to come, by as many of them as spell it.
pub trait Readable: Drop {
    // What spells a value, word by word.
    ghost items: { Self → List Item };

    // The words behind it, or the fault that ends its reading.
    ghost past: { List Text → Progress };

    fn read(words: &mut Words<'_>) -> Result<Self, Fault>
        ensures { Took items past (coming words.old) result (coming words.new) };
}

#[derive(Clone, Copy, Debug)]
pub struct Words<'a> {
    rest: &'a str,
}

impl<'a> Words<'a> {
    pub fn new(line: &'a str) -> Self
        ensures { coming result ≡ words line.now }
    {
        Words { rest: line }
    }

    pub fn expected(&mut self) -> Result<&'a str, Fault>
        ensures { MatchResult result (λ w. coming self.old ≡ w.now ∷ coming self.new) (λ f. (f ≡ TooFewWords) × (coming self.old ≡ []) × (coming self.new ≡ [])) }
    {
        self.next().ok_or(Fault::TooFewWords)
    }

    pub fn read<T: Readable>(&mut self) -> Result<T, Fault>
        ensures { Took T.items T.past (coming self.old) result (coming self.new) }
    {
        T::read(self)
    }

    pub fn end(&mut self) -> Result<(), Fault>
        ensures { Took (λ _. []) past_end (coming self.old) result [] }
    {
        match self.next() {
            Some(_) => Err(Fault::TooManyWords),
            None => Ok(()),
        }
    }
}

impl<'a> Iterator for Words<'a> {
    type Item = &'a str;

    ghost next_gives = { λ s r t. MatchOption r ((coming s ≡ []) × (coming t ≡ [])) (λ w. coming s ≡ w.now ∷ coming t) };

    ghost remaining = { λ s. at_most (length (coming s)) };

    fn next(&mut self) -> Option<&'a str> {
        let text = self.rest.trim_start_matches(' ');
        match text.split_once(' ') {
            Some((word, rest)) => {
                self.rest = rest;
                Some(word)
            }
            None => {
                self.rest = "";
                if text.is_empty() { None } else { Some(text) }
            }
        }
    }
}
