// A table that passed checks 5 and 6.
ghost use Rattle.std.specs.Prelude.{List, ℕ, ◌≡◌, ◌+◌, ◌<◌, get_or, drop};
ghost use Rattle.rules.specs.Layout.{animals, ticks, carry, cell_at};
ghost use Rattle.rules.specs.Checks.{ValidTable};
ghost use Rattle.grid.specs.Cells.{Grid};
ghost use Rattle.cells.specs.Stored.{Stored};

use crate::Opening;
use std::marker::Model;

// The words of a table that passed checks 5 and 6, lent to be read; a clause speaks of the words.
#[derive(Drop)]
pub struct Table<'a> {
    words: &'a [u32],
}

impl<'a> Model for Table<'a> {
    ghost Value = { List ℕ };

    ghost view = { λ t. t.words.now };

    ghost invariant = { λ t. ValidTable t.words.now };
}

impl<'a> Table<'a> {
    // The table of words that passed.
    pub fn of_valid(words: &'a [u32]) -> Table<'a>
        requires { ValidTable words.now }
        ensures { result ≡ words.now }
    {
        Table { words }
    }

    // The words.
    pub fn words(&self) -> &[u32]
        ensures { result.now ≡ self.now }
    {
        self.words
    }

    // The number of animals.
    pub fn animals(&self) -> u32
        ensures { result ≡ animals self.now }
    {
        words::animals_of(self.words[0])
    }

    // The carry time.
    pub fn carry(&self) -> u32
        ensures { result ≡ carry self.now }
    {
        words::carry_of(self.words[0])
    }

    // The first word.
    pub fn opening_word(&self) -> u32
        ensures { result ≡ get_or self.now 0 0 }
    {
        self.words[0]
    }

    // The opening that the first word says.
    pub fn opening(&self) -> Opening
        ensures { (result.animals ≡ animals self.now) × (result.ticks ≡ ticks self.now) × (result.carry ≡ carry self.now) }
    {
        Opening::of_word(self.words[0])
    }

    // The words of cell (u, v).
    pub fn cell(&self, u: u32, v: u32) -> &[u32]
        requires { (u < animals self.now) × (v < animals self.now) }
        ensures words { result.now ≡ cell_at (animals self.now) (ticks self.now) self.now u v }
        ensures stored { Stored result.now }
    {
        crate::cell(self.words, u, v)
    }

    // The words of all cells.
    pub fn cells(&self) -> &[u32]
        ensures words { result.now ≡ drop 1 self.now }
        ensures stored { Grid Stored (animals self.now) (ticks self.now + 1) result.now }
        ensures valid { ValidTable self.now }
    {
        &self.words[1..]
    }
}
