// The set of the animals reached, built by value one animal at a time.
ghost use Rattle.std.specs.Prelude.{◌≡◌, ◌+◌, ◌/◌, ◌%◌, ◌^◌, ◌<◌, get_or, set, replicate};
ghost use Rattle.rules.specs.Limits.{max_animals};
ghost use Rattle.rules.specs.Folds.{count_below};
ghost use Rattle.rules.specs.Layout.{animals};
ghost use Rattle.rules.specs.Questions.{is_reached, set_words};
ghost use Rattle.animal_loops.specs.Collected.{Collected};

use rules::AnimalSet;
use tables::Table;

// The set of no animal.
fn empty() -> AnimalSet
    ensures words_value { result.words ≡ replicate 8 0 }
    ensures count_value { result.count ≡ 0 }
{
    AnimalSet {
        words: [0u32; 8],
        count: 0,
    }
}

// The set with animal i, whose bit is above those of its word.
fn with_animal(before: AnimalSet, i: u32) -> AnimalSet
    requires { (i < max_animals) × (get_or before.words (i / 32) 0 < 2 ^ (i % 32)) × (before.count < max_animals) }
    ensures words_value { result.words ≡ set before.words (i / 32) (get_or before.words (i / 32) 0 + 2 ^ (i % 32)) }
    ensures count_value { result.count ≡ before.count + 1 }
{
    let mut marks = before.words;
    let at = (i / 32) as usize;
    let bit = 1u32 << (i % 32);
    marks[at] = marks[at] + bit;
    AnimalSet {
        words: marks,
        count: before.count + 1,
    }
}

// The set with animal i where it is another than u and reached from it.
fn with_reached(
    table: &Table,
    before: AnimalSet,
    u: u32,
    i: u32,
    first: u32,
    last: u32,
) -> AnimalSet
    requires u_bound { (u < animals table.now) × (i < animals table.now) }
    requires collected { Collected (is_reached table.now u first last) i before.words before.count }
    ensures { Collected (is_reached table.now u first last) (i + 1) result.words result.count }
{
    if u == i {
        return before;
    }
    if !pair_cells::reaches(table, u, i, first, last) {
        return before;
    }
    with_animal(before, i)
}

// The set of the animals reached from u in the window.
pub fn collect(table: &Table, u: u32, first: u32, last: u32) -> AnimalSet
    requires { u < animals table.now }
    ensures { result ≡ record { words = set_words table.now u first last; count = count_below (is_reached table.now u first last) (animals table.now) } }
{
    let n = table.animals();
    let mut found = empty();
    for i in 0..n {
        found = with_reached(table, found, u, i, first, last);
    }
    found
}
