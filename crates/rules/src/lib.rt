// What the calls answer: each a `Result`, whose error is the refusal. What each call replies and leaves stands in specs/, the
// laws in proofs/.
#![tactic(auto)]

ghost use Rattle.std.specs.Prelude.{◌≡◌};
ghost use Rattle.rules.specs.Answers.{number_of};

// Why a call is refused. specs/Answers.antt gives each its number of documents 01 and 02.
#[derive(Clone, Copy)]
pub enum Refusal {
    AnimalsBeyondLimit,
    TicksBeyondLimit,
    CarryBeyondLimit,
    WrongLength,
    NotOpen,
    NotWellFormed,
    NoSuchAnimal,
    SameAnimal,
    TickOutOfRange,
    ChainBufferTooShort,
    NotALog,
    NotAContact,
    IllegalContact,
    WrongEnd,
    LogBufferTooShort,
    TallyFull,
    DifferentOpenings,
    IllegalStay,
    FirstAfterLast,
    DifferentLengths,
    NotHeld,
}

// The number that documents 01 and 02 give a refusal.
impl From<Refusal> for u32 {
    ghost from_gives = { λ r n. n ≡ number_of r };

    fn from(refusal: Refusal) -> u32 {
        match refusal {
            Refusal::AnimalsBeyondLimit => 1,
            Refusal::TicksBeyondLimit => 2,
            Refusal::CarryBeyondLimit => 3,
            Refusal::WrongLength => 4,
            Refusal::NotOpen => 5,
            Refusal::NotWellFormed => 6,
            Refusal::NoSuchAnimal => 7,
            Refusal::SameAnimal => 8,
            Refusal::TickOutOfRange => 9,
            Refusal::ChainBufferTooShort => 10,
            Refusal::NotALog => 11,
            Refusal::NotAContact => 12,
            Refusal::IllegalContact => 13,
            Refusal::WrongEnd => 14,
            Refusal::LogBufferTooShort => 15,
            Refusal::TallyFull => 16,
            Refusal::DifferentOpenings => 17,
            Refusal::IllegalStay => 18,
            Refusal::FirstAfterLast => 19,
            Refusal::DifferentLengths => 20,
            Refusal::NotHeld => 21,
        }
    }
}

// What adding a contact says of it: new or known, with the number of cells changed.
#[derive(Clone, Copy)]
pub enum Added {
    New(u32),
    Known(u32),
}

// A stay record: the animal was in the pen from its first tick to its last.
#[derive(Clone, Copy)]
pub struct Stay {
    pub animal: u32,
    pub pen: u32,
    pub first: u32,
    pub last: u32,
}

// The pens are 0 to 63.
impl Stay {
    pub const MAX_PEN: u32 = 63;
}

// A set record: a bit for each animal, 32 to a word, and the number of animals in it.
#[derive(Clone, Copy)]
pub struct AnimalSet {
    pub words: [u32; 8],
    pub count: u32,
}

// The tally of counted calls: how many were new, known and refused, and how many removed a contact.
#[derive(Clone, Copy)]
pub struct Tally {
    pub new: u32,
    pub known: u32,
    pub refused: u32,
    pub removed: u32,
}

// A question record: whether `to` can have been reached from `from` in the window from `first` to `last`. Its answer is
// nothing while it is not asked, then yes or no, or a refusal's number.
#[derive(Clone, Copy)]
pub struct Question {
    pub from: u32,
    pub to: u32,
    pub first: u32,
    pub last: u32,
    pub answer: Option<Result<bool, u32>>,
}
