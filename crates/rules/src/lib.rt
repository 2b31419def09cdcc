// The types that the rules of documents 01 and 02 and the code share: what the header says, where an item stands,
// the calls, and what each call answers. The only code is that of a state (`phases`); specs/ has the rules, and proofs/ the laws about
// them.
#![tactic(auto)]

pub mod layout;
mod phases;

ghost use Rattle.std.specs.Prelude.{◌≡◌};
ghost use Rattle.rules.specs.Answers.{missed_by};
ghost use Rattle.rules.specs.declared.Unconverted.TheVariants.{Rejected};

// Word 4, decoded: "k + 256·phase; phase 0 at rest, 1 growing"; 2 shrinking.
#[derive(Clone, Copy)]
pub struct State {
    pub k: u64,
    pub phase: u64,
}

// Words 0 to 4, decoded.
#[derive(Clone, Copy)]
pub struct Header {
    pub form: u64,
    pub c: u64,
    pub mul1: u64,
    pub mul2: u64,
    pub state: State,
}

// A level: which one it is (0 the top, 1 the bottom, 2 the interim level), and e where it has 2^e buckets.
#[derive(Clone, Copy)]
pub struct Level {
    pub name: u64,
    pub exponent: u64,
}

// Hash 1 and hash 2 of a key, and beside them its tag, which comes from the product of hash 1; 0 in form 1, which has none.
#[derive(Clone, Copy)]
pub struct Hashes {
    pub first: u64,
    pub second: u64,
    pub tag: u64,
}

// A bucket of a level.
#[derive(Clone, Copy)]
pub struct Place {
    pub level: u64,
    pub bucket: usize,
}

// A slot of a bucket of a level.
#[derive(Clone, Copy, PartialEq, Eq, PartialOrd, Ord)]
pub struct Slot {
    pub level: u64,
    pub bucket: usize,
    pub slot: usize,
}

// What a key leads to.
#[derive(Clone, Copy, PartialEq, Eq)]
pub struct Record {
    pub function: u64,
    pub place: u64,
}

// Where a key stands: the index of its key word, and its level, 0 the top, 1 the bottom, 2 the interim level.
#[derive(Clone, Copy)]
pub struct Spot {
    pub word: u64,
    pub level: u64,
}

// What a script's events are: document 01's calls, but for create, and make, which makes their stores; and request f)'s two.
#[derive(Clone, Copy)]
pub enum ScriptCall {
    Query(u64),
    Insert(u64, Record),
    Update(u64, Record),
    Delete(u64),
    Begin,
    Shrink,
    Back,
    Step,
    End,
    Recover,
}

// What the search for a key finds, with the number of buckets looked at.
#[derive(Clone, Copy)]
pub enum Lookup {
    Stands(Slot, u64),
    Absent(u64),
}

// "So a placing is a free slot, a move of one slot to another, or nothing."
#[derive(Clone, Copy)]
pub enum Placing {
    Free(Slot),
    Move(Slot, Slot),
    Nowhere,
}

// What recovery finds: a sound table; one key in two slots, of which the second is to be cleared; a set flag with
// the slot that it is set for; or none of these.
#[derive(Clone, Copy)]
pub enum Finding {
    Sound,
    Doubled(Slot, Slot),
    Flagged(Slot),
    Neither,
}

// The refusals, in the order of their numbers: document 01's fourteen, then those of document 02.
#[derive(Clone, Copy)]
pub enum Refusal {
    BadHeader,
    ShortList,
    FlagSet,
    KeyPresent,
    KeyAbsent,
    NoPlace,
    AlreadyResizing,
    NotResizing,
    AtCapacity,
    InterimTaken,
    InterimEmpty,
    NoKind,
    BadCreation,
    BadMaking,
    ShortRecords,
    BadPosition,
    TooSmall,
}

// What insert, update, delete, begin, shrink, back, end and recover answer: how many stores they listed, or why they listed none.
pub type Change = Result<u64, Refusal>;

// What a step answers: the change, and the placing of the item that it takes; nothing where it was refused.
#[derive(Clone, Copy)]
pub struct Stepped {
    pub change: Change,
    pub placing: Placing,
}

// What a step from a given interim bucket on answers beside it: the bucket in which the item stood, counted from 0 in the level; 0 where the
// step was refused.
#[derive(Clone, Copy)]
pub struct SteppedFrom {
    pub stepped: Stepped,
    pub bucket: u64,
}

// A key that is known: what it leads to, where it stands, and the number of buckets looked at.
#[derive(Clone, Copy)]
pub struct Known {
    pub what: Record,
    pub spot: Spot,
    pub looked: u64,
}

// Why a query or a chain has no answer, and the number of buckets looked at.
#[derive(Clone, Copy)]
pub struct Missed {
    pub refusal: Refusal,
    pub looked: u64,
}

// A refusal of the tests that come first: no bucket was looked at.
impl From<Refusal> for Missed {
    ghost from_gives = { λ r m. m ≡ missed_by r 0 };

    fn from(refusal: Refusal) -> Missed {
        Missed { refusal, looked: 0 }
    }
}

// What query answers: the record and where its key stands, or why there is none.
pub type Query = Result<Known, Missed>;

// What the chain of inlined callers answers: how many buckets were looked at where every depth has its record, or why no record was written.
pub type Chain = Result<u64, Missed>;

// Why a table is not converted: an item, with that key, found no place in the second table; or one of the tests refused.
#[derive(Clone, Copy)]
pub enum Unconverted {
    Stuck(u64),
    Rejected(Refusal),
}

// A refusal of the tests, of which none is about an item.
impl From<Refusal> for Unconverted {
    ghost from_gives = { λ r u. u ≡ Rejected r };

    fn from(refusal: Refusal) -> Unconverted {
        Unconverted::Rejected(refusal)
    }
}

// What a conversion answers: that the second table is the other form of the first, or why it is not.
pub type Conversion = Result<(), Unconverted>;

// One of two tables that are asked as one.
#[derive(Clone, Copy)]
pub enum Side {
    Newer,
    Older,
}

// A key that one of two tables holds: the table, the index of its key word there, and the number of buckets looked at.
#[derive(Clone, Copy)]
pub struct Hit {
    pub side: Side,
    pub word: u64,
    pub looked: u64,
}

// Why neither table has a record to tell: the table that is told of, the refusal, and the number of buckets looked at.
#[derive(Clone, Copy)]
pub struct Miss {
    pub side: Side,
    pub refusal: Refusal,
    pub looked: u64,
}

// What asking two tables answers.
pub type Asked = Result<Hit, Miss>;

// What create and make answer.
pub type Verdict = Result<(), Refusal>;
