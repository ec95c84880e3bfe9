// Document 01's declared types. What they mean is in specs/, which a reader has to believe; the only code here says a refusal's number and place, in numbers
// and in words.
#![tactic(auto)]

ghost use Rattle.std.specs.Prelude.{◌≡◌, ◌≤◌, take};

mod numbers;

pub use numbers::number_of;

// The rates of the turbo code.
#[derive(Clone, Copy)]
pub enum Rate {
    Half,
    Third,
    TwoThirds,
}

// An in-phase part and a quadrature part.
#[derive(Clone, Copy)]
pub struct Point {
    pub first: f32,
    pub second: f32,
}

// A cell is silent, or it carries one point. Document 01 asks for this enum by name, so it is no Option.
#[derive(Clone, Copy)]
pub enum Cell {
    Silent,
    Carries(Point),
}

// A point of a block slot, by the slot's and the point's number: what a cell carries, where it carries something.
#[derive(Clone, Copy, Debug, PartialEq, Eq)]
pub struct PointOf {
    pub slot: usize,
    pub point: usize,
}

// The profile as a value: the unused seeds are zero. The mode stays a number, since C may give any: one that is no mode is a fault of the profile.
#[derive(Clone, Copy)]
pub struct Profile {
    pub masks: [u32; 8],
    pub level: f32,
    pub mode: u8,
    pub k: u8,
    pub seeds: [u32; 48],
    pub floor: f32,
}

// Why a call refuses what it got: the refusals of the table, and those that document 02 adds. At Mask to Floor, which name a field of the profile, with the
// byte where the field's first faulty number begins; at Twins with the block slot that repeats an earlier one.
#[derive(Clone, Copy, Debug, PartialEq, Eq)]
pub enum Refusal {
    EndsInField,
    WrongTag,
    WrongLength,
    EndsBetweenFields,
    WrongData,
    WrongCells,
    OutsideGrid,
    TooManyLost,
    NoCodeword,
    PastEnd,
    Unfinished,
    UnequalGrids,
    FullTotal,
    NoSuchState,
    Disagreement,
    Mask(usize),
    Level(usize),
    Mode(usize),
    K(usize),
    Seed(usize),
    Floor(usize),
    Twins(usize),
}

// What was lent is not of the length that it should have, so nothing was written.
#[derive(Clone, Copy, Debug, PartialEq, Eq)]
pub struct Misfit;

// Why the outer code makes no parity and restores nothing.
#[derive(Clone, Copy, Debug, PartialEq, Eq)]
pub enum OuterError {
    BadK,
    BadLength,
    TooManyLost,
    NoCodeword,
}

// Why no packet is coded.
#[derive(Clone, Copy, Debug, PartialEq, Eq)]
pub enum CodingError {
    WrongMode,
    WrongLength,
}

// Why a packet is lost: it was marked, a bit is doubtful, the check word, the reserved bits or the coded bits are not right.
#[derive(Clone, Copy, Debug, PartialEq, Eq)]
pub enum Reason {
    Marked,
    Doubtful,
    CheckWord,
    Reserved,
    Coded,
}

// A profile's bytes, and zeros after them: no profile is longer.
#[derive(Clone, Copy)]
pub struct Written {
    pub bytes: [u8; 252],
    pub count: usize,
    ghost fits: { count ≤ 252 },
}

impl Written {
    // Those of the profile alone.
    pub fn as_bytes(&self) -> &[u8]
        ensures { result.now ≡ take self.now.count self.now.bytes }
    {
        &self.bytes[..self.count]
    }
}

// What receiving answers: bit p of the lost mask and reason p are packet p's. The place is an answer's. It stays in numbers, and is no Result: mask and reasons
// come with refusals 9 and 10 too, C hands the numbers over, and a receipt that is added may have any.
#[derive(Clone, Copy)]
pub struct Receipt {
    pub number: u32,
    pub place: usize,
    pub lost: u16,
    pub reasons: [u8; 16],
}

// Totals over blocks: for packet position p, from 8p on, how often it was accepted, restored, undelivered, and how often each reason 11 to 15 came.
#[derive(Clone, Copy)]
pub struct Totals {
    pub counts: [u64; 128],
}
