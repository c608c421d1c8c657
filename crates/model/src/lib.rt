// Document 01: the types that all layers share. What they mean is defined in specs/.
#![tactic(auto)]

// A crisp value, in thousandths.
#[repr(C)]
#[derive(Clone, Copy, PartialEq, Eq, PartialOrd, Ord)]
pub struct Crisp(pub i32);

// A degree, in millionths.
#[derive(Clone, Copy, PartialEq, Eq, PartialOrd, Ord)]
pub struct Degree(pub u32);

// A point of a term.
#[derive(Clone, Copy, PartialEq, Eq)]
pub struct Point {
    pub at: Crisp,
    pub degree: Degree,
}

// RANGE of an output: its figures lie from the least to the most.
#[derive(Clone, Copy, PartialEq, Eq)]
pub struct Range {
    pub least: Crisp,
    pub most: Crisp,
}

// The declared type of an input.
#[derive(Clone, Copy, PartialEq, Eq)]
pub enum InputType {
    Real,
    Int,
}

// The algorithms for AND and OR: MIN/MAX, PROD/ASUM, BDIF/BSUM.
#[derive(Clone, Copy, PartialEq, Eq)]
pub enum Pair {
    MinMax,
    ProdAsum,
    BdifBsum,
}

// How the degrees that rules give a term become its height: ACCU.
#[derive(Clone, Copy, PartialEq, Eq)]
pub enum Accumulation {
    Max,
    Bsum,
}

// ACT: singletons make it without effect.
#[derive(Clone, Copy, PartialEq, Eq)]
pub enum Activation {
    Min,
    Prod,
}

// One reading of an input.
#[derive(Clone, Copy)]
pub enum Reading {
    Real(f32),
    Int(i16),
    Absent,
}

// Why a reading gives an input of a declared type no value.
#[derive(Clone, Copy, PartialEq, Eq)]
pub enum NotTaken {
    Absent,
    NotFinite,
    WrongKind,
}

// What an output's figure rests on.
#[derive(Clone, Copy, PartialEq, Eq)]
pub enum Mark {
    None,
    Fired,
    Default,
    Held,
}

// The answer of one output: its figure in thousandths and as a float, and the sum of its heights.
#[derive(Clone, Copy)]
pub struct Answer {
    pub mark: Mark,
    pub thousandths: Crisp,
    pub sum: u32,
    pub value: f64,
}

// The held record: a figure for each output, 0 in the places past the last. Hosts lend it.
#[repr(C)]
#[derive(Clone, Copy, PartialEq, Eq)]
pub struct Held {
    pub figures: [Crisp; 6],
}

// The refusals, in the order of their numbers; each holds its place where it has one of its own.
#[derive(Clone, Copy, PartialEq, Eq)]
pub enum Refusal {
    TextTooLong,
    WrongToken(usize),
    WrongNumber(usize),
    WrongName(usize),
    NotDeclared(usize),
    TooMany(usize),
    WrongPosition(usize),
    Unpaired(usize),
    PartMissing(usize),
    BufferTooShort(usize),
    ImageNotAccepted,
    WrongCount,
    WrongHeld,
    WrongReading(usize),
    TextOver,
}

// One evaluation: the answers of all outputs, and the held record after it.
// Kept: a verdict beside the answers, since a refused call too answers all outputs and leaves the record (`Tells`).
#[derive(Clone, Copy)]
pub struct Evaluation {
    pub verdict: Result<(), Refusal>,
    pub answers: [Answer; 6],
    pub held: Held,
}

// One call for daily use: the answers of all outputs; the held record is brought up to date where it stands.
// Kept: a verdict beside the answers, as in `Evaluation`.
#[derive(Clone, Copy)]
pub struct Reply {
    pub verdict: Result<(), Refusal>,
    pub answers: [Answer; 6],
}
