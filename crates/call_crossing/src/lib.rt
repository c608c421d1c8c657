// How the readings and answers of a call cross: a reading is a number that says its kind and a field for each kind.
#![tactic(auto)]

ghost use Rattle.std.specs.Prelude.{◌≡◌, map};
ghost use Rattle.call_crossing.specs.Values.{reading_of, mark_number, answer_of};

use model::{Answer, Mark, Reading};

// Kind 1 is a REAL, 2 an INT, any other no reading.
#[repr(C)]
#[derive(Clone, Copy)]
pub struct GrillenhelmReading {
    pub kind: u32,
    pub real: f32,
    pub whole: i16,
}

// Places past the count are not looked at.
#[repr(C)]
#[derive(Clone, Copy)]
pub struct GrillenhelmReadings {
    pub at: [GrillenhelmReading; 8],
    pub count: usize,
}

// Mark 0 is none, 1 fired, 2 default, 3 held.
#[repr(C)]
#[derive(Clone, Copy)]
pub struct GrillenhelmAnswer {
    pub mark: u32,
    pub thousandths: i32,
    pub sum: u32,
    pub value: f64,
}

impl From<GrillenhelmReading> for Reading {
    ghost from_gives = { λ r x. x ≡ reading_of r };

    fn from(r: GrillenhelmReading) -> Reading {
        match r.kind {
            1 => Reading::Real(r.real),
            2 => Reading::Int(r.whole),
            _ => Reading::Absent,
        }
    }
}

pub fn readings_of(rs: GrillenhelmReadings) -> [Reading; bounds::INPUTS]
    ensures { result ≡ map reading_of rs.at }
{
    rs.at.map(Reading::from)
}

// Kept: the C interface names these numbers, whatever the order of the marks.
fn mark_number(m: Mark) -> u32
    ensures { result ≡ mark_number m }
{
    match m {
        Mark::None => 0,
        Mark::Fired => 1,
        Mark::Default => 2,
        Mark::Held => 3,
    }
}

impl From<Answer> for GrillenhelmAnswer {
    ghost from_gives = { λ a x. x ≡ answer_of a };

    fn from(a: Answer) -> GrillenhelmAnswer {
        GrillenhelmAnswer {
            mark: mark_number(a.mark),
            thousandths: a.thousandths.0,
            sum: a.sum,
            value: a.value,
        }
    }
}

pub fn answers_of(xs: [Answer; bounds::OUTPUTS]) -> [GrillenhelmAnswer; 6]
    ensures { result ≡ map answer_of xs }
{
    xs.map(GrillenhelmAnswer::from)
}
