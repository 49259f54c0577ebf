// Two-line element sets: the record, which records are legal, and reading.
#![tactic(auto)]

ghost use Rattle.std.specs.Prelude.{◌≡◌};
ghost use Rattle.instant.specs.Calendar.{epoch_of};
ghost use Rattle.tle.specs.Read.{class_of, letter, given};
ghost use Rattle.tle.specs.Refusals.{number_of};

use instant::{Instant, epoch_instant};

mod limits;
mod reader;

pub use limits::{in_form, legal};
pub use reader::{read_form, read_meaning};

#[derive(Clone, Copy)]
pub enum Class {
    Unclassified,
    Classified,
    Secret,
}

impl Class {
    // The class as it stands in column 8 of line 1.
    pub fn letter(self) -> u8
        ensures { result ≡ letter self }
    {
        match self {
            Class::Unclassified => b'U',
            Class::Classified => b'C',
            Class::Secret => b'S',
        }
    }

    // The class whose letter b is. Whether b is one of the three is the layout's to judge: any other byte
    // counts as S.
    pub fn of_letter(b: u8) -> Class
        ensures { result ≡ class_of b }
    {
        if b == b'U' {
            return Class::Unclassified;
        }
        if b == b'C' {
            return Class::Classified;
        }
        Class::Secret
    }
}

// The international designator: eight blanks, or launch year and number (five digits) and three
// places for the piece, letters first, then blanks, each as its byte.
#[derive(Clone, Copy)]
pub enum Designator {
    Blank,
    Piece { launch: u64, a: u8, b: u8, c: u8 },
}

// A field with an exponent: mantissa * 10 ^ (exponent - 5). A zero mantissa has exponent 0.
#[derive(Clone, Copy)]
pub struct Scaled {
    pub mantissa: i64,
    pub exponent: i64,
}

// Each field is a whole number in its last decimal place: angles in 0.0001 degree, eccentricity in
// 10 ^ -7, motion in 10 ^ -8 revolution a day, ndot in 10 ^ -8. The year is whole, 1957 to 2056, and
// the day counts 10 ^ -8 of a day; January 1, 0h, is 100000000.
#[derive(Clone, Copy)]
pub struct Record {
    pub number: u64,
    pub class: Class,
    pub designator: Designator,
    pub year: u64,
    pub day: u64,
    pub ndot: i64,
    pub nddot: Scaled,
    pub bstar: Scaled,
    pub ephemeris: u64,
    pub element: u64,
    pub inclination: u64,
    pub node: u64,
    pub eccentricity: u64,
    pub perigee: u64,
    pub anomaly: u64,
    pub motion: u64,
    pub revolution: u64,
}

// The fields of a record, held to no range, and whether an accepted form yields them. What takes a record
// does not take them; read_meaning, which judges them, makes the record. Only read_form and `of` make them.
#[derive(Clone, Copy)]
pub struct Fields(Record, bool);

impl Fields {
    // Fields to be judged, whoever gives them.
    pub fn of(r: Record) -> Fields
        ensures { result ≡ given r }
    {
        Fields(r, in_form(r))
    }

    // The fields to be shown as they are. No range was held to: writing and opening judge the whole
    // record again.
    pub fn unjudged(self) -> Record
        ensures { result ≡ self.0 }
    {
        self.0
    }
}

// The record's epoch as an instant; of a legal record always inside 1957-2056.
pub fn epoch(r: Record) -> Option<Instant>
    ensures { result ≡ epoch_of r.year r.day }
{
    epoch_instant(r.year, r.day)
}

// The two lines of a set.
#[derive(Clone, Copy)]
pub enum Line {
    One,
    Two,
}

// The fields that have a range, in column order.
#[derive(Clone, Copy)]
pub enum Field {
    Day,
    Inclination,
    Node,
    Perigee,
    Anomaly,
    Motion,
}

// Why two lines are refused: document 01's refusals 1 to 6, each with what comes back with it. Fields
// that no accepted form yields are refused with 16; no two lines are.
#[derive(Clone, Copy)]
pub enum Refusal {
    Length(Line),
    Start(Line),
    Column(Line, usize),
    Checksum(Line),
    Numbers,
    Range(Field),
    NoForm,
}

impl Refusal {
    // Document 01's number of the refusal.
    pub fn number(self) -> u64
        ensures { result ≡ number_of self }
    {
        match self {
            Refusal::Length(_) => 1,
            Refusal::Start(_) => 2,
            Refusal::Column(_, _) => 3,
            Refusal::Checksum(_) => 4,
            Refusal::Numbers => 5,
            Refusal::Range(_) => 6,
            Refusal::NoForm => 16,
        }
    }
}
