// The state at a time in range, or why there is none.
ghost use Rattle.std.specs.Prelude.{◌≡◌};
ghost use Rattle.state.specs.Answer as N;

// Position in km and velocity in km/s.
#[derive(Clone, Copy)]
pub struct State {
    pub rx: f64,
    pub ry: f64,
    pub rz: f64,
    pub vx: f64,
    pub vy: f64,
    pub vz: f64,
}

// Document 01's refusals 10 to 15, in order. A near-Earth satellite never meets Eccentricity (12).
#[derive(Clone, Copy)]
pub enum Refusal {
    MeanMotion,
    MeanElements,
    Eccentricity,
    SemiLatusRectum,
    Decayed,
    NotFinite,
}

// A state with the rounds that Kepler's equation took, or why there is none.
pub type Answer = Result<(State, u8), Refusal>;

pub fn number(refusal: Refusal) -> u8
    ensures { result ≡ N.number refusal }
{
    match refusal {
        Refusal::MeanMotion => 10,
        Refusal::MeanElements => 11,
        Refusal::Eccentricity => 12,
        Refusal::SemiLatusRectum => 13,
        Refusal::Decayed => 14,
        Refusal::NotFinite => 15,
    }
}
