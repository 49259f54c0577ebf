// The saved position, with methods by value: choose the start, take one stride, hand the position back.
ghost use Rattle.std.specs.Prelude.{◌≡◌, ◌+◌, ◌-◌, ◌<◌, ◌≤◌, ◌^◌};
ghost use Rattle.resonance.specs.Place as P;

use crate::dots::{Dots, dots_of};
use instant::Strides;
use satellite::{Integrator, Resonance};

// The side of the epoch.
#[derive(Clone, Copy, PartialEq, Eq)]
pub enum Side {
    Forward,
    Back,
}

// A side, a stride number and the integrated pair.
#[derive(Clone, Copy)]
pub struct Place {
    pub side: Side,
    pub strides: Strides,
    pub xli: f64,
    pub xni: f64,
}

// What a request makes of the saved position, and the strides that it took.
#[derive(Clone, Copy)]
pub struct Advance {
    pub place: Place,
    pub strides: Strides,
}

fn at_epoch(kind: Resonance, x: f64) -> f64
    ensures { result ≡ P.at_epoch kind x }
{
    match kind {
        Resonance::None => 0.0,
        Resonance::OneDay(_) => x,
        Resonance::HalfDay(_) => x,
    }
}

// The position of the epoch, which a newly opened satellite has.
pub fn epoch_place(i: Integrator) -> Place
    ensures { result ≡ P.epoch_of i }
{
    let kind = i.resonance;
    let xli = at_epoch(kind, i.xlamo);
    let xni = at_epoch(kind, i.no);
    Place {
        side: Side::Forward,
        strides: Strides(0),
        xli,
        xni,
    }
}

fn delt_of(side: Side) -> f64
    ensures { result ≡ P.delt_of side }
{
    match side {
        Side::Forward => 720.0,
        Side::Back => -720.0,
    }
}

fn next_xli(d: Dots, xli: f64, delt: f64) -> f64
    ensures { result ≡ P.next_xli d xli delt }
{
    xli + d.xldot * delt + d.xndt * 259200.0
}

fn next_xni(d: Dots, xni: f64, delt: f64) -> f64
    ensures { result ≡ P.next_xni d xni delt }
{
    xni + d.xndt * delt + d.xnddt * 259200.0
}

impl Place {
    // 002's atime, minutes from the epoch, with no sum over the strides.
    pub(crate) fn atime(self) -> f64
        ensures { result ≡ P.atime_of self }
    {
        let n = self.strides.0;
        let side = self.side;
        let x = n as f64 * 720.0;
        match side {
            Side::Forward => x,
            Side::Back => 0.0 - x,
        }
    }

    pub(crate) fn dots(self, i: Integrator) -> Dots
        ensures { result ≡ P.dots_at i self }
    {
        let atime = self.atime();
        let xomi = i.argpo + i.argpdot * atime;
        let kind = i.resonance;
        dots_of(kind, self.xli, self.xni, i.xfact, xomi)
    }

    // The same position, to be carried on towards `side`.
    fn facing(self, side: Side) -> Place
        ensures { result ≡ P.facing side self }
    {
        Place { side, ..self }
    }

    // Whether a request for `m` strides on `side` goes on from here.
    pub(crate) fn resumes(self, side: Side, m: Strides) -> bool
        ensures { result ≡ P.resumes self side m.0 }
    {
        let n = self.strides.0;
        let have = self.side;
        if m.0 < n {
            return false;
        }
        if n == 0 {
            return true;
        }
        have == side
    }

    // Choose the start.
    fn start(self, epoch: Place, side: Side, m: Strides) -> Place
        ensures { result ≡ P.begun epoch self side m.0 }
    {
        if self.resumes(side, m) {
            self.facing(side)
        } else {
            epoch.facing(side)
        }
    }

    // Take one stride.
    fn stride(self, i: Integrator) -> Place
        requires { self.strides.0 + 1 < 2 ^ 32 }
        ensures { result ≡ P.stride i self }
    {
        let n = self.strides.0;
        let side = self.side;
        let delt = delt_of(side);
        let d = self.dots(i);
        let xli = next_xli(d, self.xli, delt);
        let xni = next_xni(d, self.xni, delt);
        Place {
            side,
            strides: Strides(n + 1),
            xli,
            xni,
        }
    }

    // Hand the position back.
    fn kept(self) -> Place
        ensures { result ≡ P.kept self }
    {
        let n = self.strides.0;
        if n == 0 {
            self.facing(Side::Forward)
        } else {
            self
        }
    }

    // The position of `m` strides, from a start that is not past it, handed back.
    fn carried(self, i: Integrator, m: Strides) -> Place
        requires { P.number self ≤ m.0 }
        ensures { result ≡ P.kept (P.iter i (m.0 - P.number self) self) }
    {
        let mut p = self;
        for _ in self.strides.0..m.0 {
            p = p.stride(i);
        }
        p.kept()
    }

    // What a request for `m` strides on `side` makes of any saved position.
    pub fn advance(self, i: Integrator, side: Side, m: Strides) -> Advance
        ensures { result ≡ P.advance_of i self side m.0 }
    {
        let goal = m.0;
        let from = self.start(epoch_place(i), side, m);
        let n = from.strides.0;
        let place = from.carried(i, m);
        Advance {
            place,
            strides: Strides(goal - n),
        }
    }
}
