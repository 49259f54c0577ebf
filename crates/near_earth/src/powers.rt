ghost use Rattle.std.specs.Prelude.{◌≡◌};
ghost use Rattle.near_earth.specs.Powers as P;

pub fn pow3(x: f64) -> f64
    ensures { result ≡ P.pow3 x }
{
    x * x * x
}

pub fn pow4(x: f64) -> f64
    ensures { result ≡ P.pow4 x }
{
    x * x * x * x
}
