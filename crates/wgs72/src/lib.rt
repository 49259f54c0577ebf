// The gravity constants of 002's getgravconst at WGS-72, and what sgp4init and sgp4 compute of them
// alone. 002 computes each anew at every call; here each is the number that comes out, proved equal.
#![tactic(auto)]

ghost use Rattle.std.specs.Prelude.{◌≡◌};
ghost use Rattle.wgs72.specs.Getgravconst as G;
ghost use Rattle.wgs72.specs.Computed as C;

pub const RADIUSEARTHKM: f64 = 6378.135;

pub const J2: f64 = 0.001082616;

pub const J4: f64 = -0.00000165597;

pub fn xke() -> f64
    ensures { result ≡ G.xke }
{
    7.436691613317342e-2
}

pub fn j3oj2() -> f64
    ensures { result ≡ G.j3oj2 }
{
    -0.002345069720011528
}

pub fn temp4() -> f64
    ensures { result ≡ C.temp4 }
{
    0.0
}

pub fn ss() -> f64
    ensures { result ≡ C.ss }
{
    1.0122292801892716
}

pub fn qzms2t() -> f64
    ensures { result ≡ C.qzms2t }
{
    1.880279159015271e-9
}

pub fn x2o3() -> f64
    ensures { result ≡ C.x2o3 }
{
    0.6666666666666666
}

pub fn vkmpersec() -> f64
    ensures { result ≡ C.vkmpersec }
{
    7.905370510517634
}
