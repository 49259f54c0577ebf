// The line of a pass.
#![tactic(auto)]

ghost use Rattle.text.specs.Output.{Put};
ghost use Rattle.pass_text.specs.Print.{rise_word, set_word, edge_text, top_text, pass_text};

use date_text::put_instant;
use decimals::put_fixed;
use instant::{Degrees, Instant};
use text::{put_byte, put_bytes};

fn put_rise_word(out: &mut [u8], at: usize, begun: bool) -> usize
    ensures { Put out.old at (rise_word begun) out.new result }
{
    if begun {
        return put_bytes(out, at, b"since ");
    }
    put_bytes(out, at, b"rise ")
}

fn put_set_word(out: &mut [u8], at: usize, still: bool) -> usize
    ensures { Put out.old at (set_word still) out.new result }
{
    if still {
        return put_bytes(out, at, b" until ");
    }
    put_bytes(out, at, b" set ")
}

fn put_edge(out: &mut [u8], at: usize, t: Instant, azimuth: Degrees) -> usize
    ensures { Put out.old at (edge_text t.0 azimuth.0) out.new result }
{
    let p = put_instant(out, at, t);
    let p = put_bytes(out, p, b" azimuth ");
    put_fixed(out, p, azimuth.0, 3)
}

fn put_top(out: &mut [u8], at: usize, t: Instant, elevation: Degrees) -> usize
    ensures { Put out.old at (top_text t.0 elevation.0) out.new result }
{
    let p = put_bytes(out, at, b" highest ");
    let p = put_instant(out, p, t);
    let p = put_bytes(out, p, b" elevation ");
    put_fixed(out, p, elevation.0, 3)
}

// Rise and set with their azimuths, the highest point with its elevation. Where the pass was above at the
// first sample it is `since`, where it was at the last it is `until`.
pub fn put_pass(
    out: &mut [u8],
    at: usize,
    begun: bool,
    rise: Instant,
    from: Degrees,
    highest: Instant,
    top: Degrees,
    still: bool,
    set: Instant,
    to: Degrees,
) -> usize
    ensures { Put out.old at (pass_text begun rise.0 from.0 highest.0 top.0 still set.0 to.0) out.new result }
{
    let p = put_rise_word(out, at, begun);
    let p = put_edge(out, p, rise, from);
    let p = put_top(out, p, highest, top);
    let p = put_set_word(out, p, still);
    let p = put_edge(out, p, set, to);
    put_byte(out, p, b'\n')
}
