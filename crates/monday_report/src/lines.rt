// The report, printed: thirteen lines, or `refused` and the number, into a lent buffer.
ghost use Rattle.text.specs.Output.{Put};
ghost use Rattle.listing.specs.Listing.{Prints};
ghost use Rattle.monday_report.specs.Print as P;

use listing::put_epoch;
use report::{Refusals, ReportRefusal, Stamp, Tally, span_of};
use text::{put_bytes, put_line};

fn put_refusals(out: &mut [u8], at: usize, r: Refusals) -> usize
    ensures { Put out.old at (P.refusals_text r) out.new result }
{
    let p = put_line(out, at, b"refused 1 ", r.one);
    let p = put_line(out, p, b"refused 2 ", r.two);
    let p = put_line(out, p, b"refused 3 ", r.three);
    let p = put_line(out, p, b"refused 4 ", r.four);
    let p = put_line(out, p, b"refused 5 ", r.five);
    put_line(out, p, b"refused 6 ", r.six)
}

fn put_kinds(out: &mut [u8], at: usize, near: u64, deep: u64, unopened: u64) -> usize
    ensures { Put out.old at (P.kinds_text near deep unopened) out.new result }
{
    let p = put_line(out, at, b"near ", near);
    let p = put_line(out, p, b"deep ", deep);
    put_line(out, p, b"unopened ", unopened)
}

// Epochs as the printing program has them.
fn put_span(out: &mut [u8], at: usize, earliest: Stamp, latest: Stamp) -> usize
    ensures { Put out.old at (P.span_text earliest latest) out.new result }
{
    let span = span_of(earliest, latest);
    let p = put_epoch(out, at, b"earliest ", earliest.year, earliest.day);
    let p = put_epoch(out, p, b"latest ", latest.year, latest.day);
    put_line(out, p, b"span ", span)
}

fn put_times(out: &mut [u8], at: usize, accepted: u64, earliest: Stamp, latest: Stamp) -> usize
    ensures { Put out.old at (P.times_text accepted earliest latest) out.new result }
{
    if accepted == 0 {
        return put_bytes(out, at, b"earliest -\nlatest -\nspan -\n");
    }
    put_span(out, at, earliest, latest)
}

fn put_tally(out: &mut [u8], at: usize, t: Tally) -> usize
    ensures { Put out.old at (P.tally_text t) out.new result }
{
    let refused = t.refused;
    let earliest = t.earliest;
    let latest = t.latest;
    let p = put_line(out, at, b"accepted ", t.accepted);
    let p = put_refusals(out, p, refused);
    let p = put_kinds(out, p, t.near, t.deep, t.unopened);
    put_times(out, p, t.accepted, earliest, latest)
}

fn put_report(out: &mut [u8], at: usize, report: Result<Tally, ReportRefusal>) -> usize
    ensures { Put out.old at (P.report_text report) out.new result }
{
    match report {
        Ok(t) => put_tally(out, at, t),
        Err(why) => match why {
            ReportRefusal::TooMany => put_line(out, at, b"refused ", 23),
            ReportRefusal::Odd => put_line(out, at, b"refused ", 24),
        },
    }
}

// The text at the front of the buffer; nothing where it does not fit. The first run, over a buffer of
// one byte, measures the text.
pub(crate) fn print_report(report: Result<Tally, ReportRefusal>, out: &mut [u8]) -> Option<usize>
    ensures { Prints (P.report_text report) out.old out.new result }
{
    let mut measure = [0u8; 1];
    let size = put_report(&mut measure, 0, report);
    if out.len() < size {
        return None;
    }
    let n = put_report(out, 0, report);
    Some(n)
}
