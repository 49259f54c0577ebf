// The report as whole numbers in memory that a caller lends. specs/Numbers has the layout.
ghost use Rattle.std.specs.Prelude.{◌≡◌, ◌++◌, ◌≤◌, length, drop, Ok};
ghost use Rattle.report.specs.Report.{report_of};
ghost use Rattle.report.specs.Numbers as N;

use crate::{ReportRefusal, Tally, report_text, span_of};

// One unit of a day's last digit is 864 microseconds.
fn numbers_of(t: Tally) -> [u64; 17]
    ensures { result ≡ N.numbers_of t }
{
    let refused = t.refused;
    let earliest = t.earliest;
    let latest = t.latest;
    let span = span_of(earliest, latest);
    [
        t.accepted,
        refused.one,
        refused.two,
        refused.three,
        refused.four,
        refused.five,
        refused.six,
        t.near,
        t.deep,
        t.unopened,
        earliest.year,
        earliest.day / 100000000,
        earliest.day % 100000000 * 864,
        latest.year,
        latest.day / 100000000,
        latest.day % 100000000 * 864,
        span,
    ]
}

fn put_front(values: [u64; 17], counts: &mut [u64])
    requires { 17 ≤ length counts.old }
    ensures { counts.new ≡ values ++ drop 17 counts.old }
{
    counts[..17].copy_from_slice(&values);
}

// 0, or refusal 17 with nothing written.
fn store_tally(t: Tally, counts: &mut [u64]) -> u64
    ensures value { result ≡ N.store_refusal (Ok t) (length counts.old) }
    ensures counts_after { counts.new ≡ N.stored_over (Ok t) counts.old }
{
    if counts.len() < 17 {
        return 17;
    }
    put_front(numbers_of(t), counts);
    0
}

#[tactic(auto, unfolding(crate::specs::Numbers::store_refusal, crate::specs::Numbers::stored_over))]
fn store_report(report: Result<Tally, ReportRefusal>, counts: &mut [u64]) -> u64
    ensures value { result ≡ N.store_refusal report (length counts.old) }
    ensures counts_after { counts.new ≡ N.stored_over report counts.old }
{
    match report {
        Ok(t) => store_tally(t, counts),
        Err(ReportRefusal::TooMany) => 23,
        Err(ReportRefusal::Odd) => 24,
    }
}

// The report of a whole text, its numbers at the front of the memory: 0, or refusal 23, 24 or 17 with
// nothing written.
pub fn count_text(text: &[u8], counts: &mut [u64]) -> u64
    ensures value { result ≡ N.store_refusal (report_of text.now) (length counts.old) }
    ensures counts_after { counts.new ≡ N.stored_over (report_of text.now) counts.old }
{
    store_report(report_text(text), counts)
}
