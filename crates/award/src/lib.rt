// The check of an award plan (document 02, wish 11): who wins which slot is proposed by an optimiser
// that nobody trusts, and accepted only if it breaks no rule.
#![tactic(auto)]

ghost use Rattle.std.specs.Prelude.{◌≡◌, ℕ, ◌+◌, ◌*◌, ◌/◌, ◌≤◌, ◌<◌, length};
ghost use Rattle.instant.specs.Calendar.{in_calendar};
ghost use Rattle.award.specs.Plan.{first, FirstThat, offer_at, unsound, before, clash, missing, names, repeated, clash_with, clashing, sum_below, bid_at, answer_of};

use instant::{Instant, date_of};

// An offer for a slot: the antenna, the instants at which the slot starts and ends, in microseconds
// from 1957 January 1, and the bid in whole cents.
#[derive(Clone, Copy)]
pub struct Offer {
    pub antenna: u64,
    pub start: u64,
    pub end: u64,
    pub bid: u64,
}

// Why a plan is refused.
#[derive(Clone, Copy)]
pub enum AwardRefusal {
    // 18: more than 256 offers or entries.
    TooMany,
    // 27: an offer outside the calendar, whose end is not after its start or whose bid is too large.
    Unsound(usize),
    // 28: no such offer.
    NoSuchOffer(usize),
    // 29: named by an earlier entry.
    NamedTwice(usize),
    // 30: clash with an earlier entry.
    Clash(usize),
    // 31: wrong total.
    WrongTotal,
}

fn in_calendar(t: u64) -> bool
    ensures { result ≡ in_calendar t }
{
    match date_of(Instant(t)) {
        Some(_) => true,
        None => false,
    }
}

fn offer_at(offers: &[u64], k: usize) -> Offer
    requires { k < length offers.now / 4 }
    ensures { result ≡ offer_at offers.now k }
{
    let i = 4 * k;
    Offer {
        antenna: offers[i],
        start: offers[i + 1],
        end: offers[i + 2],
        bid: offers[i + 3],
    }
}

fn is_unsound(offer: Offer) -> bool
    ensures { result ≡ unsound offer }
{
    if !in_calendar(offer.start) {
        return true;
    }
    if !in_calendar(offer.end) {
        return true;
    }
    if offer.end <= offer.start {
        return true;
    }
    offer.bid > 1000000000
}

// The first number below n that has a fault, or n.
fn first_of<F: Fn(usize) -> bool>(n: usize, fault: F) -> usize
    requires { (k : ℕ) → k < n → F.pre fault k }
    ensures { FirstThat (F.post fault) n result }
{
    for k in 0..n {
        if fault(k) {
            return k;
        }
    }
    n
}

fn first_unsound(offers: &[u64]) -> usize
    ensures { result ≡ first (λ k. unsound (offer_at offers.now k)) (length offers.now / 4) }
{
    first_of(offers.len() / 4, |k| is_unsound(offer_at(offers, k)))
}

fn first_missing(n: u64, entries: &[u64]) -> usize
    ensures { result ≡ first (λ i. missing n entries.now i) (length entries.now) }
{
    first_of(entries.len(), |i| entries[i] >= n)
}

// The first of the first n entries that names offer x, or n.
fn first_naming(entries: &[u64], x: u64, n: usize) -> usize
    requires { n ≤ length entries.now }
    ensures { result ≡ first (λ j. names entries.now x j) n }
{
    first_of(n, |j| entries[j] == x)
}

fn first_repeated(entries: &[u64]) -> usize
    ensures { result ≡ first (λ i. repeated entries.now i) (length entries.now) }
{
    first_of(entries.len(), |i| first_naming(entries, entries[i], i) < i)
}

// Whether a slot ends at least the turnaround before another starts. The gap in whole seconds is
// compared: the turnaround in microseconds may not fit.
fn is_before(end: u64, start: u64, turnaround: u64) -> bool
    ensures { result ≡ before turnaround end start }
{
    if start < end {
        return false;
    }
    (start - end) / 1000000 >= turnaround
}

fn is_clash(p: Offer, q: Offer, turnaround: u64) -> bool
    ensures { result ≡ clash turnaround p q }
{
    if p.antenna != q.antenna {
        return false;
    }
    if is_before(p.end, q.start, turnaround) {
        return false;
    }
    !is_before(q.end, p.start, turnaround)
}

// The first of the entries before the i-th whose offer clashes with its, or i.
fn clash_before(offers: &[u64], entries: &[u64], i: usize, turnaround: u64) -> usize
    requires i_in_bounds { i < length entries.now }
    requires entries_value { first (λ k. missing (length offers.now / 4) entries.now k) (length entries.now) ≡ length entries.now }
    ensures { result ≡ first (λ j. clash_with offers.now entries.now turnaround i j) i }
{
    let x = entries[i] as usize;
    let p = offer_at(offers, x);
    first_of(i, |j| {
        let y = entries[j] as usize;
        is_clash(p, offer_at(offers, y), turnaround)
    })
}

fn first_clash(offers: &[u64], entries: &[u64], turnaround: u64) -> usize
    requires { first (λ k. missing (length offers.now / 4) entries.now k) (length entries.now) ≡ length entries.now }
    ensures { result ≡ first (λ i. clashing offers.now entries.now turnaround i) (length entries.now) }
{
    first_of(
        entries.len(),
        |i| clash_before(offers, entries, i, turnaround) < i,
    )
}

// The sum of the bids of the offers named. At most 256 sound ones: it fits.
fn total_of(offers: &[u64], entries: &[u64]) -> u64
    requires entries_len_bound { length entries.now ≤ 256 }
    requires offers_value { first (λ k. unsound (offer_at offers.now k)) (length offers.now / 4) ≡ length offers.now / 4 }
    requires entries_value { first (λ k. missing (length offers.now / 4) entries.now k) (length entries.now) ≡ length entries.now }
    ensures { result ≡ sum_below (λ i. bid_at offers.now entries.now i) (length entries.now) }
{
    let mut sum: u64 = 0;
    for &x in entries {
        let o = offer_at(offers, x as usize);
        sum += o.bid;
    }
    sum
}

// Checks a plan: offers of four numbers each (antenna, start, end, bid; up to three numbers left over
// are no offer), entries that name offers by their number, the claimed total in cents, and the
// turnaround in seconds.
pub fn check_plan(
    offers: &[u64],
    entries: &[u64],
    total: u64,
    turnaround: u64,
) -> Result<(), AwardRefusal>
    ensures { result ≡ answer_of offers.now entries.now total turnaround }
{
    let n = offers.len() / 4;
    let m = entries.len();
    if n > 256 {
        return Err(AwardRefusal::TooMany);
    }
    if m > 256 {
        return Err(AwardRefusal::TooMany);
    }
    let k = first_unsound(offers);
    if k < n {
        return Err(AwardRefusal::Unsound(k));
    }
    let i = first_missing(n as u64, entries);
    if i < m {
        return Err(AwardRefusal::NoSuchOffer(i));
    }
    let i = first_repeated(entries);
    if i < m {
        return Err(AwardRefusal::NamedTwice(i));
    }
    let i = first_clash(offers, entries, turnaround);
    if i < m {
        return Err(AwardRefusal::Clash(i));
    }
    if total_of(offers, entries) != total {
        return Err(AwardRefusal::WrongTotal);
    }
    Ok(())
}
