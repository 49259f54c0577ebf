// An award plan in lent memory checked, for C and Rust: what checking answers as one number.
#![tactic(auto)]

ghost use Rattle.std.specs.Prelude.{◌≡◌, Err};
ghost use Rattle.award.specs.Plan.{answer_of};
ghost use Rattle.lent_award.specs.Answer.{award_answer, PlaceFits};

use answers::answer;
use award::{AwardRefusal, check_plan};

#[tactic(auto, unfolding(crate::specs::Answer::award_answer))]
fn refused(why: AwardRefusal) -> u64
    requires { PlaceFits (Err why) }
    ensures { result ≡ award_answer (Err why) }
{
    match why {
        AwardRefusal::TooMany => answer(18, 0, 0, 0),
        AwardRefusal::Unsound(k) => answer(27, 0, k as u16, 0),
        AwardRefusal::NoSuchOffer(i) => answer(28, 0, i as u16, 0),
        AwardRefusal::NamedTwice(i) => answer(29, 0, i as u16, 0),
        AwardRefusal::Clash(i) => answer(30, 0, i as u16, 0),
        AwardRefusal::WrongTotal => answer(31, 0, 0, 0),
    }
}

fn award_answer(checked: Result<(), AwardRefusal>) -> u64
    requires { PlaceFits checked }
    ensures { result ≡ award_answer checked }
{
    match checked {
        Ok(()) => answer(0, 0, 0, 0),
        Err(why) => refused(why),
    }
}

// A plan checked: 0, or 18; 27 with the offer; 28 to 30 with the entry; 31.
pub fn check_held(offers: &[u64], entries: &[u64], total: u64, turnaround: u64) -> u64
    ensures { result ≡ award_answer (answer_of offers.now entries.now total turnaround) }
{
    let checked = check_plan(offers, entries, total, turnaround);
    award_answer(checked)
}
