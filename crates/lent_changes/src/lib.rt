// Two rosters in lent memory compared, for C and Rust: what comparing answers as one number.
#![tactic(auto)]

ghost use Rattle.std.specs.Prelude.{◌≡◌, length};
ghost use Rattle.roster.specs.Row.{roster_with};
ghost use Rattle.compare.specs.Compare.{compared_of, compared_over};
ghost use Rattle.lent_changes.specs.Answer.{which_number, compared_answer, WrittenFits};

use answers::answer;
use compare::{CompareRefusal, Which, compare};

fn which_number(which: Which) -> u8
    ensures { result ≡ which_number which }
{
    match which {
        Which::First => 1,
        Which::Second => 2,
    }
}

#[tactic(auto, unfolding(crate::specs::Answer::compared_answer))]
fn compared_answer(compared: Result<usize, CompareRefusal>) -> u64
    requires { WrittenFits compared }
    ensures { result ≡ compared_answer compared }
{
    match compared {
        Ok(n) => answer(0, 0, 0, n as u32),
        Err(CompareRefusal::NoRoster(which)) => answer(22, which_number(which), 0, 0),
        Err(CompareRefusal::RoomTooShort) => answer(17, 0, 0, 0),
    }
}

// What changed from the first roster to the second, each with its row, at the front of the room: the bytes written; 22 with the
// roster, 1 or 2; 17.
pub fn compare_held(first: &[u8], row1: &[u64], second: &[u8], row2: &[u64], out: &mut [u8]) -> u64
    ensures value { result ≡ compared_answer (compared_of (roster_with first.now row1.now) (roster_with second.now row2.now) (length out.old)) }
    ensures out_after { out.new ≡ compared_over (roster_with first.now row1.now) (roster_with second.now row2.now) out.old }
{
    let compared = compare(first, row1, second, row2, out);
    compared_answer(compared)
}
