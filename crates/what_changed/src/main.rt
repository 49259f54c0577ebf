// Prints what changed from the roster in the file that the first argument names to the one in the second's
// (document 02, wish 7), or `refused 22` and which of the two is no roster.
#![tactic(auto)]

use compare::{CompareRefusal, Which, compare};
use files::{argument_count, read_argument};
use roster_calls::fill_row;

fn print_which(rt: HostRuntime, failed: &mut bool, which: Which) {
    match which {
        Which::First => streams::print(rt, failed, b"refused 22 first\n"),
        Which::Second => streams::print(rt, failed, b"refused 22 second\n"),
    }
}

fn print_answer(
    rt: HostRuntime,
    failed: &mut bool,
    answer: Result<usize, CompareRefusal>,
    out: &[u8],
) {
    match answer {
        Ok(n) => {
            if n <= out.len() {
                streams::print(rt, failed, &out[0..n]);
            }
        }
        Err(CompareRefusal::NoRoster(which)) => print_which(rt, failed, which),
        Err(CompareRefusal::RoomTooShort) => streams::print(rt, failed, b"refused 17\n"),
    }
}

// A byte more than a roster has is read of each file, so that a longer one is no roster; and 24,448 bytes
// have room for every listing. The files have no rows: each is filled first, and where that is refused
// comparing refuses the roster.
fn main(rt: HostRuntime) {
    let mut failed = false;
    if argument_count(rt) != 3 {
        streams::tell(rt, b"what_changed FIRST SECOND: the files of two rosters\n");
        return;
    }
    let mut first = [0u8; 8833];
    let mut second = [0u8; 8833];
    let n = read_argument(rt, &mut failed, 1, &mut first);
    let m = read_argument(rt, &mut failed, 2, &mut second);
    let mut row1 = [0u64; 64];
    let mut row2 = [0u64; 64];
    let _ = fill_row(&first[..n], &mut row1);
    let _ = fill_row(&second[..m], &mut row2);
    let mut out = [0u8; 24448];
    let answer = compare(&first[..n], &row1, &second[..m], &row2, &mut out);
    print_answer(rt, &mut failed, answer, &out);
}
