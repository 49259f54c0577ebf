// A roster in a file: a pair lodged and a number withdrawn, under a lock, the file replaced whole where the
// roster changed. As in streams, a failure is told once and stays marked, and then nothing is done.
#![tactic(auto)]

ghost use Rattle.std.specs.Prelude.{◌≡◌, true};
ghost use Rattle.roster_file.specs.Answers.{Lodges, Withdraws};

use files::{lock_file, read_file, read_file_or, replace_file, unlock_file};
use kept_roster::{lodge_kept, withdraw_kept};
use roster_calls::{LodgingRefusal, WithdrawalRefusal};

// Where a call changed the roster, the file is replaced.
fn keep(rt: HostRuntime, failed: &mut bool, name: &[u8], old: &[u8], new: &[u8])
    ensures { failed.old ≡ true → failed.new ≡ true }
{
    if !check::same(old, new) {
        replace_file(rt, failed, name, new);
    }
}

// The bytes that were read come twice, as the roster before the call and as the one that it changes.
fn lodge_over(
    rt: HostRuntime,
    failed: &mut bool,
    name: &[u8],
    old: &[u8],
    new: &mut [u8],
    line1: &[u8],
    line2: &[u8],
) -> Result<(), LodgingRefusal>
    ensures { Lodges failed.old line1.now line2.now failed.new result }
{
    let answer = lodge_kept(new, line1, line2);
    keep(rt, failed, name, old, new);
    answer
}

// A byte more than a roster has is read, so that a longer file is no roster. One that is not there is an
// empty roster.
fn lodge_locked(
    rt: HostRuntime,
    failed: &mut bool,
    name: &[u8],
    line1: &[u8],
    line2: &[u8],
) -> Result<(), LodgingRefusal>
    ensures { Lodges failed.old line1.now line2.now failed.new result }
{
    let mut old = [0u8; 8833];
    let n = read_file_or(rt, failed, name, &mut old, 8832);
    let mut new = old;
    lodge_over(rt, failed, name, &old[..n], &mut new[..n], line1, line2)
}

// Lodges the pair of two lines, locked; after a failure the answer says nothing.
pub fn lodge_in(
    rt: HostRuntime,
    failed: &mut bool,
    name: &[u8],
    line1: &[u8],
    line2: &[u8],
) -> Result<(), LodgingRefusal>
    ensures { Lodges failed.old line1.now line2.now failed.new result }
{
    lock_file(rt, failed, name);
    if *failed {
        return Err(LodgingRefusal::NoRoster);
    }
    let answer = lodge_locked(rt, failed, name, line1, line2);
    unlock_file(rt, failed, name);
    answer
}

fn withdraw_over(
    rt: HostRuntime,
    failed: &mut bool,
    name: &[u8],
    old: &[u8],
    new: &mut [u8],
    number: u64,
) -> Result<(), WithdrawalRefusal>
    ensures { Withdraws failed.old number failed.new result }
{
    let answer = withdraw_kept(new, number);
    keep(rt, failed, name, old, new);
    answer
}

fn withdraw_locked(
    rt: HostRuntime,
    failed: &mut bool,
    name: &[u8],
    number: u64,
) -> Result<(), WithdrawalRefusal>
    ensures { Withdraws failed.old number failed.new result }
{
    let mut old = [0u8; 8833];
    let n = read_file(rt, failed, name, &mut old);
    let mut new = old;
    withdraw_over(rt, failed, name, &old[..n], &mut new[..n], number)
}

// Withdraws a number, locked; after a failure the answer says nothing.
pub fn withdraw_in(
    rt: HostRuntime,
    failed: &mut bool,
    name: &[u8],
    number: u64,
) -> Result<(), WithdrawalRefusal>
    ensures { Withdraws failed.old number failed.new result }
{
    lock_file(rt, failed, name);
    if *failed {
        return Err(WithdrawalRefusal::NoRoster);
    }
    let answer = withdraw_locked(rt, failed, name, number);
    unlock_file(rt, failed, name);
    answer
}
