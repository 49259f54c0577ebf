// Keeps a roster in a file: lodges the pairs of a text from standard input, withdraws a number, or lists
// the pairs by age. The file is replaced whole before anything is told of it, under a lock, so that nothing
// that is told is lost, whatever stops the program and however many run at once.
#![tactic(auto)]

mod input; // the pairs of a text lodged

ghost use Rattle.std.specs.Prelude.{◌≤◌, length};

use files::{argument, argument_count, read_file};
use input::lodge_text;
use kept_roster::put_kept;
use roster_file::withdraw_in;
use roster_words::{Command, command_of, put_withdrawal};
use station_text::read_number;
use streams::print_room;

fn tell(rt: HostRuntime, text: &[u8]) {
    streams::tell(rt, text);
}

fn tell_usage(rt: HostRuntime) {
    tell(
        rt,
        b"keep_roster FILE lodge, keep_roster FILE withdraw NUMBER, or keep_roster FILE list\n",
    );
}

fn withdraw_number(rt: HostRuntime, failed: &mut bool, name: &[u8], number: u64) {
    let answer = withdraw_in(rt, failed, name, number);
    let mut out = [0u8; 128];
    let n = put_withdrawal(&mut out, 0, answer, number);
    print_room(rt, failed, &out, n);
}

// The first bytes of a room that an argument takes: none where it is not there or has no room.
fn argument_size(rt: HostRuntime, i: usize, room: &mut [u8]) -> usize
    ensures { result ≤ length room.new }
{
    argument(rt, i, room).unwrap_or(0)
}

// The third argument is the number.
fn withdraw_argument(rt: HostRuntime, failed: &mut bool, name: &[u8]) {
    let mut word = [0u8; 4096];
    let n = argument_size(rt, 3, &mut word);
    match read_number(&word[..n]) {
        Some(number) => withdraw_number(rt, failed, name, number),
        None => tell(rt, b"the number to withdraw has digits and nothing else\n"),
    }
}

// 64 lines of 64 bytes are enough for every listing.
fn list(rt: HostRuntime, failed: &mut bool, name: &[u8]) {
    let mut roster = [0u8; 8833];
    let n = read_file(rt, failed, name, &mut roster);
    let mut out = [0u8; 4096];
    let size = put_kept(&mut out, 0, &roster[..n]);
    print_room(rt, failed, &out, size);
}

fn obey(rt: HostRuntime, failed: &mut bool, name: &[u8], command: Command, count: usize) {
    match command {
        Command::Lodge => {
            if count == 3 {
                return lodge_text(rt, failed, name);
            }
        }
        Command::Withdraw => {
            if count == 4 {
                return withdraw_argument(rt, failed, name);
            }
        }
        Command::List => {
            if count == 3 {
                return list(rt, failed, name);
            }
        }
        Command::Unknown => {}
    }
    tell_usage(rt);
}

fn main(rt: HostRuntime) {
    let mut failed = false;
    let count = argument_count(rt);
    if count < 3 {
        tell_usage(rt);
        return;
    }
    let mut name = [0u8; 4096];
    let size = match argument(rt, 1, &mut name) {
        Ok(size) => size,
        Err(error) => {
            streams::fail(rt, b"cannot read the name of a file", &error);
            return;
        }
    };
    let mut word = [0u8; 4096];
    let n = argument_size(rt, 2, &mut word);
    obey(
        rt,
        &mut failed,
        &name[..size],
        command_of(&word[..n]),
        count,
    );
}
