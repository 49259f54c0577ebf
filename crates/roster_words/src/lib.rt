// What a roster's program is told and what it tells: the words of its commands, and the answers to
// lodging and withdrawing in a sentence.
#![tactic(auto)]

ghost use Rattle.std.specs.Prelude.{◌≡◌};
ghost use Rattle.text.specs.Output.{Put};
ghost use Rattle.roster_words.specs.Command.{command_of};
ghost use Rattle.roster_words.specs.Answers.{number_text, about_text, lodging_text, named_text, withdrawal_text, total_text};

use reading_faults::put_fault;
use roster_calls::{LodgingRefusal, WithdrawalRefusal};
use roster_listing::read;
use text::{put_byte, put_bytes, put_decimal};
use tle::{Record, Refusal};

#[derive(Clone, Copy)]
pub enum Command {
    Lodge,
    Withdraw,
    List,
    Unknown,
}

pub fn command_of(word: &[u8]) -> Command
    ensures { result ≡ command_of word.now }
{
    if check::same(word, b"lodge") {
        return Command::Lodge;
    }
    if check::same(word, b"withdraw") {
        return Command::Withdraw;
    }
    if check::same(word, b"list") {
        return Command::List;
    }
    Command::Unknown
}

fn put_number(out: &mut [u8], at: usize, reading: Result<Record, Refusal>) -> usize
    ensures { Put out.old at (number_text reading) out.new result }
{
    match reading {
        Ok(r) => put_decimal(out, at, r.number),
        Err(_) => put_bytes(out, at, b""),
    }
}

// A sentence about the satellite of two lines.
fn put_about(
    out: &mut [u8],
    at: usize,
    front: &[u8],
    line1: &[u8],
    line2: &[u8],
    back: &[u8],
) -> usize
    ensures { Put out.old at (about_text front.now line1.now line2.now back.now) out.new result }
{
    let reading = read(line1, line2);
    let p = put_bytes(out, at, front);
    let p = put_number(out, p, reading);
    put_bytes(out, p, back)
}

// What lodging two lines came to.
pub fn put_lodging(
    out: &mut [u8],
    at: usize,
    answer: Result<(), LodgingRefusal>,
    line1: &[u8],
    line2: &[u8],
) -> usize
    ensures { Put out.old at (lodging_text answer line1.now line2.now) out.new result }
{
    match answer {
        Ok(()) => put_about(out, at, b"lodged satellite ", line1, line2, b".\n"),
        Err(refusal) => match refusal {
            LodgingRefusal::Unread(why) => put_fault(out, at, why, line1, line2),
            LodgingRefusal::NoRoster => put_bytes(out, at, b"refusal 22: the file is no roster.\n"),
            LodgingRefusal::Older => put_about(
                out,
                at,
                b"refusal 20: the roster has a pair of satellite ",
                line1,
                line2,
                b" whose epoch is later.\n",
            ),
            LodgingRefusal::Full => put_about(
                out,
                at,
                b"refusal 19: all 64 places hold other satellites than ",
                line1,
                line2,
                b".\n",
            ),
        },
    }
}

fn put_named(out: &mut [u8], at: usize, front: &[u8], number: u64) -> usize
    ensures { Put out.old at (named_text front.now number) out.new result }
{
    let p = put_bytes(out, at, front);
    let p = put_decimal(out, p, number);
    put_bytes(out, p, b".\n")
}

// What withdrawing a number came to.
pub fn put_withdrawal(
    out: &mut [u8],
    at: usize,
    answer: Result<(), WithdrawalRefusal>,
    number: u64,
) -> usize
    ensures { Put out.old at (withdrawal_text answer number) out.new result }
{
    match answer {
        Ok(()) => put_named(out, at, b"withdrew satellite ", number),
        Err(why) => match why {
            WithdrawalRefusal::NoRoster => put_bytes(
                out,
                at,
                b"refusal 22: the file is no roster.\n",
            ),
            WithdrawalRefusal::Absent => put_named(
                out,
                at,
                b"refusal 21: the roster has no pair of satellite ",
                number,
            ),
        },
    }
}

pub fn put_total(out: &mut [u8], at: usize, lines: u64, pairs: u64, lodged: u64) -> usize
    ensures { Put out.old at (total_text lines pairs lodged) out.new result }
{
    let p = put_bytes(out, at, b"lines ");
    let p = put_decimal(out, p, lines);
    let p = put_bytes(out, p, b", pairs ");
    let p = put_decimal(out, p, pairs);
    let p = put_bytes(out, p, b", lodged ");
    let p = put_decimal(out, p, lodged);
    put_byte(out, p, b'\n')
}
