// A whole script of requests, run from two lines: demand 3 of running code.
#![tactic(auto)]

ghost use Rattle.std.specs.Prelude.{◌≡◌};
ghost use Rattle.script.specs.declared.ScriptRefusal.TheVariants.{Unopened};
ghost use Rattle.script.specs.Script as S;

use opening::opening::{PairRefusal, open_pair};
use script_room::suffices;
use script_steps::run_requests;

// Why a script is not begun: want of times or of room (17), or lines that reading (1 to 6) or opening (7
// and 8) refuses.
#[derive(Clone, Copy)]
pub enum ScriptRefusal {
    Short,
    Unopened(PairRefusal),
}

impl From<PairRefusal> for ScriptRefusal {
    ghost from_gives = { λ why refusal. refusal ≡ Unopened why };

    fn from(why: PairRefusal) -> ScriptRefusal {
        ScriptRefusal::Unopened(why)
    }
}

// Document 01's number of the answer, 0 where the script was run.
#[tactic(auto, unfolding(crate::specs::Script::ran_number))]
pub fn ran_number(ran: Result<(), ScriptRefusal>) -> u64
    ensures { result ≡ S.ran_number ran }
{
    match ran {
        Ok(()) => 0,
        Err(ScriptRefusal::Short) => 17,
        Err(ScriptRefusal::Unopened(PairRefusal::Unread(why))) => why.number(),
        Err(ScriptRefusal::Unopened(PairRefusal::Refused(why))) => why.number(),
    }
}

// Reads and opens two lines and puts the requests of a script to the satellite (`run_requests` of
// script_steps). A script without room for it is refused before its lines are read.
pub fn run_script(
    line1: &[u8],
    line2: &[u8],
    lengths: &[usize],
    times: &[i64],
    stations: &[f64],
    spans: &[u64],
    refusals: &mut [u8],
    states: &mut [f64],
    rounds: &mut [u8],
    firsts: &mut [u64],
    lasts: &mut [u64],
    strides: &mut [u32],
    found: &mut [usize],
) -> Result<(), ScriptRefusal>
    ensures { S.Post line1.now line2.now lengths.now times.now stations.now spans.now refusals.old states.old rounds.old firsts.old lasts.old strides.old found.old result refusals.new states.new rounds.new firsts.new lasts.new strides.new found.new }
{
    if !suffices(
        lengths,
        times.len(),
        refusals.len(),
        states.len(),
        rounds.len(),
        strides.len(),
        stations.len(),
        spans.len(),
        found.len(),
    ) {
        return Err(ScriptRefusal::Short);
    }
    let s = open_pair(line1, line2)?;
    run_requests(
        s, lengths, times, stations, spans, refusals, states, rounds, firsts, lasts, strides, found,
    );
    Ok(())
}
