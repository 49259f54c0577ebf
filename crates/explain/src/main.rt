// Explains a text of pairs: reads it from standard input, in whatever pieces it comes, and tells of each
// pair what refuses it, in a sentence with the line and a mark under the column, or its number, epoch,
// period and kind. Names, blank lines and lines that stand alone are named by their line numbers. Of a long
// text it tells on standard error how far it is.
#![tactic(auto)]

mod input; // the pairs, one after the other

use input::explain_text;

fn main(rt: HostRuntime) {
    let mut failed = false;
    explain_text(rt, &mut failed);
}
