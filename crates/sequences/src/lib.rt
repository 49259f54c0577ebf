// Claims about sequences of requests, proved of every satellite that was opened: specs/Demand3 has the
// theorem over whole sequences, specs/Claims the rows of an opened satellite as 002 gives them, and
// specs/Edges the cases at the edges of the range and of a stride. There is nothing to run.
#![tactic(auto)]
