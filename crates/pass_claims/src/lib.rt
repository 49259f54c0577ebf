// Claims about the passes of every satellite that was opened: specs/Claims. There is nothing to run.
#![tactic(auto)]
