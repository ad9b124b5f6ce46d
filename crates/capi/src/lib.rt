// The machine for C, as `include/penkwadar.h` declares it: functions over borrowed buffers that ask nothing of their words.

#![tactic(auto)]

mod lists;
mod replay_tallies;
mod replays;
mod spreadsheets;
mod state;
mod steps;
mod traces;
mod transcripts;
