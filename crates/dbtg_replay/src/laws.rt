//! The law of printed replays, as the contract of a function that does nothing.

ghost use Rattle.dbtg_replay.specs.Laws.{PrintedReplayIsTraced};

/// What is printed of a replay as a trace is accepted as one, and says the unit, the statement and the answer of each entry of its history
/// in full, in whatever order the scripts are run.
pub fn a_printed_replay_is_read_back()
    ensures { PrintedReplayIsTraced }
{}
