//! The law of printed runs, as the contract of a function that does nothing.

ghost use Rattle.dbtg_running.specs.Laws.{PrintedRunIsReadBack};

/// What is printed of a run of programs as a trace is accepted as one, and says the unit, the statement and the answer of each entry of
/// its history in full.
pub fn a_printed_run_is_read_back()
    ensures { PrintedRunIsReadBack }
{}
