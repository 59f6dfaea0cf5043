//! The law of printed traces, as the contract of a function that does nothing.

ghost use Rattle.dbtg_audit.specs.Laws.{PrintedTraceIsEqual};

/// The audit of what is printed of a history as a trace, and is read back, is equal, and leads to just this history.
pub fn a_printed_trace_is_equal()
    ensures { PrintedTraceIsEqual }
{}
