//! The laws of printed traces, as contracts of functions that do nothing.

ghost use Rattle.dbtg_trace.specs.Laws.{AnswersCanBeSaid, PrintedHistoryIsReadBack, PrintedTraceIsReadBack};

/// What is printed of entries with the lines of their statements is accepted as a trace, and says the unit, the statement and the answer
/// of each in full.
pub fn a_printed_trace_is_read_back()
    ensures { PrintedTraceIsReadBack }
{}

/// Each answer of a history of the sequential database can be said in a line: its key is one of the schema, its items are those of the
/// key's record type.
pub fn answers_can_be_said()
    ensures { AnswersCanBeSaid }
{}

/// So what is printed of a history in which each unit makes the beginning of its script, with the lines of the scripts, is accepted as a
/// trace, and says the unit, the statement and the answer of each entry in full.
pub fn a_printed_history_is_read_back()
    ensures { PrintedHistoryIsReadBack }
{}
