//! Laws of scripts and printed texts, each the contract of a function that does nothing.

ghost use Rattle.dbtg_script.specs.Laws.{DerivedLineIsRead, DerivedScriptHasNoFaultOfGrammar, EchoedLinesSayTheirStatements, LineBehindScriptIsRead, LineWithoutFaultsIsDerived, PrintedKeyIsReadBack, PrintedMovesAreReadBack, PrintedTurnsAreReadBack, UnitsPrintDifferently};

/// What is read from a printed key is that key.
pub fn a_printed_key_is_read_back()
    ensures { PrintedKeyIsReadBack }
{}

/// The words of a line without faults are derived by the grammar, with the roles that they are read with: as a name only
/// if no keyword can come there.
pub fn a_line_without_faults_is_derived()
    ensures { LineWithoutFaultsIsDerived }
{}

/// A line that the grammar derives in this way has no fault of the grammar, and is read as the statement that these words say.
/// There is only one such derivation.
pub fn a_derived_line_is_read()
    ensures { DerivedLineIsRead }
{}

/// A script whose statements the grammar all derives in this way has no fault of the grammar.
pub fn a_derived_script_has_no_fault_of_the_grammar()
    ensures { DerivedScriptHasNoFaultOfGrammar }
{}

/// Two units of a schema with different numbers, currencies or kept lists print differently; their modes are not printed.
pub fn different_units_print_differently()
    ensures { UnitsPrintDifferently }
{}

/// The text of at most 1,000,000 moves of units from 1 to 99 has no fault, and what is read from it is these moves.
pub fn a_printed_moves_text_is_read_back()
    ensures { PrintedMovesAreReadBack }
{}

/// The text of at most 1,000,000 turns of units from 1 to 99 has no fault, and what is read from it is these turns.
pub fn a_printed_turns_text_is_read_back()
    ensures { PrintedTurnsAreReadBack }
{}

/// The line beside an answer says the statement that was answered, if each unit made the beginning of its script.
pub fn echoed_lines_say_their_statements()
    ensures { EchoedLinesSayTheirStatements }
{}

/// A line without a fault after an accepted script of whole lines is read as one statement more.
pub fn a_line_behind_a_script_is_read()
    ensures { LineBehindScriptIsRead }
{}
