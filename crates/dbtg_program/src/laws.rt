//! Laws of programs, each the contract of a function that does nothing.

ghost use Rattle.dbtg_program.specs.Laws.{FieldsHoldTheirValues, OnlyAValueDoesNotFit, ScriptsAreMadeInOrder};

/// In a program that was read, a statement with fields has no fault except that a value does not fit, whatever values its fields hold.
pub fn only_a_value_does_not_fit()
    ensures { OnlyAValueDoesNotFit }
{}

/// The fields of a program that was read hold values of their pictures, whatever it does, if the values in the answers fit theirs.
pub fn fields_hold_their_values()
    ensures { FieldsHoldTheirValues }
{}

/// A script as a program makes the statements of the script one after another, whatever is answered, and then ends by STOP.
pub fn a_script_is_made_in_order()
    ensures { ScriptsAreMadeInOrder }
{}
