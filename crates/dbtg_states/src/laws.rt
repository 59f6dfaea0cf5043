//! What does not count in a state, and what determines what a statement does, each as the contract of a function that does nothing.
ghost use Rattle.std.specs.Prelude.{List};
ghost use Rattle.dbtg_cells.specs.declared.key.DbKey.{DbKey};
ghost use Rattle.dbtg_states.specs.Alike.{OrderOfOpeningIsNoState};
ghost use Rattle.dbtg_states.specs.Looked.{LookedAtDetermines};
ghost use Rattle.dbtg_states.specs.Named.{key_name};
ghost use Rattle.dbtg_states.specs.Spelling.{Apart};

use dbtg_erase::delete_is_determined;
use dbtg_plan::each_statement_is_determined;

/// Different records have different names, whatever records were stored: so results that are alike except for numbers become the same by
/// renamings that are one-to-one.
pub fn names_tell_records_apart()
    ensures { (stored : List DbKey) → Apart (key_name stored) }
{}

/// The order in which units opened an area is no part of a state: from two states that differ in it alone, whatever statements are made
/// get the same answers, and lead to states that differ in it alone. So the search puts such states together.
pub fn order_of_opening_is_no_state()
    ensures { OrderOfOpeningIsNoState }
{}

/// What a statement looks at determines what it does: to all legal states in which its unit is the same, and in which the cells that it
/// holds say the same but for the order in which units opened an area, a statement that needs no more does the same. It gets the same
/// answer, and leaves its unit and these cells the same; all other cells say what they said.
pub fn what_is_looked_at_determines()
    ensures { LookedAtDetermines }
{
    each_statement_is_determined();
    delete_is_determined();
}
