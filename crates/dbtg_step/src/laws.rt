//! The laws of the machine of events, each the contract of a function that does nothing.
ghost use Rattle.std.specs.Prelude.{ℕ};
ghost use Rattle.dbtg_schema.specs.Lists.{Lists};
ghost use Rattle.dbtg_schema.specs.Sound.{IsSound};
ghost use Rattle.dbtg_step.specs.Core.Core.{EveryCoreIsSequential};
ghost use Rattle.dbtg_step.specs.Laws.{EachEventKeepsLawful, EveryRunIsLawful, EveryImageIsOfItsHistory, MachineIsOpening, NoRunIsStuck, StatementsHaveTheirEvents, EveryRunExtendsHistory, EveryRunIsSequential, EverySerialRunIsARun, NeedsAreInOrder, NeededCellsExist};
ghost use Rattle.dbtg_step.specs.Machine.TurningBack.{NeedsComeToAnEnd};

/// Each event, of a step or a quit, leads from a lawful state to a lawful state: its history replays on the sequential
/// database, whose cells are those at home and those that are held, and whose units are the units.
pub fn each_event_keeps_lawful()
    ensures { (schema : Lists) (capacity : ℕ) → IsSound schema → EachEventKeepsLawful schema capacity }
{}

/// Before scripts whose statements fit, one script for each unit, the machine is in an opening state.
pub fn machine_is_opening()
    ensures { (schema : Lists) (capacity : ℕ) → MachineIsOpening schema capacity }
{}

/// Every list of moves, including blocked and idle ones and quits, leads from an opening state to a lawful state.
pub fn every_run_is_lawful()
    ensures { (schema : Lists) (capacity : ℕ) → IsSound schema → EveryRunIsLawful schema capacity }
{}

/// The image of a lawful state, also in mid-statement, has for each cell what the database of its history has: a cell that
/// is held with a ticket counts with its new contents.
pub fn every_image_is_of_its_history()
    ensures { (schema : Lists) (capacity : ℕ) → EveryImageIsOfItsHistory schema capacity }
{}

/// After every list of moves from an opening state, where a unit is in mid-statement some unit's next step is an event.
pub fn no_run_is_stuck()
    ensures { (schema : Lists) (capacity : ℕ) → IsSound schema → NoRunIsStuck schema capacity }
{}

/// A statement that is never blocked and never turns back has `2 + 2a + 3c` events, for the `a` areas and `c` cells that it
/// takes: it is over after that number of its unit's steps, and not before.
pub fn statements_have_their_events()
    ensures { (schema : Lists) (capacity : ℕ) → StatementsHaveTheirEvents schema capacity }
{}

/// A history is never rewritten: moves only append entries.
pub fn every_run_extends_history()
    ensures { (schema : Lists) (capacity : ℕ) → EveryRunExtendsHistory schema capacity }
{}

/// The main result, for the machine: after every list of moves from the opening state the tickets are 0, 1, 2, .. in order; the
/// statements of the history, taken whole in this order on the sequential database, have exactly these answers and lead to
/// exactly these units; and the entries of each unit are the beginning of its script.
pub fn every_run_is_sequential()
    ensures { (schema : Lists) (capacity : ℕ) → IsSound schema → EveryRunIsSequential schema capacity }
{}

/// What every core satisfies, as `Core::is_core` says, includes the main result, also for a core in mid-statement.
pub fn every_core_is_sequential()
    ensures { EveryCoreIsSequential }
{}

/// Stepping one unit after another, each until its next step is idle, comes to an end. It is one of these runs, in which every
/// statement of every script is made in turn; and a serial run, which makes the same statements whole, has the same history.
pub fn every_serial_run_is_a_run()
    ensures { (schema : Lists) (capacity : ℕ) → IsSound schema → EverySerialRunIsARun schema capacity }
{}

/// A cell that a statement needs next is not held and lies in an area that is held; areas are needed in ascending order, and
/// then, for every statement but DELETE, cells in theirs, whatever other units do meanwhile to the cells that are not held.
pub fn needs_are_in_order()
    ensures { (schema : Lists) (capacity : ℕ) → IsSound schema → NeedsAreInOrder schema capacity }
{}

/// After every list of moves each cell that a statement needs next is a cell of the schema at this capacity.
pub fn needed_cells_exist()
    ensures { (schema : Lists) (capacity : ℕ) → IsSound schema → NeededCellsExist schema capacity }
{}

/// On one database the needs of a statement come to an end: once the true owners are noted no guess is stale, and a stated number
/// falls with each area and cell that is taken and with a turn back.
pub fn needs_come_to_an_end()
    ensures { (schema : Lists) (capacity : ℕ) → NeedsComeToAnEnd schema capacity }
{}
