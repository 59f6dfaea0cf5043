//! What orders say of runs, as the contract of a function that does nothing.
ghost use Rattle.dbtg_explore.specs.Laws.{EssenceIsAll, EveryRunByTurnsComesOut, EveryRunComesOut, ForEverIsRound, RoundIsForEver};
ghost use Rattle.dbtg_explore.specs.Orders.{Meeting};
ghost use Rattle.dbtg_explore.specs.Versions.{VersionsAreNoState};

/// Whatever units do event by event: after every list of moves, if the statements that were made are those of the programs, each to its
/// end, the run has the history of an order of whole statements that comes to an end, and is printed as this order is: but for versions so
/// is one of the results.
pub fn every_run_comes_out()
    ensures { (m : Meeting) → EveryRunComesOut m }
{}

/// Whatever the turns in which programs make their statements: if after them none can go on, the run has the history of an order of whole
/// statements that comes to an end, and is printed as this order is: but for versions so is one of the results.
pub fn every_run_by_turns_comes_out()
    ensures { (m : Meeting) → EveryRunByTurnsComesOut m }
{}

/// The versions of records are no part of a state, but for whether a record still has the version that a unit keeps of it: after two
/// histories whose states differ in these alone, and in the order in which units opened an area, whatever statements are made get the same
/// answers, and lead to states that differ there alone. So a program that changes a record each time that it tries again does not come to
/// a new state each time.
pub fn versions_are_no_state()
    ensures { VersionsAreNoState }
{}

/// What does not count is no part of a state: after two histories whose states differ in this alone, the same units have their turn, make
/// the same statements and get the same answers, whatever turns follow; and the same is printed there, but for versions, also of ends. So
/// neither the status of a program, nor an item that none of its sentences reads, makes a state of its own, nor do the items of a program
/// that has ended.
pub fn what_counts_is_all()
    ensures { (m : Meeting) → EssenceIsAll m }
{}

/// Where orders lead to finitely many states: if programs can go on for ever, and each unit that can have its turn always has one again
/// sooner or later, there is a way round. So where none is found, programs that take turns in this way come to an end.
pub fn going_on_for_ever_goes_round()
    ensures { (m : Meeting) → ForEverIsRound m }
{}

/// A way round can be gone round for ever, and then each unit that can have its turn has one again and again: also one that can have its
/// turn on the way, or before it.
pub fn a_round_goes_on_for_ever()
    ensures { (m : Meeting) → RoundIsForEver m }
{}
