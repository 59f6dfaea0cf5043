//! What orders say of runs on threads, as the contract of a function that does nothing.
ghost use Rattle.dbtg_exploring.specs.Laws.{EveryRunOnThreadsComesOut};
ghost use Rattle.dbtg_exploring.specs.declared.setting.Exploring.{Exploring};
ghost use Rattle.dbtg_program.specs.declared.program.Program.{Program};
ghost use Rattle.dbtg_schema.specs.Lists.{Lists};
ghost use Rattle.std.specs.Prelude.{List};

/// Whatever programs do on threads, the first of them before all others and the last one after them: if all come to their ends and no unit
/// is spent, the run has the history of an order of whole statements that comes to an end, and is printed as this order is: but for
/// versions so is one of the results of `explore`.
pub fn every_run_on_threads_comes_out()
    ensures { (schema : Lists) (programs : List Program) (asked : Exploring) → EveryRunOnThreadsComesOut schema programs asked }
{}
