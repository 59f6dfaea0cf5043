//! What stops the program, and the status with which it then ends.
ghost use Rattle.std.specs.Prelude.{◌≡◌};
ghost use Rattle.dbtg_command.specs.declared.fault.Fault.TheVariants.{Memory};
ghost use Rattle.dbtg_command.specs.Refusals.{status_of};
ghost use Rattle.dbtg_command.specs.Telling.{moves_fault, schema_fault, script_fault, trace_fault, turns_fault, program_fault};

use dbtg_program::{ProgramCause, ProgramFault};
use dbtg_schema::{Cause as SchemaCause, SchemaFault};
use dbtg_script::{Cause as ScriptCause, MovesCause, MovesFault, ScriptFault, TurnsFault};
use dbtg_trace::{TraceCause, TraceFault};
use std::alloc::{AllocError, AllocFailed};
use std::fmt::{Debug, Display, Formatter, Result as FmtResult, Write};
use thiserror::Error;

/// Why a command is not carried out. Its text is the line on standard error.
#[derive(Drop, Error)]
pub enum Fault {
    /// The first fault of the schema.
    #[error("{}", SchemaFault::Refused {line: *.line, cause: *.cause})]
    Schema {
        line: u64,
        cause: SchemaCause,
    },
    /// The first fault of the script with this number, from 1; no earlier script has a fault.
    #[error("script {number} {}", ScriptFault::Refused {line: *.line, cause: *.cause})]
    Script {
        number: usize,
        line: u64,
        cause: ScriptCause,
    },
    /// The first fault of the program with this number, from 1; no earlier program has a fault.
    #[error("program {number} fault {} line {line}", .cause.number())]
    Program {
        number: usize,
        line: u64,
        cause: ProgramCause,
    },
    /// The first fault of the moves.
    #[error("moves {}", MovesFault::Refused {word: *.word, cause: *.cause})]
    Moves {
        word: u64,
        cause: MovesCause,
    },
    /// The first fault of the turns.
    #[error("turns {}", TurnsFault::Refused {word: *.word, cause: *.cause})]
    Turns {
        word: u64,
        cause: MovesCause,
    },
    /// The first fault of the trace.
    #[error("{}", TraceFault::Refused {line: *.line, cause: *.cause})]
    Trace {
        line: u64,
        cause: TraceCause,
    },
    /// The turns stand for more moves than a text of moves may have.
    #[error("moves over 1000000")]
    MovesOver,
    /// The orders of the scripts lead to more states than allowed.
    #[error("states over {limit}")]
    StatesOver {
        limit: u64,
    },
    /// A file cannot be read.
    #[error("cannot read {path}")]
    Unreadable {
        path: String,
    },
    /// There are no scripts, or more than 8.
    #[error("scripts wanted: 1 to 8")]
    ScriptCount,
    /// Memory was refused before a fault was met.
    #[error("want of memory")]
    Memory,
}

impl Debug for Fault {
    fn fmt<W: Write>(&self, f: &mut Formatter<W>) -> FmtResult {
        Display::fmt(self, f)
    }
}

impl From<AllocError> for Fault {
    ghost from_gives = { λ _ e. e ≡ Memory };

    fn from(_error: AllocError) -> Fault {
        Fault::Memory
    }
}

impl<T: Drop> From<AllocFailed<T>> for Fault {
    ghost from_gives = { λ _ e. e ≡ Memory };

    fn from(_error: AllocFailed<T>) -> Fault {
        Fault::Memory
    }
}

impl Fault {
    /// The fault of a schema.
    pub fn of_schema(fault: SchemaFault) -> Fault
        ensures { result ≡ schema_fault fault }
    {
        match fault {
            SchemaFault::Refused { line, cause } => Fault::Schema { line, cause },
            SchemaFault::Memory => Fault::Memory,
        }
    }

    /// The fault of the script with this number.
    pub fn of_script(number: usize, fault: ScriptFault) -> Fault
        ensures { result ≡ script_fault number fault }
    {
        match fault {
            ScriptFault::Refused { line, cause } => {
                Fault::Script {
                    number,
                    line,
                    cause,
                }
            }
            ScriptFault::Memory => Fault::Memory,
        }
    }

    /// The fault of the program with this number.
    pub fn of_program(number: usize, fault: ProgramFault) -> Fault
        ensures { result ≡ program_fault number fault }
    {
        match fault {
            ProgramFault::Refused { line, cause } => {
                Fault::Program {
                    number,
                    line,
                    cause,
                }
            }
            ProgramFault::Memory => Fault::Memory,
        }
    }

    /// The fault of moves.
    pub fn of_moves(fault: MovesFault) -> Fault
        ensures { result ≡ moves_fault fault }
    {
        match fault {
            MovesFault::Refused { word, cause } => Fault::Moves { word, cause },
            MovesFault::Memory => Fault::Memory,
        }
    }

    /// The fault of turns.
    pub fn of_turns(fault: TurnsFault) -> Fault
        ensures { result ≡ turns_fault fault }
    {
        match fault {
            TurnsFault::Refused { word, cause } => Fault::Turns { word, cause },
            TurnsFault::Memory => Fault::Memory,
        }
    }

    /// The fault of a trace.
    pub fn of_trace(fault: TraceFault) -> Fault
        ensures { result ≡ trace_fault fault }
    {
        match fault {
            TraceFault::Refused { line, cause } => Fault::Trace { line, cause },
            TraceFault::Memory => Fault::Memory,
        }
    }
}

/// The exit status: 1 for what is read, too many moves and too many states, 2 for a wrong number of scripts, 3 if memory is refused.
pub fn status_of(fault: &Fault) -> u8
    ensures { result ≡ status_of fault.now }
{
    match fault {
        Fault::ScriptCount => 2,
        Fault::Memory => 3,
        _ => 1,
    }
}
