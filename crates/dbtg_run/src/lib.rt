//! Run-units on threads: a database over a table of atomic words.
#![tactic(auto)]

mod calls;
mod commit;
mod database;
mod execute;
mod leaves;
mod making;
mod merge;
mod outcome;
mod plays;
mod rule;
mod running;
mod seats;
mod settled;
mod settlement;
mod takes;
mod threads;
mod tries;
mod unit;
mod view;
mod work;

pub use database::Database;
pub use outcome::{Gate, NoGate, Outcome, Point};
pub use plays::{
    Draw, Gather, Learn, LeaveArea, LookAtArea, OneOff, Picked, PutCell, TakeAlone, TakeCell,
    TakeShared,
};
pub use rule::{Board, Chair, Latches, Top};
pub use running::run_script;
pub use settled::{Fault, Settled, Unsettled};
pub use settlement::settle;
pub use threads::run_units;
pub use unit::RunUnit;
pub use view::{About, SeatKnowledge, SeatUnit};
pub use work::Work;
