//! Units make their scripts side by side, each on a thread of its own, and the database is settled.
ghost use Rattle.std.specs.Prelude.{◌≡◌, ◌↔◌, ◌<◌, ◌≤◌, true, length, get_or, All, IfOk, IfErr, vec_len, vec_capacity};
ghost use Rattle.std.specs.Thread.{IsSync};
ghost use Rattle.dbtg_unit.specs.Database.Statements.Fits.{fits};
ghost use Rattle.dbtg_run.specs.Running.{HaveMade, HaveRun, IsRun, IsWhole, Ran};
ghost use Rattle.dbtg_run.specs.UnitView.{BelongsTo};

use crate::database::Database;
use crate::outcome::Gate;
use crate::running::run_script;
use crate::settled::{Fault, Settled, Unsettled};
use crate::settlement::settle;
use crate::unit::RunUnit;
use dbtg_schema::Row;
use dbtg_unit::Statement;
use std::alloc::{AllocError, Global};
use std::sync::Wait;
use std::thread::{Threads, join};

// A unit makes its script, and comes back; the error means that memory was refused to it.
fn run_one<R: Wait, G: Gate>(
    rt: &R,
    alloc: Global,
    db: &Database,
    unit: RunUnit,
    script: &[Statement],
    gate: &G,
) -> (RunUnit, Result<(), AllocError>)
    requires belongs { BelongsTo db.now unit }
    requires fits { All (λ x. fits db.now.schema x ≡ true) script.now }
    ensures belongs { BelongsTo db.now result.0 }
    ensures ran { Ran script.now unit result.0 }
    ensures whole { IfOk result.1 (λ _. IsWhole script.now unit result.0) }
{
    let mut unit = unit;
    let ran = run_script(rt, alloc, db, &mut unit, script, gate);
    (unit, ran)
}

// The script of the unit at this place.
fn script_at<'a>(scripts: &'a [Row<Statement>], place: usize) -> &'a [Statement]
    requires { place < length scripts.now }
    ensures { result.now ≡ get_or scripts.now place result.now }
{
    scripts[place].as_slice()
}

// Each unit makes the script at its place, the last on a thread beside the others, and all come back in their order. The error
// means that memory was refused to one of them.
fn run_all<R: Threads + Wait + Sync, G: Gate + Sync>(
    rt: &R,
    alloc: Global,
    db: &Database,
    units: Vec<RunUnit>,
    scripts: &[Row<Statement>],
    gate: &G,
) -> (Vec<RunUnit>, Result<(), AllocError>)
    requires belong { All (BelongsTo db.now) units.items }
    requires fit { All (λ script. All (λ x. fits db.now.schema x ≡ true) script) scripts.now }
    requires scripts { length units.items ≤ length scripts.now }
    ensures belong { All (BelongsTo db.now) result.0.items }
    ensures ran { HaveRun scripts.now units.items result.0.items }
    ensures made { IfOk result.1 (λ _. HaveMade scripts.now units.items result.0.items) }
    ensures room { vec_capacity result.0 ≡ vec_capacity units }
{
    let mut units = units;
    let Some(unit) = units.pop() else {
        return (units, Ok(()));
    };
    let script = script_at(scripts, units.as_slice().len());
    let (one, others) = join(
        rt,
        move || -> (RunUnit, Result<(), AllocError>)
            requires { IsSync R.row × IsSync G.row × BelongsTo db.now unit × All (λ x. fits db.now.schema x ≡ true) script.now }
            ensures { BelongsTo db.entry.now result.0 × Ran script.entry.now unit result.0 × IfOk result.1 (λ _. IsWhole script.entry.now unit result.0) }
        { run_one(rt, alloc, db, unit, script, gate) },
        move || -> (Vec<RunUnit>, Result<(), AllocError>)
            requires { IsSync R.row × IsSync G.row × All (BelongsTo db.now) units.items × All (λ script. All (λ x. fits db.now.schema x ≡ true) script) scripts.now × (length units.items ≤ length scripts.now) }
            ensures { All (BelongsTo db.entry.now) result.0.items × HaveRun scripts.entry.now units.items result.0.items × IfOk result.1 (λ _. HaveMade scripts.entry.now units.items result.0.items) × (vec_capacity result.0 ≡ vec_capacity units) }
        { run_all(rt, alloc, db, units, scripts, gate) },
    );
    let (unit, own) = one;
    let (mut units, ran) = others;
    units.push_reserved(unit);
    match own {
        Ok(()) => (units, ran),
        Err(refused) => (units, Err(refused)),
    }
}

/// Each unit makes the statements of the script at its place among the scripts, on a thread of its own, and insists on each; then
/// the database is settled. Scripts without a unit are not made. The gate is passed as by `execute_at`, by all threads.
/// If a unit is missing, nothing is made. If memory is refused to a unit, that unit stops before the statement and the others finish
/// their scripts; the database and all units come back as they then are. The same happens if `settle` finds no memory.
pub fn run_units<R: Threads + Wait + Sync, G: Gate + Sync>(
    rt: &R,
    alloc: Global,
    db: Database,
    units: Vec<RunUnit>,
    scripts: &[Row<Statement>],
    gate: &G,
) -> Result<Settled, Unsettled>
    requires belong { All (BelongsTo db) units.items }
    requires fit { All (λ script. All (λ x. fits db.schema x ≡ true) script) scripts.now }
    requires scripts { length units.items ≤ length scripts.now }
    ensures ok { IfOk result (λ settled. IsRun db scripts.now units.items settled) }
    ensures err { IfErr result (λ back. (back.db ≡ db) × HaveRun scripts.now units.items back.units.items) }
    ensures missing { IfErr result (λ back. (back.fault ≡ Fault.Missing) ↔ (length units.items < db.about.units)) }
    ensures unmade { IfErr result (λ back. back.fault ≡ Fault.Missing → back.units ≡ units) }
{
    if units.as_slice().len() < db.about.units as usize {
        return Err(Unsettled {
            fault: Fault::Missing,
            db,
            units,
        });
    }
    let (units, ran) = run_all(rt, alloc, &db, units, scripts, gate);
    if ran.is_err() {
        return Err(Unsettled {
            fault: Fault::NoMemory,
            db,
            units,
        });
    }
    settle(alloc, db, units)
}
