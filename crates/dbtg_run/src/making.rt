//! How a database is made: its table with all cells at home, and a seat there for each of its units.
ghost use Rattle.std.specs.Prelude.{◌≡◌, ◌<◌, ◌≤◌, [], false, length, map, Some, All, IfOk};
ghost use Rattle.dbtg_schema.specs.Sound.{IsSound};
ghost use Rattle.dbtg_unit.specs.Database.State.Units.{opening_unit};
ghost use Rattle.dbtg_run.specs.Inside.LatchRule.{first_view};
ghost use Rattle.dbtg_run.specs.Inside.Posed.{posed, IsSized};
ghost use Rattle.dbtg_run.specs.UnitView.{BelongsTo, opening_view, opening_views};

use crate::database::Database;
use crate::rule::{Board, Chair};
use crate::seats::cut_off;
use crate::unit::RunUnit;
use crate::view::About;
use crate::work::Work;
use dbtg_cells::{Cell, Owners, cell_count};
use dbtg_schema::Schema;
use dbtg_step::{opening_cells, opening_unit};
use dbtg_unit::Held;
use std::alloc::{AllocError, Global};
use std::snapshot::Snapshot;

// A copy of what a unit knows of its database.
fn told(about: &About, schema: &Schema) -> About
    requires { about.now.schema.value ≡ schema.now }
    ensures { result ≡ about.now }
{
    About {
        schema: Snapshot::of(schema),
        capacity: about.capacity,
        units: about.units,
    }
}

// The slots with these cells at home.
fn slots_of(alloc: Global, cells: Vec<Cell>) -> Result<Vec<Option<Cell>>, AllocError>
    ensures { IfOk result (λ slots. slots.items ≡ map Some cells.items) }
{
    let mut slots = Vec::with_capacity(alloc, cells.len())?;
    for cell in cells {
        slots.push(Some(cell))?;
    }
    Ok(slots)
}

// The table before the first step, with all its words 0, and the one seat there, which has all units.
fn lay(alloc: Global, schema: &Schema, about: &About) -> Result<(Board, Chair), AllocError>
    requires same { about.now.schema.value ≡ schema.now }
    requires sound { IsSound schema.now }
    requires few { about.now.units ≤ 8 }
    ensures { IfOk result (λ t. IsSized about.now t.0.shared.table_id × (t.0.shared.key ≡ about.now) × (t.1.table_id ≡ t.0.shared.table_id) × (t.1.me ≡ (first_view about.now, []))) }
{
    let count = 1 + schema.areas().len() + cell_count(schema, about.capacity);
    let words = Vec::from_elem(alloc, 0u64, count)?;
    let cells = opening_cells(alloc, schema, about.capacity)?;
    let slots = slots_of(alloc, cells)?;
    let Ok((board, seat)) = Board::new(alloc, words.as_slice(), slots, about) else {
        return Err(AllocError);
    };
    Ok((board, seat))
}

// The unit with this number before its first statement, with a seat of its own.
fn newcomer(
    alloc: Global,
    schema: &Schema,
    about: &About,
    number: u8,
    seat: Chair,
) -> Result<RunUnit, AllocError>
    requires same { about.now.schema.value ≡ schema.now }
    requires sound { IsSound schema.now }
    requires number { (0 < number) × (number ≤ about.now.units) × (about.now.units ≤ 8) }
    requires seat { seat.me ≡ posed about.now (opening_unit about.now.schema.value number) [] false (record { areas = []; cells = []; guesses = [] }) }
    ensures { IfOk result (λ u. u ≡ opening_view seat.table_id about.now number) }
{
    let unit = opening_unit(alloc, schema, number)?;
    let guesses = Owners::none(schema.sets().len());
    let work = Work {
        about: told(about, schema),
        unit,
        journal: Vec::new(alloc),
        exclusive: false,
        held: Held::new(alloc, guesses),
        seat,
    };
    RunUnit::of(alloc, work)
}

// The units before their first statements, each with a seat that is cut off from the first. The last unit has the first seat: a seat
// is for one thread, so the database keeps none.
fn seat_units(
    alloc: Global,
    schema: &Schema,
    board: &Board,
    about: &About,
    first: Chair,
) -> Result<Vec<RunUnit>, AllocError>
    requires same { about.now.schema.value ≡ schema.now }
    requires sound { IsSound schema.now }
    requires units { (1 ≤ about.now.units) × (about.now.units ≤ 8) }
    requires keyed { board.now.shared.key ≡ about.now }
    requires sized { IsSized about.now board.now.shared.table_id }
    requires table { first.table_id ≡ board.now.shared.table_id }
    requires seat { first.me ≡ (first_view about.now, []) }
    ensures { IfOk result (λ units. units.items ≡ opening_views board.now.shared.table_id about.now about.now.units) }
{
    let mut rest = first;
    let mut made = Vec::with_capacity(alloc, about.units as usize)?;
    let last = about.units - 1;
    for place in 0..last {
        let seat = cut_off(&board.shared, &mut rest);
        let unit = newcomer(alloc, schema, about, place + 1, seat)?;
        made.push_reserved(unit);
    }
    let unit = newcomer(alloc, schema, about, about.units, rest)?;
    made.push_reserved(unit);
    Ok(made)
}

// The table with all cells at home, and its units.
fn furnish(
    alloc: Global,
    schema: &Schema,
    about: &About,
) -> Result<(Board, Vec<RunUnit>), AllocError>
    requires same { about.now.schema.value ≡ schema.now }
    requires sound { IsSound schema.now }
    requires units { (1 ≤ about.now.units) × (about.now.units ≤ 8) }
    ensures sized { IfOk result (λ t. IsSized about.now t.0.shared.table_id × (t.0.shared.key ≡ about.now)) }
    ensures units { IfOk result (λ t. t.1.items ≡ opening_views t.0.shared.table_id about.now about.now.units) }
{
    let (board, seat) = lay(alloc, schema, about)?;
    let made = seat_units(alloc, schema, &board, about, seat)?;
    Ok((board, made))
}

impl Database {
    /// A database of this schema before its first statement, and its run-units in the order of their numbers, starting with 1.
    /// There are 1 to 8 units. The capacity is the greatest number that a record of a type can have, and may be any.
    /// The error means that memory was refused; everything that was made is then dropped.
    pub fn make(
        alloc: Global,
        schema: Schema,
        capacity: u16,
        units: u8,
    ) -> Result<(Database, Vec<RunUnit>), AllocError>
        requires sound { IsSound schema }
        requires units { (1 ≤ units) × (units ≤ 8) }
        ensures database { IfOk result (λ t. (t.0.schema ≡ schema) × (t.0.about.capacity ≡ capacity) × (t.0.about.units ≡ units)) }
        ensures units { IfOk result (λ t. t.1.items ≡ opening_views t.0.board.shared.table_id t.0.about units) }
        ensures belong { IfOk result (λ t. All (BelongsTo t.0) t.1.items) }
        ensures count { IfOk result (λ t. length t.1.items ≡ units) }
    {
        let about = About {
            schema: Snapshot::of(&schema),
            capacity,
            units,
        };
        let (board, units) = furnish(alloc, &schema, &about)?;
        let database = Database {
            board,
            schema,
            about,
        };
        Ok((database, units))
    }
}
