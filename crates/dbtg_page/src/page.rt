//! The page of a run. The core is stepped move by move; each ticket is followed by what it leads to.
ghost use Rattle.std.specs.Prelude.{List, ◌≡◌, ◌++◌, ◌∷◌, ◌≤◌, [], true, drop, length, map, take, if◌then◌else◌, IfOk, OnOk, codes};
ghost use Rattle.std.specs.List.{flat_map};
ghost use Rattle.dbtg_schema.specs.Sound.{IsSound};
ghost use Rattle.dbtg_script.specs.Printing.Texts.{units_text};
ghost use Rattle.dbtg_step.specs.Core.Core.{state_now};
ghost use Rattle.dbtg_step.specs.Core.CoreSteps.{after_move};
ghost use Rattle.dbtg_step.specs.Core.Parts.{machine};
ghost use Rattle.dbtg_step.specs.Laws.{scripts_fit};
ghost use Rattle.dbtg_step.specs.Machine.SequentialDatabase.{unit_at};
ghost use Rattle.std.specs.Option.{option_to_list};
ghost use Rattle.dbtg_unit.specs.Database.State.Image.{image_of};
ghost use Rattle.dbtg_unit.specs.declared.moves.Move.{Move};
ghost use Rattle.dbtg_timeline.specs.Events.{event_of_move};
ghost use Rattle.dbtg_timeline.specs.Watching.{opening_core};
ghost use Rattle.dbtg_page.specs.Json.{row};
ghost use Rattle.dbtg_page.specs.Rows.{about_event, change_row, core_text, event_row, event_rows, front_rows, move_rows};
ghost use Rattle.dbtg_page.specs.Rows.{newest_answer, newest_area, newest_cell, page_text, rows_of_moves, run_rows, shown_behind, ticket_row};

use crate::changes::push_changes;
use crate::json::{push_end, push_field, push_kind, push_row, push_row_of_one};
use crate::markup::MARKUP;
use crate::script::SCRIPT;
use dbtg_schema::{Area, RecordType, Row, Schema, SetType};
use dbtg_script::{image_text, push_answer, push_unit};
use dbtg_step::{Core, make_move};
use dbtg_timeline::{Event, Mark, area_name, letter, push_cell, watch_move};
use dbtg_unit::{Entry, LAST_UNIT, Move, Statement};
use itoa::Buffer;
use std::alloc::{AllocError, Global};

/// What a page shows in addition to a run: the names of the files, first that of the schema and then those of the scripts; the text of each
/// statement, by its script and its place there; and the meaning of each cause of a refusal, one per line.
#[derive(Clone, Copy)]
pub struct Told<'a> {
    pub files: &'a [Row<u8>],
    pub scripts: &'a [Row<Row<u8>>],
    pub causes: &'a [u8],
}

/// The moves of a run. A page begins after the first `before` of them, and shows the events of the others if `events` says so.
#[derive(Clone, Copy)]
pub struct Steps<'a> {
    pub events: bool,
    pub before: usize,
    pub moves: &'a [Move],
}

/// What does not change during a run.
#[derive(Clone, Copy)]
struct Setting<'a> {
    alloc: Global,
    schema: &'a Schema,
    units: u8,
    events: bool,
}

// ---- before the run

#[tactic(auto, unfolding(crate::specs::Json::row))]
fn push_types(out: &mut Vec<u8>, types: &[RecordType]) -> Result<(), AllocError>
    ensures { OnOk result (out.new.items ≡ out.old.items ++ row (codes "TYPES") (map (λ t. t.name) types.now)) }
{
    push_kind(out, b"TYPES")?;
    for rtype in types {
        push_field(out, rtype.name.as_slice())?;
    }
    push_end(out)
}

#[tactic(auto, unfolding(crate::specs::Json::row))]
fn push_sets(out: &mut Vec<u8>, sets: &[SetType]) -> Result<(), AllocError>
    ensures { OnOk result (out.new.items ≡ out.old.items ++ row (codes "SETS") (map (λ s. s.name) sets.now)) }
{
    push_kind(out, b"SETS")?;
    for set in sets {
        push_field(out, set.name.as_slice())?;
    }
    push_end(out)
}

#[tactic(auto, unfolding(crate::specs::Json::row))]
fn push_areas(out: &mut Vec<u8>, areas: &[Area]) -> Result<(), AllocError>
    ensures { OnOk result (out.new.items ≡ out.old.items ++ row (codes "AREAS") (map (λ a. a.name) areas.now)) }
{
    push_kind(out, b"AREAS")?;
    for area in areas {
        push_field(out, area.name.as_slice())?;
    }
    push_end(out)
}

fn push_scripts(out: &mut Vec<u8>, scripts: &[Row<Row<u8>>]) -> Result<(), AllocError>
    ensures { OnOk result (out.new.items ≡ out.old.items ++ flat_map (row (codes "SCRIPT")) scripts.now) }
{
    for script in scripts {
        push_row(out, b"SCRIPT", script.as_slice())?;
    }
    Ok(())
}

#[tactic(auto, unfolding(crate::specs::Rows::front_rows))]
fn push_front(out: &mut Vec<u8>, schema: &Schema, told: &Told<'_>) -> Result<(), AllocError>
    ensures { OnOk result (out.new.items
        ≡ out.old.items ++ front_rows schema.now (record { files = told.now.files.now; scripts = told.now.scripts.now; causes = told.now.causes.now })) }
{
    push_row(out, b"FILES", told.files)?;
    push_types(out, schema.types())?;
    push_sets(out, schema.sets())?;
    push_areas(out, schema.areas())?;
    push_row_of_one(out, b"CAUSES", told.causes)?;
    push_scripts(out, told.scripts)
}

// ---- the run

fn push_unit_of(
    out: &mut Vec<u8>,
    setting: &Setting<'_>,
    core: &Core,
    number: u8,
) -> Result<(), AllocError>
    ensures { OnOk result (out.new.items ≡ out.old.items ++ units_text setting.now.schema.now (option_to_list (unit_at (state_now core.now).units number))) }
{
    match core.unit(number) {
        Some(unit) => push_unit(out, setting.schema, unit),
        None => Ok(()),
    }
}

fn units_of(setting: &Setting<'_>, core: &Core) -> Result<Vec<u8>, AllocError>
    requires { length core.now.runners ≡ setting.now.units }
    ensures { IfOk result (λ text. text.items ≡ units_text setting.now.schema.now (state_now core.now).units) }
{
    core.is_core();
    let mut text = Vec::new(setting.alloc);
    for before in 0..setting.units {
        push_unit_of(&mut text, setting, core, before + 1)?;
    }
    Ok(text)
}

fn newest_answer(setting: &Setting<'_>, history: &[Entry]) -> Result<Vec<u8>, AllocError>
    ensures { IfOk result (λ text. text.items ≡ newest_answer setting.now.schema.now history.now) }
{
    let mut text = Vec::new(setting.alloc);
    if let Some(entry) = history.last() {
        push_answer(&mut text, setting.schema, entry)?;
    }
    Ok(text)
}

// The database and the units to which the history of a core leads.
#[tactic(auto, using(crate::proofs::CoreShown::text_shown))]
fn text_of_core(setting: &Setting<'_>, core: &Core) -> Result<Vec<u8>, AllocError>
    requires schema { core.now.schema ≡ setting.now.schema.now }
    requires units { length core.now.runners ≡ setting.now.units }
    ensures { IfOk result (λ text. text.items ≡ core_text (machine core.now)) }
{
    let image = core.image(setting.alloc)?;
    let mut text = image_text(setting.alloc, setting.schema, &image)?;
    let units = units_of(setting, core)?;
    text.extend_from_slice(units.as_slice())?;
    Ok(text)
}

// A ticket: its answer, and what it changes.
#[tactic(auto, unfolding(crate::specs::Rows::change_row))]
fn push_change(
    alloc: Global,
    out: &mut Vec<u8>,
    answer: &[u8],
    old: &[u8],
    new: &[u8],
) -> Result<(), AllocError>
    ensures { OnOk result (out.new.items ≡ out.old.items ++ change_row answer.now old.now new.now) }
{
    push_kind(out, b"TICKET")?;
    push_field(out, answer)?;
    push_changes(alloc, out, old, new)?;
    push_end(out)
}

// The area or the cell that a unit took last.
fn push_newest(out: &mut Vec<u8>, core: &Core, unit: u8, is_cell: bool) -> Result<(), AllocError>
    ensures { OnOk result (out.new.items ≡ out.old.items ++ (if is_cell then newest_cell (machine core.now) unit else newest_area (machine core.now) unit)) }
{
    let Some(newest) = core.newest_at(unit) else {
        return Ok(());
    };
    if is_cell {
        match newest.cell {
            Some(cell) => push_cell(out, core.schema(), cell),
            None => Ok(()),
        }
    } else {
        match newest.area {
            Some(area) => out.extend_from_slice(area_name(core.schema(), area)),
            None => Ok(()),
        }
    }
}

// The area or the cell that an event took, or what its unit waits for.
fn about_event(alloc: Global, core: &Core, event: &Event) -> Result<Vec<u8>, AllocError>
    ensures { IfOk result (λ text. text.items ≡ about_event (machine core.now) event.now.unit event.now.mark event.now.below) }
{
    let mut text = Vec::new(alloc);
    match event.mark {
        Mark::TakeArea => push_newest(&mut text, core, event.unit, false)?,
        Mark::TakeCell => push_newest(&mut text, core, event.unit, true)?,
        _ => text.extend_from_slice(event.below.as_slice())?,
    }
    Ok(text)
}

#[tactic(auto, unfolding(crate::specs::Rows::event_row, crate::specs::Json::row))]
fn push_event(
    alloc: Global,
    out: &mut Vec<u8>,
    core: &Core,
    event: &Event,
) -> Result<(), AllocError>
    ensures { OnOk result (out.new.items ≡ out.old.items ++ event_row (machine core.now) event.now) }
{
    let mut unit = Buffer::new();
    let mut place = Buffer::new();
    let about = about_event(alloc, core, event)?;
    push_kind(out, b"EVENT")?;
    push_field(out, unit.format(event.unit).as_bytes())?;
    push_field(out, &[letter(event.mark)])?;
    push_field(out, place.format(event.place).as_bytes())?;
    push_field(out, about.as_slice())?;
    push_end(out)
}

// The row of an event, if events are shown.
fn push_shown_event(
    out: &mut Vec<u8>,
    setting: &Setting<'_>,
    core: &Core,
    event: &Event,
) -> Result<(), AllocError>
    ensures { OnOk result (out.new.items ≡ out.old.items ++ event_rows setting.now.events (machine core.now) event.now) }
{
    if setting.events {
        push_event(setting.alloc, out, core, event)
    } else {
        Ok(())
    }
}

// After a ticket, what it changes in the text that was shown before.
#[tactic(auto, using(crate::proofs::CoreShown::answer_shown))]
fn push_ticket(
    out: &mut Vec<u8>,
    setting: &Setting<'_>,
    core: &Core,
    shown: &mut Vec<u8>,
    mark: Mark,
) -> Result<(), AllocError>
    requires schema { core.now.schema ≡ setting.now.schema.now }
    requires units { length core.now.runners ≡ setting.now.units }
    ensures text { OnOk result (out.new.items ≡ out.old.items ++ ticket_row (machine core.now) shown.old.items mark) }
    ensures shown { OnOk result (shown.new.items ≡ shown_behind (machine core.now) shown.old.items mark) }
{
    match mark {
        Mark::Ticket { .. } => {
            let answer = newest_answer(setting, core.history())?;
            let text = text_of_core(setting, core)?;
            push_change(
                setting.alloc,
                out,
                answer.as_slice(),
                shown.as_slice(),
                text.as_slice(),
            )?;
            *shown = text;
            Ok(())
        }
        _ => Ok(()),
    }
}

// Makes one move, and shows it.
#[tactic(auto, using(crate::proofs::CoreShown::same_schema, crate::proofs::CoreShown::same_count))]
fn push_move(
    out: &mut Vec<u8>,
    setting: &Setting<'_>,
    core: &mut Core,
    shown: &mut Vec<u8>,
    one: Move,
) -> Result<(), AllocError>
    requires schema { core.old.schema ≡ setting.now.schema.now }
    requires units { length core.old.runners ≡ setting.now.units }
    ensures core { OnOk result (machine core.new ≡ after_move (machine core.old) one) }
    ensures text { OnOk result (out.new.items ≡ out.old.items ++ move_rows setting.now.events shown.old.items (machine core.old) one) }
    ensures shown { OnOk result (shown.new.items
        ≡ shown_behind (after_move (machine core.old) one) shown.old.items (event_of_move (machine core.old) one).mark) }
{
    let event = watch_move(setting.alloc, core, one)?;
    push_shown_event(out, setting, core, &event)?;
    push_ticket(out, setting, core, shown, event.mark)
}

#[tactic(auto, using(crate::proofs::CoreShown::same_schema, crate::proofs::CoreShown::same_count))]
fn push_each_move(
    out: &mut Vec<u8>,
    setting: &Setting<'_>,
    core: &mut Core,
    shown: &mut Vec<u8>,
    moves: &[Move],
) -> Result<(), AllocError>
    requires schema { core.old.schema ≡ setting.now.schema.now }
    requires units { length core.old.runners ≡ setting.now.units }
    ensures { OnOk result (out.new.items ≡ out.old.items ++ rows_of_moves setting.now.events shown.old.items (machine core.old) moves.now) }
{
    for one in moves {
        push_move(out, setting, core, shown, *one)?;
    }
    Ok(())
}

// The database where the page begins, and these moves.
fn push_run(
    out: &mut Vec<u8>,
    setting: &Setting<'_>,
    core: &mut Core,
    moves: &[Move],
) -> Result<(), AllocError>
    requires schema { core.old.schema ≡ setting.now.schema.now }
    requires units { length core.old.runners ≡ setting.now.units }
    ensures { OnOk result (out.new.items ≡ out.old.items ++ run_rows setting.now.events (machine core.old) [] moves.now) }
{
    let mut shown = text_of_core(setting, core)?;
    push_row_of_one(out, b"STATE", shown.as_slice())?;
    push_each_move(out, setting, core, &mut shown, moves)
}

fn first_of(moves: &[Move], count: usize) -> &[Move]
    ensures { result.now ≡ take count moves.now }
{
    &moves[..count.min(moves.len())]
}

fn behind_first(moves: &[Move], count: usize) -> &[Move]
    ensures { result.now ≡ drop count moves.now }
{
    &moves[count.min(moves.len())..]
}

// The moves before the page begins.
#[tactic(auto, using(crate::proofs::CoreShown::same_schema, crate::proofs::CoreShown::same_count))]
fn pass(setting: &Setting<'_>, core: &mut Core, before: &[Move]) -> Result<(), AllocError>
    requires schema { core.old.schema ≡ setting.now.schema.now }
    requires units { length core.old.runners ≡ setting.now.units }
    ensures run { OnOk result ((moves : List Move) → run_rows setting.now.events (machine core.new) [] moves
        ≡ run_rows setting.now.events (machine core.old) before.now moves) }
    ensures schema { OnOk result (core.new.schema ≡ setting.now.schema.now) }
    ensures units { OnOk result (length core.new.runners ≡ setting.now.units) }
{
    for one in before {
        make_move(core, *one)?;
    }
    Ok(())
}

// The run of these moves, starting with the opening database.
#[tactic(auto, using(crate::proofs::CoreShown::begun_schema, crate::proofs::CoreShown::begun_count))]
fn push_whole_run(
    out: &mut Vec<u8>,
    setting: &Setting<'_>,
    capacity: u16,
    statements: Row<Row<Statement>>,
    steps: &Steps<'_>,
) -> Result<(), AllocError>
    requires sound { IsSound setting.now.schema.now }
    requires units { length statements ≡ setting.now.units }
    requires few { length statements ≤ LAST_UNIT }
    requires fit { scripts_fit setting.now.schema.now statements ≡ true }
    ensures { OnOk result (out.new.items
        ≡ out.old.items ++ run_rows setting.now.events (opening_core setting.now.schema.now capacity statements)
        (take steps.now.before steps.now.moves.now) (drop steps.now.before steps.now.moves.now)) }
{
    let mut core = Core::new(setting.alloc, setting.schema, capacity, statements)?;
    pass(setting, &mut core, first_of(steps.moves, steps.before))?;
    push_run(
        out,
        setting,
        &mut core,
        behind_first(steps.moves, steps.before),
    )
}

/// The page of the run of these moves, starting with the opening database, with a unit for each script. A step without memory ends it.
#[tactic(auto, unfolding(crate::specs::Rows::page_text))]
pub fn page_text(
    alloc: Global,
    schema: &Schema,
    capacity: u16,
    statements: Row<Row<Statement>>,
    told: &Told<'_>,
    steps: &Steps<'_>,
) -> Result<Vec<u8>, AllocError>
    requires sound { IsSound schema.now }
    requires units { length statements ≤ LAST_UNIT }
    requires fit { scripts_fit schema.now statements ≡ true }
    ensures { IfOk result (λ text. text.items
        ≡ page_text schema.now capacity statements
        (record { files = told.now.files.now; scripts = told.now.scripts.now; causes = told.now.causes.now }) steps.now.events steps.now.before steps.now.moves.now) }
{
    let setting = Setting {
        alloc,
        schema,
        units: statements.len() as u8,
        events: steps.events,
    };
    let mut out = Vec::from_slice(alloc, MARKUP.as_bytes())?;
    push_front(&mut out, schema, told)?;
    push_whole_run(&mut out, &setting, capacity, statements, steps)?;
    out.extend_from_slice(SCRIPT.as_bytes())?;
    Ok(out)
}
