//! What a statement has prepared, and how it is done: without memory and without a refusal.
ghost use Rattle.std.specs.Prelude.{◌≡◌, [], ◌∷◌, ◌++◌, IfOk, map, slice_set};
ghost use Rattle.dbtg_unit.specs.Hands.EditsOf.{edits_of_erased};
ghost use Rattle.dbtg_unit.specs.Hands.Locality.{made_by, seen};
ghost use Rattle.dbtg_unit.specs.Hands.Making.{AreMade, CanEditHeld, CanMake};
ghost use Rattle.dbtg_unit.specs.Hands.Prepared.{edited_values, guesses_edited, refusal, renoted_at, unit_after, unit_edited, values_of};

use crate::apply::edit_cell;
use crate::edit::{CellEdit, UnitEdit};
use crate::edited_names::{add_erased, add_names};
use crate::erased::{Erased, erase};
use crate::held::Held;
use crate::unit::{Answer, Cause, Status, Unit};
use dbtg_cells::{CellName, DbKey, Mode};
use dbtg_schema::{AreaNo, Row, Schema};
use std::alloc::{AllocError, Global};
use std::marker::Model;

/// What a statement has prepared: its answer, the changes of the cells that it holds, in their order, the new versions of the
/// records that it changes, and the change of its unit. The changes that take records out come first.
#[derive(Drop)]
pub struct Prepared {
    answer: Answer,
    erased: Option<Erased>,
    cells: Row<CellEdit>,
    versions: Row<(DbKey, u64)>,
    unit: UnitEdit,
}

impl Model for Prepared {
    ghost use Rattle.std.specs.Prelude.{◌++◌};
    ghost use Rattle.dbtg_unit.specs.Inside.Prepared.{erased_edits};
    ghost use Rattle.dbtg_unit.specs.Hands.Prepared.{Plan};

    ghost Value = { Plan };

    ghost view = { λ p. record { answer = p.answer; cells = erased_edits p.erased ++ p.cells; versions = p.versions; unit = p.unit } };
}

impl Prepared {
    pub fn new(
        answer: Answer,
        cells: Row<CellEdit>,
        versions: Row<(DbKey, u64)>,
        unit: UnitEdit,
    ) -> Self
        ensures { result ≡ record { answer = answer; cells = cells; versions = versions; unit = unit } }
    {
        Self {
            erased: None,
            answer,
            cells,
            versions,
            unit,
        }
    }

    /// What is prepared by a statement that takes records out; it does so before the other changes of cells.
    pub fn erasing(
        answer: Answer,
        erased: Erased,
        cells: Row<CellEdit>,
        versions: Row<(DbKey, u64)>,
        unit: UnitEdit,
    ) -> Self
        ensures { result ≡ record { answer = answer; cells = edits_of_erased erased ++ cells; versions = versions; unit = unit } }
    {
        Self {
            erased: Some(erased),
            answer,
            cells,
            versions,
            unit,
        }
    }

    /// The answer of the statement.
    pub fn answer(&self) -> &Answer
        ensures { result.now ≡ self.now.answer }
    {
        &self.answer
    }

    /// The names of the cells that it changes, in the order of its edits. A name stands there as often as its cell is edited.
    pub fn names(&self, alloc: Global) -> Result<Row<CellName>, AllocError>
        ensures { IfOk result (λ names. names ≡ map (λ e. e.name) self.now.cells) }
    {
        let mut names = Vec::new(alloc);
        if let Some(erased) = &self.erased {
            add_erased(&mut names, erased)?;
        }
        add_names(&mut names, self.cells.as_slice())?;
        Ok(Row::of(names))
    }
}

/// Refused for a cause: nothing changes.
pub fn refused(alloc: Global, cause: Cause) -> Prepared
    ensures { result ≡ refusal cause }
{
    let answer = Answer {
        status: Status::Refused(cause),
        key: None,
        items: None,
    };
    Prepared::new(
        answer,
        Row::of(Vec::new(alloc)),
        Row::of(Vec::new(alloc)),
        UnitEdit::Same,
    )
}

/// Makes an edit of the cell of its name, if that cell is held. It takes no memory and cannot fail.
pub fn edit_held(held: &mut Held, edit: CellEdit)
    requires { CanEditHeld edit held.old.cells }
    ensures made { AreMade (edit ∷ []) held.old.cells held.new.cells }
    ensures areas { held.new.areas ≡ held.old.areas }
    ensures guesses { held.new.guesses ≡ held.old.guesses }
{
    match held.cell_mut(&edit.name) {
        Some(cell) => edit_cell(cell, edit.into_edit()),
        None => {}
    }
}

/// Makes edits of held cells, one after another.
pub fn edit_each_cell(held: &mut Held, edits: Row<CellEdit>)
    requires { CanMake edits held.old.cells }
    ensures made { AreMade edits held.old.cells held.new.cells }
    ensures areas { held.new.areas ≡ held.old.areas }
    ensures guesses { held.new.guesses ≡ held.old.guesses }
{
    for edit in edits.into_vec() {
        edit_held(held, edit);
    }
}

fn note_versions(unit: &mut Unit, versions: &[(DbKey, u64)])
    ensures { unit.new ≡ record unit.old { kept = renoted_at versions.now unit.old.kept } }
{
    for version in versions {
        unit.renote(version.0, version.1);
    }
}

fn set_mode(unit: &mut Unit, area: AreaNo, mode: Option<Mode>)
    ensures { unit.new ≡ record unit.old { modes = slice_set unit.old.modes area mode } }
{
    match mode {
        Some(mode) => unit.open(area, mode),
        None => unit.close(area),
    }
}

fn change_unit(schema: &Schema, change: UnitEdit, held: &mut Held, unit: &mut Unit)
    ensures held { held.new ≡ record held.old { guesses = guesses_edited change held.old.guesses } }
    ensures unit { unit.new ≡ unit_edited schema.now change unit.old }
{
    match change {
        UnitEdit::Same => {}
        UnitEdit::See {
            key,
            owners,
            suppress,
        } => {
            unit.see(schema, key, owners.as_slice(), &suppress);
            held.set_guesses(owners);
        }
        UnitEdit::Move { set, place } => {
            held.set_guess(set, Some(place.owner));
            unit.move_to(set, place);
        }
        UnitEdit::Leave { set } => held.set_guess(set, None),
        UnitEdit::SetMode { area, mode } => set_mode(unit, area, mode),
        UnitEdit::Keep { kept } => unit.keep(kept),
        UnitEdit::Forget { key } => unit.forget(key),
        UnitEdit::ForgetAll => unit.forget_all(),
        UnitEdit::LoseCurrent { key } => {
            unit.clear_run_unit();
            unit.forget(key);
        }
    }
}

/// Carries out what was prepared on the cells that are held, the guesses and the unit. It takes no memory and cannot fail. The call that
/// prepared it says on which databases this is the statement's effect.
pub fn finish(schema: &Schema, prepared: Prepared, held: &mut Held, unit: &mut Unit) -> Answer
    requires { CanMake prepared.cells held.old.cells }
    ensures answer { result ≡ prepared.answer }
    ensures areas { held.new.areas ≡ held.old.areas }
    ensures cells { values_of held.new.cells ≡ edited_values prepared.cells (values_of held.old.cells) }
    ensures guesses { held.new.guesses ≡ guesses_edited prepared.unit held.old.guesses }
    ensures unit { unit.new ≡ unit_after schema.now prepared unit.old }
    ensures made { seen result unit.new held.new ≡ made_by schema.now unit.old held.old prepared }
{
    let Prepared {
        answer,
        erased,
        cells,
        versions,
        unit: change,
    } = prepared;
    erase(held, erased);
    edit_each_cell(held, cells);
    note_versions(unit, versions.as_slice());
    change_unit(schema, change, held, unit);
    answer
}
