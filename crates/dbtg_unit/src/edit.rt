//! The changes of single cells by which a statement does its work, and the change of its unit.
ghost use Rattle.std.specs.Prelude.{◌≡◌, [], ◌∷◌, ◌++◌, OnOk};
ghost use Rattle.dbtg_unit.specs.Hands.EditsOf.{ring_edits};

use crate::in_hand::ring_name;
use crate::kept::Kept;
use crate::statement::Suppress;
use crate::unit::Place;
use dbtg_cells::{CellName, DbKey, Mode, NewOwner, NewRecord, Owner, Owners, SharedItems, Value};
use dbtg_schema::{AreaNo, Order, Row, SetNo};
use std::alloc::AllocError;

/// A change of one cell.
#[derive(Drop)]
pub enum Edit {
    /// A run-unit has opened the area of a usage cell.
    EnterUser {
        unit: u8,
        mode: Mode,
    },
    /// A run-unit has closed it.
    LeaveUser {
        unit: u8,
    },
    /// A number of an extent becomes live in its next generation, with these CALC values.
    EnterNumber {
        number: u32,
        calc: Row<Value>,
    },
    /// A number of an extent is no longer live.
    LeaveNumber {
        number: u32,
    },
    /// The CALC values of a live number are now these.
    ChangeNumber {
        number: u32,
        calc: Row<Value>,
    },
    /// A ring gets an owner, with no member.
    OpenRing {
        owner: Owner,
    },
    /// A ring no longer has an owner.
    CloseRing,
    /// A new member of a ring, placed by the order of its set, from a position.
    PlaceMember {
        order: Order,
        position: Option<DbKey>,
        key: DbKey,
        sort_key: Option<Value>,
    },
    /// A member of a ring is placed again with this sort key.
    ReplaceMember {
        order: Order,
        position: Option<DbKey>,
        key: DbKey,
        sort_key: Option<Value>,
    },
    /// A member is taken out of a ring.
    TakeOut {
        key: DbKey,
    },
    /// A slot gets a record, in its first version.
    Fill {
        stored: NewRecord,
    },
    /// A slot becomes vacant.
    Vacate,
    /// The record in a slot gets these items.
    ChangeItems {
        items: SharedItems,
    },
    /// The record in a slot gets this owner in a set, or none.
    ChangeOwner {
        set: SetNo,
        owner: NewOwner,
    },
    /// The record in a slot gets its next version.
    RaiseVersion,
}

/// A change of the cell with this name.
pub struct CellEdit {
    pub name: CellName,
    pub edit: Edit,
}

impl Drop for CellEdit {
    fn drop(self) {
        let Self { name: _, edit: _ } = self;
    }
}

impl CellEdit {
    /// What is done to the cell.
    pub(crate) fn into_edit(self) -> Edit
        ensures { result ≡ self.edit }
    {
        let Self { name: _, edit } = self;
        edit
    }
}

/// Adds the edit by which a record leaves the list of its owner in a set, if it has one.
pub fn push_taking_out(
    edits: &mut Row<CellEdit>,
    set: SetNo,
    owner: Option<Owner>,
    key: &DbKey,
) -> Result<(), AllocError>
    ensures { OnOk result (edits.new ≡ edits.old ++ ring_edits set owner (Edit.TakeOut key.now ∷ [])) }
{
    if let Some(owner) = owner {
        edits.push(CellEdit {
            name: ring_name(set, &owner),
            edit: Edit::TakeOut { key: *key },
        })?;
    }
    Ok(())
}

/// The change that a statement makes to the unit and to its guesses.
#[derive(Drop)]
pub enum UnitEdit {
    Same,
    /// A record with these owners was found or stored, and becomes current; its owners become the guesses.
    See {
        key: DbKey,
        owners: Owners,
        suppress: Suppress,
    },
    /// The current of a set moves; its owner becomes the guess there.
    Move {
        set: SetNo,
        place: Place,
    },
    /// The current of run-unit left its list in a set; there is no guess there any more.
    Leave {
        set: SetNo,
    },
    /// An area is opened in a mode, or closed.
    SetMode {
        area: AreaNo,
        mode: Option<Mode>,
    },
    /// These records are now kept.
    Keep {
        kept: Kept,
    },
    /// A record is no longer kept.
    Forget {
        key: DbKey,
    },
    /// No record is kept any more.
    ForgetAll,
    /// The current of run-unit was deleted: it is cleared, and the record is no longer kept.
    LoseCurrent {
        key: DbKey,
    },
}
