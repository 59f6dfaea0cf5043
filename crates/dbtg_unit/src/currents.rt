//! Changes of a run-unit, apart from what a FIND or STORE makes current: its modes, the current of one set, its
//! current of run-unit, its kept list. Nothing here takes memory.
ghost use Rattle.std.specs.Prelude.{◌≡◌, [], Some, None, slice_set};
ghost use Rattle.dbtg_unit.specs.Database.State.Base.{Database};
ghost use Rattle.dbtg_unit.specs.Database.Statements.Effect.{moved, renoted, version_of};
ghost use Rattle.dbtg_unit.specs.Database.State.Kept.{noted_again};
ghost use Rattle.dbtg_unit.specs.Database.State.Units.{forgotten, kept_version};
ghost use Rattle.dbtg_cells.specs.Keys.{key_eq};

use crate::entries::set_entry;
use crate::kept::Kept;
use crate::unit::{Place, Unit};
use dbtg_cells::{DbKey, Mode};
use dbtg_schema::{AreaNo, SetNo};

impl Unit {
    /// Opens the area in this mode.
    pub fn open(&mut self, area: AreaNo, mode: Mode)
        ensures { self.new ≡ record self.old { modes = slice_set self.old.modes area (Some mode) } }
    {
        set_entry(&mut self.modes, area.index() as usize, Some(mode));
    }

    /// Closes the area.
    pub fn close(&mut self, area: AreaNo)
        ensures { self.new ≡ record self.old { modes = slice_set self.old.modes area None } }
    {
        set_entry(&mut self.modes, area.index() as usize, None);
    }

    /// Makes this place the current of a set.
    pub fn move_to(&mut self, set: SetNo, place: Place)
        ensures { self.new ≡ moved self.old set place }
    {
        set_entry(&mut self.currency.sets, set.index() as usize, Some(place));
    }

    /// Clears the current of run-unit.
    pub fn clear_run_unit(&mut self)
        ensures { self.new ≡ record self.old { currency = record self.old.currency { run_unit = None } } }
    {
        self.currency.run_unit = None;
    }

    /// The version at which a key is kept.
    pub fn kept_version(&self, key: DbKey) -> Option<u64>
        ensures { result ≡ kept_version self.now key }
    {
        self.kept.version(key)
    }

    /// Keeps the records of this list, which was made by `Kept::noted`.
    pub fn keep(&mut self, kept: Kept)
        ensures { self.new ≡ record self.old { kept = kept } }
    {
        self.kept = kept;
    }

    /// Stops keeping a key.
    pub fn forget(&mut self, key: DbKey)
        ensures { self.new ≡ record self.old { kept = forgotten key self.old.kept } }
    {
        self.kept.forget(key);
    }

    /// Keeps nothing.
    pub fn forget_all(&mut self)
        ensures { self.new ≡ record self.old { kept = [] } }
    {
        self.kept.clear();
    }

    /// Notes that this unit's own statement gave the record another version.
    pub fn renote(&mut self, key: DbKey, version: u64)
        ensures change { self.new ≡ record self.old { kept = noted_again key version self.old.kept } }
        ensures renoted { (db : Database) → version_of db key ≡ version → self.new ≡ renoted (key_eq key) db self.old }
    {
        self.kept.renote(key, version);
    }
}
