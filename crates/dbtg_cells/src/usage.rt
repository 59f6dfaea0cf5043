//! Who has an area open.
ghost use Rattle.std.specs.Prelude.{◌≡◌, ℕ, ◌<◌, ◌++◌, [], ◌∷◌, List, Option, Some, None, IsOk, IfOk, OnErr, OnOk, IsTrue, ◌↔◌, nat_lt};
ghost use Rattle.std.specs.List.{list_any};
ghost use Rattle.dbtg_cells.specs.Users.{left_by, mode_in};
ghost use Rattle.dbtg_cells.specs.Modes.{is_update, is_exclusive, is_protected, conflict as modes_conflict};

use std::alloc::{AllocError, Global};
use std::marker::Model;

/// How a run-unit has an area open.
#[derive(Clone, Copy, Debug, PartialEq, Eq)]
pub enum Mode {
    Retrieval,
    Update,
    ProtectedRetrieval,
    ProtectedUpdate,
    ExclusiveRetrieval,
    ExclusiveUpdate,
}

impl Mode {
    /// Whether records may be changed.
    pub fn is_update(self) -> bool
        ensures { result ≡ is_update self }
    {
        match self {
            Mode::Update | Mode::ProtectedUpdate | Mode::ExclusiveUpdate => true,
            _ => false,
        }
    }

    fn is_exclusive(self) -> bool
        ensures { result ≡ is_exclusive self }
    {
        match self {
            Mode::ExclusiveRetrieval | Mode::ExclusiveUpdate => true,
            _ => false,
        }
    }

    fn is_protected(self) -> bool
        ensures { result ≡ is_protected self }
    {
        match self {
            Mode::ProtectedRetrieval | Mode::ProtectedUpdate => true,
            _ => false,
        }
    }

    /// Whether two run-units can't have an area open in these modes at once.
    pub fn conflicts_with(self, other: Mode) -> bool
        ensures { result ≡ modes_conflict self other }
    {
        self.is_exclusive()
            || other.is_exclusive()
            || (self.is_protected() && other.is_update())
            || (other.is_protected() && self.is_update())
    }
}

/// Who has an area open, in the order of opening.
pub struct Usage {
    users: Vec<(u8, Mode)>,
}

impl Drop for Usage {
    fn drop(self) {
        let Self { users: _ } = self;
    }
}

impl Model for Usage {
    ghost use Rattle.std.specs.Prelude.{List, ℕ, vec_capacity, vec_len, ◌-◌};
    ghost use Rattle.dbtg_cells.specs.Shown.{UsageView};

    ghost Value = { UsageView };

    ghost view = { λ u. record { users = u.users.items; room = vec_capacity u.users - vec_len u.users } };
}

// The users without this one.
fn leave_users(users: &mut Vec<(u8, Mode)>, unit: u8)
    ensures { users.new.items ≡ left_by unit users.old.items }
{
    users.retain(|e| e.0 != unit);
}

impl Usage {
    /// An area that nobody has open. Takes no memory.
    pub fn new(alloc: Global) -> Self
        ensures { result.users ≡ [] }
    {
        Self {
            users: Vec::new(alloc),
        }
    }

    /// The same run-units in the same modes; room for further ones is not copied.
    pub fn copy(&self, alloc: Global) -> Result<Self, AllocError>
        ensures { IfOk result (λ usage. usage.users ≡ self.now.users) }
    {
        let users = Vec::from_slice(alloc, self.users.as_slice())?;
        Ok(Self { users })
    }

    /// The run-units and their modes, in the order of opening.
    pub fn users(&self) -> &[(u8, Mode)]
        ensures { result.now ≡ self.now.users }
    {
        self.users.as_slice()
    }

    /// Whether some run-unit's mode conflicts with this one.
    pub fn conflicts_with(&self, mode: Mode) -> bool
        ensures { result ≡ list_any (λ e. modes_conflict e.1 mode) self.now.users }
    {
        for e in self.users.iter() {
            if e.1.conflicts_with(mode) {
                return true;
            }
        }
        false
    }

    /// The mode in which a run-unit has the area open.
    pub fn mode_in(&self, unit: u8) -> Option<Mode>
        ensures { result ≡ mode_in self.now.users unit }
    {
        for e in self.users.iter() {
            if e.0 == unit {
                return Some(e.1);
            }
        }
        None
    }

    /// Whether another run-unit can enter without memory.
    pub fn has_room(&self) -> bool
        ensures { result ≡ nat_lt 0 self.now.room }
    {
        self.users.len() < self.users.capacity()
    }

    /// Makes room for another run-unit. If there is room already it takes no memory.
    pub fn reserve_user(&mut self) -> Result<(), AllocError>
        ensures ok { OnOk result (0 < self.new.room) }
        ensures had_room { 0 < self.old.room → IsOk result × (self.new ≡ self.old) }
        ensures err { OnErr result (self.new ≡ self.old) }
        ensures users { self.new.users ≡ self.old.users }
    {
        if self.has_room() {
            return Ok(());
        }
        self.users.reserve(1)
    }

    /// A run-unit opens the area: it is listed last.
    pub fn enter(&mut self, unit: u8, mode: Mode)
        requires { 0 < self.old.room }
        ensures { self.new.users ≡ self.old.users ++ (unit, mode) ∷ [] }
    {
        self.users.push_reserved((unit, mode));
    }

    /// A run-unit closes the area: it is removed, and the others keep their order.
    pub fn leave(&mut self, unit: u8)
        ensures { self.new.users ≡ left_by unit self.old.users }
    {
        leave_users(&mut self.users, unit);
    }
}
