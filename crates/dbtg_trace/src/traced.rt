//! What the lines of a trace say.

ghost use Rattle.std.specs.Prelude.{◌≡◌, IfOk};

use dbtg_cells::{DbKey, SharedItems};
use dbtg_unit::Statement;
use std::alloc::AllocError;

/// The answer that a line gives: its status as a number of four digits; key and items are none if the line leaves them out.
#[derive(Drop)]
pub struct Said {
    pub status: u16,
    pub key: Option<DbKey>,
    /// All items of the key's record type, in the order of the schema; none if there is no key.
    pub items: Option<SharedItems>,
}

impl Said {
    /// A copy.
    pub(crate) fn copy(&self) -> Result<Self, AllocError>
        ensures { IfOk result (λ said. said ≡ self.now) }
    {
        let items = match &self.items {
            None => None,
            Some(items) => Some(items.share()?),
        };
        Ok(Self {
            status: self.status,
            key: self.key,
            items,
        })
    }
}

/// A line with a statement: its number in the text from 1, the unit that asked, what it asked, and what it says was answered.
#[derive(Drop)]
pub struct Traced {
    pub line: u64,
    pub unit: u8,
    pub statement: Statement,
    pub said: Said,
}
