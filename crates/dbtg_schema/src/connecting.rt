//! The sets in which STORE connects a record. They are computed once for each record type, when a schema is made.

ghost use Rattle.std.specs.Prelude.{◌≡◌, IfOk};
ghost use Rattle.dbtg_schema.specs.Inside.Connecting.{connects_in, AreConnecting, AreConnectingOfEach};
ghost use Rattle.dbtg_schema.specs.Erasing.{marked};

use crate::erasing::marked;
use crate::limits::MOST_SETS;
use crate::numbers::{RecordNo, SetNo};
use crate::row::Row;
use crate::schema::Schema;
use std::alloc::{AllocError, Global};
use std::marker::Model;

/// Some of the sets of a schema. Contracts see a mark for each that it can have.
#[derive(Clone, Copy)]
pub struct SetMarks {
    marks: [bool; MOST_SETS],
}

impl Model for SetMarks {
    ghost use Rattle.std.specs.Prelude.{Bool, List};

    ghost Value = { List Bool };

    ghost view = { λ s. s.marks };

    ghost inverse = { λ marks. record { marks = marks } };
}

impl SetMarks {
    /// Is this set among them?
    pub fn contains(&self, set: SetNo) -> bool
        ensures { result ≡ marked self.now set }
    {
        marked(&self.marks, set.index())
    }
}

/// Is this type a member of the set for which STORE connects the record?
pub fn connects_in(schema: &Schema, set: SetNo, rtype: RecordNo) -> bool
    ensures { result ≡ connects_in schema.now set rtype }
{
    match schema.member_clause(set, rtype) {
        Some(member) => member.class.is_automatic(),
        None => false,
    }
}

/// The sets in which STORE connects a record of this type.
fn sets_connecting(schema: &Schema, rtype: RecordNo) -> SetMarks
    ensures { AreConnecting schema.now rtype result }
{
    schema.is_well_formed();
    let mut marks = [false; MOST_SETS];
    for s in 0..MOST_SETS as u8 {
        marks[s as usize] = connects_in(schema, SetNo::new(s), rtype);
    }
    SetMarks { marks }
}

/// The same for each record type.
pub fn sets_connecting_each(alloc: Global, schema: &Schema) -> Result<Row<SetMarks>, AllocError>
    ensures { IfOk result (λ each. AreConnectingOfEach each schema.now) }
{
    let mut each = Row::of(Vec::new(alloc));
    for t in 0..schema.types().len() as u8 {
        each.push(sets_connecting(schema, RecordNo::new(t)))?;
    }
    Ok(each)
}
