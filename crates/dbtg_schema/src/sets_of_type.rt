//! The sets of which a record type is the owner or a member. They are found once for each record type, when a schema is made, so
//! that a statement goes through these sets alone.

ghost use Rattle.std.specs.Prelude.{◌≡◌, ◌==◌, ◌≤◌, ◌++◌, ◌∷◌, [], cond, IfOk, OnOk, length};
ghost use Rattle.std.specs.List.{find};
ghost use Rattle.dbtg_schema.specs.Lookups.{some_and};
ghost use Rattle.dbtg_schema.specs.Inside.SetsOfTypes.{sets_alone, AreSetsOf, AreSetsOfEach};
ghost use Rattle.dbtg_schema.specs.Structure.{is_automatic};

use crate::limits::MOST_SETS;
use crate::numbers::{RecordNo, SetNo};
use crate::row::Row;
use crate::schema::clause_for;
use crate::shape::SetType;
use std::alloc::{AllocError, Global};

/// The sets of one record type, in the order of the schema.
#[derive(Drop)]
pub struct SetsOfType {
    /// The sets in which STORE connects its records.
    pub automatic: Row<SetNo>,
    /// The sets that it owns.
    pub owned: Row<SetNo>,
}

/// Does STORE connect a record of this type in the set?
fn connects(set: &SetType, rtype: RecordNo) -> bool
    ensures { result ≡ some_and (λ m. is_automatic m.class) (find (λ member. member.rtype == rtype) set.now.members) }
{
    match clause_for(set.members.as_slice(), rtype) {
        Some(member) => member.class.is_automatic(),
        None => false,
    }
}

/// Is this record type the owner type of the set?
fn owns(set: &SetType, rtype: RecordNo) -> bool
    ensures { result ≡ some_and (λ owner. owner == rtype) set.now.owner }
{
    match set.owner {
        Some(owner) => owner.index() == rtype.index(),
        None => false,
    }
}

/// Appends the set to the list if its test has passed.
fn list_if(passed: bool, list: &mut Row<SetNo>, set: SetNo) -> Result<(), AllocError>
    ensures { OnOk result (list.new ≡ list.old ++ cond passed (set ∷ []) []) }
{
    if passed {
        list.push(set)?;
    }
    Ok(())
}

/// The sets of this record type.
fn sets_of_type(alloc: Global, sets: &[SetType], rtype: RecordNo) -> Result<SetsOfType, AllocError>
    requires { length sets.now ≤ MOST_SETS }
    ensures { IfOk result (λ listed. AreSetsOf (sets_alone sets.now) rtype listed) }
{
    let mut automatic = Row::of(Vec::new(alloc));
    let mut owned = Row::of(Vec::new(alloc));
    for (s, set) in sets.iter().enumerate() {
        let number = SetNo::new(s as u8);
        list_if(connects(set, rtype), &mut automatic, number)?;
        list_if(owns(set, rtype), &mut owned, number)?;
    }
    Ok(SetsOfType { automatic, owned })
}

/// The sets of each record type, by its number.
pub fn sets_of_each(
    alloc: Global,
    sets: &[SetType],
    types: u8,
) -> Result<Row<SetsOfType>, AllocError>
    requires { length sets.now ≤ MOST_SETS }
    ensures { IfOk result (λ each. AreSetsOfEach each types sets.now) }
{
    let mut each = Row::of(Vec::new(alloc));
    for t in 0..types {
        each.push(sets_of_type(alloc, sets, RecordNo::new(t))?)?;
    }
    Ok(each)
}
