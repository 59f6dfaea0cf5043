//! The fields of a program that are items of record types.

ghost use Rattle.dbtg_program.specs.Values.{field_of, fields_of, records_from};
ghost use Rattle.std.specs.List.{flat_map};
ghost use Rattle.std.specs.Prelude.{◌≡◌, ◌++◌, IfOk, OnOk};

use dbtg_schema::{Item, RecordType, Row};
use std::alloc::{AllocError, Global};

/// Fields by their numbers, and the number of the first item of each record type among them.
#[derive(Drop)]
pub struct Fields {
    pub items: Vec<Item>,
    pub firsts: Vec<usize>,
}

/// The field of an item, which is named r.i.
fn field_of(alloc: Global, rtype: &RecordType, item: &Item) -> Result<Item, AllocError>
    ensures { IfOk result (λ f. f ≡ field_of rtype.now item.now) }
{
    let mut name = Vec::from_slice(alloc, rtype.name.as_slice())?;
    name.push(b'.')?;
    name.extend_from_slice(item.name.as_slice())?;
    Ok(Item {
        name: Row::of(name),
        picture: item.picture,
    })
}

fn push_fields(alloc: Global, fields: &mut Vec<Item>, rtype: &RecordType) -> Result<(), AllocError>
    ensures { OnOk result (fields.new.items ≡ fields.old.items ++ fields_of rtype.now) }
{
    for item in rtype.items.as_slice() {
        fields.push(field_of(alloc, rtype, item)?)?;
    }
    Ok(())
}

/// The fields of record types.
pub fn fields_of_types(alloc: Global, types: &[RecordType]) -> Result<Fields, AllocError>
    ensures items { IfOk result (λ f. f.items.items ≡ flat_map fields_of types.now) }
    ensures firsts { IfOk result (λ f. f.firsts.items ≡ records_from 0 types.now) }
{
    let mut items = Vec::new(alloc);
    let mut firsts = Vec::new(alloc);
    for rtype in types {
        firsts.push(items.len())?;
        push_fields(alloc, &mut items, rtype)?;
    }
    Ok(Fields { items, firsts })
}
