//! How many areas, record types and sets a schema has, as the numbers that name them. A schema keeps to its limits.
ghost use Rattle.std.specs.Prelude.{◌≡◌, ◌≤◌, length};

use dbtg_schema::{MOST_RECORD_TYPES, Schema};

pub(crate) fn area_count(schema: &Schema) -> u8
    ensures { result ≡ length schema.now.areas }
{
    schema.is_well_formed();
    schema.areas().len() as u8
}

/// The number of record types.
pub fn type_count(schema: &Schema) -> u8
    ensures count { result ≡ length schema.now.types }
    ensures limit { result ≤ MOST_RECORD_TYPES }
{
    schema.is_well_formed();
    schema.types().len() as u8
}

/// The number of sets.
pub fn set_count(schema: &Schema) -> u8
    ensures { result ≡ length schema.now.sets }
{
    schema.is_well_formed();
    schema.sets().len() as u8
}
