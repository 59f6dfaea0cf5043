//! Copies of scripts.
ghost use Rattle.std.specs.Prelude.{◌≡◌, IfOk};

use dbtg_schema::Row;
use dbtg_unit::Statement;
use std::alloc::{AllocError, Global};

fn copy_script(alloc: Global, script: &Row<Statement>) -> Result<Row<Statement>, AllocError>
    ensures { IfOk result (λ copy. copy ≡ script.now) }
{
    let mut copy = Vec::new(alloc);
    for statement in script.as_slice() {
        copy.push(statement.copy()?)?;
    }
    Ok(Row::of(copy))
}

/// Copies of scripts, with the same statements.
pub fn copy_each_script(
    alloc: Global,
    scripts: &[Row<Statement>],
) -> Result<Row<Row<Statement>>, AllocError>
    ensures { IfOk result (λ copies. copies ≡ scripts.now) }
{
    let mut copies = Vec::new(alloc);
    for script in scripts {
        copies.push(copy_script(alloc, script)?)?;
    }
    Ok(Row::of(copies))
}
