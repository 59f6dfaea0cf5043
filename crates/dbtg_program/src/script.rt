//! A script as a program.

ghost use Rattle.dbtg_program.specs.Scripts.{line_with, of_script};
ghost use Rattle.std.specs.Prelude.{◌≡◌, IfOk};

use crate::program::{Line, Program, Sentence};
use dbtg_schema::Row;
use dbtg_unit::Statement;
use std::alloc::{AllocError, Global};

// A sentence with this statement. It needs no number of a line, since it cannot fail.
fn line_with(statement: Statement) -> Line
    ensures { result ≡ line_with statement }
{
    Line {
        number: 0,
        sentence: Sentence::Statement(statement),
    }
}

impl Program {
    /// The statements of a script, one after another.
    pub fn of_script(alloc: Global, script: Vec<Statement>) -> Result<Self, AllocError>
        ensures { IfOk result (λ program. program ≡ of_script script.items) }
    {
        let mut lines = Vec::with_capacity(alloc, script.len())?;
        for statement in script {
            lines.push(line_with(statement))?;
        }
        Ok(Program {
            lines: Row::of(lines),
            fields: Row::of(Vec::new(alloc)),
            records: Row::of(Vec::new(alloc)),
        })
    }
}
