//! A program that the shell runs: the line that is typed for the statement that is due, and what the program is told of its answer.
ghost use Rattle.dbtg_going.specs.Texts.{program_text};
ghost use Rattle.dbtg_program.specs.Going.{next};
ghost use Rattle.dbtg_program.specs.States.{beginning};
ghost use Rattle.dbtg_shell.specs.Programs.{behind, line_due};
ghost use Rattle.dbtg_shell.specs.Inside.Programs.{IsFollowed, reached_of, seen, shown_line};
ghost use Rattle.std.specs.Prelude.{◌≡◌, IfOk, OnOk, is_some, map, option_map, true};

use dbtg_going::{Going, Member, push_program, push_spelled};
use dbtg_program::{Due, Program, next};
use dbtg_schema::Schema;
use dbtg_script::{push_number, trimmed};
use dbtg_unit::Entry;
use std::alloc::{AllocError, Global};

/// A program under way, with the lines of its text.
#[derive(Drop)]
pub struct Followed<'a> {
    alloc: Global,
    schema: &'a Schema,
    program: &'a Program,
    lines: &'a [&'a [u8]],
    going: Going,
}

impl<'a> Followed<'a> {
    /// The program before its first statement.
    pub fn beginning(
        alloc: Global,
        schema: &'a Schema,
        program: &'a Program,
        lines: &'a [&'a [u8]],
    ) -> Result<Self, AllocError>
        ensures seen { IfOk result (λ it. seen it ≡ record { schema = schema.now; program = program.now; lines = map (λ l. l.now) lines.now; due = next schema.now program.now (beginning program.now) }) }
        ensures followed { IfOk result IsFollowed }
    {
        let going = Going::beginning(alloc, schema, program)?;
        Ok(Followed {
            alloc,
            schema,
            program,
            lines,
            going,
        })
    }

    /// The line that is typed for the statement that is due; none if the program has ended.
    pub fn line(&self) -> Result<Option<Vec<u8>>, AllocError>
        ensures { IfOk result (λ line. option_map (λ l. l.items) line ≡ line_due (seen self.now)) }
    {
        match &self.going.due {
            Due::End(_) => Ok(None),
            Due::Statement(_) => {
                let mut line = Vec::new(self.alloc);
                push_spelled(&mut line, self.program, self.lines, &self.going.state)?;
                Ok(Some(line))
            }
        }
    }

    /// Goes on after the entry of the statement that was due.
    pub fn told(&mut self, entry: &Entry) -> Result<(), AllocError>
        requires due { is_some (line_due (seen self.old)) ≡ true }
        requires followed { IsFollowed self.old }
        ensures told { OnOk result (seen self.new ≡ behind (seen self.old) entry.now) }
        ensures still { OnOk result (IsFollowed self.new) }
    {
        if let Due::Statement(statement) = &self.going.due {
            let state = &mut self.going.state;
            state.told(self.alloc, self.program, statement, &entry.answer)?;
            self.going.due = next(self.alloc, self.schema, self.program, state)?;
        }
        Ok(())
    }

    /// What `run` prints of the program, if the unit with this number runs it and has made this many statements.
    pub fn into_text(self, unit: u64, made: usize) -> Result<Vec<u8>, AllocError>
        ensures { IfOk result (λ out. out.items ≡ program_text unit self.entry.program.now (reached_of made self.entry)) }
    {
        let Followed {
            alloc,
            program,
            going,
            ..
        } = self;
        let mut out = Vec::new(alloc);
        let member = Member { going, made };
        push_program(&mut out, unit, program, &member.into_reached())?;
        Ok(out)
    }
}

/// The line of a statement as it is shown: behind the number of its unit, and without the end of its line.
pub fn shown_line(alloc: Global, unit: u64, line: &[u8]) -> Result<Vec<u8>, AllocError>
    ensures { IfOk result (λ out. out.items ≡ shown_line unit line.now) }
{
    let mut out = Vec::new(alloc);
    push_number(&mut out, unit)?;
    out.extend_from_slice(b": ")?;
    out.extend_from_slice(trimmed(line))?;
    out.push(b'\n')?;
    Ok(out)
}
