//! The program of one unit, which is at a statement or has ended; and the same with the count of its unit's statements, which has a limit.

ghost use Rattle.dbtg_going.specs.Goings.{IsAt, IsGoing, comes_of, reached_by};
ghost use Rattle.dbtg_going.specs.Turns.{due_after, statement_due};
ghost use Rattle.dbtg_going.specs.declared.member.Reached.{Reached};
ghost use Rattle.dbtg_program.specs.declared.going.Due.TheVariants as due;
ghost use Rattle.dbtg_unit.specs.declared.unit.Entry.{Entry};
ghost use Rattle.std.specs.Prelude.{◌≡◌, ◌<◌, ◌++◌, ◌∷◌, [], IfOk, List, OnOk, is_none, option_map};

use dbtg_program::{Due, End, Program, State, next};
use dbtg_schema::Schema;
use dbtg_unit::{Entry, MOST_STATEMENTS, Statement};
use std::alloc::{AllocError, Global};

/// Whether a program has ended, is spent, or goes on.
#[derive(Clone, Copy)]
pub enum Standing {
    Ended(End),
    /// its unit can make no more statements, but another is due
    Spent,
    /// a statement is due
    GoesOn,
}

/// How far a program is.
#[derive(Drop)]
pub struct Reached {
    pub standing: Standing,
    pub state: State,
}

/// A program under way: its state, and what is due in it.
#[derive(Drop)]
pub struct Going {
    pub state: State,
    pub due: Due,
}

impl Going {
    /// Before the first statement of its unit.
    pub fn beginning(alloc: Global, schema: &Schema, program: &Program) -> Result<Self, AllocError>
        ensures { IfOk result (λ going. IsGoing schema.now program.now [] going) }
    {
        let mut state = State::beginning(alloc, program)?;
        let due = next(alloc, schema, program, &mut state)?;
        Ok(Going { state, due })
    }

    /// The same, at the same place.
    pub fn copy(&self, alloc: Global) -> Result<Self, AllocError>
        ensures { IfOk result (λ copy. copy ≡ self.now) }
    {
        let state = self.state.copy(alloc)?;
        let due = self.due.copy()?;
        Ok(Self { state, due })
    }

    /// The statement that is due, if the schema has it.
    pub fn statement(&self, schema: &Schema) -> Option<&Statement>
        ensures { option_map (λ s. s.now) result ≡ statement_due schema.now (comes_of self.now) }
    {
        match &self.due {
            Due::Statement(statement) if statement.fits(schema) => Some(statement),
            _ => None,
        }
    }

    /// Goes on after the entry of the statement that was due.
    pub fn told(
        &mut self,
        alloc: Global,
        schema: &Schema,
        program: &Program,
        entry: &Entry,
    ) -> Result<(), AllocError>
        requires due { self.old.due ≡ due.Statement entry.now.statement }
        requires going { (entries : List Entry) × IsGoing schema.now program.now entries self.old }
        ensures { (entries : List Entry) → IsGoing schema.now program.now entries self.old → OnOk result (IsGoing schema.now program.now (entries ++ entry.now ∷ []) self.new) }
    {
        self.state
            .told(alloc, program, &entry.statement, &entry.answer)?;
        self.due = next(alloc, schema, program, &mut self.state)?;
        Ok(())
    }
}

/// A program under way, and how many statements its unit has made.
#[derive(Drop)]
pub struct Member {
    pub going: Going,
    pub made: usize,
}

impl Member {
    /// Before the first statement of its unit.
    pub fn beginning(alloc: Global, schema: &Schema, program: &Program) -> Result<Self, AllocError>
        ensures { IfOk result (λ member. IsAt schema.now program.now [] member) }
    {
        let going = Going::beginning(alloc, schema, program)?;
        Ok(Member { going, made: 0 })
    }

    /// The statement that is due, if its unit can make it.
    pub fn statement(&self, schema: &Schema) -> Option<&Statement>
        ensures { option_map (λ s. s.now) result ≡ due_after schema.now self.now.made (comes_of self.now.going) }
    {
        match self.going.statement(schema) {
            Some(statement) if self.made < MOST_STATEMENTS => Some(statement),
            _ => None,
        }
    }

    /// Can its unit make no statement?
    pub fn has_ended(&self, schema: &Schema) -> bool
        ensures { result ≡ is_none (due_after schema.now self.now.made (comes_of self.now.going)) }
    {
        match self.going.statement(schema) {
            Some(_statement) => self.made >= MOST_STATEMENTS,
            None => true,
        }
    }

    /// Goes on after the entry of the statement that was due.
    pub fn told(
        &mut self,
        alloc: Global,
        schema: &Schema,
        program: &Program,
        entry: &Entry,
    ) -> Result<(), AllocError>
        requires due { self.old.going.due ≡ due.Statement entry.now.statement }
        requires few { self.old.made < MOST_STATEMENTS }
        requires at { (entries : List Entry) × IsAt schema.now program.now entries self.old }
        ensures { (entries : List Entry) → IsAt schema.now program.now entries self.old → OnOk result (IsAt schema.now program.now (entries ++ entry.now ∷ []) self.new) }
    {
        self.going.told(alloc, schema, program, entry)?;
        self.made += 1;
        Ok(())
    }

    /// How far it is.
    pub fn into_reached(self) -> Reached
        ensures { result ≡ reached_by self }
    {
        let Member { going, made } = self;
        let Going { state, due } = going;
        let standing = match due {
            Due::End(end) => Standing::Ended(end),
            Due::Statement(_) if made < MOST_STATEMENTS => Standing::GoesOn,
            Due::Statement(_) => Standing::Spent,
        };
        Reached { standing, state }
    }

    /// Its program, without the count.
    pub fn into_going(self) -> Going
        ensures { result ≡ self.going }
    {
        let Member { going, .. } = self;
        going
    }
}
