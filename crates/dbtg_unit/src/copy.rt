//! Copies. Those of statements, answers and entries share what these own; the others take memory, and if it is refused, the original
//! stays as it is.
ghost use Rattle.std.specs.Prelude.{◌≡◌, IfOk};

use crate::statement::{Form, Statement};
use crate::unit::{Answer, Currency, Entry, Unit};
use std::alloc::{AllocError, Global};

impl Form {
    pub fn copy(&self) -> Result<Self, AllocError>
        ensures { IfOk result (λ form. form ≡ self.now) }
    {
        match *self {
            Form::Key(key) => Ok(Form::Key(key)),
            Form::CurrentOfUnit => Ok(Form::CurrentOfUnit),
            Form::CurrentOfType(rtype) => Ok(Form::CurrentOfType(rtype)),
            Form::CurrentOfSet(set) => Ok(Form::CurrentOfSet(set)),
            Form::CurrentOfArea(area) => Ok(Form::CurrentOfArea(area)),
            Form::InSet { which, rtype, set } => Ok(Form::InSet { which, rtype, set }),
            Form::InArea { which, rtype, area } => Ok(Form::InArea { which, rtype, area }),
            Form::OwnerOf(set) => Ok(Form::OwnerOf(set)),
            Form::Calc { rtype, ref values } => {
                let values = values.share()?;
                Ok(Form::Calc { rtype, values })
            }
            Form::NextDuplicate(rtype) => Ok(Form::NextDuplicate(rtype)),
            Form::Sorted { set, ref value } => {
                let value = value.share()?;
                Ok(Form::Sorted { set, value })
            }
        }
    }
}

impl Statement {
    pub fn copy(&self) -> Result<Self, AllocError>
        ensures { IfOk result (λ statement. statement ≡ self.now) }
    {
        match *self {
            Statement::OpenArea { area, mode } => Ok(Statement::OpenArea { area, mode }),
            Statement::CloseArea(area) => Ok(Statement::CloseArea(area)),
            Statement::Find(suppress, ref form) => Ok(Statement::Find(suppress, form.copy()?)),
            Statement::Get(rtype) => Ok(Statement::Get(rtype)),
            Statement::Store {
                rtype,
                ref items,
                suppress,
            } => {
                let items = items.share()?;
                Ok(Statement::Store {
                    rtype,
                    items,
                    suppress,
                })
            }
            Statement::Insert(set) => Ok(Statement::Insert(set)),
            Statement::Remove(set) => Ok(Statement::Remove(set)),
            Statement::Modify { rtype, ref changes } => {
                let changes = changes.share()?;
                Ok(Statement::Modify { rtype, changes })
            }
            Statement::Delete(option) => Ok(Statement::Delete(option)),
            Statement::Keep => Ok(Statement::Keep),
            Statement::Free { all } => Ok(Statement::Free { all }),
        }
    }
}

impl Currency {
    pub fn copy(&self, alloc: Global) -> Result<Self, AllocError>
        ensures { IfOk result (λ currency. currency ≡ self.now) }
    {
        let types = self.types.copy(alloc)?;
        let areas = self.areas.copy(alloc)?;
        let sets = self.sets.copy(alloc)?;
        Ok(Self {
            run_unit: self.run_unit,
            types,
            areas,
            sets,
        })
    }
}

impl Unit {
    pub fn copy(&self, alloc: Global) -> Result<Self, AllocError>
        ensures { IfOk result (λ unit. unit ≡ self.now) }
    {
        let currency = self.currency.copy(alloc)?;
        let modes = self.modes.copy(alloc)?;
        let kept = self.kept.copy(alloc)?;
        Ok(Self {
            number: self.number,
            currency,
            modes,
            kept,
        })
    }
}

impl Answer {
    pub fn copy(&self) -> Result<Self, AllocError>
        ensures { IfOk result (λ answer. answer ≡ self.now) }
    {
        let items = match &self.items {
            Some(items) => Some(items.share()?),
            None => None,
        };
        Ok(Self {
            status: self.status,
            key: self.key,
            items,
        })
    }
}

impl Entry {
    pub fn copy(&self) -> Result<Self, AllocError>
        ensures { IfOk result (λ entry. entry ≡ self.now) }
    {
        let statement = self.statement.copy()?;
        let answer = self.answer.copy()?;
        Ok(Self {
            ticket: self.ticket,
            unit: self.unit,
            statement,
            answer,
        })
    }
}
