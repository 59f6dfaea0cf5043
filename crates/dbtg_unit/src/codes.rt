//! The numbers of statements and causes, which make up a printed status. It needs nothing but the types.
ghost use Rattle.std.specs.Prelude.{◌≡◌};
ghost use Rattle.dbtg_unit.specs.Database.Statements.Codes.{cause_code, statement_code, status_code};

use crate::statement::Statement;
use crate::unit::{Cause, Status};

impl Statement {
    /// The first two digits of a refusal of this statement, 1 to 11.
    pub fn code(&self) -> u8
        ensures { result ≡ statement_code self.now }
    {
        match self {
            Statement::OpenArea { .. } => 1,
            Statement::CloseArea(_) => 2,
            Statement::Find(..) => 3,
            Statement::Get(_) => 4,
            Statement::Store { .. } => 5,
            Statement::Insert(_) => 6,
            Statement::Remove(_) => 7,
            Statement::Modify { .. } => 8,
            Statement::Delete(_) => 9,
            Statement::Keep => 10,
            Statement::Free { .. } => 11,
        }
    }
}

impl Cause {
    /// The last two digits of a refusal for this cause, 1 to 31.
    pub fn code(self) -> u8
        ensures { result ≡ cause_code self }
    {
        match self {
            Cause::AreaNotOpen => 1,
            Cause::ChangedByAnother => 3,
            Cause::DuplicatesNotAllowed => 5,
            Cause::NoSuchCurrent => 6,
            Cause::End => 7,
            Cause::UpdateModeNeeded => 9,
            Cause::NoRoom => 11,
            Cause::NoCurrentOfRunUnit => 13,
            Cause::MandatoryAutomatic => 14,
            Cause::Mandatory => 15,
            Cause::AlreadyMember => 16,
            Cause::Deleted => 17,
            Cause::OtherRecordType => 20,
            Cause::NotMember => 22,
            Cause::PositionLost => 23,
            Cause::NoneSatisfies => 26,
            Cause::AreaAlreadyOpen => 28,
            Cause::UsageConflict => 29,
            Cause::OwnerHasMembers => 30,
            Cause::NotKept => 31,
        }
    }
}

impl Status {
    /// The status of this statement as a number of four digits; 0 for success.
    pub fn code(self, statement: &Statement) -> u16
        ensures { result ≡ status_code statement.now self }
    {
        match self {
            Status::Done => 0,
            Status::Refused(cause) => statement.code() as u16 * 100 + cause.code() as u16,
        }
    }
}
