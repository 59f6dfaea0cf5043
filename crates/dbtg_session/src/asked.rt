//! What a line of the shell asks for.
ghost use Rattle.std.specs.Prelude.{◌≡◌};
ghost use Rattle.dbtg_session.specs.Asking.{asked_of, asks, asks_undo, behind_spaces, names_unit};

use dbtg_script::{behind, in_front, is_number, number};

/// A command, a statement of the unit that has the turn, or a statement of the unit that the line names.
#[derive(Clone, Copy)]
pub enum Asked<'a> {
    Command(&'a [u8]),
    Statement(&'a [u8]),
    StatementOf { unit: u64, line: &'a [u8] },
}

/// The line without leading spaces.
pub fn behind_spaces(line: &[u8]) -> &[u8]
    ensures { result.now ≡ behind_spaces line.now }
{
    let mut rest = line;
    while let Some((b' ', behind)) = rest.split_first() {
        rest = behind;
    }
    rest
}

/// Does the line begin with digits and a colon?
fn names_unit(line: &[u8]) -> bool
    ensures { result ≡ names_unit line.now }
{
    let front = in_front(line, b':');
    is_number(front) && front.len() < line.len()
}

/// Is the command this name, followed by nothing but spaces?
pub fn asks(name: &[u8], command: &[u8]) -> bool
    ensures { result ≡ asks name.now command.now }
{
    in_front(command, b' ') == name && behind_spaces(behind(command, b' ')).is_empty()
}

/// Does the command take the last statement back?
pub fn asks_undo(command: &[u8]) -> bool
    ensures { result ≡ asks_undo command.now }
{
    asks(b"undo", command)
}

/// What a line asks for.
pub fn read_asked(line: &[u8]) -> Asked<'_>
    ensures { asked_of line.now (behind_spaces line.now) result }
{
    let bare = behind_spaces(line);
    if let Some((b'.', command)) = bare.split_first() {
        return Asked::Command(command);
    }
    if !names_unit(bare) {
        return Asked::Statement(line);
    }
    Asked::StatementOf {
        unit: number(in_front(bare, b':')),
        line: behind_spaces(behind(bare, b':')),
    }
}
