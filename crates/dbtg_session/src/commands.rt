//! The commands of the shell, and what each line does.
ghost use Rattle.std.specs.List.{list_any};
ghost use Rattle.std.specs.Prelude.{◌≡◌, ◌≤◌, ◌<◌, ◌++◌, ◌∷◌, [], IfNone, IfOk, IfSome, None, OnErr, OnOk, Some, is_some, map, option_map, string_bytes, vec_capacity};
ghost use Rattle.std.specs.Str.{bytes_eq};
ghost use Rattle.dbtg_script.specs.Printing.Causes.{cause_number};
ghost use Rattle.dbtg_script.specs.declared.fault.Cause.TheVariants.{LineNotAllowed};
ghost use Rattle.dbtg_session.specs.Asking.{asks_undo, bare_command, is_unit, means_unit, turn_behind, turn_given};
ghost use Rattle.dbtg_session.specs.Replies.{IsFaultText, explained_text, listed_by, no_unit_text, shown_by, unit_shown};
ghost use Rattle.dbtg_session.specs.Sessions.{Answers, IsAnswered, IsText, NotesCommand, NotesLine, Prints, TakesBack, TakesCommand, TakesLine, printed};

use crate::asked::{Asked, asks, asks_undo, behind_spaces, read_asked};
use crate::replies::{
    answer_page, database_reply, fault_page, fault_reply, no_unit_reply, push_answer_reply,
    undone_reply, unit_reply, units_reply,
};
use crate::session::{Refusal, Session};
use dbtg_draw::schema_lines;
use dbtg_explain::{explained, topic_of};
use dbtg_script::{Cause, behind, in_front, is_number, number};
use std::alloc::{AllocError, Global};

/// What is left to be done for a line: to print a text, to save the session in a directory, to take the lines of a
/// file, to run the program of a file, or to end.
#[derive(Drop)]
pub enum Reply<'a> {
    Text(Vec<u8>),
    /// A statement is made, but its answer is longer than the room that was found for it.
    Untold,
    Save(&'a str),
    Load(&'a str),
    Run(&'a str),
    Quit,
}

impl<'a> Reply<'a> {
    /// What is printed of a reply that is a text.
    pub fn text(&self) -> Option<&[u8]>
        ensures { option_map (λ text. text.now) result ≡ printed self.now }
    {
        match self {
            Reply::Text(text) => Some(text.as_slice()),
            Reply::Untold => Some(UNTOLD.as_bytes()),
            _ => None,
        }
    }
}

/// A session, the unit whose turn it is, and the number of the fault that was told, if no statement was made or taken back since.
#[derive(Drop)]
pub struct Shell<'a> {
    pub session: Session<'a>,
    pub turn: u8,
    pub fault: Option<u8>,
    alloc: Global,
    saved: Vec<String>,
}

// No answer's line is longer: sixteen items, each with its name and its value, have at most 1,568 bytes of it.
const ANSWER_BYTES: usize = 2048;

const UNTOLD: &str = "made, and there is no room for its answer\n";

const HELP: &str = "\
STATEMENT         is made by the unit whose turn it is
2: STATEMENT      is made by unit 2
.unit             says what is current of the unit whose turn it is
.unit 2           gives unit 2 the turn, and says what is current of it
.units            shows the currents of each unit in one line
.schema           shows the record types with their items, and the sets
.database         shows the records, the lists of the sets and the areas
.undo             takes back the last statement of the session, of whichever unit
.explain          explains the last status or fault
.explain 0307     explains this status; .explain script 7 this fault
.load FILE        takes the lines of this file, as if they were typed
.run FILE         makes the statements of the program in this file, by the unit whose turn it is
.save DIRECTORY   writes the scripts and the turns so far, for replay --turns
.help             shows this
.quit             ends, as the end of the input does
";

const NOTHING_YET: &str = "nothing was answered yet\n";

const NO_TOPIC: &str = "no status and no fault is called so\n";

const NO_COMMAND: &str = "there is no such command: .help shows those that there are\n";

const NO_WORD_WANTED: &str = "the command takes no word: .help shows those that do\n";

const NO_FILE: &str = "the name of a file is wanted, as text in UTF-8\n";

const NO_DIRECTORY: &str = "the name of a directory is wanted, as text in UTF-8\n";

fn words_of<'a>(alloc: Global, text: &'a str) -> Result<Vec<&'a str>, AllocError> {
    let mut words = Vec::new(alloc);
    for word in text.split(' ') {
        if !word.is_empty() {
            words.push(word)?;
        }
    }
    Ok(words)
}

// The first word of a command, and what follows it, without the spaces around it.
fn command_of(text: &str) -> (&str, &str) {
    let text = text.trim();
    match text.split_once(' ') {
        Some((name, rest)) => (name, rest.trim()),
        None => (text, ""),
    }
}

impl<'a> Shell<'a> {
    /// Unit 1 has the turn.
    pub fn new(alloc: Global, session: Session<'a>) -> Self
        ensures session { result.session ≡ session.entry }
        ensures turn { result.turn ≡ 1 }
        ensures fault { result.fault ≡ None }
        ensures saved { result.saved.items ≡ [] }
    {
        Shell {
            session,
            turn: 1,
            fault: None,
            alloc,
            saved: Vec::new(alloc),
        }
    }

    /// Is this one of the directories that were noted?
    pub fn has_saved(&self, directory: &str) -> bool
        ensures { result ≡ list_any (λ saved. bytes_eq directory.now (string_bytes saved)) self.now.saved.items }
    {
        self.saved.iter().any(|saved| directory == saved.as_str())
    }

    /// Notes a directory in which the session is saved.
    pub fn note_saved(&mut self, directory: &str) -> Result<(), AllocError>
        ensures noted { OnOk result (map string_bytes self.new.saved.items ≡ map string_bytes self.old.saved.items ++ directory.now ∷ []) }
        ensures refused { OnErr result (self.new.saved.items ≡ self.old.saved.items) }
        ensures unchanged { self.new.session ≡ self.old.session }
        ensures turn { self.new.turn ≡ self.old.turn }
        ensures fault { self.new.fault ≡ self.old.fault }
    {
        let saved = String::from_str(self.alloc, directory)?;
        self.saved.push(saved)?;
        Ok(())
    }

    fn text<'b>(&self, text: &str) -> Result<Reply<'b>, AllocError>
        ensures { IfOk result (IsText (λ out. out ≡ text.now)) }
    {
        Ok(Reply::Text(Vec::from_slice(self.alloc, text.as_bytes())?))
    }

    /// Carries out a line. Without memory the session, the turn and the fault stay as they were.
    pub fn take_line<'b>(&mut self, line: &'b [u8]) -> Result<Reply<'b>, AllocError>
        ensures { Answers line.now self.old.turn self.old.fault self.old.session result self.new.turn self.new.fault self.new.session }
    {
        match read_asked(line) {
            Asked::Command(command) => self.carry_out(command),
            Asked::Statement(line) => self.make_for(self.turn as u64, line),
            Asked::StatementOf { unit, line } => self.make_for(unit, line),
        }
    }

    /// The reply to a line that is longer than any line may be.
    pub fn take_long_line<'b>(&mut self) -> Result<Reply<'b>, AllocError>
        ensures unchanged { self.new.session ≡ self.old.session }
        ensures turn { self.new.turn ≡ self.old.turn }
        ensures told { IfOk result (IsText (IsFaultText self.old.session.making.schema [] LineNotAllowed)) }
        ensures noted { IfOk result (λ _. self.new.fault ≡ Some (cause_number LineNotAllowed)) }
        ensures kept { OnErr result (self.new.fault ≡ self.old.fault) }
    {
        self.tell_fault(b"", Cause::LineNotAllowed)
    }

    // The unit with this number, if there is one.
    fn unit_of(&self, number: u64) -> Option<u8>
        ensures named { IfSome result (λ unit. unit ≡ number) }
        ensures low { IfSome result (λ unit. 0 < unit) }
        ensures high { IfSome result (λ unit. unit ≤ self.now.session.making.units) }
        ensures found { is_some result ≡ is_unit self.now.session.making.units number }
    {
        let count = self.session.units().len() as u64;
        if number == 0 || count < number {
            return None;
        }
        Some(number as u8)
    }

    fn no_unit<'b>(&self) -> Result<Reply<'b>, AllocError>
        ensures { IfOk result (IsText (λ out. out ≡ no_unit_text self.now.session.making.units)) }
    {
        let count = self.session.units().len();
        Ok(Reply::Text(no_unit_reply(self.alloc, count)?))
    }

    fn tell_fault<'b>(&mut self, line: &[u8], cause: Cause) -> Result<Reply<'b>, AllocError>
        ensures unchanged { self.new.session ≡ self.old.session }
        ensures turn { self.new.turn ≡ self.old.turn }
        ensures told { IfOk result (IsText (IsFaultText self.old.session.making.schema line.now cause)) }
        ensures noted { IfOk result (λ _. self.new.fault ≡ Some (cause_number cause)) }
        ensures kept { OnErr result (self.new.fault ≡ self.old.fault) }
    {
        let told = fault_reply(self.alloc, self.session.schema(), line, cause)?;
        self.fault = Some(cause.number());
        Ok(Reply::Text(told))
    }

    /// A statement of the unit with this number, if there is one.
    pub fn make_for<'b>(&mut self, unit: u64, line: &[u8]) -> Result<Reply<'b>, AllocError>
        ensures taken { TakesLine unit self.old.session line.now result self.new.session }
        ensures noted { IfOk result (λ _. NotesLine unit self.old.session self.old.fault line.now self.new.session self.new.fault) }
        ensures kept { OnErr result (self.new.fault ≡ self.old.fault) }
        ensures turn { self.new.turn ≡ self.old.turn }
    {
        match self.unit_of(unit) {
            Some(unit) => self.make_line(unit, line),
            None => self.no_unit(),
        }
    }

    fn make_line<'b>(&mut self, unit: u8, line: &[u8]) -> Result<Reply<'b>, AllocError>
        requires low { 0 < unit }
        requires high { unit ≤ self.old.session.making.units }
        ensures taken { TakesLine unit self.old.session line.now result self.new.session }
        ensures noted { IfOk result (λ _. NotesLine unit self.old.session self.old.fault line.now self.new.session self.new.fault) }
        ensures kept { OnErr result (self.new.fault ≡ self.old.fault) }
        ensures turn { self.new.turn ≡ self.old.turn }
    {
        let room = Vec::with_capacity(self.alloc, ANSWER_BYTES)?;
        match self.session.make_line(unit, line) {
            Ok(false) => Ok(Reply::Text(room)),
            Ok(true) => Ok(self.tell_last(room)),
            Err(Refusal::Fault(cause)) => self.tell_fault(line, cause),
            Err(Refusal::Memory) => Err(AllocError),
        }
    }

    // The answer of the last statement, in the room for it.
    fn tell_last<'b>(&mut self, room: Vec<u8>) -> Reply<'b>
        requires empty { room.items ≡ [] }
        requires enough { ANSWER_BYTES ≤ vec_capacity room }
        ensures unchanged { self.new.session ≡ self.old.session }
        ensures turn { self.new.turn ≡ self.old.turn }
        ensures told { IsText (IsAnswered self.old.session) result }
        ensures fault { self.new.fault ≡ None }
    {
        self.fault = None;
        let mut out = room;
        let schema = self.session.schema();
        let Some(entry) = self.session.last() else {
            return Reply::Untold;
        };
        match push_answer_reply(&mut out, schema, entry) {
            Ok(()) => Reply::Text(out),
            Err(_) => Reply::Untold,
        }
    }

    // Takes back the last statement.
    fn take_back<'b>(&mut self) -> Result<Reply<'b>, AllocError>
        ensures undone { TakesBack self.old.session result self.new.session }
        ensures turn { self.new.turn ≡ self.old.turn }
        ensures noted { IfOk result (λ _. NotesCommand self.old.session self.old.fault self.new.session self.new.fault) }
        ensures kept { OnErr result (self.new.fault ≡ self.old.fault) }
    {
        let told = undone_reply(self.alloc, &self.session)?;
        if self.session.undo()? {
            self.fault = None;
        }
        Ok(Reply::Text(told))
    }

    // A command: `.unit` changes the turn, `.undo` the session, and no other anything.
    #[tactic(auto, using(crate::proofs::ShellReplies::undo_keeps_turn, crate::proofs::ShellReplies::undo_shows))]
    fn carry_out<'b>(&mut self, command: &'b [u8]) -> Result<Reply<'b>, AllocError>
        ensures done { TakesCommand (asks_undo (bare_command command.now)) self.old.session result self.new.session }
        ensures shown { IfOk result (Prints (shown_by self.old.session.making self.old.turn self.old.fault (bare_command command.now))) }
        ensures turn { IfOk result (λ _. self.new.turn ≡ turn_behind self.old.session.making.units self.old.turn (bare_command command.now)) }
        ensures noted { IfOk result (λ _. NotesCommand self.old.session self.old.fault self.new.session self.new.fault) }
        ensures kept { OnErr result ((self.new.turn ≡ self.old.turn) × (self.new.fault ≡ self.old.fault)) }
    {
        let command = behind_spaces(in_front(command, b'\r'));
        if asks_undo(command) {
            return self.take_back();
        }
        if in_front(command, b' ') == b"unit".as_slice() {
            return self.give_turn(behind_spaces(behind(command, b' ')));
        }
        self.show(command)
    }

    // A command that changes neither the session nor the turn.
    fn show<'b>(&self, command: &'b [u8]) -> Result<Reply<'b>, AllocError>
        ensures { IfOk result (Prints (listed_by self.now.session.making self.now.fault command.now)) }
    {
        if asks(b"units", command) {
            return Ok(Reply::Text(units_reply(self.alloc, &self.session)?));
        }
        if asks(b"schema", command) {
            return Ok(Reply::Text(schema_lines(self.alloc, self.session.schema())?));
        }
        if asks(b"database", command) {
            return Ok(Reply::Text(database_reply(self.alloc, &self.session)?));
        }
        if asks(b"explain", command) {
            return self.explain_last();
        }
        match str::from_utf8(command) {
            Ok(command) => self.reply_to(command),
            Err(_) => self.text(NO_COMMAND),
        }
    }

    // A command that shows nothing of the session.
    fn reply_to<'b>(&self, command: &'b str) -> Result<Reply<'b>, AllocError> {
        let (name, rest) = command_of(command);
        match name.as_bytes() {
            b"explain" if !rest.is_empty() => self.explain(rest),
            b"load" => self.named(rest, NO_FILE, Reply::Load(rest)),
            b"run" => self.named(rest, NO_FILE, Reply::Run(rest)),
            b"save" => self.named(rest, NO_DIRECTORY, Reply::Save(rest)),
            b"help" if rest.is_empty() => self.text(HELP),
            b"quit" if rest.is_empty() => Ok(Reply::Quit),
            b"undo" | b"units" | b"schema" | b"database" | b"help" | b"quit" => {
                self.text(NO_WORD_WANTED)
            }
            _ => self.text(NO_COMMAND),
        }
    }

    // What is left to be done with what is named; a text if nothing is.
    fn named<'b>(
        &self,
        rest: &str,
        wanted: &str,
        reply: Reply<'b>,
    ) -> Result<Reply<'b>, AllocError> {
        if rest.is_empty() {
            return self.text(wanted);
        }
        Ok(reply)
    }

    // The unit that `.unit` names, or the unit whose turn it is if it names none.
    fn unit_named(&self, rest: &[u8]) -> Option<u8>
        ensures low { IfSome result (λ unit. 0 < unit) }
        ensures high { IfSome result (λ unit. unit ≤ self.now.session.making.units) }
        ensures named { IfSome result (λ unit. unit ≡ turn_given self.now.session.making.units self.now.turn rest.now) }
        ensures missing { IfNone result (turn_given self.now.session.making.units self.now.turn rest.now ≡ self.now.turn) }
        ensures found { is_some result ≡ means_unit self.now.session.making.units self.now.turn rest.now }
    {
        let digits = in_front(rest, b' ');
        if rest.is_empty() {
            self.unit_of(self.turn as u64)
        } else if is_number(digits) && behind_spaces(behind(rest, b' ')).is_empty() {
            self.unit_of(number(digits))
        } else {
            None
        }
    }

    // Gives the turn to the unit that is named, if there is one.
    fn give_turn<'b>(&mut self, rest: &[u8]) -> Result<Reply<'b>, AllocError>
        ensures unchanged { self.new.session ≡ self.old.session }
        ensures fault { self.new.fault ≡ self.old.fault }
        ensures shown { IfOk result (Prints (unit_shown self.old.session.making self.old.turn rest.now)) }
        ensures turn { IfOk result (λ _. self.new.turn ≡ turn_given self.old.session.making.units self.old.turn rest.now) }
        ensures kept { OnErr result (self.new.turn ≡ self.old.turn) }
    {
        match self.unit_named(rest) {
            None => self.no_unit(),
            Some(unit) => {
                let shown = unit_reply(self.alloc, &self.session, unit)?;
                self.turn = unit;
                Ok(Reply::Text(shown))
            }
        }
    }

    fn explain<'b>(&self, rest: &str) -> Result<Reply<'b>, AllocError> {
        let words = words_of(self.alloc, rest)?;
        match topic_of(words.as_slice()) {
            Some(topic) => Ok(Reply::Text(explained(self.alloc, &topic)?)),
            None => self.text(NO_TOPIC),
        }
    }

    // The page of the fault that was told, or otherwise of the last answer.
    fn explain_last<'b>(&self) -> Result<Reply<'b>, AllocError>
        ensures { IfOk result (IsText (λ out. out ≡ explained_text self.now.session.making self.now.fault)) }
    {
        let page = match self.fault {
            Some(number) => fault_page(self.alloc, number)?,
            None => answer_page(self.alloc, &self.session)?,
        };
        match page {
            Some(page) => Ok(Reply::Text(page)),
            None => self.text(NOTHING_YET),
        }
    }
}
