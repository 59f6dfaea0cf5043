//! The dialogue of the shell: lines come from standard input, and the reply to each goes to standard output at once.
ghost use Rattle.std.specs.Prelude.{◌≡◌, IfOk, None, OnErr, OnOk};
ghost use Rattle.dbtg_command.specs.declared.fault.Fault.TheVariants.{Memory};
ghost use Rattle.dbtg_program.specs.Faults.{refusal};
ghost use Rattle.dbtg_program.specs.Reading.{program as program_said};
ghost use Rattle.dbtg_shell.specs.Programs.{Following, HasBegun, HasGoneOn, HasRun, IsStopped, RunsText};
ghost use Rattle.dbtg_shell.specs.Inside.Programs.{IsFollowed, MakesDue, MayHaveMade, MayHaveTyped, TypesLine, end_text, seen};

use crate::running::{Followed, shown_line};
use crate::saved::{first_there, save, saved_paths};
use dbtg_command::reason::{reason, reason_of};
use dbtg_command::{Call, Fault, Files, Order, Paths, program_of};
use dbtg_going::lines_of;
use dbtg_program::Program;
use dbtg_session::{Reply, Session, Shell};
use std::alloc::{AllocError, Global};
use std::fs::File;
use std::io::{self, BufRead, BufReader, Input, IsTerminal, Read, Write};

// A longer line is cut here. A statement has at most 1,000 bytes.
const LINE_BYTES: u64 = 8192;

// A longer program is refused, so no more is read of it.
const PROGRAM_BYTES: u64 = 1_048_577;

const WANT_OF_MEMORY: &str = "want of memory\n";

const LOADING: &str = "a file that is loaded cannot load another\n";

/// How much of a line was kept: all of it, or the beginning of one that is too long.
#[derive(Clone, Copy)]
enum LinePart {
    All,
    Beginning,
}

// Takes the bytes up to a line feed, and no more than are kept.
fn take_front<B: BufRead>(input: &mut B, line: &mut Vec<u8>) -> io::Result<usize> {
    Read::by_ref(input).take(LINE_BYTES).read_until(b'\n', line)
}

// Reads a line, without its line feed; None at the end of the input. The last line need not have a line feed.
fn next_line<B: BufRead>(input: &mut B, line: &mut Vec<u8>) -> io::Result<Option<LinePart>> {
    line.clear();
    let count = take_front(input, line)?;
    if count == 0 {
        return Ok(None);
    }
    if line.last() == Some(&b'\n') {
        let _ = line.pop();
        return Ok(Some(LinePart::All));
    }
    if (count as u64) < LINE_BYTES {
        return Ok(Some(LinePart::All));
    }
    input.skip_until(b'\n')?;
    Ok(Some(LinePart::Beginning))
}

/// Why a dialogue ends before the end of its input.
#[derive(Drop)]
pub enum Broken {
    NotRead,
    NotWritten(io::Error),
    Memory,
}

impl From<AllocError> for Broken {
    fn from(_error: AllocError) -> Broken {
        Broken::Memory
    }
}

fn write(rt: &HostRuntime, text: &[u8]) -> Result<(), Broken> {
    io::writer(rt).write_all(text).map_err(Broken::NotWritten)
}

// A terminal is shown whose turn it is.
fn write_prompt(rt: &HostRuntime, prompts: bool, turn: u8) -> Result<(), Broken> {
    if !prompts {
        return Ok(());
    }
    write(rt, &[b'0' + turn % 10, b'>', b' '])
}

// Ends the line of the prompt after which nothing was typed.
fn write_end(rt: &HostRuntime, prompts: bool) -> Result<(), Broken> {
    if !prompts {
        return Ok(());
    }
    write(rt, b"\n")
}

// Saves the session, but not over files that this shell has not written.
fn saved(
    rt: &HostRuntime,
    shell: &mut Shell<'_>,
    call: &Call<'_>,
    directory: &str,
) -> Result<String, AllocError> {
    let paths = saved_paths(rt.alloc(), directory, shell.session.scripts().len())?;
    if !shell.has_saved(directory) {
        if let Some(told) = first_there(rt, paths.as_slice())? {
            return Ok(told);
        }
        shell.note_saved(directory)?;
    }
    save(rt, &shell.session, call, directory, paths.as_slice())
}

fn write_saved(
    rt: &HostRuntime,
    shell: &mut Shell<'_>,
    call: &Call<'_>,
    directory: &str,
) -> Result<(), Broken> {
    match saved(rt, shell, call, directory) {
        Ok(told) => write(rt, told.as_bytes()),
        Err(_) => write(rt, WANT_OF_MEMORY.as_bytes()),
    }
}

// The text of a file, as far as a program may be long.
fn program_bytes(rt: &HostRuntime, path: &str) -> io::Result<Vec<u8>> {
    let mut bytes = Vec::new(rt.alloc());
    File::open(rt, path)?
        .take(PROGRAM_BYTES)
        .read_to_end(&mut bytes)?;
    Ok(bytes)
}

// What `check --programs --explain` prints of a program that is refused.
fn refusal_text(rt: &HostRuntime, paths: &Paths, fault: &Fault) -> Result<String, AllocError> {
    let files = Files { reader: rt, paths };
    match reason(rt.alloc(), &files, fault)? {
        Some(line) => format!(in rt.alloc(); "{fault}\n{line}\n"),
        None => format!(in rt.alloc(); "{fault}\n"),
    }
}

// The paths of a schema and a program.
fn paths_of<'a>(schema: &'a str, scripts: &'a [&'a str]) -> Paths<'a> {
    Paths {
        schema,
        scripts,
        order: Order::Serial,
    }
}

// The same of the program in a file. Its path is copied, so that the paths of both files live as long.
fn told_of_file(
    rt: &HostRuntime,
    call: &Call<'_>,
    path: &str,
    fault: &Fault,
) -> Result<String, AllocError> {
    let path = String::from_str(rt.alloc(), path)?;
    let scripts = [path.as_str()];
    let paths = paths_of(call.schema, &scripts);
    refusal_text(rt, &paths, fault)
}

// Prints why a program is refused; want of memory is no refusal.
fn write_refusal(rt: &HostRuntime, call: &Call<'_>, path: &str, fault: &Fault) -> Result<(), Broken>
    ensures { OnOk result (fault.now ≡ Memory → ⊥) }
{
    match fault {
        Fault::Memory => Err(Broken::Memory),
        _ => {
            let told = told_of_file(rt, call, path, fault)?;
            write(rt, told.as_bytes())
        }
    }
}

// Prints a reply that is a text.
fn write_text(rt: &HostRuntime, reply: &Reply<'_>) -> Result<(), Broken> {
    match reply.text() {
        Some(text) => write(rt, text),
        None => Ok(()),
    }
}

// Types a line for the unit whose turn it is, shows it with its answer, and says whether it made a statement.
fn type_line(rt: &HostRuntime, shell: &mut Shell<'_>, line: &[u8]) -> Result<bool, Broken>
    ensures typed { IfOk result (λ made. TypesLine shell.old.turn shell.old.session line.now made shell.new.session) }
    ensures part { OnErr result (MayHaveTyped shell.old.turn shell.old.session line.now shell.new.session) }
    ensures turn { shell.new.turn ≡ shell.old.turn }
{
    let shown = shown_line(rt.alloc(), shell.turn as u64, line)?;
    write(rt, shown.as_slice())?;
    let before = shell.session.count();
    let reply = shell.make_for(shell.turn as u64, line)?;
    write_text(rt, &reply)?;
    Ok(shell.session.count() > before)
}

// Makes the statement that is due in the program, tells the program the answer, and says whether it was made.
fn make_due(
    rt: &HostRuntime,
    shell: &mut Shell<'_>,
    followed: &mut Followed<'_>,
) -> Result<bool, Broken>
    requires followed { IsFollowed followed.old }
    ensures made { IfOk result (λ made. MakesDue shell.old.turn shell.old.session (seen followed.old) made shell.new.session (seen followed.new)) }
    ensures part { OnErr result (MayHaveMade shell.old.turn shell.old.session (seen followed.old) shell.new.session) }
    ensures still { OnOk result (IsFollowed followed.new) }
    ensures turn { shell.new.turn ≡ shell.old.turn }
{
    let Some(line) = followed.line()? else {
        return Ok(false);
    };
    if !type_line(rt, shell, line.as_slice())? {
        return Ok(false);
    }
    match shell.session.last() {
        None => Ok(false),
        Some(entry) => {
            followed.told(entry)?;
            Ok(true)
        }
    }
}

// Makes the statements of the program, until nothing more is made.
fn make_all(
    rt: &HostRuntime,
    shell: &mut Shell<'_>,
    followed: &mut Followed<'_>,
) -> Result<(), Broken>
    requires followed { IsFollowed followed.old }
    ensures made { OnOk result (HasGoneOn shell.old.turn shell.old.session (seen followed.old) shell.new.session (seen followed.new)) }
    ensures stopped { OnOk result (IsStopped shell.old.turn shell.new.session (seen followed.new)) }
    ensures part { OnErr result ((g : Following) × HasGoneOn shell.old.turn shell.old.session (seen followed.old) shell.new.session g) }
    ensures turn { shell.new.turn ≡ shell.old.turn }
{
    let mut goes_on = true;
    while goes_on {
        goes_on = make_due(rt, shell, followed)?;
    }
    Ok(())
}

// What `run` prints of a program that the unit whose turn it is has run.
fn end_text(shell: &Shell<'_>, followed: Followed<'_>) -> Result<Vec<u8>, AllocError>
    ensures { IfOk result (λ out. out.items ≡ end_text shell.now.turn shell.now.session followed.entry) }
{
    let made = shell.session.count_of(shell.turn);
    followed.into_text(shell.turn as u64, made)
}

// Runs a program of this text by the unit whose turn it is.
fn run_accepted(
    rt: &HostRuntime,
    shell: &mut Shell<'_>,
    program: &Program,
    text: &[u8],
) -> Result<(), Broken>
    requires accepted { refusal shell.old.session.making.schema text.now ≡ None }
    requires program { program.now ≡ program_said shell.old.session.making.schema text.now }
    ensures run { OnOk result (HasRun shell.old.turn shell.old.session text.now shell.new.session) }
    ensures part { OnErr result (HasBegun shell.old.turn shell.old.session text.now shell.new.session) }
    ensures turn { shell.new.turn ≡ shell.old.turn }
{
    let alloc = rt.alloc();
    let schema = shell.session.schema();
    let lines = lines_of(alloc, text)?;
    let mut followed = Followed::beginning(alloc, schema, program, lines.as_slice())?;
    make_all(rt, shell, &mut followed)?;
    let ended = end_text(shell, followed)?;
    write(rt, ended.as_slice())
}

/// Runs the program of a text by the unit whose turn it is, each statement as if it were typed, and each shown with its answer. A text
/// that is refused changes nothing. If memory is refused, the program stops where it is.
pub fn run_program(
    rt: &HostRuntime,
    shell: &mut Shell<'_>,
    call: &Call<'_>,
    path: &str,
    text: &[u8],
) -> Result<(), Broken>
    ensures run { OnOk result (RunsText shell.old.turn shell.old.session text.now shell.new.session) }
    ensures part { OnErr result (HasBegun shell.old.turn shell.old.session text.now shell.new.session) }
    ensures turn { shell.new.turn ≡ shell.old.turn }
{
    match program_of(rt.alloc(), shell.session.schema(), 1, text) {
        Ok(program) => run_accepted(rt, shell, &program, text),
        Err(fault) => write_refusal(rt, call, path, &fault),
    }
}

// Runs the program of a file. A refusal of memory ends the program, and not the shell.
fn run_file(
    rt: &HostRuntime,
    shell: &mut Shell<'_>,
    call: &Call<'_>,
    path: &str,
) -> Result<(), Broken> {
    match program_bytes(rt, path) {
        Err(error) => write_unread(rt, path, &Unread { lines: 0, error }),
        Ok(text) => match run_program(rt, shell, call, path, text.as_slice()) {
            Err(Broken::Memory) => write(rt, WANT_OF_MEMORY.as_bytes()),
            ended => ended,
        },
    }
}

// Prints what a line came to, and says whether the dialogue goes on. A line that asks to load is one of a file that is loaded already.
fn write_reply(
    rt: &HostRuntime,
    shell: &mut Shell<'_>,
    call: &Call<'_>,
    reply: &Result<Reply<'_>, AllocError>,
) -> Result<bool, Broken> {
    match reply {
        Ok(Reply::Save(directory)) => write_saved(rt, shell, call, *directory),
        Ok(Reply::Load(_)) => write(rt, LOADING.as_bytes()),
        Ok(Reply::Run(path)) => run_file(rt, shell, call, *path),
        Ok(Reply::Quit) => return Ok(false),
        Ok(text) => write_text(rt, text),
        Err(_) => write(rt, WANT_OF_MEMORY.as_bytes()),
    }?;
    Ok(true)
}

// What a line does.
fn reply_to<'b>(
    shell: &mut Shell<'_>,
    kept: LinePart,
    line: &'b [u8],
) -> Result<Reply<'b>, AllocError> {
    match kept {
        LinePart::All => shell.take_line(line),
        LinePart::Beginning => shell.take_long_line(),
    }
}

// Why no further line of a file can be read, and how many lines were read before.
#[derive(Drop)]
struct Unread {
    lines: u64,
    error: io::Error,
}

// Answers the lines of a file, as if they were typed; whether the dialogue goes on, or why no further line can be read.
fn answer_file<B: BufRead>(
    rt: &HostRuntime,
    shell: &mut Shell<'_>,
    call: &Call<'_>,
    input: &mut B,
    line: &mut Vec<u8>,
) -> Result<Result<bool, Unread>, Broken> {
    for lines in 0..u64::MAX {
        let kept = match next_line(input, line) {
            Ok(Some(kept)) => kept,
            Ok(None) => return Ok(Ok(true)),
            Err(error) => return Ok(Err(Unread { lines, error })),
        };
        let reply = reply_to(shell, kept, line.as_slice());
        if !write_reply(rt, shell, call, &reply)? {
            return Ok(Ok(false));
        }
    }
    Ok(Ok(true))
}

// A file, and the room for a line of it.
fn opened(rt: &HostRuntime, path: &str) -> io::Result<(BufReader<File>, Vec<u8>)> {
    let file = File::open(rt, path)?;
    let input = BufReader::new(rt.alloc(), file)?;
    let line = Vec::with_capacity(rt.alloc(), LINE_BYTES as usize)?;
    Ok((input, line))
}

// What is said of a file that cannot be read: the system's reason, and the line behind which it stopped, if it stopped behind one.
fn unread_text(rt: &HostRuntime, path: &str, unread: &Unread) -> Result<String, AllocError> {
    let Unread { lines, error } = unread;
    let why = reason_of(error.kind());
    match lines {
        0 => format!(in rt.alloc(); "cannot read {path}: {why}\n"),
        _ => format!(in rt.alloc(); "cannot read {path} behind line {lines}: {why}\n"),
    }
}

// Reports a file that cannot be read.
fn write_unread(rt: &HostRuntime, path: &str, unread: &Unread) -> Result<(), Broken> {
    if unread.error.kind() != io::ErrorKind::OutOfMemory {
        if let Ok(told) = unread_text(rt, path, unread) {
            return write(rt, told.as_bytes());
        }
    }
    write(rt, WANT_OF_MEMORY.as_bytes())
}

// Takes the lines of a file, and reports if it cannot be read. Says whether the dialogue goes on.
fn load(
    rt: &HostRuntime,
    shell: &mut Shell<'_>,
    call: &Call<'_>,
    path: &str,
) -> Result<bool, Broken> {
    let loaded = match opened(rt, path) {
        Ok((mut input, mut line)) => answer_file(rt, shell, call, &mut input, &mut line)?,
        Err(error) => Err(Unread { lines: 0, error }),
    };
    match loaded {
        Ok(goes_on) => Ok(goes_on),
        Err(unread) => {
            write_unread(rt, path, &unread)?;
            Ok(true)
        }
    }
}

// Answers a line; whether the dialogue goes on.
fn answer(
    rt: &HostRuntime,
    shell: &mut Shell<'_>,
    call: &Call<'_>,
    kept: LinePart,
    line: &[u8],
) -> Result<bool, Broken> {
    match reply_to(shell, kept, line) {
        Ok(Reply::Load(path)) => load(rt, shell, call, path),
        reply => write_reply(rt, shell, call, &reply),
    }
}

// Answers the lines of an input, each in the same room.
fn answer_lines<B: BufRead>(
    rt: &HostRuntime,
    shell: &mut Shell<'_>,
    call: &Call<'_>,
    input: &mut B,
    line: &mut Vec<u8>,
) -> Result<(), Broken> {
    let prompts = rt.stdin().is_terminal();
    for _ in 0..u64::MAX {
        write_prompt(rt, prompts, shell.turn)?;
        let kept = match next_line(input, line) {
            Ok(Some(kept)) => kept,
            Ok(None) => return write_end(rt, prompts),
            Err(_) => return Err(Broken::NotRead),
        };
        if !answer(rt, shell, call, kept, line.as_slice())? {
            return Ok(());
        }
    }
    Ok(())
}

// Answers standard input. The room for its longest line is found before the first is read, so that no line is lost for want of it.
fn answer_input(rt: &HostRuntime, shell: &mut Shell<'_>, call: &Call<'_>) -> Result<(), Broken> {
    let mut line = Vec::with_capacity(rt.alloc(), LINE_BYTES as usize)?;
    let mut input = rt.reader();
    answer_lines(rt, shell, call, &mut input, &mut line)
}

/// Answers the lines of standard input, one after another, up to its end or `.quit`. A terminal is shown whose turn it is.
pub fn converse(rt: &HostRuntime, session: Session<'_>, call: &Call<'_>) -> Result<(), Broken> {
    let mut shell = Shell::new(rt.alloc(), session);
    answer_input(rt, &mut shell, call)
}
