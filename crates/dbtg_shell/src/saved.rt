//! Saving a session: a file for the script of each unit, and one for the turns.
ghost use Rattle.std.specs.Prelude.{◌≡◌, ◌++◌, ◌∷◌, [], IfOk, map, string_bytes};
ghost use Rattle.dbtg_shell.specs.Inside.Saved.{saved_paths};

use crate::turns::turns_of;
use crate::writing::write_file;
use dbtg_command::Call;
use dbtg_session::Session;
use std::alloc::{AllocError, Global};
use std::fs;

/// The path of each file that is written where a session of this many units is saved in a directory: the script of each unit, then the turns.
pub fn saved_paths(alloc: Global, directory: &str, units: usize) -> Result<Vec<String>, AllocError>
    ensures { IfOk result (λ paths. map string_bytes paths.items ≡ saved_paths directory.now units) }
{
    let mut paths = Vec::new(alloc);
    for i in 0..units {
        let number = i.saturating_add(1);
        paths.push(format!(in alloc; "{directory}/script.{number}")?)?;
    }
    paths.push(format!(in alloc; "{directory}/turns")?)?;
    Ok(paths)
}

// The result of writing a file: nothing to say, or the line that says it cannot be written.
fn written(rt: &HostRuntime, path: &str, bytes: &[u8]) -> Result<Option<String>, AllocError> {
    match write_file(rt, path, bytes) {
        Ok(()) => Ok(None),
        Err(_) => Ok(Some(format!(in rt.alloc(); "cannot write {path}\n")?)),
    }
}

// Saves a text in each of the files, up to the first that cannot be written.
fn save_all(
    rt: &HostRuntime,
    paths: &[String],
    texts: &[&[u8]],
) -> Result<Option<String>, AllocError> {
    for (path, text) in paths.iter().zip(texts.iter()) {
        if let Some(told) = written(rt, path.as_str(), *text)? {
            return Ok(Some(told));
        }
    }
    Ok(None)
}

// Does a shell take the byte as it stands?
fn is_plain(b: u8) -> bool {
    b.is_ascii_alphanumeric()
        || matches!(
            b,
            b'/' | b'.' | b'_' | b'-' | b'+' | b',' | b':' | b'@' | b'%'
        )
}

// In quotes everything stands for itself except a quote, which is put between two quoted parts.
fn push_quoted(told: &mut String, path: &str) -> Result<(), AllocError> {
    told.push_str("'")?;
    for (i, part) in path.split('\'').enumerate() {
        if i > 0 {
            told.push_str("'\\''")?;
        }
        told.push_str(part)?;
    }
    told.push_str("'")
}

// A path as a word of a command that is typed in a shell. One that begins with a hyphen would be taken for an option.
fn push_path(told: &mut String, path: &str) -> Result<(), AllocError> {
    told.push_str(" ")?;
    if path.starts_with("-") {
        told.push_str("./")?;
    }
    if path.bytes().all(is_plain) {
        return told.push_str(path);
    }
    push_quoted(told, path)
}

// The command that makes the statements of the saved scripts again. The turns are the last file.
fn command_for(alloc: Global, call: &Call<'_>, paths: &[String]) -> Result<String, AllocError> {
    let capacity = call.capacity;
    let mut told = format!(in alloc; "saved: dbtg replay --capacity {capacity} --turns")?;
    if let Some((turns, scripts)) = paths.split_last() {
        push_path(&mut told, turns.as_str())?;
        push_path(&mut told, call.schema)?;
        for script in scripts {
            push_path(&mut told, script.as_str())?;
        }
    }
    told.push_str("\n")?;
    Ok(told)
}

/// The first of these files that is there, if there is one, and what is said of it.
pub fn first_there(rt: &HostRuntime, paths: &[String]) -> Result<Option<String>, AllocError> {
    match paths
        .iter()
        .find(|path| fs::metadata(rt, path.as_str()).is_ok())
    {
        None => Ok(None),
        Some(path) => Ok(Some(format!(in rt.alloc();
            "{path} is there, and this shell has not saved it: name another directory\n"
        )?)),
    }
}

// The texts of a session, in the order of their files: the script of each unit, and the turns.
fn texts_of<'a>(
    alloc: Global,
    session: &'a Session<'_>,
    turns: &'a [u8],
) -> Result<Vec<&'a [u8]>, AllocError>
    ensures { IfOk result (λ texts. map (λ text. text.now) texts.items ≡ session.now.texts ++ turns.now ∷ []) }
{
    let mut texts = Vec::new(alloc);
    for script in session.scripts() {
        texts.push(script.text.as_slice())?;
    }
    texts.push(turns)?;
    Ok(texts)
}

/// Writes the scripts and the turns of a session into these files of a directory, which is created if necessary, and says how they are
/// made again, or which file could not be written.
pub fn save(
    rt: &HostRuntime,
    session: &Session<'_>,
    call: &Call<'_>,
    directory: &str,
    paths: &[String],
) -> Result<String, AllocError> {
    let alloc = rt.alloc();
    let command = command_for(alloc, call, paths)?;
    let turns = turns_of(alloc, session)?;
    let texts = texts_of(alloc, session, turns.as_slice())?;
    if fs::create_dir_all(rt, directory).is_err() {
        return format!(in alloc; "cannot write {directory}\n");
    }
    Ok(save_all(rt, paths, texts.as_slice())?.unwrap_or(command))
}
