//! A run, shown as a picture of its interleaving or as a page.
ghost use Rattle.std.specs.Prelude.{◌≡◌, ◌≤◌, ◌++◌, ◌∷◌, false, IfErr, IfOk, length, map, true};
ghost use Rattle.dbtg_schema.specs.Sound.{IsSound};
ghost use Rattle.dbtg_script.specs.Lines.{statement_lines};
ghost use Rattle.dbtg_step.specs.Laws.{scripts_fit};
ghost use Rattle.dbtg_replay.specs.Ordering.{StandFor, first_turns};
ghost use Rattle.dbtg.specs.Picturing.{AreBefore, IsPictured, TimelineHeld, events_shown, picture};
ghost use Rattle.dbtg_command.specs.Refusals.{is_count};
ghost use Rattle.dbtg_command.specs.Sources.{ReadSchema, ToldOfRun};

use dbtg_command::{Fault, OrderKind, Source, copy_each_script, read_moves, read_turns};
use dbtg_explain::CAUSES;
use dbtg_page::{Steps, Told, page_text};
use dbtg_replay::replay::schema_for_run;
use dbtg_replay::{
    Scripts, moves_behind_first, moves_of_turns, read_scripts_with_texts, said_of_run,
    serial_turns, turns_behind_first,
};
use dbtg_schema::{Row, Schema};
use dbtg_script::statement_lines;
use dbtg_timeline::{Event, noted_events, timeline_svg, timeline_text, watch};
use dbtg_unit::{LAST_UNIT, Move, Statement};
use std::alloc::{AllocError, Global};

/// The form in which a run is shown. A picture can say below each refusal what is in its way; a page has the names of its files, first that
/// of the schema.
#[derive(Clone, Copy)]
pub enum Form<'a> {
    Text { explained: bool },
    Svg { explained: bool },
    Page { files: &'a [Row<u8>] },
}

// The turns of the scripts that meet, and whether the last script is made before them.
#[derive(Clone, Copy)]
struct Turns<'a> {
    first: bool,
    given: &'a [u8],
}

/// The names of the files of a page: that of the schema, and those of the scripts.
pub fn names_of_files(
    alloc: Global,
    schema: &str,
    scripts: &[&str],
) -> Result<Vec<Row<u8>>, AllocError>
    ensures { IfOk result (λ names. names.items ≡ schema.now ∷ map (λ name. name.now) scripts.now) }
{
    let mut names = Vec::new(alloc);
    names.push(Row::of(Vec::from_slice(alloc, schema.as_bytes())?))?;
    for script in scripts {
        names.push(Row::of(Vec::from_slice(alloc, script.as_bytes())?))?;
    }
    Ok(names)
}

// The texts of the statements of each script.
fn texts_of_statements(alloc: Global, texts: &[Row<u8>]) -> Result<Vec<Row<Row<u8>>>, AllocError>
    ensures { IfOk result (λ scripts. scripts.items ≡ map statement_lines texts.now) }
{
    let mut scripts = Vec::new(alloc);
    for text in texts {
        scripts.push(texts_in(alloc, text.as_slice())?)?;
    }
    Ok(scripts)
}

fn texts_in(alloc: Global, text: &[u8]) -> Result<Row<Row<u8>>, AllocError>
    ensures { IfOk result (λ lines. lines ≡ statement_lines text.now) }
{
    let found = statement_lines(alloc, text)?;
    copies_of(alloc, found.as_slice())
}

fn copies_of(alloc: Global, lines: &[&[u8]]) -> Result<Row<Row<u8>>, AllocError>
    ensures { IfOk result (λ copies. copies ≡ map (λ s. s.now) lines.now) }
{
    let mut copies = Vec::new(alloc);
    for line in lines {
        copies.push(Row::of(Vec::from_slice(alloc, *line)?))?;
    }
    Ok(Row::of(copies))
}

// The events of the run of these moves.
fn events_shown(
    alloc: Global,
    schema: &Schema,
    capacity: u16,
    statements: Row<Row<Statement>>,
    explained: bool,
    moves: &[Move],
) -> Result<Vec<Event>, AllocError>
    requires sound { IsSound schema.now }
    requires units { length statements ≤ LAST_UNIT }
    requires fit { scripts_fit schema.now statements ≡ true }
    ensures { IfOk result (λ events. events.items ≡ events_shown explained schema.now capacity statements moves.now) }
{
    if !explained {
        return watch(alloc, schema, capacity, statements, moves);
    }
    let said = said_of_run(alloc, schema, capacity, statements.as_slice(), moves)?;
    let events = watch(alloc, schema, capacity, statements, moves)?;
    noted_events(alloc, events.as_slice(), said.as_slice())
}

// The run of these moves.
fn picture_of_moves(
    alloc: Global,
    schema: &Schema,
    capacity: u16,
    scripts: Scripts,
    form: &Form<'_>,
    steps: &Steps<'_>,
) -> Result<Vec<u8>, AllocError>
    requires sound { IsSound schema.now }
    requires units { length scripts.statements ≤ LAST_UNIT }
    requires fit { scripts_fit schema.now scripts.statements ≡ true }
    ensures { IfOk result (λ out. out.items
        ≡ picture form.now schema.now capacity scripts.statements scripts.texts steps.now.events steps.now.before steps.now.moves.now) }
{
    let Scripts { statements, texts } = scripts;
    let lines = texts_of_statements(alloc, texts.as_slice())?;
    let scripts = lines.as_slice();
    let moves = steps.moves;
    match *form {
        Form::Text { explained } => {
            let events = events_shown(alloc, schema, capacity, statements, explained, moves)?;
            timeline_text(alloc, scripts, events.as_slice())
        }
        Form::Svg { explained } => {
            let events = events_shown(alloc, schema, capacity, statements, explained, moves)?;
            timeline_svg(alloc, scripts, events.as_slice())
        }
        Form::Page { files } => {
            let causes = CAUSES.as_bytes();
            let told = Told {
                files,
                scripts,
                causes,
            };
            page_text(alloc, schema, capacity, statements, &told, steps)
        }
    }
}

// How many moves make the script that is made first.
fn moves_of_first(
    alloc: Global,
    schema: &Schema,
    capacity: u16,
    scripts: &[Row<Statement>],
    first: bool,
) -> Result<usize, AllocError>
    requires sound { IsSound schema.now }
    requires units { length scripts.now ≤ LAST_UNIT }
    requires fit { scripts_fit schema.now scripts.now ≡ true }
    ensures { IfOk result (λ count. AreBefore first schema.now capacity scripts.now count) }
{
    let none = Vec::new(alloc);
    let all = moves_behind_first(alloc, first, schema, capacity, scripts, none)?;
    Ok(all.before)
}

// The run of the moves that these turns stand for, after those of the script that is made first.
fn picture_of_turns(
    alloc: Global,
    schema: &Schema,
    capacity: u16,
    scripts: Scripts,
    form: &Form<'_>,
    turns: &Turns<'_>,
) -> Result<Vec<u8>, AllocError>
    requires sound { IsSound schema.now }
    requires units { length scripts.statements ≤ LAST_UNIT }
    requires fit { scripts_fit schema.now scripts.statements ≡ true }
    ensures { IfOk result (λ out. IsPictured schema.now capacity scripts.statements scripts.texts form.now false turns.now.first
        (StandFor schema.now capacity scripts.statements (first_turns turns.now.first scripts.statements ++ turns.now.given.now)) out.items) }
{
    let statements = scripts.statements.as_slice();
    let all = turns_behind_first(alloc, turns.first, statements, turns.given)?;
    let before = moves_of_first(alloc, schema, capacity, statements, turns.first)?;
    let copies = copy_each_script(alloc, statements)?;
    let moves = moves_of_turns(alloc, schema, capacity, copies, all.as_slice())?;
    let steps = Steps {
        events: false,
        before,
        moves: moves.as_slice(),
    };
    picture_of_moves(alloc, schema, capacity, scripts, form, &steps)
}

fn timeline_known<S: Source>(
    alloc: Global,
    source: &S,
    known: &Schema,
    capacity: u16,
    form: &Form<'_>,
    first: bool,
) -> Result<Vec<u8>, Fault>
    requires counted { is_count (S.count source.now) ≡ true }
    requires read { ReadSchema (S.holds source.now) known.now }
    requires sound { IsSound known.now }
    ensures done { IfOk result (λ out. TimelineHeld (S.holds source.now) (S.count source.now) (S.order source.now) first capacity form.now out.items) }
    ensures refused { IfErr result (λ fault. ToldOfRun (S.holds source.now) (S.fails source.now) fault (S.count source.now) (S.order source.now)) }
{
    let scripts = read_scripts_with_texts(alloc, source, known)?;
    let statements = scripts.statements.as_slice();
    match source.order() {
        OrderKind::Serial => {
            let serial = serial_turns(alloc, statements)?;
            let given = serial.as_slice();
            let turns = Turns { first, given };
            Ok(picture_of_turns(alloc, known, capacity, scripts, form, &turns)?)
        }
        OrderKind::Moves => {
            let moves = read_moves(alloc, source)?;
            let all = moves_behind_first(alloc, first, known, capacity, statements, moves)?;
            let steps = Steps {
                events: true,
                before: all.before,
                moves: all.moves.as_slice(),
            };
            Ok(picture_of_moves(alloc, known, capacity, scripts, form, &steps)?)
        }
        OrderKind::Turns => {
            let read = read_turns(alloc, source)?;
            let given = read.as_slice();
            let turns = Turns { first, given };
            Ok(picture_of_turns(alloc, known, capacity, scripts, form, &turns)?)
        }
    }
}

/// What `timeline` or `page` prints of the schema, the scripts and the moves or turns that a source gives, or the first fault. Without
/// moves and turns one script is made after the other. The last script is made before all others, if it is made first.
pub fn timeline<S: Source>(
    alloc: Global,
    source: &S,
    capacity: u16,
    form: &Form<'_>,
    first: bool,
) -> Result<Vec<u8>, Fault>
    ensures done { IfOk result (λ out. TimelineHeld (S.holds source.now) (S.count source.now) (S.order source.now) first capacity form.now out.items) }
    ensures refused { IfErr result (λ fault. ToldOfRun (S.holds source.now) (S.fails source.now) fault (S.count source.now) (S.order source.now)) }
{
    let known = schema_for_run(alloc, source)?;
    timeline_known(alloc, source, &known, capacity, form, first)
}
