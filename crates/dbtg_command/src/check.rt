//! How large a schema and scripts are.
ghost use Rattle.std.specs.Prelude.{◌≡◌, ◌++◌, None, IfErr, IfOk, OnOk, length};
ghost use Rattle.dbtg_script.specs.StatementFaults.{refusal as script_refusal};
ghost use Rattle.dbtg_script.specs.Statements.{script};
ghost use Rattle.dbtg_script.specs.Printing.Texts.{script_line};
ghost use Rattle.dbtg_command.specs.Checking.{ChecksHeld, IsCheck, script_lines};
ghost use Rattle.dbtg_command.specs.Refusals.{RefusesScriptText, RefusesTexts};
ghost use Rattle.dbtg_command.specs.Sources.{ReadSchema, ReadScripts, ToldOfScripts, ToldOfTexts};

use crate::at_hand::AtHand;
use crate::fault::Fault;
use crate::order::Order;
use crate::place::TextPlace;
use crate::reading::statements_of;
use crate::source::Source;
use crate::texts::read_schema;
use dbtg_schema::{Row, Schema};
use dbtg_script::{push_schema_line, push_script_line};
use std::alloc::Global;

/// Appends the line of a script.
fn push_script(
    alloc: Global,
    out: &mut Vec<u8>,
    schema: &Schema,
    number: usize,
    text: &[u8],
) -> Result<(), Fault>
    ensures accepted { OnOk result (script_refusal schema.now text.now ≡ None) }
    ensures line { OnOk result (out.new.items ≡ out.old.items ++ script_line number (length (script schema.now text.now))) }
    ensures refused { IfErr result (λ fault. RefusesScriptText fault number schema.now text.now) }
{
    let statements = statements_of(alloc, schema, number, text)?;
    push_script_line(out, number, statements.len())?;
    Ok(())
}

/// Appends the lines of the scripts.
fn push_each_script<S: Source>(
    alloc: Global,
    out: &mut Vec<u8>,
    source: &S,
    schema: &Schema,
) -> Result<(), Fault>
    ensures read { OnOk result ((read : ReadScripts (S.holds source.now) schema.now (S.count source.now)) × (out.new.items ≡ out.old.items ++ script_lines schema.now 1 read.texts)) }
    ensures refused { IfErr result (λ fault. ToldOfScripts (S.holds source.now) (S.fails source.now) fault schema.now (S.count source.now)) }
{
    for i in 0..source.count() {
        let text = source.read(alloc, TextPlace::Script(i + 1))?;
        push_script(alloc, out, schema, i + 1, text.as_slice())?;
    }
    Ok(())
}

/// What `check` prints of a schema that was read and the scripts.
fn check_known<S: Source>(alloc: Global, source: &S, known: &Schema) -> Result<Vec<u8>, Fault>
    requires read { ReadSchema (S.holds source.now) known.now }
    ensures done { IfOk result (λ out. ChecksHeld (S.holds source.now) (S.count source.now) out.items) }
    ensures refused { IfErr result (λ fault. ToldOfTexts (S.holds source.now) (S.fails source.now) fault (S.count source.now)) }
{
    let mut out = Vec::new(alloc);
    push_schema_line(&mut out, known)?;
    push_each_script(alloc, &mut out, source, known)?;
    Ok(out)
}

/// What `check` prints of the schema and the scripts that a source gives, or the first fault.
pub fn check<S: Source>(alloc: Global, source: &S) -> Result<Vec<u8>, Fault>
    ensures done { IfOk result (λ out. ChecksHeld (S.holds source.now) (S.count source.now) out.items) }
    ensures refused { IfErr result (λ fault. ToldOfTexts (S.holds source.now) (S.fails source.now) fault (S.count source.now)) }
{
    let known = read_schema(alloc, source)?;
    check_known(alloc, source, &known)
}

/// What `check` prints of a schema and scripts in memory, or their first fault.
pub fn check_bytes<'a>(
    alloc: Global,
    schema: &'a [u8],
    scripts: &'a [Row<u8>],
) -> Result<Vec<u8>, Fault>
    ensures done { IfOk result (λ out. IsCheck schema.now scripts.now out.items) }
    ensures refused { IfErr result (λ fault. RefusesTexts fault schema.now scripts.now) }
{
    let texts = AtHand {
        schema,
        scripts,
        order: Order::Serial,
    };
    check(alloc, &texts)
}
