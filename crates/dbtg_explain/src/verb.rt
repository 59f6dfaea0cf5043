//! Which statuses a statement can have, by its verb.
ghost use Rattle.std.specs.List.{flat_map};
ghost use Rattle.std.specs.Prelude.{◌≡◌, ◌++◌, IfOk, OnOk};
ghost use Rattle.dbtg_explain.specs.Verbs.{can_have, code_of, codes_of_verb, is_of};
ghost use Rattle.dbtg_script.specs.Lines.{lines};

use crate::row::{field, next_row, row_with};
use crate::statuses::STATUSES;
use std::alloc::{AllocError, Global};

fn is_of(verb: &[u8], row: &[u8]) -> bool
    ensures { result ≡ is_of verb.now row.now }
{
    field(row, 1) == verb
}

/// Can a statement with this verb have the status of this code?
#[tactic(auto, unfolding(crate::specs::Verbs::can_have))]
pub fn can_have(verb: &[u8], code: u16) -> bool
    ensures { result ≡ can_have verb.now code }
{
    if code == 0 {
        return true;
    }
    match row_with(STATUSES, code) {
        Some(row) => is_of(verb, row),
        None => false,
    }
}

fn push_code(out: &mut Vec<u8>, verb: &[u8], row: &[u8]) -> Result<(), AllocError>
    ensures { OnOk result (out.new.items ≡ out.old.items ++ code_of verb.now row.now) }
{
    if !is_of(verb, row) {
        return Ok(());
    }
    out.push(b' ')?;
    out.extend_from_slice(field(row, 0))
}

fn push_codes(out: &mut Vec<u8>, verb: &[u8]) -> Result<(), AllocError>
    ensures { OnOk result (out.new.items ≡ out.old.items ++ flat_map (code_of verb.now) (lines STATUSES.now)) }
{
    let mut rest = STATUSES.as_bytes();
    while let Some((status, behind)) = next_row(rest) {
        push_code(out, verb, status)?;
        rest = behind;
    }
    Ok(())
}

/// The codes of all statuses that a statement with this verb can have, with spaces between them.
#[tactic(auto, unfolding(crate::specs::Verbs::codes_of_verb))]
pub fn codes_of_verb(alloc: Global, verb: &[u8]) -> Result<Vec<u8>, AllocError>
    ensures { IfOk result (λ out. out.items ≡ codes_of_verb verb.now) }
{
    let mut out = Vec::from_slice(alloc, b"0000")?;
    push_codes(&mut out, verb)?;
    Ok(out)
}
