//! Texts and numbers in columns.
ghost use Rattle.std.specs.List.{flat_map};
ghost use Rattle.std.specs.Prelude.{◌≡◌, ◌++◌, OnOk, decimal, replicate};
ghost use Rattle.dbtg_timeline.specs.Columns.{left, right};

use itoa::Buffer;
use std::alloc::AllocError;

fn push_fill(out: &mut Vec<u8>, fill: u8, count: usize) -> Result<(), AllocError>
    ensures { OnOk result (out.new.items ≡ out.old.items ++ replicate count fill) }
{
    for _turn in 0..count {
        out.push(fill)?;
    }
    Ok(())
}

#[tactic(auto, unfolding(crate::specs::Columns::right))]
pub fn push_right(out: &mut Vec<u8>, fill: u8, width: usize, text: &[u8]) -> Result<(), AllocError>
    ensures { OnOk result (out.new.items ≡ out.old.items ++ right fill width text.now) }
{
    push_fill(out, fill, width.saturating_sub(text.len()))?;
    out.extend_from_slice(text)
}

#[tactic(auto, unfolding(crate::specs::Columns::left))]
pub fn push_left(out: &mut Vec<u8>, width: usize, text: &[u8]) -> Result<(), AllocError>
    ensures { OnOk result (out.new.items ≡ out.old.items ++ left width text.now) }
{
    out.extend_from_slice(text)?;
    push_fill(out, b' ', width.saturating_sub(text.len()))
}

/// Appends these texts, one after another.
pub fn push_all(out: &mut Vec<u8>, texts: &[&[u8]]) -> Result<(), AllocError>
    ensures { OnOk result (out.new.items ≡ out.old.items ++ flat_map (λ text. text.now) texts.now) }
{
    for text in texts {
        out.extend_from_slice(*text)?;
    }
    Ok(())
}

pub fn push_number(out: &mut Vec<u8>, number: u128) -> Result<(), AllocError>
    ensures { OnOk result (out.new.items ≡ out.old.items ++ decimal number) }
{
    let mut buffer = Buffer::new();
    out.extend_from_slice(buffer.format(number).as_bytes())
}

pub fn push_right_number(
    out: &mut Vec<u8>,
    fill: u8,
    width: usize,
    number: u64,
) -> Result<(), AllocError>
    ensures { OnOk result (out.new.items ≡ out.old.items ++ right fill width (decimal number)) }
{
    let mut buffer = Buffer::new();
    push_right(out, fill, width, buffer.format(number).as_bytes())
}
