//! The picture as plain text. Its lines have at most 120 columns as long as moves have no more than 8 digits.
ghost use Rattle.std.specs.Prelude.{◌≡◌, ◌++◌, ◌+◌, ◌<◌, IfOk, OnOk, false, replicate};
ghost use Rattle.dbtg_timeline.specs.Text.{columns_text, drawn_of, drawn_text, front_text, head_text, lane_heads, lane_mark, lanes_text, legend, rest_text, second_legend, strip_text, strips_text, timeline_text};

use crate::columns::{push_all, push_left, push_number, push_right_number};
use crate::event::Event;
use crate::lanes::pass;
use crate::lines::Drawn;
use crate::strips::{Front, Strip, strips_of};
use dbtg_schema::Row;
use std::alloc::{AllocError, Global};

fn push_lane_heads(out: &mut Vec<u8>, scripts: &[Row<Row<u8>>]) -> Result<(), AllocError>
    ensures { OnOk result (out.new.items ≡ out.old.items ++ lane_heads 1 scripts.now) }
{
    let mut n = 1;
    for _script in scripts {
        out.push(b' ')?;
        push_number(out, n)?;
        n += 1;
    }
    Ok(())
}

fn push_head(out: &mut Vec<u8>, scripts: &[Row<Row<u8>>]) -> Result<(), AllocError>
    ensures { OnOk result (out.new.items ≡ out.old.items ++ head_text scripts.now) }
{
    out.extend_from_slice(b"    MOVE UNIT")?;
    push_lane_heads(out, scripts)?;
    out.extend_from_slice(b" EVENTS                           TICKET  STATUS STATEMENT\n")?;
    Ok(())
}

fn lane_mark(is_own: bool, midway: bool) -> u8
    ensures { result ≡ lane_mark is_own midway }
{
    if is_own {
        b'*'
    } else if midway {
        b'|'
    } else {
        b' '
    }
}

fn push_each_lane(out: &mut Vec<u8>, unit: u8, lanes: &[bool]) -> Result<(), AllocError>
    ensures { OnOk result (out.new.items ≡ out.old.items ++ lanes_text unit 1 lanes.now) }
{
    let mut n: u128 = 1;
    for midway in lanes {
        out.push(b' ')?;
        out.push(lane_mark(n == unit as u128, *midway))?;
        n += 1;
    }
    Ok(())
}

#[tactic(auto, unfolding(crate::specs::Text::drawn_text))]
fn push_drawn(out: &mut Vec<u8>, drawn: Option<Drawn>) -> Result<(), AllocError>
    ensures { OnOk result (out.new.items ≡ out.old.items ++ drawn_text drawn) }
{
    match drawn {
        None => out.extend_from_slice(b"                "),
        Some(drawn) => {
            push_right_number(out, b' ', 7, drawn.ticket)?;
            out.extend_from_slice(b"   ")?;
            push_right_number(out, b'0', 4, drawn.status as u64)?;
            out.extend_from_slice(b"  ")
        }
    }
}

#[tactic(auto, unfolding(crate::specs::Text::front_text))]
fn push_front(out: &mut Vec<u8>, unit: u8, front: Option<Front>) -> Result<(), AllocError>
    ensures { OnOk result (out.new.items ≡ out.old.items ++ front_text unit front) }
{
    match front {
        None => out.extend_from_slice(b"             "),
        Some(front) => {
            push_right_number(out, b' ', 8, front.first as u64)?;
            push_right_number(out, b' ', 5, unit as u64)
        }
    }
}

fn drawn_of(front: Option<Front>) -> Option<Drawn>
    ensures { result ≡ drawn_of front }
{
    front?.drawn
}

#[tactic(auto, unfolding(crate::specs::Text::columns_text))]
fn push_columns(
    out: &mut Vec<u8>,
    letters: &[u8],
    front: Option<Front>,
    words: &[u8],
) -> Result<(), AllocError>
    ensures { OnOk result (out.new.items ≡ out.old.items ++ columns_text letters.now front words.now) }
{
    push_left(out, 32, letters)?;
    push_drawn(out, drawn_of(front))?;
    out.extend_from_slice(words)
}

fn push_rest(
    out: &mut Vec<u8>,
    letters: &[u8],
    front: Option<Front>,
    words: &[u8],
) -> Result<(), AllocError>
    ensures { OnOk result (out.new.items ≡ out.old.items ++ rest_text letters.now front words.now) }
{
    if front.is_none() && words.is_empty() {
        out.extend_from_slice(letters)
    } else {
        push_columns(out, letters, front, words)
    }
}

#[tactic(auto, unfolding(crate::specs::Text::strip_text))]
fn push_strip(out: &mut Vec<u8>, lanes: &[bool], strip: &Strip) -> Result<(), AllocError>
    ensures { OnOk result (out.new.items ≡ out.old.items ++ strip_text lanes.now strip.now) }
{
    push_front(out, strip.unit, strip.front)?;
    push_each_lane(out, strip.unit, lanes)?;
    out.push(b' ')?;
    push_rest(
        out,
        strip.letters.as_slice(),
        strip.front,
        strip.words.as_slice(),
    )?;
    out.extend_from_slice(b"\n")
}

fn push_each_strip(
    alloc: Global,
    out: &mut Vec<u8>,
    units: usize,
    strips: &[Strip],
) -> Result<(), AllocError>
    ensures { OnOk result (out.new.items ≡ out.old.items ++ strips_text (replicate units false) strips.now) }
{
    let mut lanes = Vec::from_elem(alloc, false, units)?;
    for strip in strips {
        push_strip(out, lanes.as_slice(), strip)?;
        pass(&mut lanes, strip);
    }
    Ok(())
}

/// What the letters mean.
#[tactic(auto, unfolding(crate::specs::Text::legend))]
pub fn legend() -> &'static [u8]
    ensures { result.now ≡ legend }
{
    b"b begin, a take area, c take cell, T ticket, X ticket of a refusal, l link, p put back, v leave area"
}

/// What the other letters mean.
#[tactic(auto, unfolding(crate::specs::Text::second_legend))]
pub fn second_legend() -> &'static [u8]
    ensures { result.now ≡ second_legend }
{
    b"R turn back, r put back in turning back, Q quit, B blocked, I idle"
}

/// The picture of these events as plain text, with a lane for each script. `scripts` has the text of each statement.
#[tactic(auto, unfolding(crate::specs::Text::timeline_text))]
pub fn timeline_text(
    alloc: Global,
    scripts: &[Row<Row<u8>>],
    events: &[Event],
) -> Result<Vec<u8>, AllocError>
    ensures { IfOk result (λ text. text.items ≡ timeline_text scripts.now events.now) }
{
    let strips = strips_of(alloc, scripts, events)?;
    let mut out = Vec::new(alloc);
    push_head(&mut out, scripts)?;
    push_each_strip(alloc, &mut out, scripts.len(), strips.as_slice())?;
    push_all(&mut out, &[legend(), b"\n", second_legend(), b"\n"])?;
    Ok(out)
}
