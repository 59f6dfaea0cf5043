//! The picture as SVG, with the same strips as the plain text.
ghost use Rattle.std.specs.Prelude.{◌≡◌, ◌++◌, ◌+◌, ◌*◌, ◌^◌, ◌<◌, IfOk, OnOk, decimal, false, length, replicate};
ghost use Rattle.std.specs.List.{flat_map};
ghost use Rattle.dbtg_timeline.specs.Svg.{back_heads, dark_text, drawn_text, end_text, escaped, front_heads, front_text, lane_heads, lane_text, lanes_text, letters_left, letters_text, measures, open_text, place_text, size_text, strip_text, strips_text, style_text, timeline_svg, title_text, top_text, words_text};

use crate::columns::{push_all, push_number, push_right_number};
use crate::event::{Event, ticket_letter};
use crate::lanes::pass;
use crate::lines::Drawn;
use crate::strips::{Strip, strips_of};
use crate::text::{legend, second_legend};
use dbtg_schema::Row;
use itoa::Buffer;
use std::alloc::{AllocError, Global};

#[tactic(auto, unfolding(crate::specs::Svg::place_text))]
fn push_place(out: &mut Vec<u8>, x: u128, y: u128) -> Result<(), AllocError>
    ensures { OnOk result (out.new.items ≡ out.old.items ++ place_text x y) }
{
    out.extend_from_slice(b" x='")?;
    push_number(out, x)?;
    out.extend_from_slice(b"' y='")?;
    push_number(out, y)?;
    out.extend_from_slice(b"'")
}

fn push_escaped(out: &mut Vec<u8>, byte: u8) -> Result<(), AllocError>
    ensures { OnOk result (out.new.items ≡ out.old.items ++ escaped byte) }
{
    if byte == b'&' {
        out.extend_from_slice(b"&amp;")
    } else if byte == b'<' {
        out.extend_from_slice(b"&lt;")
    } else if byte == b'>' {
        out.extend_from_slice(b"&gt;")
    } else {
        out.extend_from_slice(&[byte])
    }
}

fn push_each_escaped(out: &mut Vec<u8>, words: &[u8]) -> Result<(), AllocError>
    ensures { OnOk result (out.new.items ≡ out.old.items ++ flat_map escaped words.now) }
{
    for byte in words {
        push_escaped(out, *byte)?;
    }
    Ok(())
}

#[tactic(auto, unfolding(crate::specs::Svg::words_text))]
fn push_words(
    out: &mut Vec<u8>,
    kind: &[u8],
    x: u128,
    y: u128,
    words: &[u8],
) -> Result<(), AllocError>
    ensures { OnOk result (out.new.items ≡ out.old.items ++ words_text kind.now x y words.now) }
{
    push_all(out, &[b"<text class='", kind, b"'"])?;
    push_place(out, x, y)?;
    out.extend_from_slice(b">")?;
    push_each_escaped(out, words)?;
    out.extend_from_slice(b"</text>\n")
}

fn push_words_of_number(
    out: &mut Vec<u8>,
    kind: &[u8],
    x: u128,
    y: u128,
    number: u128,
) -> Result<(), AllocError>
    ensures { OnOk result (out.new.items ≡ out.old.items ++ words_text kind.now x y (decimal number)) }
{
    let mut buffer = Buffer::new();
    push_words(out, kind, x, y, buffer.format(number).as_bytes())
}

#[tactic(auto, unfolding(crate::specs::Svg::open_text))]
fn push_open(out: &mut Vec<u8>) -> Result<(), AllocError>
    ensures { OnOk result (out.new.items ≡ out.old.items ++ open_text) }
{
    out.extend_from_slice(b"<svg xmlns='http://www.w3.org/2000/svg' viewBox='0 0 ")
}

#[tactic(auto, unfolding(crate::specs::Svg::title_text))]
fn push_title(out: &mut Vec<u8>) -> Result<(), AllocError>
    ensures { OnOk result (out.new.items ≡ out.old.items ++ title_text) }
{
    out.extend_from_slice(
        b"'><title>TIMELINE</title>\n<rect class='ground' width='100%' height='100%'/>\n",
    )
}

#[tactic(auto, unfolding(crate::specs::Svg::measures))]
fn push_measures(
    out: &mut Vec<u8>,
    width: u128,
    height: u128,
    between: &[u8],
) -> Result<(), AllocError>
    ensures { OnOk result (out.new.items ≡ out.old.items ++ measures width height between.now) }
{
    push_number(out, width)?;
    out.extend_from_slice(between)?;
    push_number(out, height)
}

#[tactic(auto, unfolding(crate::specs::Svg::size_text))]
fn push_size(out: &mut Vec<u8>, width: u128, height: u128) -> Result<(), AllocError>
    ensures { OnOk result (out.new.items ≡ out.old.items ++ size_text width height) }
{
    push_open(out)?;
    push_measures(out, width, height, b" ")?;
    out.extend_from_slice(b"' width='")?;
    push_measures(out, width, height, b"' height='")?;
    push_title(out)
}

// Letters, lanes and the kinds of letters, on a light background, and on a dark one if the reader asks for that.
#[tactic(auto, unfolding(crate::specs::Svg::style_text, crate::specs::Svg::dark_text))]
fn style() -> &'static [u8]
    ensures { result.now ≡ style_text ++ dark_text }
{
    b"<style>text{font:13px monospace;fill:#222}.ground{fill:#fff}.head,.T,.X,.B,.Q{font-weight:bold}.number{text-anchor:end}.own{fill:#2f65a7}.open{fill:#7f9cc0}.T{fill:#067a06}.X{fill:#c00;text-decoration:underline}.B{fill:#a85400}.R,.r{fill:#7a4b9a}.Q{fill:#a0a}.I{fill:#666}
@media(prefers-color-scheme:dark){text{fill:#ddd}.ground{fill:#161b22}.own{fill:#6ea8ff}.open{fill:#4f78b0}.T{fill:#5fd35f}.X{fill:#ff7b72}.B{fill:#f0a050}.R,.r{fill:#c9a0f0}.Q{fill:#f080f0}.I{fill:#999}}</style>
"
}

fn push_lane_heads(out: &mut Vec<u8>, scripts: &[Row<Row<u8>>]) -> Result<(), AllocError>
    ensures { OnOk result (out.new.items ≡ out.old.items ++ lane_heads 1 scripts.now) }
{
    let mut n: u128 = 1;
    for _script in scripts {
        push_words_of_number(out, b"head", 104 + 16 * n, 24, n)?;
        n += 1;
    }
    Ok(())
}

#[tactic(auto, unfolding(crate::specs::Svg::front_heads))]
fn push_each_front_head(out: &mut Vec<u8>, left: u128) -> Result<(), AllocError>
    ensures { OnOk result (out.new.items ≡ out.old.items ++ front_heads left) }
{
    push_words(out, b"head number", 64, 24, b"MOVE")?;
    push_words(out, b"head number", 104, 24, b"UNIT")?;
    push_words(out, b"head", left, 24, b"EVENTS")?;
    Ok(())
}

#[tactic(auto, unfolding(crate::specs::Svg::back_heads))]
fn push_back_heads(out: &mut Vec<u8>, left: u128) -> Result<(), AllocError>
    requires { left < 2 ^ 90 }
    ensures { OnOk result (out.new.items ≡ out.old.items ++ back_heads left) }
{
    push_words(out, b"head number", left + 344, 24, b"TICKET")?;
    push_words(out, b"head", left + 360, 24, b"STATUS")?;
    push_words(out, b"head", left + 424, 24, b"STATEMENT")?;
    Ok(())
}

fn push_bar(out: &mut Vec<u8>, kind: &[u8], x: u128, y: u128, size: &[u8]) -> Result<(), AllocError>
    ensures { OnOk result (out.new.items ≡ out.old.items ++ (kind.now ++ place_text x y ++ size.now)) }
{
    out.extend_from_slice(kind)?;
    push_place(out, x, y)?;
    out.extend_from_slice(size)
}

#[tactic(auto, unfolding(crate::specs::Svg::begun_lane, crate::specs::Svg::own_lane, crate::specs::Svg::open_lane))]
fn push_lane(
    out: &mut Vec<u8>,
    begins: bool,
    is_own: bool,
    midway: bool,
    x: u128,
    y: u128,
) -> Result<(), AllocError>
    requires left { x < 2 ^ 90 }
    requires top { y < 2 ^ 90 }
    ensures { OnOk result (out.new.items ≡ out.old.items ++ lane_text begins is_own midway x y) }
{
    if is_own && begins {
        push_bar(
            out,
            b"<rect class='own'",
            x,
            y + 3,
            b" width='8' height='15'/>\n",
        )
    } else if is_own {
        push_bar(
            out,
            b"<rect class='own'",
            x,
            y,
            b" width='8' height='18'/>\n",
        )
    } else if midway {
        push_bar(
            out,
            b"<rect class='open'",
            x + 3,
            y,
            b" width='2' height='18'/>\n",
        )
    } else {
        Ok(())
    }
}

fn push_each_lane(
    out: &mut Vec<u8>,
    strip: &Strip,
    top: u128,
    lanes: &[bool],
) -> Result<(), AllocError>
    requires { top < 2 ^ 90 }
    ensures { OnOk result (out.new.items ≡ out.old.items ++ lanes_text strip.now top 1 lanes.now) }
{
    let mut n: u128 = 1;
    for midway in lanes {
        let is_own = n == strip.unit as u128;
        push_lane(out, strip.begins, is_own, *midway, 104 + 16 * n, top)?;
        n += 1;
    }
    Ok(())
}

fn push_letters(out: &mut Vec<u8>, left: u128, y: u128, letters: &[u8]) -> Result<(), AllocError>
    requires { left < 2 ^ 90 }
    ensures { OnOk result (out.new.items ≡ out.old.items ++ letters_text left y letters.now) }
{
    let mut x = left;
    for letter in letters {
        let one = [*letter];
        push_words(out, &one, x, y, &one)?;
        x += 9;
    }
    Ok(())
}

#[tactic(auto, unfolding(crate::specs::Svg::drawn_text))]
fn push_drawn(
    alloc: Global,
    out: &mut Vec<u8>,
    left: u128,
    y: u128,
    drawn: Option<Drawn>,
) -> Result<(), AllocError>
    requires { left < 2 ^ 90 }
    ensures { OnOk result (out.new.items ≡ out.old.items ++ drawn_text left y drawn) }
{
    match drawn {
        None => Ok(()),
        Some(drawn) => {
            push_words_of_number(out, b"number", left + 344, y, drawn.ticket as u128)?;
            let mut status = Vec::new(alloc);
            push_right_number(&mut status, b'0', 4, drawn.status as u64)?;
            let kind = [ticket_letter(drawn.status)];
            push_words(out, &kind, left + 360, y, status.as_slice())
        }
    }
}

#[tactic(auto, unfolding(crate::specs::Svg::front_text))]
fn push_front(
    alloc: Global,
    out: &mut Vec<u8>,
    left: u128,
    y: u128,
    strip: &Strip,
) -> Result<(), AllocError>
    requires { left < 2 ^ 90 }
    ensures { OnOk result (out.new.items ≡ out.old.items ++ front_text left y strip.now.unit strip.now.front) }
{
    match strip.front {
        None => Ok(()),
        Some(front) => {
            push_words_of_number(out, b"number", 64, y, front.first as u128)?;
            push_words_of_number(out, b"number", 104, y, strip.unit as u128)?;
            push_drawn(alloc, out, left, y, front.drawn)
        }
    }
}

fn letters_left(units: usize) -> u128
    ensures value { result ≡ letters_left units }
    ensures bound { result < 2 ^ 80 }
{
    120 + 16 * units as u128
}

#[tactic(auto, unfolding(crate::specs::Svg::strip_text))]
fn push_strip(
    alloc: Global,
    out: &mut Vec<u8>,
    left: u128,
    lanes: &[bool],
    top: u128,
    strip: &Strip,
) -> Result<(), AllocError>
    requires left { left < 2 ^ 90 }
    requires top { top < 2 ^ 90 }
    ensures { OnOk result (out.new.items ≡ out.old.items ++ strip_text left lanes.now top strip.now) }
{
    push_each_lane(out, strip, top, lanes)?;
    push_front(alloc, out, left, top + 13, strip)?;
    push_letters(out, left, top + 13, strip.letters.as_slice())?;
    push_words(
        out,
        b"statement",
        left + 424,
        top + 13,
        strip.words.as_slice(),
    )
}

fn push_each_strip(
    alloc: Global,
    out: &mut Vec<u8>,
    units: usize,
    strips: &[Strip],
) -> Result<(), AllocError>
    ensures { OnOk result (out.new.items ≡ out.old.items ++ strips_text (letters_left units) (replicate units false) 32 strips.now) }
{
    let left = letters_left(units);
    let mut lanes = Vec::from_elem(alloc, false, units)?;
    let mut top = 32;
    for strip in strips {
        push_strip(alloc, out, left, lanes.as_slice(), top, strip)?;
        pass(&mut lanes, strip);
        top += 18;
    }
    Ok(())
}

#[tactic(auto, unfolding(crate::specs::Svg::end_text))]
fn push_end(out: &mut Vec<u8>, top: u128) -> Result<(), AllocError>
    requires { top < 2 ^ 90 }
    ensures { OnOk result (out.new.items ≡ out.old.items ++ end_text top) }
{
    push_words(out, b"legend", 16, top + 22, legend())?;
    push_words(out, b"legend", 16, top + 40, second_legend())?;
    out.extend_from_slice(b"</svg>\n")
}

#[tactic(auto, unfolding(crate::specs::Svg::top_text))]
fn push_top(out: &mut Vec<u8>, scripts: &[Row<Row<u8>>], count: usize) -> Result<(), AllocError>
    ensures { OnOk result (out.new.items ≡ out.old.items ++ top_text scripts.now count) }
{
    let left = letters_left(scripts.len());
    push_size(out, left + 776, 18 * count as u128 + 84)?;
    out.extend_from_slice(style())?;
    push_each_front_head(out, left)?;
    push_back_heads(out, left)?;
    push_lane_heads(out, scripts)
}

/// The picture of these events as SVG, with a lane for each script. `scripts` has the text of each statement.
#[tactic(auto, unfolding(crate::specs::Svg::timeline_svg, crate::specs::Svg::drawn_strips))]
pub fn timeline_svg(
    alloc: Global,
    scripts: &[Row<Row<u8>>],
    events: &[Event],
) -> Result<Vec<u8>, AllocError>
    ensures { IfOk result (λ text. text.items ≡ timeline_svg scripts.now events.now) }
{
    let strips = strips_of(alloc, scripts, events)?;
    let mut out = Vec::new(alloc);
    push_top(&mut out, scripts, strips.len())?;
    push_each_strip(alloc, &mut out, scripts.len(), strips.as_slice())?;
    push_end(&mut out, 32 + 18 * strips.len() as u128)?;
    Ok(out)
}
