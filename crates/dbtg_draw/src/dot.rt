//! The diagram of a schema in the language of Graphviz. Names in a schema have only capital letters, digits and hyphens,
//! and pictures also have parentheses, so that no byte within quotation marks has to be escaped. Record types have
//! different names, and no name has a space, so that each box is called by its name, and each SYSTEM by its set.

ghost use Rattle.dbtg_draw.specs.Dot.{area_cell, area_cells, cell_text, colour_number, colour_text, dot_text, fill_text, front_text, graph_text, heading_text, item_line, left_line, legend_text, letters, letters_row, letters_text, location_text, member_edge, member_label, owner_name, quoted, record_label, record_node, row_text, set_text, style_text, system_name, system_node, table_text, title_text, words_end, words_text};
ghost use Rattle.dbtg_draw.specs.Lines.{area_name};
ghost use Rattle.std.specs.List.{flat_map};
ghost use Rattle.std.specs.Prelude.{◌≡◌, ◌++◌, ◌≤◌, IfOk, OnOk, length, option_map};

use crate::lines::{area_name, push_calc, push_item, push_member, push_order, type_name};
use crate::print::{push_all, push_number};
use dbtg_schema::{Area, AreaNo, Calc, Item, Member, RecordNo, RecordType, Schema, SetType};
use std::alloc::{AllocError, Global};

#[tactic(auto, unfolding(crate::specs::Dot::quoted))]
fn push_quoted(out: &mut Vec<u8>, name: &[u8]) -> Result<(), AllocError>
    ensures { OnOk result (out.new.items ≡ out.old.items ++ quoted name.now) }
{
    push_all(out, &[b"\"", name, b"\""])
}

#[tactic(auto, unfolding(crate::specs::Dot::front_text))]
fn push_front(out: &mut Vec<u8>, name: &[u8]) -> Result<(), AllocError>
    ensures { OnOk result (out.new.items ≡ out.old.items ++ front_text name.now) }
{
    out.extend_from_slice(b"digraph ")?;
    push_quoted(out, name)?;
    out.extend_from_slice(b" {\n")
}

#[tactic(auto, unfolding(crate::specs::Dot::graph_text))]
fn push_graph(out: &mut Vec<u8>) -> Result<(), AllocError>
    ensures { OnOk result (out.new.items ≡ out.old.items ++ graph_text) }
{
    out.extend_from_slice(
        b"graph [rankdir=TB labelloc=t bgcolor=white nodesep=0.2 ranksep=0.35 splines=polyline fontname=monospace fontsize=10]\n",
    )
}

#[tactic(auto, unfolding(crate::specs::Dot::style_text))]
fn push_style(out: &mut Vec<u8>) -> Result<(), AllocError>
    ensures { OnOk result (out.new.items ≡ out.old.items ++ style_text) }
{
    out.extend_from_slice(
        b"node [shape=record style=filled colorscheme=pastel28 height=0 margin=\"0.06,0.03\" fontname=monospace fontsize=10]\nedge [arrowsize=0.7 fontname=monospace fontsize=10]\n",
    )
}

#[tactic(auto, unfolding(crate::specs::Dot::colour_number))]
fn colour_number(area: u8) -> u64
    ensures { result ≡ colour_number area }
{
    area as u64 + 1
}

#[tactic(auto, unfolding(crate::specs::Dot::colour_text))]
fn push_colour(out: &mut Vec<u8>, area: u8) -> Result<(), AllocError>
    ensures { OnOk result (out.new.items ≡ out.old.items ++ colour_text area) }
{
    push_number(out, colour_number(area))
}

#[tactic(auto, unfolding(crate::specs::Dot::cell_text))]
fn push_cell(out: &mut Vec<u8>) -> Result<(), AllocError>
    ensures { OnOk result (out.new.items ≡ out.old.items ++ cell_text) }
{
    out.extend_from_slice(b"<td bgcolor=\"/pastel28/")
}

#[tactic(auto, unfolding(crate::specs::Dot::area_cell))]
fn push_area(out: &mut Vec<u8>, name: &[u8], area: u8) -> Result<(), AllocError>
    ensures { OnOk result (out.new.items ≡ out.old.items ++ area_cell name.now area) }
{
    push_cell(out)?;
    push_colour(out, area)?;
    push_all(out, &[b"\">", name, b"</td>\n"])
}

fn push_each_area(out: &mut Vec<u8>, areas: &[Area]) -> Result<(), AllocError>
    requires { length areas.now ≤ 8 }
    ensures { OnOk result (out.new.items ≡ out.old.items ++ area_cells 0 areas.now) }
{
    for (i, area) in areas.iter().enumerate() {
        push_area(out, area.name.as_slice(), i as u8)?;
    }
    Ok(())
}

#[tactic(auto, unfolding(crate::specs::Dot::table_text))]
fn push_table(out: &mut Vec<u8>) -> Result<(), AllocError>
    ensures { OnOk result (out.new.items ≡ out.old.items ++ table_text) }
{
    out.extend_from_slice(
        b"label=<<table border=\"0\" cellborder=\"1\" cellspacing=\"4\">\n<tr><td border=\"0\" colspan=\"",
    )
}

#[tactic(auto, unfolding(crate::specs::Dot::row_text))]
fn push_row(out: &mut Vec<u8>) -> Result<(), AllocError>
    ensures { OnOk result (out.new.items ≡ out.old.items ++ row_text) }
{
    out.extend_from_slice(b"</b></td></tr>\n<tr>\n")
}

#[tactic(auto, unfolding(crate::specs::Dot::heading_text))]
fn push_heading(out: &mut Vec<u8>, name: &[u8]) -> Result<(), AllocError>
    ensures { OnOk result (out.new.items ≡ out.old.items ++ heading_text name.now) }
{
    push_all(out, &[b"\"><b>SCHEMA ", name])
}

#[tactic(auto, unfolding(crate::specs::Dot::title_text))]
fn push_title(out: &mut Vec<u8>, name: &[u8], areas: usize) -> Result<(), AllocError>
    ensures { OnOk result (out.new.items ≡ out.old.items ++ title_text name.now areas) }
{
    push_table(out)?;
    push_number(out, areas as u64)?;
    push_heading(out, name)?;
    push_row(out)
}

#[tactic(auto, unfolding(crate::specs::Dot::letters_row))]
fn push_letters_row(out: &mut Vec<u8>) -> Result<(), AllocError>
    ensures { OnOk result (out.new.items ≡ out.old.items ++ letters_row) }
{
    out.extend_from_slice(b"</tr>\n<tr><td border=\"0\" colspan=\"")
}

#[tactic(auto, unfolding(crate::specs::Dot::letters_text))]
fn push_letters_text(out: &mut Vec<u8>) -> Result<(), AllocError>
    ensures { OnOk result (out.new.items ≡ out.old.items ++ letters_text) }
{
    out.extend_from_slice(
        b"\" balign=\"left\">MA, MM, OA, OM: MANDATORY or OPTIONAL, AUTOMATIC or MANUAL<br/>CALC .. DA, DN: DUPLICATES ALLOWED, NOT ALLOWED<br/>SORTED .. DF, DL, DN: DUPLICATES FIRST, LAST, NOT ALLOWED<br/></td></tr>\n</table>>\n",
    )
}

#[tactic(auto, unfolding(crate::specs::Dot::letters))]
fn push_letters(out: &mut Vec<u8>, areas: usize) -> Result<(), AllocError>
    ensures { OnOk result (out.new.items ≡ out.old.items ++ letters areas) }
{
    push_letters_row(out)?;
    push_number(out, areas as u64)?;
    push_letters_text(out)
}

#[tactic(auto, unfolding(crate::specs::Dot::legend_text))]
fn push_legend(out: &mut Vec<u8>, schema: &Schema) -> Result<(), AllocError>
    ensures { OnOk result (out.new.items ≡ out.old.items ++ legend_text schema.now) }
{
    push_title(out, schema.name(), schema.areas().len())?;
    push_each_area(out, schema.areas())?;
    push_letters(out, schema.areas().len())
}

#[tactic(auto, unfolding(crate::specs::Dot::left_line))]
fn push_location(out: &mut Vec<u8>, items: &[Item], calc: Option<&Calc>) -> Result<(), AllocError>
    ensures { OnOk result (out.new.items ≡ out.old.items ++ location_text items.now (option_map (λ c. c.now) calc.entry)) }
{
    match calc {
        None => Ok(()),
        Some(calc) => {
            push_calc(out, items, calc)?;
            out.extend_from_slice(b"\\l")
        }
    }
}

#[tactic(auto, unfolding(crate::specs::Dot::left_line))]
fn push_area_line(out: &mut Vec<u8>, schema: &Schema, area: AreaNo) -> Result<(), AllocError>
    ensures { OnOk result (out.new.items ≡ out.old.items ++ left_line (area_name schema.now area)) }
{
    push_all(out, &[area_name(schema, area), b"\\l"])
}

#[tactic(auto, unfolding(crate::specs::Dot::item_line, crate::specs::Dot::left_line))]
fn push_item_line(out: &mut Vec<u8>, item: &Item) -> Result<(), AllocError>
    ensures { OnOk result (out.new.items ≡ out.old.items ++ item_line item.now) }
{
    push_item(out, item)?;
    out.extend_from_slice(b"\\l")
}

fn push_each_item(out: &mut Vec<u8>, items: &[Item]) -> Result<(), AllocError>
    ensures { OnOk result (out.new.items ≡ out.old.items ++ flat_map item_line items.now) }
{
    for item in items {
        push_item_line(out, item)?;
    }
    Ok(())
}

#[tactic(auto, unfolding(crate::specs::Dot::record_label, crate::specs::Dot::quoted))]
fn push_record_label(
    out: &mut Vec<u8>,
    schema: &Schema,
    record: &RecordType,
) -> Result<(), AllocError>
    ensures { OnOk result (out.new.items ≡ out.old.items ++ record_label schema.now record.now) }
{
    push_all(out, &[b"\"{", record.name.as_slice(), b"|"])?;
    push_location(out, record.items.as_slice(), record.calc.as_ref())?;
    push_area_line(out, schema, record.area)?;
    out.extend_from_slice(b"|")?;
    push_each_item(out, record.items.as_slice())?;
    out.extend_from_slice(b"}\"")
}

#[tactic(auto, unfolding(crate::specs::Dot::fill_text))]
fn push_fill(out: &mut Vec<u8>, area: u8) -> Result<(), AllocError>
    ensures { OnOk result (out.new.items ≡ out.old.items ++ fill_text area) }
{
    out.extend_from_slice(b" [fillcolor=")?;
    push_colour(out, area)
}

#[tactic(auto, unfolding(crate::specs::Dot::record_node))]
fn push_record(out: &mut Vec<u8>, schema: &Schema, record: &RecordType) -> Result<(), AllocError>
    ensures { OnOk result (out.new.items ≡ out.old.items ++ record_node schema.now record.now) }
{
    push_quoted(out, record.name.as_slice())?;
    push_fill(out, record.area.index())?;
    out.extend_from_slice(b" label=")?;
    push_record_label(out, schema, record)?;
    out.extend_from_slice(b"]\n")
}

fn push_each_record(
    out: &mut Vec<u8>,
    schema: &Schema,
    records: &[RecordType],
) -> Result<(), AllocError>
    ensures { OnOk result (out.new.items ≡ out.old.items ++ flat_map (record_node schema.now) records.now) }
{
    for record in records {
        push_record(out, schema, record)?;
    }
    Ok(())
}

#[tactic(auto, unfolding(crate::specs::Dot::quoted, crate::specs::Dot::system_name))]
fn push_quoted_system(out: &mut Vec<u8>, set: &SetType) -> Result<(), AllocError>
    ensures { OnOk result (out.new.items ≡ out.old.items ++ quoted (system_name set.now)) }
{
    push_all(out, &[b"\"SYSTEM ", set.name.as_slice(), b"\""])
}

fn push_system(out: &mut Vec<u8>, set: &SetType, owner: Option<RecordNo>) -> Result<(), AllocError>
    ensures { OnOk result (out.new.items ≡ out.old.items ++ system_node set.now owner) }
{
    match owner {
        None => {
            push_quoted_system(out, set)?;
            out.extend_from_slice(b" [shape=plaintext style=\"\" width=0 label=SYSTEM]\n")
        }
        Some(_) => Ok(()),
    }
}

fn push_owner(
    out: &mut Vec<u8>,
    schema: &Schema,
    set: &SetType,
    owner: Option<RecordNo>,
) -> Result<(), AllocError>
    ensures { OnOk result (out.new.items ≡ out.old.items ++ quoted (owner_name schema.now set.now owner)) }
{
    match owner {
        None => push_quoted_system(out, set),
        Some(rtype) => push_quoted(out, type_name(schema, rtype)),
    }
}

#[tactic(auto, unfolding(crate::specs::Dot::words_text))]
fn push_words(out: &mut Vec<u8>) -> Result<(), AllocError>
    ensures { OnOk result (out.new.items ≡ out.old.items ++ words_text) }
{
    out.extend_from_slice(b"<<table border=\"0\"><tr><td balign=\"left\">")
}

#[tactic(auto, unfolding(crate::specs::Dot::words_end))]
fn push_words_end(out: &mut Vec<u8>) -> Result<(), AllocError>
    ensures { OnOk result (out.new.items ≡ out.old.items ++ words_end) }
{
    out.extend_from_slice(b"<br/></td></tr></table>>")
}

#[tactic(auto, unfolding(crate::specs::Dot::member_label))]
fn push_label(
    out: &mut Vec<u8>,
    schema: &Schema,
    set: &SetType,
    member: &Member,
) -> Result<(), AllocError>
    ensures { OnOk result (out.new.items ≡ out.old.items ++ member_label schema.now set.now member.now) }
{
    push_words(out)?;
    push_member(out, set, member)?;
    out.extend_from_slice(b"<br/>")?;
    push_order(out, schema, set.order, member)?;
    push_words_end(out)
}

#[tactic(auto, unfolding(crate::specs::Dot::member_edge))]
fn push_arrow(
    out: &mut Vec<u8>,
    schema: &Schema,
    set: &SetType,
    member: &Member,
) -> Result<(), AllocError>
    ensures { OnOk result (out.new.items ≡ out.old.items ++ member_edge schema.now set.now member.now) }
{
    push_owner(out, schema, set, set.owner)?;
    out.extend_from_slice(b" -> ")?;
    push_quoted(out, type_name(schema, member.rtype))?;
    out.extend_from_slice(b" [label=")?;
    push_label(out, schema, set, member)?;
    out.extend_from_slice(b"]\n")
}

fn push_each_arrow(
    out: &mut Vec<u8>,
    schema: &Schema,
    set: &SetType,
    members: &[Member],
) -> Result<(), AllocError>
    ensures { OnOk result (out.new.items ≡ out.old.items ++ flat_map (member_edge schema.now set.now) members.now) }
{
    for member in members {
        push_arrow(out, schema, set, member)?;
    }
    Ok(())
}

#[tactic(auto, unfolding(crate::specs::Dot::set_text))]
fn push_set(out: &mut Vec<u8>, schema: &Schema, set: &SetType) -> Result<(), AllocError>
    ensures { OnOk result (out.new.items ≡ out.old.items ++ set_text schema.now set.now) }
{
    push_system(out, set, set.owner)?;
    push_each_arrow(out, schema, set, set.members.as_slice())
}

fn push_each_set(out: &mut Vec<u8>, schema: &Schema, sets: &[SetType]) -> Result<(), AllocError>
    ensures { OnOk result (out.new.items ≡ out.old.items ++ flat_map (set_text schema.now) sets.now) }
{
    for set in sets {
        push_set(out, schema, set)?;
    }
    Ok(())
}

#[tactic(auto, unfolding(crate::specs::Dot::dot_text))]
/// The diagram of a schema: the title over the areas with their colours, a box for each record type, and for each set an arrow from
/// the owner, or from SYSTEM, to each member.
pub fn dot_text(alloc: Global, schema: &Schema) -> Result<Vec<u8>, AllocError>
    ensures { IfOk result (λ text. text.items ≡ dot_text schema.now) }
{
    let mut out = Vec::new(alloc);
    push_front(&mut out, schema.name())?;
    push_graph(&mut out)?;
    push_style(&mut out)?;
    push_legend(&mut out, schema)?;
    push_each_record(&mut out, schema, schema.types())?;
    push_each_set(&mut out, schema, schema.sets())?;
    out.extend_from_slice(b"}\n")?;
    Ok(out)
}
