//! Results in brief: which earlier one a result is like, or how its text differs from the first, line by line.
ghost use Rattle.std.specs.Prelude.{◌≡◌, ◌++◌, ◌∷◌, [], OnOk, position};
ghost use Rattle.std.specs.List.{list_all};
ghost use Rattle.dbtg_script.specs.Lines.{lines};
ghost use Rattle.dbtg_states.specs.Brief.{brief_text, difference_text, has_fact, like, lines_apart, marked, none_before, same_facts, shown_behind};
ghost use Rattle.dbtg_states.specs.Among.{among};

use dbtg_schema::Row;
use dbtg_script::{Lines, push_number};
use std::alloc::{AllocError, Global};

/// What tells a result from others: its text, and what it leaves behind as facts in which records are named by their STOREs.
#[derive(Drop)]
pub struct Told {
    pub text: Row<u8>,
    pub named: Row<Row<u64>>,
}

// One of the text's lines is this.
fn has_line(text: &[u8], line: &[u8]) -> bool
    ensures { result ≡ among (lines text.now) line.now }
{
    let mut left = Lines { rest: text };
    while let Some(other) = left.next() {
        if other == line {
            return true;
        }
    }
    false
}

fn push_marked(out: &mut Vec<u8>, mark: &[u8], line: &[u8]) -> Result<(), AllocError>
    ensures { OnOk result (out.new.items ≡ out.old.items ++ marked mark.now line.now) }
{
    out.extend_from_slice(mark)?;
    out.extend_from_slice(line)?;
    out.push(b'\n')?;
    Ok(())
}

// The lines of a text that another does not have, each after the mark.
fn push_lines_apart(
    out: &mut Vec<u8>,
    mark: &[u8],
    text: &[u8],
    other: &[u8],
) -> Result<(), AllocError>
    ensures { OnOk result (out.new.items ≡ out.old.items ++ lines_apart mark.now text.now other.now) }
{
    let mut left = Lines { rest: text };
    while let Some(line) = left.next() {
        if !has_line(other, line) {
            push_marked(out, mark, line)?;
        }
    }
    Ok(())
}

// How a text differs from the first: the lines that only the first has, and then those that only the text has.
fn push_difference(out: &mut Vec<u8>, first: &[u8], text: &[u8]) -> Result<(), AllocError>
    ensures { OnOk result (out.new.items ≡ out.old.items ++ difference_text first.now text.now) }
{
    push_lines_apart(out, b"- ", first, text)?;
    push_lines_apart(out, b"+ ", text, first)?;
    Ok(())
}

// One of these facts is this.
fn has_fact(facts: &[Row<u64>], fact: &[u64]) -> bool
    ensures { result ≡ has_fact facts.now fact.now }
{
    facts.iter().any(|other| other.as_slice() == fact)
}

// Each of these facts is one of the others.
fn has_each_fact(others: &[Row<u64>], facts: &[Row<u64>]) -> bool
    ensures { result ≡ list_all (has_fact others.now) facts.now }
{
    facts.iter().all(|fact| has_fact(others, fact.as_slice()))
}

// Two results have the same facts.
fn same_facts(facts: &[Row<u64>], others: &[Row<u64>]) -> bool
    ensures { result ≡ same_facts facts.now others.now }
{
    has_each_fact(others, facts) && has_each_fact(facts, others)
}

// How many stand before the first that has the same facts, if one has.
fn place_of_like(before: &[Told], told: &Told) -> Option<usize>
    ensures { result ≡ position (λ other. same_facts other.named told.now.named) before.now }
{
    before.iter().position(|other| same_facts(other.named.as_slice(), told.named.as_slice()))
}

// The number of the first that has the same facts.
fn like(before: &[Told], told: &Told) -> Option<u64>
    ensures { result ≡ like before.now told.now }
{
    match place_of_like(before, told) {
        Some(place) => Some(place as u64 + 1),
        None => None,
    }
}

// The line that a result is like another, or how it differs from the first.
fn push_brief(
    out: &mut Vec<u8>,
    like: Option<u64>,
    first: &[u8],
    text: &[u8],
) -> Result<(), AllocError>
    ensures { OnOk result (out.new.items ≡ out.old.items ++ brief_text like first.now text.now) }
{
    let Some(number) = like else {
        return push_difference(out, first, text);
    };
    out.extend_from_slice(b"like ")?;
    push_number(out, number)?;
    out.extend_from_slice(b" but for numbers\n")
}

// What is shown of a result after others; the first is shown whole.
fn push_behind(
    out: &mut Vec<u8>,
    before: &[Told],
    told: &Told,
    whole: &[u8],
) -> Result<(), AllocError>
    ensures { OnOk result (out.new.items ≡ out.old.items ++ shown_behind before.now told.now whole.now) }
{
    match before.first() {
        None => out.extend_from_slice(whole),
        Some(first) => push_brief(
            out,
            like(before, told),
            first.text.as_slice(),
            told.text.as_slice(),
        ),
    }
}

/// Before the first result there is none, if results are shown in brief.
pub fn none_before(alloc: Global, brief: bool) -> Option<Row<Told>>
    ensures { result ≡ none_before brief }
{
    if brief {
        Some(Row::of(Vec::new(alloc)))
    } else {
        None
    }
}

/// Shows a result after others, the first whole, and appends it to them.
pub fn push_shown(
    out: &mut Vec<u8>,
    before: &mut Row<Told>,
    told: Told,
    whole: &[u8],
) -> Result<(), AllocError>
    ensures text { OnOk result (out.new.items ≡ out.old.items ++ shown_behind before.old told whole.now) }
    ensures behind { OnOk result (before.new ≡ before.old ++ told ∷ []) }
{
    push_behind(out, before.as_slice(), &told, whole)?;
    before.push(told)?;
    Ok(())
}
