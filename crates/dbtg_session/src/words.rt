//! What is current of a unit, in words, a line each: of the run-unit, of each record type, set and area; and what it keeps.
ghost use Rattle.std.specs.List.{find, flat_map, list_any, position_from};
ghost use Rattle.std.specs.Prelude.{◌≡◌, ◌+◌, ◌++◌, ◌∷◌, ◌==◌, ◌&&◌, ◌≤◌, [], IfOk, OnOk, codes, decimal, if◌then◌else◌, length, option_map, slice_get, unwrap_or};
ghost use Rattle.dbtg_schema.specs.Lookups.{at};
ghost use Rattle.dbtg_cells.specs.Keys.{key_eq, owner_eq};
ghost use Rattle.dbtg_unit.specs.Database.State.Units.{place_in};
ghost use Rattle.dbtg_session.specs.UnitWords.{among_words, area_lines, at_words, current_words, key_words, kept_line, kept_lines, kept_words, line_of, list_of, list_words, many_words, member_words, open_words, ordinal, ordinal_end, owner_words, place_words, set_lines, type_lines, unit_words};

use dbtg_cells::{DbKey, Mode, Owner, key_eq, owner_eq};
use dbtg_schema::{Area, MOST_SETS, RecordType, Row, Schema, SetNo, SetType};
use dbtg_script::{push_key, push_mode, push_number};
use dbtg_unit::{Image, Place, Unit, entry_at};
use std::alloc::{AllocError, Global};

fn ordinal_end(n: u64) -> &'static [u8]
    ensures { result.now ≡ ordinal_end n }
{
    if n / 10 % 10 == 1 {
        return b"th";
    }
    match n % 10 {
        1 => b"st",
        2 => b"nd",
        3 => b"rd",
        _ => b"th",
    }
}

fn push_ordinal(out: &mut Vec<u8>, n: u64) -> Result<(), AllocError>
    ensures { OnOk result (out.new.items ≡ out.old.items ++ ordinal n) }
{
    push_number(out, n)?;
    out.extend_from_slice(ordinal_end(n))
}

// The place of a key in a list, from 1.
fn place_among(list: &[DbKey], key: &DbKey) -> Option<usize>
    ensures { result ≡ position_from (key_eq key.now) 1 list.now }
{
    for (i, member) in list.iter().enumerate() {
        if key_eq(*key, *member) {
            return Some(i + 1);
        }
    }
    None
}

fn push_among(out: &mut Vec<u8>, place: Option<usize>, many: usize) -> Result<(), AllocError>
    ensures { OnOk result (out.new.items ≡ out.old.items ++ among_words place many) }
{
    match place {
        None => out.extend_from_slice(b", position lost: it is not in the list of "),
        Some(place) => {
            out.extend_from_slice(b", ")?;
            push_ordinal(out, place as u64)?;
            push_with_number(out, b" of ", many as u64)?;
            out.extend_from_slice(b" in the list of ")
        }
    }
}

fn push_member(out: &mut Vec<u8>, key: &DbKey, list: Option<&Row<DbKey>>) -> Result<(), AllocError>
    ensures { OnOk result (out.new.items ≡ out.old.items ++ member_words key.now (option_map (λ l. l.now) list.entry)) }
{
    match list {
        None => out.extend_from_slice(b", position lost: there is no list of "),
        Some(list) => {
            let list = list.as_slice();
            push_among(out, place_among(list, key), list.len())
        }
    }
}

fn push_with_number(out: &mut Vec<u8>, words: &[u8], n: u64) -> Result<(), AllocError>
    ensures { OnOk result (out.new.items ≡ out.old.items ++ (words.now ++ decimal n)) }
{
    out.extend_from_slice(words)?;
    push_number(out, n)
}

fn push_many(out: &mut Vec<u8>, many: usize) -> Result<(), AllocError>
    ensures { OnOk result (out.new.items ≡ out.old.items ++ many_words many) }
{
    if many == 0 {
        return out.extend_from_slice(b"an empty list");
    }
    push_with_number(out, b"a list of ", many as u64)
}

fn push_list(out: &mut Vec<u8>, list: Option<&Row<DbKey>>) -> Result<(), AllocError>
    ensures { OnOk result (out.new.items ≡ out.old.items ++ list_words (option_map (λ l. l.now) list.entry)) }
{
    match list {
        None => out.extend_from_slice(b"no list"),
        Some(list) => push_many(out, list.as_slice().len()),
    }
}

fn push_owned(out: &mut Vec<u8>, words: &[u8], list: Option<&Row<DbKey>>) -> Result<(), AllocError>
    ensures { OnOk result (out.new.items ≡ out.old.items ++ (words.now ++ list_words (option_map (λ l. l.now) list.entry))) }
{
    out.extend_from_slice(words)?;
    push_list(out, list)
}

fn push_open(out: &mut Vec<u8>, mode: Option<Mode>) -> Result<(), AllocError>
    ensures { OnOk result (out.new.items ≡ out.old.items ++ open_words mode) }
{
    match mode {
        None => out.extend_from_slice(b"; not open"),
        Some(mode) => {
            out.extend_from_slice(b"; open for ")?;
            push_mode(out, mode)
        }
    }
}

// The start of a line, up to its colon.
fn push_front(out: &mut Vec<u8>, what: &[u8], name: &[u8]) -> Result<(), AllocError>
    ensures { OnOk result (out.new.items ≡ out.old.items ++ what.now ++ name.now ++ codes ": ") }
{
    out.extend_from_slice(what)?;
    out.extend_from_slice(name)?;
    out.extend_from_slice(b": ")
}

// The list of an owner, among those of a set.
fn list_among<'b>(lists: &'b [(Owner, Row<DbKey>)], owner: &Owner) -> Option<&'b Row<DbKey>>
    ensures { option_map (λ l. l.now) result ≡ option_map (λ l. l.1) (find (λ l. owner_eq owner.now l.0) lists.now) }
{
    for list in lists {
        if owner_eq(*owner, list.0) {
            return Some(&list.1);
        }
    }
    None
}

/// What is needed to describe units: the schema, and the image of the database.
#[derive(Clone, Copy)]
struct SchemaAndImage<'a> {
    schema: &'a Schema,
    image: &'a Image,
}

impl<'a> SchemaAndImage<'a> {
    fn is_stored(&self, key: &DbKey) -> bool
        ensures { result ≡ list_any (λ r. key_eq key.now r.0) self.now.image.now.records }
    {
        let image = self.image;
        let mut records = image.records.as_slice().iter();
        records.any(|record| key_eq(*key, record.0))
    }

    fn is_at_version(&self, kept: &(DbKey, u64)) -> bool
        ensures { result ≡ list_any (λ v. key_eq kept.now.0 v.0 && kept.now.1 == v.1) self.now.image.now.versions }
    {
        let image = self.image;
        let mut versions = image.versions.as_slice().iter();
        versions.any(|version| key_eq(kept.0, version.0) && kept.1 == version.1)
    }

    fn list_of(&self, set: u8, owner: &Owner) -> Option<&'a Row<DbKey>>
        ensures { option_map (λ l. l.now) result ≡ list_of self.now.image.now set owner.now }
    {
        let image = self.image;
        match image.lists.as_slice().get(set as usize) {
            None => None,
            Some(lists) => list_among(lists.as_slice(), owner),
        }
    }

    fn push_key(&self, out: &mut Vec<u8>, key: &DbKey) -> Result<(), AllocError>
        ensures { OnOk result (out.new.items ≡ out.old.items ++ key_words self.now.schema.now self.now.image.now key.now) }
    {
        push_key(out, self.schema, key)?;
        if self.is_stored(key) {
            return Ok(());
        }
        out.extend_from_slice(b" (deleted)")
    }

    fn push_current(&self, out: &mut Vec<u8>, current: Option<DbKey>) -> Result<(), AllocError>
        ensures { OnOk result (out.new.items ≡ out.old.items ++ current_words self.now.schema.now self.now.image.now current) }
    {
        match current {
            None => out.extend_from_slice(b"none"),
            Some(key) => self.push_key(out, &key),
        }
    }

    fn push_owner(&self, out: &mut Vec<u8>, owner: &Owner) -> Result<(), AllocError>
        ensures { OnOk result (out.new.items ≡ out.old.items ++ owner_words self.now.schema.now self.now.image.now owner.now) }
    {
        match owner {
            Owner::System => out.extend_from_slice(b"SYSTEM"),
            Owner::Rec(key) => self.push_key(out, key),
        }
    }

    // Where a unit is in a set: at the owner or at a member.
    fn push_at(
        &self,
        out: &mut Vec<u8>,
        set: u8,
        owner: &Owner,
        at: Option<DbKey>,
    ) -> Result<(), AllocError>
        ensures { OnOk result (out.new.items ≡ out.old.items ++ at_words self.now.schema.now self.now.image.now set owner.now at) }
    {
        let list = self.list_of(set, owner);
        match at {
            None => {
                self.push_owner(out, owner)?;
                push_owned(out, b", the owner of ", list)
            }
            Some(key) => {
                self.push_key(out, &key)?;
                push_member(out, &key, list)?;
                self.push_owner(out, owner)
            }
        }
    }

    fn push_place(&self, out: &mut Vec<u8>, set: u8, place: Option<Place>) -> Result<(), AllocError>
        ensures { OnOk result (out.new.items ≡ out.old.items ++ place_words self.now.schema.now self.now.image.now set place) }
    {
        match place {
            None => out.extend_from_slice(b"none"),
            Some(place) => self.push_at(out, set, &place.owner, place.at),
        }
    }

    fn push_kept(&self, out: &mut Vec<u8>, kept: &(DbKey, u64)) -> Result<(), AllocError>
        ensures { OnOk result (out.new.items ≡ out.old.items ++ kept_words self.now.schema.now self.now.image.now kept.now) }
    {
        self.push_key(out, &kept.0)?;
        push_with_number(out, b", version ", kept.1)?;
        if self.is_at_version(kept) {
            return Ok(());
        }
        out.extend_from_slice(b", changed since")
    }

    fn push_current_line(
        &self,
        out: &mut Vec<u8>,
        what: &[u8],
        name: &[u8],
        current: Option<DbKey>,
    ) -> Result<(), AllocError>
        ensures { OnOk result (out.new.items ≡ out.old.items ++ line_of what.now name.now (current_words self.now.schema.now self.now.image.now current)) }
    {
        push_front(out, what, name)?;
        self.push_current(out, current)?;
        out.extend_from_slice(b"\n")
    }

    fn push_set_line(
        &self,
        out: &mut Vec<u8>,
        unit: &Unit,
        number: u8,
        name: &[u8],
    ) -> Result<(), AllocError>
        ensures { OnOk result (out.new.items ≡ out.old.items ++ line_of (codes "set ") name.now (place_words self.now.schema.now self.now.image.now number (place_in self.now.schema.now unit.now number))) }
    {
        push_front(out, b"set ", name)?;
        let place = unit.place_in(self.schema, SetNo::new(number));
        self.push_place(out, number, place)?;
        out.extend_from_slice(b"\n")
    }

    fn push_area_line(
        &self,
        out: &mut Vec<u8>,
        unit: &Unit,
        number: usize,
        name: &[u8],
    ) -> Result<(), AllocError>
        ensures { OnOk result (out.new.items ≡ out.old.items ++ line_of (codes "area ") name.now (current_words self.now.schema.now self.now.image.now (at unit.now.currency.areas number) ++ open_words (at unit.now.modes number))) }
    {
        push_front(out, b"area ", name)?;
        self.push_current(out, entry_at(unit.currency.areas.as_slice(), number))?;
        push_open(out, entry_at(unit.modes.as_slice(), number))?;
        out.extend_from_slice(b"\n")
    }

    fn push_types(
        &self,
        out: &mut Vec<u8>,
        unit: &Unit,
        types: &[RecordType],
    ) -> Result<(), AllocError>
        ensures { OnOk result (out.new.items ≡ out.old.items ++ type_lines self.now.schema.now self.now.image.now unit.now 0 types.now) }
    {
        for (i, rtype) in types.iter().enumerate() {
            let current = entry_at(unit.currency.types.as_slice(), i);
            self.push_current_line(out, b"record ", rtype.name.as_slice(), current)?;
        }
        Ok(())
    }

    fn push_sets(&self, out: &mut Vec<u8>, unit: &Unit, sets: &[SetType]) -> Result<(), AllocError>
        requires { length sets.now ≤ MOST_SETS }
        ensures { OnOk result (out.new.items ≡ out.old.items ++ set_lines self.now.schema.now self.now.image.now unit.now 0 sets.now) }
    {
        for (i, set) in sets.iter().enumerate() {
            self.push_set_line(out, unit, i as u8, set.name.as_slice())?;
        }
        Ok(())
    }

    fn push_areas(&self, out: &mut Vec<u8>, unit: &Unit, areas: &[Area]) -> Result<(), AllocError>
        ensures { OnOk result (out.new.items ≡ out.old.items ++ area_lines self.now.schema.now self.now.image.now unit.now 0 areas.now) }
    {
        for (i, area) in areas.iter().enumerate() {
            self.push_area_line(out, unit, i, area.name.as_slice())?;
        }
        Ok(())
    }

    fn push_kept_line(&self, out: &mut Vec<u8>, kept: &(DbKey, u64)) -> Result<(), AllocError>
        ensures { OnOk result (out.new.items ≡ out.old.items ++ kept_line self.now.schema.now self.now.image.now kept.now) }
    {
        push_front(out, b"kept", b"")?;
        self.push_kept(out, kept)?;
        out.extend_from_slice(b"\n")
    }

    fn push_each_kept(&self, out: &mut Vec<u8>, kept: &[(DbKey, u64)]) -> Result<(), AllocError>
        ensures { OnOk result (out.new.items ≡ out.old.items ++ flat_map (kept_line self.now.schema.now self.now.image.now) kept.now) }
    {
        for one in kept {
            self.push_kept_line(out, one)?;
        }
        Ok(())
    }

    fn push_all_kept(&self, out: &mut Vec<u8>, kept: &[(DbKey, u64)]) -> Result<(), AllocError>
        ensures { OnOk result (out.new.items ≡ out.old.items ++ kept_lines self.now.schema.now self.now.image.now kept.now) }
    {
        match kept.split_first() {
            None => out.extend_from_slice(b"kept: nothing\n"),
            Some(_) => self.push_each_kept(out, kept),
        }
    }
}

/// What is current of a unit, and what it keeps, given the image of the database on which it works.
pub fn unit_words(
    alloc: Global,
    schema: &Schema,
    image: &Image,
    unit: &Unit,
) -> Result<Vec<u8>, AllocError>
    ensures { IfOk result (λ out. out.items ≡ unit_words schema.now image.now unit.now) }
{
    let view = SchemaAndImage { schema, image };
    let mut out = Vec::new(alloc);
    push_with_number(&mut out, b"UNIT ", unit.number as u64)?;
    out.extend_from_slice(b"\n")?;
    view.push_current_line(&mut out, b"run-unit", b"", unit.currency.run_unit)?;
    view.push_types(&mut out, unit, schema.types())?;
    view.push_sets(&mut out, unit, schema.sets())?;
    view.push_areas(&mut out, unit, schema.areas())?;
    view.push_all_kept(&mut out, unit.kept.as_slice())?;
    Ok(out)
}
