//! A schema, and what it says of its record types, sets and areas by their numbers. Look-ups take no memory.

ghost use Rattle.std.specs.Prelude.{◌≡◌, ◌==◌, ◌<◌, ◌≤◌, length, None, [], IfNone, IfOk, IfSome, MatchResult, filter, map, IfErr, OnOk, option_map, slice_get};
ghost use Rattle.dbtg_schema.specs.declared.fault.Cause.TheVariants.{TextTooLong};
ghost use Rattle.dbtg_schema.specs.declared.fault.SchemaFault.TheVariants.{Memory, Refused};
ghost use Rattle.dbtg_schema.specs.Inside.Connecting.{AreConnecting};
ghost use Rattle.dbtg_schema.specs.Inside.Erasing.{AreErased};
ghost use Rattle.dbtg_schema.specs.Lookups.{some_and};
ghost use Rattle.dbtg_schema.specs.Inside.SetsOfTypes.{AreSetsOf};
ghost use Rattle.dbtg_schema.specs.Texts.Words.{text_words};
ghost use Rattle.dbtg_schema.specs.Texts.Forms.{labels, Derives};
ghost use Rattle.dbtg_schema.specs.Texts.SchemaGrammar.{fits, schema};
ghost use Rattle.dbtg_schema.specs.Texts.SchemaFaults.{refusal};
ghost use Rattle.dbtg_schema.specs.Texts.SchemaLists.{schema_of};
ghost use Rattle.dbtg_schema.specs.Texts.Reading.{RefusedAtOnce, Refuses};
ghost use Rattle.dbtg_schema.specs.Inside.Reading.{WithinLimits};
ghost use Rattle.dbtg_schema.specs.Inside.Views.{views};
ghost use Rattle.dbtg_schema.specs.WellFormed.{IsSchema};
ghost use Rattle.dbtg_schema.specs.Sound.{IsSound};
ghost use Rattle.dbtg_schema.specs.Named.{IsNamed};
ghost use Rattle.std.specs.List.{find};
ghost use Rattle.dbtg_schema.specs.Structure.{place_of, owner_type, is_system, owns, member_clause, is_automatic, is_mandatory, area_of, calc_of, home, order_of, item_list, picture_of, automatic_sets, set_numbers};

use crate::build::{areas, sets, text_of, types};
use crate::connecting::{SetMarks, connects_in, sets_connecting_each};
use crate::entries::front;
use crate::erasing::{AreaSet, areas_of_each};
use crate::fault::SchemaFault;
use crate::index::SchemaIndex;
use crate::limits::{MOST_AREAS, MOST_ITEMS, MOST_RECORD_TYPES, MOST_SETS, SCHEMA_BYTES};
use crate::numbers::{AreaNo, ItemNo, RecordNo, SetNo};
use crate::queries::Labelled;
use crate::reader::read as read_words;
use crate::role::Role;
use crate::row::Row;
use crate::sets_of_type::{SetsOfType, sets_of_each};
use crate::shape::{Area, Calc, Class, Item, Member, Order, Picture, RecordType, SetType};
use std::alloc::{AllocError, Global};
use std::marker::Model;

/// The schema of a database: areas, record types and sets, each numbered from 0 in the order of the text.
pub struct Schema {
    name: Row<u8>,
    areas: Row<Area>,
    types: Row<RecordType>,
    sets: Row<SetType>,
    index: SchemaIndex,
    /// For each record type: the sets in which STORE connects its records, and those that it owns.
    sets_of_types: Row<SetsOfType>,
    /// For each record type: the sets in which STORE connects its records. Empty until they are computed.
    connecting: Row<SetMarks>,
    /// For each record type: the areas that a DELETE may reach. Empty until they are computed.
    erased: Row<AreaSet>,
}

impl Drop for Schema {
    fn drop(self) {
        let Self {
            name: _,
            areas: _,
            types: _,
            sets: _,
            index: _,
            sets_of_types: _,
            connecting: _,
            erased: _,
        } = self;
    }
}

impl Model for Schema {
    ghost use Rattle.dbtg_schema.specs.Lists.{Lists};

    ghost Value = { Lists };

    ghost use Rattle.dbtg_schema.specs.Inside.Connecting.{AreConnectingOfEach};
    ghost use Rattle.dbtg_schema.specs.Inside.Erasing.{AreErasedOfEach};
    ghost use Rattle.dbtg_schema.specs.Inside.NameIndexes.{IsSchemaIndex};
    ghost use Rattle.dbtg_schema.specs.Inside.SetsOfTypes.{AreSetsOfEach};
    ghost use Rattle.dbtg_schema.specs.WellFormed.{IsSchema};
    ghost use Rattle.std.specs.Prelude.{length};

    ghost view = { λ a. record { name = a.name; areas = a.areas; types = a.types; sets = a.sets } };

    ghost invariant = { λ a. IsSchema (record { name = a.name; areas = a.areas; types = a.types; sets = a.sets }) × IsSchemaIndex a.index a.areas a.types a.sets × AreErasedOfEach a.erased (record { name = a.name; areas = a.areas; types = a.types; sets = a.sets }) × AreConnectingOfEach a.connecting (record { name = a.name; areas = a.areas; types = a.types; sets = a.sets }) × AreSetsOfEach a.sets_of_types (length a.types) a.sets };
}

/// The schema, with the sets in which STORE connects and the areas of its deletions.
fn worked_out(alloc: Global, schema: Schema) -> Result<Schema, AllocError>
    ensures { IfOk result (λ s. s ≡ schema) }
{
    let mut schema = schema;
    schema.connecting = sets_connecting_each(alloc, &schema)?;
    schema.erased = areas_of_each(alloc, &schema)?;
    Ok(schema)
}

fn copy_areas(areas: &Row<Area>) -> Result<Row<Area>, AllocError>
    ensures { IfOk result (λ copy. copy ≡ areas.now) }
{
    areas.clone()
}

fn copy_types(types: &Row<RecordType>) -> Result<Row<RecordType>, AllocError>
    ensures { IfOk result (λ copy. copy ≡ types.now) }
{
    types.clone()
}

fn copy_sets(sets: &Row<SetType>) -> Result<Row<SetType>, AllocError>
    ensures { IfOk result (λ copy. copy ≡ sets.now) }
{
    sets.clone()
}

/// The schema with these lists, with the indexes of its names and what is computed from it.
fn of_lists(
    alloc: Global,
    name: Row<u8>,
    areas: Row<Area>,
    types: Row<RecordType>,
    sets: Row<SetType>,
) -> Result<Schema, AllocError>
    requires { IsSchema (record { name = name; areas = areas; types = types; sets = sets }) }
    ensures { IfOk result (λ s. s ≡ record { name = name; areas = areas; types = types; sets = sets }) }
{
    let sets_of_types = sets_of_each(alloc, sets.as_slice(), types.len() as u8)?;
    let index = SchemaIndex::of(alloc, areas.as_slice(), types.as_slice(), sets.as_slice())?;
    let schema = Schema {
        name,
        areas,
        types,
        sets,
        index,
        sets_of_types,
        connecting: Row::of(Vec::new(alloc)),
        erased: Row::of(Vec::new(alloc)),
    };
    worked_out(alloc, schema)
}

/// The schema that these words describe.
fn from_words(alloc: Global, words: &[Labelled]) -> Result<Schema, AllocError>
    requires limits { WithinLimits (views words.now) }
    requires sound { IsSchema (schema_of (views words.now)) }
    ensures { IfOk result (λ s. s ≡ schema_of (views words.now)) }
{
    let name = text_of(alloc, words, Role::SchemaName)?;
    let areas = areas(alloc, words)?;
    let types = types(alloc, &areas, front(words, Role::SetEntry))?;
    let sets = sets(alloc, &types, words)?;
    of_lists(alloc, name, Row::of(areas), Row::of(types), Row::of(sets))
}

impl Class {
    /// Does STORE connect a member of this class?
    pub fn is_automatic(self) -> bool
        ensures { result ≡ is_automatic self }
    {
        matches!(self, Class::MandatoryAutomatic | Class::OptionalAutomatic)
    }

    /// Is REMOVE refused for a member of this class?
    pub fn is_mandatory(self) -> bool
        ensures { result ≡ is_mandatory self }
    {
        matches!(self, Class::MandatoryAutomatic | Class::MandatoryManual)
    }
}

/// The first member clause of this record type.
pub fn clause_for(members: &[Member], rtype: RecordNo) -> Option<Member>
    ensures { result ≡ find (λ member. member.rtype == rtype) members.now }
{
    for member in members {
        if member.rtype.index() == rtype.index() {
            return Some(*member);
        }
    }
    None
}

impl Schema {
    /// Reads the text of a schema, from left to right. The text may hold any bytes. A text with faults is refused for
    /// its first fault; `Memory` is given if memory was refused before a fault was met, so never for a text
    /// that is too long or whose first word is at fault.
    pub fn read(alloc: Global, text: &[u8]) -> Result<Schema, SchemaFault>
        ensures accepted { OnOk result (refusal text.now ≡ None) }
        ensures lists { IfOk result (λ s. s ≡ schema_of (labels fits schema (text_words text.now))) }
        ensures refused { IfErr result (λ e. Refuses e (refusal text.now)) }
        ensures derived { OnOk result (Derives fits schema (labels fits schema (text_words text.now))) }
        ensures sound { IfOk result (λ s. IsSound s) }
        ensures named { IfOk result (λ s. IsNamed s) }
        ensures too_long { SCHEMA_BYTES < length text.now → MatchResult result (λ _. ⊥) (λ e. e ≡ Refused 1 TextTooLong) }
        ensures at_once { RefusedAtOnce text.now (MatchResult result (λ _. ⊥) (λ e. e ≡ Memory → ⊥)) }
    {
        let words = read_words(alloc, text)?;
        Ok(from_words(alloc, &words)?)
    }

    pub fn name(&self) -> &[u8]
        ensures { result.now ≡ self.now.name }
    {
        self.name.as_slice()
    }

    pub fn areas(&self) -> &[Area]
        ensures areas { result.now ≡ self.now.areas }
        ensures few { length result.now ≤ MOST_AREAS }
    {
        self.areas.as_slice()
    }

    pub fn types(&self) -> &[RecordType]
        ensures types { result.now ≡ self.now.types }
        ensures few { length result.now ≤ MOST_RECORD_TYPES }
    {
        self.types.as_slice()
    }

    pub fn sets(&self) -> &[SetType]
        ensures sets { result.now ≡ self.now.sets }
        ensures few { length result.now ≤ MOST_SETS }
    {
        self.sets.as_slice()
    }

    /// The sets in which STORE connects a record of this type, once they are computed.
    fn indexed_connecting(&self, rtype: RecordNo) -> Option<SetMarks>
        ensures { IfSome result (λ sets. AreConnecting self.now rtype sets) }
    {
        match self.connecting.get(rtype.index() as usize) {
            Some(sets) => Some(*sets),
            None => None,
        }
    }

    /// The areas that a DELETE of a record of this type may reach, once they are computed.
    pub(crate) fn indexed_areas(&self, rtype: RecordNo) -> Option<AreaSet>
        ensures { IfSome result (λ areas. AreErased self.now rtype areas) }
    {
        match self.erased.get(rtype.index() as usize) {
            Some(areas) => Some(*areas),
            None => None,
        }
    }

    /// What every schema satisfies: its limits, and that its numbers are in range.
    pub fn is_well_formed(&self)
        ensures { IsSchema self.now }
    {
        // The invariant says so.
        let _ = &self.name;
    }

    /// The number of the area with this name.
    pub fn area(&self, name: &[u8]) -> Option<AreaNo>
        ensures { result ≡ place_of name.now (map (λ a. a.name) self.now.areas) }
    {
        self.index.area(name)
    }

    /// The number of the record type with this name.
    pub fn rtype(&self, name: &[u8]) -> Option<RecordNo>
        ensures { result ≡ place_of name.now (map (λ r. r.name) self.now.types) }
    {
        self.index.rtype(name)
    }

    /// The number of the set with this name.
    pub fn set(&self, name: &[u8]) -> Option<SetNo>
        ensures { result ≡ place_of name.now (map (λ s. s.name) self.now.sets) }
    {
        self.index.set(name)
    }

    /// The number of the item with this name in a record type.
    pub fn item(&self, rtype: RecordNo, name: &[u8]) -> Option<ItemNo>
        ensures { result ≡ place_of name.now (map (λ i. i.name) (item_list self.now rtype)) }
    {
        self.index.item(rtype, name)
    }

    /// The name of an area.
    pub fn area_name(&self, area: AreaNo) -> Option<&[u8]>
        ensures { option_map (λ n. n.now) result ≡ option_map (λ a. a.name) (slice_get self.now.areas area) }
    {
        match self.areas.get(area.index() as usize) {
            Some(area) => Some(area.name.as_slice()),
            None => None,
        }
    }

    /// The name of a record type.
    pub fn rtype_name(&self, rtype: RecordNo) -> Option<&[u8]>
        ensures { option_map (λ n. n.now) result ≡ option_map (λ r. r.name) (slice_get self.now.types rtype) }
    {
        match self.record_type(rtype) {
            Some(rtype) => Some(rtype.name.as_slice()),
            None => None,
        }
    }

    /// The name of a set.
    pub fn set_name(&self, set: SetNo) -> Option<&[u8]>
        ensures { option_map (λ n. n.now) result ≡ option_map (λ s. s.name) (slice_get self.now.sets set) }
    {
        match self.set_type(set) {
            Some(set) => Some(set.name.as_slice()),
            None => None,
        }
    }

    /// The name of an item of a record type.
    pub fn item_name(&self, rtype: RecordNo, item: ItemNo) -> Option<&[u8]>
        ensures { option_map (λ n. n.now) result ≡ option_map (λ i. i.name) (slice_get (item_list self.now rtype) item) }
    {
        match self.items(rtype).get(item.index() as usize) {
            Some(item) => Some(item.name.as_slice()),
            None => None,
        }
    }

    /// Does STORE connect a record of this type in the set?
    pub fn connects(&self, set: SetNo, rtype: RecordNo) -> bool
        ensures { result ≡ some_and (λ m. is_automatic m.class) (member_clause self.now set rtype) }
    {
        match self.indexed_connecting(rtype) {
            Some(sets) => sets.contains(set),
            None => connects_in(self, set, rtype),
        }
    }

    /// The sets in which STORE connects a record of this type, in the order of the schema.
    pub fn automatic_sets(&self, rtype: RecordNo) -> &[SetNo]
        ensures { result.now ≡ automatic_sets self.now rtype }
    {
        match self.sets_of(rtype) {
            Some(sets) => sets.automatic.as_slice(),
            None => &[],
        }
    }

    /// The sets that a record type owns, in the order of the schema.
    pub fn owned_sets(&self, rtype: RecordNo) -> &[SetNo]
        ensures { result.now ≡ filter (λ s. owns self.now s rtype) (set_numbers self.now) }
    {
        match self.sets_of(rtype) {
            Some(sets) => sets.owned.as_slice(),
            None => &[],
        }
    }

    /// Both, if the schema has the record type.
    fn sets_of(&self, rtype: RecordNo) -> Option<&SetsOfType>
        ensures listed { IfSome result (λ sets. AreSetsOf self.now rtype sets.now) }
        ensures past { IfNone result (AreSetsOf self.now rtype (record { automatic = []; owned = [] })) }
    {
        self.sets_of_types.get(rtype.index() as usize)
    }

    /// A copy of the schema.
    pub fn copy(&self, alloc: Global) -> Result<Schema, AllocError>
        ensures { IfOk result (λ s. s ≡ self.now) }
    {
        let name = self.name.copy(alloc)?;
        let areas = copy_areas(&self.areas)?;
        let types = copy_types(&self.types)?;
        let sets = copy_sets(&self.sets)?;
        of_lists(alloc, name, areas, types, sets)
    }

    /// The record type with this number, if there is one.
    pub fn record_type(&self, rtype: RecordNo) -> Option<&RecordType>
        ensures { option_map (λ r. r.now) result ≡ slice_get self.now.types rtype }
    {
        self.types.get(rtype.index() as usize)
    }

    /// The set with this number, if there is one.
    pub fn set_type(&self, set: SetNo) -> Option<&SetType>
        ensures { option_map (λ s. s.now) result ≡ slice_get self.now.sets set }
    {
        self.sets.get(set.index() as usize)
    }

    /// The area of a record type.
    pub fn area_of(&self, rtype: RecordNo) -> AreaNo
        ensures { result ≡ area_of self.now rtype }
    {
        match self.record_type(rtype) {
            Some(record) => record.area,
            None => AreaNo::new(0),
        }
    }

    /// The CALC clause of a record type, by which its records are found by value.
    pub fn calc_of(&self, rtype: RecordNo) -> Option<&Calc>
        ensures { option_map (λ c. c.now) result ≡ calc_of self.now rtype }
    {
        match self.record_type(rtype) {
            Some(record) => record.calc.as_ref(),
            None => None,
        }
    }

    /// The items of a record type, in order.
    pub fn items(&self, rtype: RecordNo) -> &[Item]
        ensures items { result.now ≡ item_list self.now rtype }
        ensures few { length result.now ≤ MOST_ITEMS }
    {
        match self.types.get(rtype.index() as usize) {
            Some(record) => record.items.as_slice(),
            None => &[],
        }
    }

    /// The picture of an item of a record type.
    pub fn picture_of(&self, rtype: RecordNo, item: ItemNo) -> Option<Picture>
        ensures { result ≡ picture_of self.now rtype item }
    {
        match self.items(rtype).get(item.index() as usize) {
            Some(item) => Some(item.picture),
            None => None,
        }
    }

    /// Where a new member goes in the lists of a set.
    pub fn order_of(&self, set: SetNo) -> Order
        ensures { result ≡ order_of self.now set }
    {
        match self.set_type(set) {
            Some(set) => set.order,
            None => Order::Last,
        }
    }

    /// The owner type of a set; none for a SYSTEM set.
    pub fn owner_type(&self, set: SetNo) -> Option<RecordNo>
        ensures { result ≡ owner_type self.now set }
    {
        match self.set_type(set) {
            Some(set) => set.owner,
            None => None,
        }
    }

    /// Is this a SYSTEM set?
    pub fn is_system(&self, set: SetNo) -> bool
        ensures { result ≡ is_system self.now set }
    {
        match self.set_type(set) {
            Some(set) => set.owner.is_none(),
            None => false,
        }
    }

    /// Is this record type the owner type of the set?
    pub fn owns(&self, set: SetNo, rtype: RecordNo) -> bool
        ensures { result ≡ owns self.now set rtype }
    {
        match self.owner_type(set) {
            Some(owner) => owner.index() == rtype.index(),
            None => false,
        }
    }

    /// The member clause of a record type in a set; none if it is not a member type.
    pub fn member_clause(&self, set: SetNo, rtype: RecordNo) -> Option<Member>
        ensures { result ≡ member_clause self.now set rtype }
    {
        match self.set_type(set) {
            Some(set) => clause_for(set.members.as_slice(), rtype),
            None => None,
        }
    }

    /// The home area of a set: that of its owner type, and of a SYSTEM set's first member type.
    pub fn home(&self, set: SetNo) -> AreaNo
        ensures { result ≡ home self.now set }
    {
        match self.set_type(set) {
            Some(set) => {
                match set.owner {
                    Some(owner) => self.area_of(owner),
                    None => {
                        match set.members.as_slice().first() {
                            Some(member) => self.area_of(member.rtype),
                            None => self.area_of(RecordNo::new(0)),
                        }
                    }
                }
            }
            None => self.area_of(RecordNo::new(0)),
        }
    }
}
