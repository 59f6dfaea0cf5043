//! What the sentences of a program are judged by: the schema, the sentences themselves, and the names that they declare.

ghost use Rattle.dbtg_schema.specs.Lookups.{some_and};
ghost use Rattle.dbtg_script.specs.Tokens.{view};
ghost use Rattle.dbtg_program.specs.Sentences.{counter_of, counter_picture, counters_of, field_named, fields_in, paragraph_at, picture_in, sentences_of};
ghost use Rattle.dbtg_program.specs.States.{beginning_with};
ghost use Rattle.dbtg_program.specs.Values.{records_from};
ghost use Rattle.dbtg_program.specs.Inside.Gathered.{AreNames, leads_to};
ghost use Rattle.dbtg_program.specs.Inside.Views.{view_holding};
ghost use Rattle.std.specs.Option.{option_or};
ghost use Rattle.std.specs.Prelude.{◌≡◌, ◌≤◌, ◌++◌, List, ℕ, IfOk, None, OnOk, Some, cond, length, map, option_map, slice_get};
ghost use Rattle.std.specs.Str.{bytes_eq};

use crate::cutting::{Holding, sentences_of};
use crate::fields::{Fields, fields_of_types};
use crate::grammar::Keyword;
use crate::places::Places;
use crate::program::{Line, Program};
use crate::state::State;
use crate::word::{begins, is_word, text_in, word_at};
use dbtg_schema::{Item, Picture, Row, Schema, spelled_picture};
use dbtg_script::Token;
use std::alloc::{AllocError, Global};
use std::marker::Model;

/// The fields of a text: its counters are the last of them.
#[derive(Drop)]
pub struct Names {
    fields: Fields,
    first_counter: usize,
    /// from the name of a field to its number
    places: Places,
    /// before any sentence
    beginning: State,
}

/// A text with the names that it declares.
pub struct Text<'a> {
    schema: &'a Schema,
    sentences: Vec<Holding<'a>>,
    paragraphs: Places,
    names: Names,
}

impl<'a> Drop for Text<'a> {
    fn drop(self) {
        let Self {
            schema: _,
            sentences: _,
            paragraphs: _,
            names: _,
        } = self;
    }
}

impl<'a> Model for Text<'a> {
    ghost use Rattle.dbtg_program.specs.Inside.Gathered.{IsGathered};
    ghost use Rattle.dbtg_program.specs.Inside.Views.{view_holding};
    ghost use Rattle.dbtg_program.specs.Sentences.{Text as SaidText};
    ghost use Rattle.std.specs.Prelude.{map};

    ghost Value = { SaidText };

    ghost view = { λ t. record { schema = t.schema.now; sentences = map view_holding t.sentences.items } };

    ghost invariant = { λ t. IsGathered (record { schema = t.schema.now; sentences = map view_holding t.sentences.items }) t.paragraphs t.names };
}

/// Enters the paragraph that a sentence begins, if it begins one.
fn enter_paragraph(
    alloc: Global,
    places: &mut Places,
    sentence: &Holding,
    at: usize,
) -> Result<(), AllocError>
    ensures { OnOk result ((q : List ℕ) → leads_to places.new q ≡ option_or (leads_to places.old q) (cond (some_and (bytes_eq q) (view_holding sentence.now).paragraph) (Some at) None)) }
{
    match sentence.paragraph() {
        None => Ok(()),
        Some(name) => places.enter(alloc, name, at),
    }
}

/// The first sentence of each paragraph.
fn paragraphs_of(alloc: Global, sentences: &[Holding]) -> Result<Places, AllocError>
    ensures { IfOk result (λ places. (name : List ℕ) → leads_to places name ≡ paragraph_at (map view_holding sentences.now) name) }
{
    let mut places = Places::none(alloc);
    for (i, sentence) in sentences.iter().enumerate() {
        enter_paragraph(alloc, &mut places, sentence, i)?;
    }
    Ok(places)
}

fn counter_picture(words: &[Token]) -> Picture
    ensures { result ≡ counter_picture (map view words.now) }
{
    let place = if is_word(word_at(words, 3), Keyword::Is) {
        4
    } else {
        3
    };
    spelled_picture(text_in(word_at(words, place))).unwrap_or(Picture::Number(0))
}

fn counter_of(alloc: Global, words: &[Token]) -> Result<Item, AllocError>
    ensures { IfOk result (λ c. c ≡ counter_of (map view words.now)) }
{
    let name = Vec::from_slice(alloc, text_in(word_at(words, 1)))?;
    Ok(Item {
        name: Row::of(name),
        picture: counter_picture(words),
    })
}

/// Appends the counters, which come before everything else.
fn push_counters(
    alloc: Global,
    fields: &mut Vec<Item>,
    sentences: &[Holding],
) -> Result<(), AllocError>
    ensures { OnOk result (fields.new.items ≡ fields.old.items ++ counters_of (map view_holding sentences.now)) }
{
    let mut words = Vec::new(alloc);
    for sentence in sentences {
        sentence.take_words(alloc, &mut words)?;
        if !begins(words.as_slice(), Keyword::Level) {
            return Ok(());
        }
        fields.push(counter_of(alloc, words.as_slice())?)?;
    }
    Ok(())
}

fn places_of(alloc: Global, fields: &[Item]) -> Result<Places, AllocError>
    ensures { IfOk result (λ places. (name : List ℕ) → leads_to places name ≡ field_named fields.now name) }
{
    let mut places = Places::none(alloc);
    for (i, field) in fields.iter().enumerate() {
        places.enter(alloc, field.name.as_slice(), i)?;
    }
    Ok(places)
}

/// The names of a text with these sentences.
fn names_of(alloc: Global, schema: &Schema, sentences: &[Holding]) -> Result<Names, AllocError>
    ensures { IfOk result (λ names. AreNames (record { schema = schema.now; sentences = map view_holding sentences.now }) names) }
{
    let mut fields = fields_of_types(alloc, schema.types())?;
    let first_counter = fields.items.as_slice().len();
    push_counters(alloc, &mut fields.items, sentences)?;
    let places = places_of(alloc, fields.items.as_slice())?;
    let beginning = State::beginning_with(alloc, fields.items.as_slice())?;
    Ok(Names {
        fields,
        first_counter,
        places,
        beginning,
    })
}

impl<'a> Text<'a> {
    /// Gathers the names that the bytes of a program declare.
    pub fn gather(alloc: Global, schema: &'a Schema, text: &'a [u8]) -> Result<Self, AllocError>
        requires { length text.now ≤ 1048576 }
        ensures { IfOk result (λ t. t ≡ record { schema = schema.now; sentences = sentences_of text.now }) }
    {
        let sentences = sentences_of(alloc, text)?;
        let paragraphs = paragraphs_of(alloc, sentences.as_slice())?;
        let names = names_of(alloc, schema, sentences.as_slice())?;
        Ok(Self {
            schema,
            sentences,
            paragraphs,
            names,
        })
    }

    pub fn schema(&self) -> &'a Schema
        ensures { result.now ≡ self.now.schema }
    {
        self.schema
    }

    pub fn sentences(&self) -> &[Holding<'a>]
        ensures { map view_holding result.now ≡ self.now.sentences }
    {
        self.sentences.as_slice()
    }

    /// The sentence with this number.
    pub fn sentence(&self, at: usize) -> Option<&Holding<'a>>
        ensures { option_map (λ h. view_holding h.now) result ≡ slice_get self.now.sentences at }
    {
        self.sentences.get(at)
    }

    /// The sentence with which a paragraph begins.
    pub fn paragraph(&self, name: &[u8]) -> Option<usize>
        ensures { result ≡ paragraph_at self.now.sentences name.now }
    {
        self.paragraphs.place(name)
    }

    pub fn counters(&self) -> &[Item]
        ensures { result.now ≡ counters_of self.now.sentences }
    {
        &self.names.fields.items.as_slice()[self.names.first_counter..]
    }

    /// The number of the field with this name.
    pub fn field(&self, name: &[u8]) -> Option<usize>
        ensures { result ≡ field_named (fields_in self.now) name.now }
    {
        self.names.places.place(name)
    }

    /// The picture of the field that a word names.
    pub fn picture(&self, token: Token) -> Option<Picture>
        ensures { result ≡ picture_in (fields_in self.now) (view token.entry) }
    {
        let field = self.field(text_in(token))?;
        Some(self.names.fields.items.get(field)?.picture)
    }

    /// The state before any sentence.
    pub fn beginning(&self) -> &State
        ensures { result.now ≡ beginning_with (fields_in self.now) }
    {
        &self.names.beginning
    }

    /// The program of this text, which has these lines.
    pub fn into_program(self, lines: Vec<Line>) -> Program
        ensures { result ≡ record { lines = lines.items; fields = fields_in self.entry; records = records_from 0 self.entry.schema.types } }
    {
        let Self {
            schema: _,
            sentences: _,
            paragraphs: _,
            names,
        } = self;
        Program {
            lines: Row::of(lines),
            fields: Row::of(names.fields.items),
            records: Row::of(names.fields.firsts),
        }
    }
}
