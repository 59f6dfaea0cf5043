//! The words of a line as far as it was read, and what they name.

ghost use Rattle.dbtg_schema.specs.Texts.Forms.{labelled};
ghost use Rattle.dbtg_script.specs.Labels.{has, is, named, number};
ghost use Rattle.dbtg_schema.specs.Structure.{picture_of};
ghost use Rattle.dbtg_script.specs.Lookups.{item_picture, type_named};
ghost use Rattle.dbtg_script.specs.StatementFaults.{type_in, type_text};
ghost use Rattle.dbtg_script.specs.Tokens.{view};
ghost use Rattle.dbtg_script.specs.Inside.Views.{view_labelled, views};
ghost use Rattle.dbtg_script.specs.Inside.Words.{AreNoted, IsNamed};
ghost use Rattle.dbtg_script.specs.declared.role.Role.TheVariants as role;
ghost use Rattle.std.specs.Prelude.{◌≡◌, ◌<◌, ◌++◌, ◌∷◌, [], IfSome, OnOk, option_and_then};

use crate::lookups::item_picture;
use crate::queries::{Labelled, has_role, named, text_of};
use crate::role::Role;
use crate::token::Token;
use dbtg_schema::{ItemNo, Picture, RecordNo, Schema};
use std::alloc::{AllocError, Global};
use std::marker::Model;

/// More than there are roles.
const ROLES: usize = 64;

/// What a word names, if its role is to name it.
#[derive(Clone, Copy)]
pub struct Named {
    pub rtype: Option<RecordNo>,
    pub item: Option<ItemNo>,
}

/// The words of a line as far as it was read, and the schema whose names they use.
pub struct Words<'a> {
    schema: &'a Schema,
    list: Vec<Labelled<'a>>,
    /// by its number: does a word have this role?
    roles: [bool; ROLES],
    /// the record type that is named, if it is known
    rtype: Option<Option<RecordNo>>,
    /// the picture of the item that was named last, if it is known
    picture: Option<Option<Picture>>,
}

impl<'a> Drop for Words<'a> {
    fn drop(self) {
        let Self {
            schema: _,
            list: _,
            roles: _,
            rtype: _,
            picture: _,
        } = self;
    }
}

impl<'a> Model for Words<'a> {
    ghost use Rattle.dbtg_script.specs.Inside.Views.{views};
    ghost use Rattle.dbtg_script.specs.Inside.Words.{AreNoted, LineWords};

    ghost Value = { LineWords };

    ghost view = { λ w. record { schema = w.schema.now; words = views w.list.items } };

    ghost invariant = { λ w. AreNoted w.schema.now (views w.list.items) w.roles w.rtype w.picture };
}

fn place_of(role: Role) -> usize
    ensures place { result ≡ number role }
    ensures bound { result < 64 }
{
    role as usize
}

fn picture_of(schema: &Schema, rtype: RecordNo, item: Option<ItemNo>) -> Option<Picture>
    ensures { result ≡ option_and_then (λ i. picture_of schema.now rtype i) item }
{
    match item {
        Some(item) => schema.picture_of(rtype, item),
        None => None,
    }
}

impl<'a> Words<'a> {
    /// No word yet.
    pub fn new(alloc: Global, schema: &'a Schema) -> Self
        ensures { result ≡ record { schema = schema.now; words = [] } }
    {
        Self {
            schema,
            list: Vec::new(alloc),
            roles: [false; ROLES],
            rtype: None,
            picture: None,
        }
    }

    /// No word again, in the same memory.
    pub fn clear(&mut self)
        ensures { self.new ≡ record { schema = self.old.schema; words = [] } }
    {
        self.list.clear();
        self.roles = [false; ROLES];
        self.rtype = None;
        self.picture = None;
    }

    pub fn schema(&self) -> &'a Schema
        ensures { result.now ≡ self.now.schema }
    {
        self.schema
    }

    pub fn list(&self) -> &[Labelled<'a>]
        ensures { views result.now ≡ self.now.words }
    {
        self.list.as_slice()
    }

    /// Is there a word with this role?
    pub fn has(&self, role: Role) -> bool
        ensures { result ≡ has role self.now.words }
    {
        self.roles[place_of(role)]
    }

    fn type_text(&self) -> &'a [u8]
        ensures { result.now ≡ type_text self.now.words }
    {
        if self.has(Role::TypeName) {
            named(self.list(), Role::TypeName)
        } else {
            named(self.list(), Role::RecordName)
        }
    }

    /// The record type that is named.
    pub fn rtype(&self) -> Option<RecordNo>
        ensures { result ≡ type_named self.now.schema (type_text self.now.words) }
    {
        match self.rtype {
            Some(rtype) => rtype,
            None => self.schema.rtype(self.type_text()),
        }
    }

    /// The record type that is named after GET, STORE and MODIFY, or before RECORD.
    pub fn type_in(&self) -> RecordNo
        ensures { result ≡ type_in self.now.schema self.now.words }
    {
        self.rtype().unwrap_or(RecordNo::new(0))
    }

    /// The picture of the item that was named last.
    pub fn picture(&self) -> Option<Picture>
        ensures { result ≡ item_picture self.now.schema (type_in self.now.schema self.now.words) (named role.ItemName self.now.words) }
    {
        match self.picture {
            Some(picture) => picture,
            None => item_picture(
                self.schema,
                self.type_in(),
                named(self.list(), Role::ItemName),
            ),
        }
    }

    /// What the next word names, if it has this role.
    pub fn named_by(&self, token: Token, role: Role) -> Named
        ensures { IsNamed self.now.schema self.now.words (labelled role (view token.entry)) result }
    {
        match role {
            Role::TypeName | Role::RecordName => Named {
                rtype: self.schema.rtype(text_of(token)),
                item: None,
            },
            Role::ItemName => Named {
                rtype: None,
                item: self.schema.item(self.type_in(), text_of(token)),
            },
            _ => Named {
                rtype: None,
                item: None,
            },
        }
    }

    /// The record type after one word more, if it is known.
    fn type_behind(&self, word: &Labelled, names: &Named) -> Option<Option<RecordNo>>
        requires { IsNamed self.now.schema self.now.words (view_labelled word.now) names.now }
        ensures { IfSome result (λ r. r ≡ type_named self.now.schema (type_text (self.now.words ++ view_labelled word.now ∷ []))) }
    {
        if has_role(word, Role::TypeName) {
            Some(names.rtype)
        } else if has_role(word, Role::RecordName) {
            if self.has(Role::TypeName) {
                None
            } else {
                Some(names.rtype)
            }
        } else {
            self.rtype
        }
    }

    /// The picture of the item that was named last after one word more, if it is known.
    fn picture_behind(&self, word: &Labelled, names: &Named) -> Option<Option<Picture>>
        requires { IsNamed self.now.schema self.now.words (view_labelled word.now) names.now }
        ensures { IfSome result (λ p. p ≡ item_picture self.now.schema (type_in self.now.schema (self.now.words ++ view_labelled word.now ∷ [])) (named role.ItemName (self.now.words ++ view_labelled word.now ∷ []))) }
    {
        if has_role(word, Role::ItemName) {
            Some(picture_of(self.schema, self.type_in(), names.item))
        } else if has_role(word, Role::TypeName) | has_role(word, Role::RecordName) {
            None
        } else {
            self.picture
        }
    }

    /// Adds a word, and what it names.
    pub fn push(&mut self, word: &Labelled<'a>, names: &Named) -> Result<(), AllocError>
        requires { IsNamed self.old.schema self.old.words (view_labelled word.now) names.now }
        ensures { OnOk result (self.new ≡ record { schema = self.old.schema; words = self.old.words ++ view_labelled word.now ∷ [] }) }
    {
        let rtype = self.type_behind(word, names);
        let picture = self.picture_behind(word, names);
        self.list.push(*word)?;
        self.roles[place_of(word.role)] = true;
        self.rtype = rtype;
        self.picture = picture;
        Ok(())
    }
}
