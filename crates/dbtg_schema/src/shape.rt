//! The parts of a schema.

use crate::numbers::{AreaNo, ItemNo, RecordNo, SetNo};
use crate::row::Row;

#[derive(Clone, Copy, PartialEq, Eq)]
pub enum Picture {
    /// 9(n)
    Number(u8),
    /// X(n)
    Text(u8),
}

#[derive(Clone, Drop)]
pub struct Area {
    pub name: Row<u8>,
}

#[derive(Clone, Drop)]
pub struct Item {
    pub name: Row<u8>,
    pub picture: Picture,
}

#[derive(Clone, Drop)]
pub struct Calc {
    pub items: Row<ItemNo>,
    pub duplicates_allowed: bool,
}

#[derive(Clone, Drop)]
pub struct RecordType {
    pub name: Row<u8>,
    pub area: AreaNo,
    pub items: Row<Item>,
    pub calc: Option<Calc>,
}

#[derive(Clone, Copy, PartialEq, Eq)]
pub enum Duplicates {
    First,
    Last,
    NotAllowed,
}

#[derive(Clone, Copy, PartialEq, Eq)]
pub enum Order {
    First,
    Last,
    Next,
    Prior,
    Sorted {
        ascending: bool,
        duplicates: Duplicates,
    },
}

#[derive(Clone, Copy, PartialEq, Eq)]
pub enum Class {
    MandatoryAutomatic,
    MandatoryManual,
    OptionalAutomatic,
    OptionalManual,
}

#[derive(Clone, Copy)]
pub struct Member {
    pub rtype: RecordNo,
    pub class: Class,
    pub key: Option<ItemNo>,
}

#[derive(Clone, Drop)]
pub struct SetType {
    pub name: Row<u8>,
    pub order: Order,
    pub owner: Option<RecordNo>,
    pub members: Row<Member>,
}
