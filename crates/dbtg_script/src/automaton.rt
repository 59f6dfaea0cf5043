//! The grammar of statements as an automaton: each state has the words that may come next.

ghost use Rattle.dbtg_schema.specs.Texts.Forms.{may_end, start_with, starts};
ghost use Rattle.dbtg_script.specs.Inside.Automaton.{rest_of, view_kind, view_start, view_starts};
ghost use Rattle.dbtg_script.specs.StatementGrammar.{fits, fits_plain};
ghost use Rattle.dbtg_script.specs.Tokens.{view};
ghost use Rattle.std.specs.Prelude.{◌≡◌, option_map};

use crate::keyword::Keyword;
use crate::role::Role;
use crate::spelling::{is_key, is_number, is_signed};
use crate::token::Token;

/// What a word must be to fit the grammar.
#[derive(Clone, Copy)]
pub enum Kind {
    /// this very word
    Key(Keyword),
    /// any other word than this one
    OtherThan(Keyword),
    Name,
    Equals,
    Signed,
    Keyed,
    Value,
}

/// A word that the grammar wants, its role, and the state after it.
#[derive(Clone, Copy)]
pub struct Start {
    pub kind: Kind,
    pub role: Role,
    pub next: State,
}

/// How far a statement has been read.
#[derive(Clone, Copy)]
pub enum State {
    Opening,
    OpenArea,
    CloseArea,
    Find,
    GetType,
    StoreType,
    Into,
    From,
    ModifyType,
    DeleteOption,
    Ended,
    FreeOption,
    OpenedArea,
    ClosedArea,
    Key,
    CurrentOf,
    SetOf,
    CalcType,
    SortedValue,
    NextOf,
    WhichOf,
    MoreItems,
    SetName,
    FirstChange,
    UsageMode,
    Suppress,
    CurrentName,
    NameOfSet,
    CalcRecord,
    DuplicateOf,
    NameOfPlace,
    InRecord,
    ItemEquals,
    Suppressed,
    ChangeEquals,
    ModeIs,
    CurrentKind,
    SetWord,
    Using,
    DuplicateType,
    PlaceKind,
    PlaceOf,
    ItemValue,
    MoreSuppressed,
    ChangeValue,
    Sharing,
    Access,
    CalcItem,
    DuplicateRecord,
    MoreChanges,
}

/// A row of the table: the kind of the word, its role, and the state after it.
macro_rules! start {
    ($kind:ident $(($word:expr))?, $role:ident, $next:ident) => {
        Start {
            kind: Kind::$kind $(($word))?,
            role: Role::$role,
            next: State::$next,
        }
    };
}

impl State {
    /// The words that may come next.
    pub fn wants(self) -> &'static [Start]
        ensures { view_starts result.now ≡ starts (rest_of self) }
    {
        match self {
            State::Opening => &[
                start!(Key(Keyword::Open), Open, OpenArea),
                start!(Key(Keyword::Close), Close, CloseArea),
                start!(Key(Keyword::Find), Find, Find),
                start!(Key(Keyword::Get), Get, GetType),
                start!(Key(Keyword::Store), Store, StoreType),
                start!(Key(Keyword::Insert), Insert, Into),
                start!(Key(Keyword::Remove), Remove, From),
                start!(Key(Keyword::Modify), Modify, ModifyType),
                start!(Key(Keyword::Delete), Delete, DeleteOption),
                start!(Key(Keyword::Keep), Keep, Ended),
                start!(Key(Keyword::Free), Free, FreeOption),
            ],
            State::OpenArea => &[start!(Key(Keyword::Area), Plain, OpenedArea)],
            State::CloseArea => &[start!(Key(Keyword::Area), Plain, ClosedArea)],
            State::Find => &[
                start!(Key(Keyword::Key), FindKey, Key),
                start!(Key(Keyword::Current), FindCurrent, CurrentOf),
                start!(Key(Keyword::Owner), FindOwner, SetOf),
                start!(Key(Keyword::Calc), FindCalc, CalcType),
                start!(Key(Keyword::Sorted), FindSorted, SortedValue),
                start!(Key(Keyword::Next), WhichNext, NextOf),
                start!(Key(Keyword::First), WhichFirst, WhichOf),
                start!(Key(Keyword::Last), WhichLast, WhichOf),
                start!(Key(Keyword::Prior), WhichPrior, WhichOf),
                start!(Signed, WhichNumber, WhichOf),
            ],
            State::GetType => &[start!(Name, TypeName, Ended)],
            State::StoreType => &[start!(Name, TypeName, MoreItems)],
            State::Into => &[start!(Key(Keyword::Into), Plain, SetName)],
            State::From => &[start!(Key(Keyword::From), Plain, SetName)],
            State::ModifyType => &[start!(Name, TypeName, FirstChange)],
            State::DeleteOption => &[
                start!(Key(Keyword::Only), Only, Ended),
                start!(Key(Keyword::Selective), Selective, Ended),
                start!(Key(Keyword::All), All, Ended),
            ],
            State::Ended => &[],
            State::FreeOption => &[start!(Key(Keyword::All), FreeAll, Ended)],
            State::OpenedArea => &[start!(Name, AreaName, UsageMode)],
            State::ClosedArea => &[start!(Name, AreaName, Ended)],
            State::Key => &[start!(Keyed, Key, Suppress)],
            State::CurrentOf => &[start!(Key(Keyword::Of), Plain, CurrentName)],
            State::SetOf => &[start!(Key(Keyword::Of), Plain, NameOfSet)],
            State::CalcType => &[start!(Name, RecordName, CalcRecord)],
            State::SortedValue => &[start!(Value, SortedValue, SetOf)],
            State::NextOf => &[
                start!(Key(Keyword::Duplicate), FindDuplicate, DuplicateOf),
                start!(Key(Keyword::Of), Plain, NameOfPlace),
                start!(Name, RecordName, InRecord),
            ],
            State::WhichOf => &[
                start!(Key(Keyword::Of), Plain, NameOfPlace),
                start!(Name, RecordName, InRecord),
            ],
            State::MoreItems => &[
                start!(OtherThan(Keyword::Suppress), ItemName, ItemEquals),
                start!(Key(Keyword::Suppress), Plain, Suppressed),
            ],
            State::SetName => &[start!(Name, SetName, Ended)],
            State::FirstChange => &[start!(Name, ItemName, ChangeEquals)],
            State::UsageMode => &[start!(Key(Keyword::UsageMode), Plain, ModeIs)],
            State::Suppress => &[start!(Key(Keyword::Suppress), Plain, Suppressed)],
            State::CurrentName => &[
                start!(Key(Keyword::RunUnit), RunUnit, Suppress),
                start!(Name, Name, CurrentKind),
            ],
            State::NameOfSet => &[start!(Name, Name, SetWord)],
            State::CalcRecord => &[start!(Key(Keyword::Record), RecordWord, Using)],
            State::DuplicateOf => &[start!(Key(Keyword::Of), Plain, DuplicateType)],
            State::NameOfPlace => &[start!(Name, Name, PlaceKind)],
            State::InRecord => &[start!(Key(Keyword::Record), RecordWord, PlaceOf)],
            State::ItemEquals => &[start!(Equals, Plain, ItemValue)],
            State::Suppressed => &[
                start!(Key(Keyword::All), SuppressAll, Ended),
                start!(Key(Keyword::Record), SuppressTypes, MoreSuppressed),
                start!(Key(Keyword::Area), SuppressAreas, MoreSuppressed),
                start!(Name, SuppressSet, MoreSuppressed),
            ],
            State::ChangeEquals => &[start!(Equals, Plain, ChangeValue)],
            State::ModeIs => &[
                start!(Key(Keyword::Is), Plain, Sharing),
                start!(Key(Keyword::Protected), Protected, Access),
                start!(Key(Keyword::Exclusive), Exclusive, Access),
                start!(Key(Keyword::Retrieval), Retrieval, Ended),
                start!(Key(Keyword::Update), Update, Ended),
            ],
            State::CurrentKind => &[
                start!(Key(Keyword::Record), KindRecord, Suppress),
                start!(Key(Keyword::Set), KindSet, Suppress),
                start!(Key(Keyword::Area), KindArea, Suppress),
            ],
            State::SetWord => &[start!(Key(Keyword::Set), KindSet, Suppress)],
            State::Using => &[start!(Key(Keyword::Using), Plain, CalcItem)],
            State::DuplicateType => &[start!(Name, RecordName, DuplicateRecord)],
            State::PlaceKind => &[
                start!(Key(Keyword::Set), KindSet, Suppress),
                start!(Key(Keyword::Area), KindArea, Suppress),
            ],
            State::PlaceOf => &[start!(Key(Keyword::Of), Plain, NameOfPlace)],
            State::ItemValue => &[start!(Value, Value, MoreItems)],
            State::MoreSuppressed => &[
                start!(Key(Keyword::Record), SuppressTypes, MoreSuppressed),
                start!(Key(Keyword::Area), SuppressAreas, MoreSuppressed),
                start!(Name, SuppressSet, MoreSuppressed),
            ],
            State::ChangeValue => &[start!(Value, Value, MoreChanges)],
            State::Sharing => &[
                start!(Key(Keyword::Protected), Protected, Access),
                start!(Key(Keyword::Exclusive), Exclusive, Access),
                start!(Key(Keyword::Retrieval), Retrieval, Ended),
                start!(Key(Keyword::Update), Update, Ended),
            ],
            State::Access => &[
                start!(Key(Keyword::Retrieval), Retrieval, Ended),
                start!(Key(Keyword::Update), Update, Ended),
            ],
            State::CalcItem => &[start!(Name, ItemName, ItemEquals)],
            State::DuplicateRecord => &[start!(Key(Keyword::Record), RecordWord, Suppress)],
            State::MoreChanges => &[start!(Name, ItemName, ChangeEquals)],
        }
    }

    /// May the statement end here?
    pub fn may_end(self) -> bool
        ensures { result ≡ may_end (rest_of self) }
    {
        matches!(
            self,
            State::GetType
                | State::DeleteOption
                | State::Ended
                | State::FreeOption
                | State::MoreItems
                | State::Suppress
                | State::MoreSuppressed
                | State::MoreChanges
        )
    }
}

impl Kind {
    pub fn fits(self, token: Token) -> bool
        ensures { result ≡ fits (view_kind self) (view token.entry) }
    {
        match token {
            Token::Plain(text) => self.fits_plain(text),
            Token::Equals => matches!(self, Kind::Equals),
            Token::Literal(_) => matches!(self, Kind::Value),
        }
    }

    fn fits_plain(self, text: &[u8]) -> bool
        ensures { result ≡ fits_plain (view_kind self) text.now }
    {
        match self {
            Kind::Key(keyword) => text == keyword.text().as_bytes(),
            Kind::OtherThan(keyword) => text != keyword.text().as_bytes(),
            Kind::Name => true,
            Kind::Equals => false,
            Kind::Signed => is_signed(text),
            Kind::Keyed => is_key(text),
            Kind::Value => is_number(text),
        }
    }
}

/// Which of the wanted words this word is, if it is one.
pub fn follow(state: State, token: Token) -> Option<Start>
    ensures { option_map view_start result ≡ start_with fits (view token.entry) (starts (rest_of state)) }
{
    for start in state.wants() {
        if start.kind.fits(token) {
            return Some(*start);
        }
    }
    None
}
