//! The grammar of a schema text as an automaton: each state has the words that may come next.

ghost use Rattle.dbtg_schema.specs.Texts.Forms.{may_end, start_with, starts};
ghost use Rattle.dbtg_schema.specs.Texts.SchemaGrammar.{fits};
ghost use Rattle.dbtg_schema.specs.Inside.Words.{view};
ghost use Rattle.std.specs.Prelude.{◌≡◌, ◌<◌, ◌^◌, ℕ, length, map, option_map};
ghost use Rattle.dbtg_schema.specs.Inside.Automaton.{rest_of, view_start, view_starts, view_kind, spelling};

use crate::names::is_name;
use crate::pictures::spelled_picture;
use crate::role::Role;
use crate::scanner::Word;

/// A word of the grammar.
#[derive(Clone, Copy)]
pub enum Keyword {
    Schema,
    Name,
    Period,
    Area,
    Record,
    Location,
    Within,
    Mode,
    Calc,
    Via,
    Using,
    Level,
    Set,
    Duplicates,
    Picture,
    Pic,
    Not,
    Allowed,
    Order,
    First,
    Last,
    Next,
    Prior,
    Sorted,
    Owner,
    Ascending,
    Descending,
    System,
    Member,
    Mandatory,
    Optional,
    Automatic,
    Manual,
    Key,
    Occurrence,
    Selection,
    Thru,
    Current,
    Of,
}

impl Keyword {
    pub fn text(self) -> &'static str
        ensures { result.now ≡ spelling self }
    {
        match self {
            Keyword::Schema => "SCHEMA",
            Keyword::Name => "NAME",
            Keyword::Period => ".",
            Keyword::Area => "AREA",
            Keyword::Record => "RECORD",
            Keyword::Location => "LOCATION",
            Keyword::Within => "WITHIN",
            Keyword::Mode => "MODE",
            Keyword::Calc => "CALC",
            Keyword::Via => "VIA",
            Keyword::Using => "USING",
            Keyword::Level => "02",
            Keyword::Set => "SET",
            Keyword::Duplicates => "DUPLICATES",
            Keyword::Picture => "PICTURE",
            Keyword::Pic => "PIC",
            Keyword::Not => "NOT",
            Keyword::Allowed => "ALLOWED",
            Keyword::Order => "ORDER",
            Keyword::First => "FIRST",
            Keyword::Last => "LAST",
            Keyword::Next => "NEXT",
            Keyword::Prior => "PRIOR",
            Keyword::Sorted => "SORTED",
            Keyword::Owner => "OWNER",
            Keyword::Ascending => "ASCENDING",
            Keyword::Descending => "DESCENDING",
            Keyword::System => "SYSTEM",
            Keyword::Member => "MEMBER",
            Keyword::Mandatory => "MANDATORY",
            Keyword::Optional => "OPTIONAL",
            Keyword::Automatic => "AUTOMATIC",
            Keyword::Manual => "MANUAL",
            Keyword::Key => "KEY",
            Keyword::Occurrence => "OCCURRENCE",
            Keyword::Selection => "SELECTION",
            Keyword::Thru => "THRU",
            Keyword::Current => "CURRENT",
            Keyword::Of => "OF",
        }
    }
}

/// What a word must be to fit the grammar.
#[derive(Clone, Copy)]
pub enum Kind {
    Key(Keyword),
    Name,
    Picture,
}

/// A word that the grammar wants, its role, and the state after it.
#[derive(Clone, Copy)]
pub struct Start {
    pub kind: Kind,
    pub role: Role,
    pub next: State,
}

#[derive(Clone, Copy)]
pub enum State {
    Opening,
    SchemaNameWord,
    SchemaName,
    SchemaPeriod,
    FirstArea,
    AreaNameWord,
    AreaName,
    AreaPeriod,
    Areas,
    RecordNameWord,
    RecordName,
    RecordLocation,
    Mode,
    WithinArea,
    CalcOrVia,
    RecordPeriod,
    Using,
    ViaSet,
    Items,
    FirstCalcItem,
    ViaSetWord,
    ItemName,
    SetNameWord,
    CalcItems,
    Within,
    PictureWord,
    SetName,
    NotOrAllowed,
    ItemPicture,
    OrderWord,
    Allowed,
    Order,
    OwnerWord,
    Direction,
    Owner,
    DuplicatesWord,
    OwnerPeriod,
    Duplicates,
    FirstMember,
    OrderAllowed,
    MemberName,
    Class,
    Connection,
    MemberTail,
    KeyItem,
    Occurrence,
    Members,
    KeyTail,
    Selection,
    Thru,
    Current,
    Of,
    LastSetWord,
    MemberPeriod,
}

/// A row of the table: the kind of the word, its role, and the state after it.
macro_rules! start {
    ($kind:ident $(($word:expr))?, $role:ident, $next:ident) => {
        Start {
            kind: Kind::$kind $(($word))?,
            role: Role::$role,
            next: State::$next,
        }
    };
}

impl State {
    /// The words that may come next.
    pub fn wants(self) -> &'static [Start]
        ensures { view_starts result.now ≡ starts (rest_of self) }
    {
        match self {
            State::Opening => &[start!(Key(Keyword::Schema), Plain, SchemaNameWord)],
            State::SchemaNameWord => &[start!(Key(Keyword::Name), Plain, SchemaName)],
            State::SchemaName => &[start!(Name, SchemaName, SchemaPeriod)],
            State::SchemaPeriod => &[start!(Key(Keyword::Period), Plain, FirstArea)],
            State::FirstArea => &[start!(Key(Keyword::Area), AreaEntry, AreaNameWord)],
            State::AreaNameWord => &[start!(Key(Keyword::Name), Plain, AreaName)],
            State::AreaName => &[start!(Name, AreaName, AreaPeriod)],
            State::AreaPeriod => &[start!(Key(Keyword::Period), Plain, Areas)],
            State::Areas => &[
                start!(Key(Keyword::Area), AreaEntry, AreaNameWord),
                start!(Key(Keyword::Record), RecordEntry, RecordNameWord),
            ],
            State::RecordNameWord => &[start!(Key(Keyword::Name), Plain, RecordName)],
            State::RecordName => &[start!(Name, RecordName, RecordLocation)],
            State::RecordLocation => &[
                start!(Key(Keyword::Location), Plain, Mode),
                start!(Key(Keyword::Within), Plain, WithinArea),
            ],
            State::Mode => &[start!(Key(Keyword::Mode), Plain, CalcOrVia)],
            State::WithinArea => &[start!(Name, WithinArea, RecordPeriod)],
            State::CalcOrVia => &[
                start!(Key(Keyword::Calc), Plain, Using),
                start!(Key(Keyword::Via), Plain, ViaSet),
            ],
            State::RecordPeriod => &[start!(Key(Keyword::Period), Plain, Items)],
            State::Using => &[start!(Key(Keyword::Using), Plain, FirstCalcItem)],
            State::ViaSet => &[start!(Name, ViaSet, ViaSetWord)],
            State::Items => &[
                start!(Key(Keyword::Level), ItemEntry, ItemName),
                start!(Key(Keyword::Record), RecordEntry, RecordNameWord),
                start!(Key(Keyword::Set), SetEntry, SetNameWord),
            ],
            State::FirstCalcItem => &[start!(Name, CalcItem, CalcItems)],
            State::ViaSetWord => &[start!(Key(Keyword::Set), Plain, Within)],
            State::ItemName => &[start!(Name, ItemName, PictureWord)],
            State::SetNameWord => &[start!(Key(Keyword::Name), Plain, SetName)],
            State::CalcItems => &[
                start!(Name, CalcItem, CalcItems),
                start!(Key(Keyword::Duplicates), Plain, NotOrAllowed),
            ],
            State::Within => &[start!(Key(Keyword::Within), Plain, WithinArea)],
            State::PictureWord => &[
                start!(Key(Keyword::Picture), Plain, ItemPicture),
                start!(Key(Keyword::Pic), Plain, ItemPicture),
            ],
            State::SetName => &[start!(Name, SetName, OrderWord)],
            State::NotOrAllowed => &[
                start!(Key(Keyword::Not), Unique, Allowed),
                start!(Key(Keyword::Allowed), Plain, Within),
            ],
            State::ItemPicture => &[start!(Picture, Picture, RecordPeriod)],
            State::OrderWord => &[start!(Key(Keyword::Order), Plain, Order)],
            State::Allowed => &[start!(Key(Keyword::Allowed), Plain, Within)],
            State::Order => &[
                start!(Key(Keyword::First), OrderFirst, OwnerWord),
                start!(Key(Keyword::Last), OrderLast, OwnerWord),
                start!(Key(Keyword::Next), OrderNext, OwnerWord),
                start!(Key(Keyword::Prior), OrderPrior, OwnerWord),
                start!(Key(Keyword::Sorted), Sorted, Direction),
            ],
            State::OwnerWord => &[start!(Key(Keyword::Owner), Plain, Owner)],
            State::Direction => &[
                start!(Key(Keyword::Ascending), Ascending, DuplicatesWord),
                start!(Key(Keyword::Descending), Descending, DuplicatesWord),
            ],
            State::Owner => &[
                start!(Name, OwnerName, OwnerPeriod),
                start!(Key(Keyword::System), OwnerSystem, OwnerPeriod),
            ],
            State::DuplicatesWord => &[start!(Key(Keyword::Duplicates), Plain, Duplicates)],
            State::OwnerPeriod => &[start!(Key(Keyword::Period), Plain, FirstMember)],
            State::Duplicates => &[
                start!(Key(Keyword::First), DuplicatesFirst, OwnerWord),
                start!(Key(Keyword::Last), DuplicatesLast, OwnerWord),
                start!(Key(Keyword::Not), DuplicatesNot, OrderAllowed),
            ],
            State::FirstMember => &[start!(Key(Keyword::Member), MemberEntry, MemberName)],
            State::OrderAllowed => &[start!(Key(Keyword::Allowed), Plain, OwnerWord)],
            State::MemberName => &[start!(Name, MemberName, Class)],
            State::Class => &[
                start!(Key(Keyword::Mandatory), Mandatory, Connection),
                start!(Key(Keyword::Optional), Optional, Connection),
            ],
            State::Connection => &[
                start!(Key(Keyword::Automatic), Automatic, MemberTail),
                start!(Key(Keyword::Manual), Manual, MemberTail),
            ],
            State::MemberTail => &[
                start!(Key(Keyword::Key), Plain, KeyItem),
                start!(Key(Keyword::Set), Plain, Occurrence),
                start!(Key(Keyword::Period), MemberEnd, Members),
            ],
            State::KeyItem => &[start!(Name, KeyItem, KeyTail)],
            State::Occurrence => &[start!(Key(Keyword::Occurrence), Plain, Selection)],
            State::Members => &[
                start!(Key(Keyword::Member), MemberEntry, MemberName),
                start!(Key(Keyword::Set), SetEntry, SetNameWord),
            ],
            State::KeyTail => &[
                start!(Key(Keyword::Set), Plain, Occurrence),
                start!(Key(Keyword::Period), MemberEnd, Members),
            ],
            State::Selection => &[start!(Key(Keyword::Selection), Plain, Thru)],
            State::Thru => &[start!(Key(Keyword::Thru), Plain, Current)],
            State::Current => &[start!(Key(Keyword::Current), Plain, Of)],
            State::Of => &[start!(Key(Keyword::Of), Plain, LastSetWord)],
            State::LastSetWord => &[start!(Key(Keyword::Set), Plain, MemberPeriod)],
            State::MemberPeriod => &[start!(Key(Keyword::Period), MemberEnd, Members)],
        }
    }

    /// May the text end here?
    pub fn may_end(self) -> bool
        ensures { result ≡ may_end (rest_of self) }
    {
        matches!(self, State::Items | State::Members)
    }
}

impl Kind {
    pub fn fits(self, word: Word) -> bool
        ensures { result ≡ fits (view_kind self) (view word.entry) }
    {
        match self {
            Kind::Key(keyword) => word.text == keyword.text().as_bytes(),
            Kind::Name => is_name(word.text),
            Kind::Picture => spelled_picture(word.text).is_some(),
        }
    }
}

/// Which of the wanted words this word is, if it is one.
pub fn follow(state: State, word: Word) -> Option<Start>
    ensures { option_map view_start result ≡ start_with fits (view word.entry) (starts (rest_of state)) }
{
    for start in state.wants() {
        if start.kind.fits(word) {
            return Some(*start);
        }
    }
    None
}
