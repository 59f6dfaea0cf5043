//! The sentences that scripts do not have: which word may come in each place, and how it is judged there.

ghost use Rattle.dbtg_program.specs.Grammar.{form};
ghost use Rattle.dbtg_program.specs.Sentences.{spelling};
ghost use Rattle.std.specs.Prelude.{◌≡◌};

/// A word of the sentences that scripts do not have.
#[derive(Clone, Copy)]
pub enum Keyword {
    /// 01, as a level number
    Level,
    Move,
    Add,
    Subtract,
    Go,
    To,
    From,
    If,
    Assert,
    Stop,
    Status,
    Not,
    Is,
}

/// What a word must be.
#[derive(Clone, Copy)]
pub enum Kind {
    /// this very word
    Key(Keyword),
    /// a plain word
    Any,
    EqualSign,
    /// =, < or >
    Relation,
    Field,
    /// a literal or a field
    Value,
    /// PICTURE or PIC
    PictureWord,
    Picture,
    /// the four digits of a status
    Code,
}

/// How a word is judged.
#[derive(Clone, Copy)]
pub enum Role {
    /// only by whether it fits
    Plain,
    Counter,
    CounterName,
    Paragraph,
    /// the first of two values
    FirstValue,
    /// a value that is added or subtracted
    FirstNumber,
    SecondValue,
    /// the field of MOVE
    MovedTo,
    /// the field of ADD or SUBTRACT
    CountedTo,
}

/// A place of a sentence.
#[derive(Clone, Copy)]
pub struct FormPlace {
    pub kind: Kind,
    pub role: Role,
    pub optional: bool,
}

impl Keyword {
    pub fn text(self) -> &'static str
        ensures { result.now ≡ spelling self }
    {
        match self {
            Keyword::Level => "01",
            Keyword::Move => "MOVE",
            Keyword::Add => "ADD",
            Keyword::Subtract => "SUBTRACT",
            Keyword::Go => "GO",
            Keyword::To => "TO",
            Keyword::From => "FROM",
            Keyword::If => "IF",
            Keyword::Assert => "ASSERT",
            Keyword::Stop => "STOP",
            Keyword::Status => "STATUS",
            Keyword::Not => "NOT",
            Keyword::Is => "IS",
        }
    }
}

macro_rules! one {
    ($kind:ident, $role:ident) => {
        FormPlace {
            kind: Kind::$kind,
            role: Role::$role,
            optional: false,
        }
    };
}

macro_rules! say {
    ($word:ident) => {
        FormPlace {
            kind: Kind::Key(Keyword::$word),
            role: Role::Plain,
            optional: false,
        }
    };
}

macro_rules! maybe {
    ($word:ident) => {
        FormPlace {
            kind: Kind::Key(Keyword::$word),
            role: Role::Plain,
            optional: true,
        }
    };
}

/// The places of the sentence that begins with this verb; the flag says that it asks for STATUS.
pub fn form(verb: Keyword, of_status: bool) -> &'static [FormPlace]
    ensures { result.now ≡ form verb of_status }
{
    match verb {
        Keyword::Level => &[
            FormPlace {
                kind: Kind::Key(Keyword::Level),
                role: Role::Counter,
                optional: false,
            },
            one!(Any, CounterName),
            one!(PictureWord, Plain),
            maybe!(Is),
            one!(Picture, Plain),
        ],
        Keyword::Move => &[
            say!(Move),
            one!(Value, FirstValue),
            say!(To),
            one!(Field, MovedTo),
        ],
        Keyword::Add => &[
            say!(Add),
            one!(Value, FirstNumber),
            say!(To),
            one!(Field, CountedTo),
        ],
        Keyword::Subtract => &[
            say!(Subtract),
            one!(Value, FirstNumber),
            say!(From),
            one!(Field, CountedTo),
        ],
        Keyword::Go => &[say!(Go), say!(To), one!(Any, Paragraph)],
        Keyword::If => if_form(of_status),
        Keyword::Assert => assert_form(of_status),
        Keyword::Stop => &[say!(Stop)],
        _ => &[],
    }
}

fn if_form(of_status: bool) -> &'static [FormPlace]
    ensures { result.now ≡ form Keyword.If of_status }
{
    if of_status {
        &[
            say!(If),
            say!(Status),
            maybe!(Not),
            one!(EqualSign, Plain),
            one!(Code, Plain),
            say!(Go),
            say!(To),
            one!(Any, Paragraph),
        ]
    } else {
        &[
            say!(If),
            one!(Value, FirstValue),
            maybe!(Not),
            one!(Relation, Plain),
            one!(Value, SecondValue),
            say!(Go),
            say!(To),
            one!(Any, Paragraph),
        ]
    }
}

fn assert_form(of_status: bool) -> &'static [FormPlace]
    ensures { result.now ≡ form Keyword.Assert of_status }
{
    if of_status {
        &[
            say!(Assert),
            say!(Status),
            maybe!(Not),
            one!(EqualSign, Plain),
            one!(Code, Plain),
        ]
    } else {
        &[
            say!(Assert),
            one!(Value, FirstValue),
            maybe!(Not),
            one!(Relation, Plain),
            one!(Value, SecondValue),
        ]
    }
}
