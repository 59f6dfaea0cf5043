//! The text that gives the order in which units make their statements.
ghost use Rattle.std.specs.Prelude.{◌≡◌};
ghost use Rattle.dbtg_command.specs.Sources.{kind_of};

/// The text that gives the order: moves give it event by event, turns statement by statement, each as a text or as the path of one;
/// without either, one script is made after the other.
#[derive(Clone, Copy, Drop)]
pub enum Order<T> {
    Serial,
    Moves(T),
    Turns(T),
}

/// An order without its text.
#[derive(Clone, Copy)]
pub enum OrderKind {
    Serial,
    Moves,
    Turns,
}

impl<T> Order<T> {
    /// The order without its text.
    pub fn kind(&self) -> OrderKind
        ensures { result ≡ kind_of self.now }
    {
        match self {
            Order::Serial => OrderKind::Serial,
            Order::Moves(_) => OrderKind::Moves,
            Order::Turns(_) => OrderKind::Turns,
        }
    }
}
