//! The results of a run: the result of each move, the image of its database, its history and its units.
ghost use Rattle.std.specs.Prelude.{◌≡◌};

use dbtg_schema::Row;
use dbtg_unit::{Entry, Image, Stepped, Unit};

/// The result of each move of a run, and then the image, the statements that drew a ticket, in the order of their
/// tickets, and the units by number.
#[derive(Drop)]
pub struct Run {
    pub results: Row<Stepped>,
    pub image: Image,
    pub history: Row<Entry>,
    pub units: Row<Unit>,
}

impl Run {
    /// The history alone.
    pub fn into_history(self) -> Row<Entry>
        ensures { result ≡ self.history }
    {
        let Run { history, .. } = self;
        history
    }
}
