//! How far a statement without a ticket has come with its needs. It is kept from one need to the next, so that nothing already settled
//! is asked again.

use dbtg_schema::AreaNo;

/// What is settled about a statement's needs.
#[derive(Drop)]
pub enum Course {
    /// A check without cells refuses the statement: it needs nothing.
    Refused,
    /// No such check refuses it; until this area is held, it is needed next.
    Wants(AreaNo),
    /// No area is left to take; for a DELETE, how far it has come with its cells.
    HasAreas(Option<dbtg_erase::Course>),
}
