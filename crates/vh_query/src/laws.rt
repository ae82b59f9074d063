//! COM's rules for `queryInterface` as laws of the tables. A table has no call that changes it, and what is
//! found depends on the table and the identifier alone.

ghost use Rattle.vh_query.specs.Laws.{UnknownIsFirst, EachIsFound, FoundIsAsked};

/// `FUnknown` is found at position 0 of every table.
pub fn unknown_is_first()
    ensures { UnknownIsFirst }
{}

/// Each interface of a table is found, at its own position.
pub fn each_is_found()
    ensures { EachIsFound }
{}

/// What is found has the identifier that was asked for.
pub fn found_is_asked()
    ensures { FoundIsAsked }
{}
