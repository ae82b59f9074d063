//! Laws of the session language.

ghost use Rattle.vh_session.specs.Laws.{PrintedIsRead, TextsHaveOneMeaning};

/// A session's canonical text is read as this session, or there is no memory.
pub fn printed_is_read()
    ensures { PrintedIsRead }
{}

/// A text says no two sessions, has no two faults, and doesn't both say a session and have a fault.
pub fn texts_have_one_meaning()
    ensures { TextsHaveOneMeaning }
{}
