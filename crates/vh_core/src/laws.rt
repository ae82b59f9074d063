//! Laws of machines.

ghost use Rattle.vh_core.specs.Laws.{KeptByEvents, SoundAfterEvents, EqualWhereSettled, Events};

/// Every event keeps three things: of each editor journal and inbox are the edits of its words, numbered from 0; what
/// was rendered is the front of the rendering under the journal; and what comes back gives each controller what its
/// processor shows, or the change waits to be told.
pub fn kept_by_events()
    ensures { KeptByEvents }
{}

/// All three hold after every list of events, for every session and input.
pub fn sound_after_events()
    ensures { SoundAfterEvents }
{}

/// Where nothing is on its way, controllers have what processors show.
pub fn equal_where_settled()
    ensures { EqualWhereSettled }
{}

/// To every legal journal there are events by which a machine comes to it, to its rendering, and to controllers at the
/// values of the end, over every input.
pub fn events()
    ensures { Events }
{
    vh_legal::laws::legal_is_journal();
    vh_cut::laws::pieces_lie_end_to_end();
}
