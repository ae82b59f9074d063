//! Laws of the definitions: the contracts of these functions.

ghost use Rattle.vh_back.specs.Laws.{TheLastStands, TheRestStays, ThePartsFollow};

use crate::follower::Follower;
use crate::sender::Sender;

/// Where each echo sets its parameter, one after the other, each parameter has the value of its last echo.
pub fn the_last_stands()
    ensures { TheLastStands }
{}

/// Where nothing was echoed, all values stay.
pub fn the_rest_stays()
    ensures { TheRestStays }
{}

/// The values of several nodes follow as those of each node do.
pub fn the_parts_follow()
    ensures { ThePartsFollow }
{}

fn crosses<X: Send>() {}

/// Both ends may cross threads.
pub fn cross_threads() {
    crosses::<Sender>();
    crosses::<Follower>();
}
