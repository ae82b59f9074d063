//! Laws of what classes, blocks and values mean: the contracts of these functions.

ghost use Rattle.vh_plugin.specs.Laws.{BlockGoesOn, SetIsRead, OthersStay, SetStaysWithin, PointsSetTheirOwn, ValuesStayEach, GivenIsHad, BytesAreTakenBack};

/// A block that begins where the samples before it ended goes on in their stream, however it was cut.
pub fn block_goes_on()
    ensures { BlockGoesOn }
{}

/// What a parameter was set to is what is read of it.
pub fn set_is_read()
    ensures { SetIsRead }
{}

/// Setting a parameter leaves every other one.
pub fn others_stay()
    ensures { OthersStay }
{}

/// Setting a parameter leaves one value for each, at most 1.0.
pub fn set_stays_within()
    ensures { SetStaysWithin }
{}

/// In a block each parameter's value is changed by the points of its own queue, and by no others.
pub fn points_set_their_own()
    ensures { PointsSetTheirOwn }
{}

/// In a block and behind it there is one value for each parameter.
pub fn values_stay_each()
    ensures { ValuesStayEach }
{}

/// What the writable parameters were given is what they have.
pub fn given_is_had()
    ensures { GivenIsHad }
{}

/// State bytes that are taken back give the writable parameters their values, and leave all others.
pub fn bytes_are_taken_back()
    ensures { BytesAreTakenBack }
{}
