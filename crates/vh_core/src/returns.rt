//! What is on its way back to the controllers.

ghost use Rattle.std.specs.Prelude.{◌≡◌, ◌≤◌, ◌+◌, ◌++◌, [], ◌∷◌, length, map, filter, take, drop, slice_index};
ghost use Rattle.std.specs.List.{range_with_len};
ghost use Rattle.std.specs.VecDeque.{deque_len, deque_capacity};
ghost use Rattle.vh_core.specs.State.{Echo};
ghost use Rattle.vh_core.specs.Steps.{has_changed, given};
ghost use Rattle.vh_core.specs.Kept.{return_of};

use std::collections::VecDeque;
use vh_params::Reply;

/// A parameter's value, or a reply to a message.
#[derive(Clone, Copy, Debug, PartialEq, Eq)]
pub(crate) enum Return {
    /// The parameter by its place among those of all nodes, and its normalised value.
    Echo { place: usize, value: u32 },
    Reply(Reply),
}

/// Tells each parameter that is seen to have changed.
pub(crate) fn tell(old: &[u32], new: &[u32], returns: &mut VecDeque<Return>)
    requires each { length new.now ≡ length old.now }
    requires room { deque_len returns.old + length new.now ≤ deque_capacity returns.old }
    ensures { map return_of returns.new.items ≡ map return_of returns.old.items ++ map (λ place. Echo place (slice_index new.now place)) (filter (has_changed old.now new.now) (range_with_len 0 (length new.now))) }
{
    for place in 0..new.len() {
        let value = new[place];
        if value == old[place] {
            continue;
        }
        returns.push_back_reserved(Return::Echo { place, value });
    }
}

/// Gives a parameter's controller its value; a reply changes none.
fn give(back: Return, controllers: &mut [u32])
    ensures { controllers.new ≡ given (return_of back ∷ []) controllers.old }
{
    if let Return::Echo { place, value } = back
        && place < controllers.len()
    {
        controllers[place] = value;
    }
}

/// Gives the controllers the first of what comes back, so many.
pub(crate) fn give_back(count: u32, returns: &mut VecDeque<Return>, controllers: &mut [u32])
    ensures returns { map return_of returns.new.items ≡ drop count (map return_of returns.old.items) }
    ensures controllers { controllers.new ≡ given (take count (map return_of returns.old.items)) controllers.old }
{
    for _ in 0..count {
        match returns.pop_front() {
            Some(back) => give(back, controllers),
            None => return,
        }
    }
}
