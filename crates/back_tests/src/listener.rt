//! A controller that keeps what it is told.

ghost use Rattle.std.specs.Prelude.{◌≡◌, ◌≤◌, IfOk};
ghost use Rattle.vh_builtin.specs.Kinds.{kind_number};
ghost use Rattle.vh_counted.specs.Held.{object_of, object_of_opened, numbers_of_opened};
ghost use Rattle.vh_counted.specs.Objects.{IsWhole};

use std::alloc::{AllocError, Global};
use vh_builtin::{Editor, Kind};
use vh_counted::{Counted, Opened, Shell};
use vh_params::Words;
use vh_plugin::Controller;

/// The controller of a gain. It keeps how often it was set, the first number of each message, up to eight, and
/// what it was set to last.
#[derive(Drop)]
pub struct Listener {
    editor: Editor,
    heard: [u32; 8],
    count: usize,
    pub sets: u32,
    pub latest: u32,
    ghost gain: { kind_number editor.kind ≡ 0 },
    ghost within: { count ≤ 8 },
}

impl Listener {
    pub fn new(alloc: Global) -> Result<Listener, AllocError> {
        Ok(Listener {
            editor: Editor::new(alloc, Kind::Gain)?,
            heard: [0; 8],
            count: 0,
            sets: 0,
            latest: 0,
        })
    }

    /// The value of the parameter Level.
    pub fn level(&self) -> u32 {
        self.editor.normalized(0)
    }

    /// The first numbers of the messages.
    pub fn heard(&self) -> &[u32] {
        &self.heard[..self.count]
    }
}

impl Controller for Listener {
    ghost use Rattle.vh_builtin.specs.Builtins.{builtin};
    ghost use Rattle.vh_builtin.specs.Lawful.{builtin_lawful};

    ghost class_of = { builtin };

    ghost code = { λ it. kind_number it.editor.kind };

    ghost values = { λ it. it.editor.values.items };

    ghost mode = { λ it. it.editor.mode };

    fn set_component_state(&mut self, bytes: &[u8]) -> bool {
        self.editor.set_component_state(bytes)
    }

    fn set_state(&mut self, bytes: &[u8]) -> bool {
        self.editor.set_state(bytes)
    }

    fn state(&self, alloc: Global) -> Result<Vec<u8>, AllocError> {
        self.editor.state(alloc)
    }

    fn set_normalized(&mut self, id: u32, value: u32) {
        self.editor.set_normalized(id, value);
        self.sets = self.sets.saturating_add(1);
        self.latest = value;
    }

    fn normalized(&self, id: u32) -> u32 {
        self.editor.normalized(id)
    }

    fn notify(&mut self, message: &Words) {
        if self.count < 8 {
            self.heard[self.count] = message.numbers().first().copied().unwrap_or(0);
            self.count += 1;
        }
    }

    fn mode(&self) -> u32 {
        self.editor.mode()
    }

    ghost lawful = { builtin_lawful };

    ghost valued = { λ it. it.editor.valued };

    ghost moded = { λ it. it.editor.two };
}

/// A listener's object, and its opener.
pub fn make(alloc: Global) -> Result<(Counted<Listener>, Opened<Listener>), AllocError>
    ensures object { IfOk result (λ made. object_of_opened made.1 ≡ object_of made.0) }
    ensures whole { IfOk result (λ made. IsWhole (object_of made.0).cap (numbers_of_opened made.1)) }
{
    let shell = Shell::new(alloc, 4, 0)?;
    Ok(shell.fill(Listener::new(alloc)?))
}

/// Ends it.
pub fn end(object: Counted<Listener>, opener: Opened<Listener>)
    requires object { object_of_opened opener ≡ object_of object }
    requires whole { IsWhole (object_of object).cap (numbers_of_opened opener) }
{
    let (holder, ended) = object.end_whole(opener);
    object.dissolve(holder);
    ended.finish();
}
