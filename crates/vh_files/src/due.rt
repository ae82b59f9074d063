//! Which calls on a store in memory fail.

ghost use Rattle.std.specs.Prelude.{◌≡◌, ◌↔◌, IsTrue, Contains};
ghost use Rattle.vh_files.specs.Due.{next_number, made, counted, IsDue};

/// A kind of call on a store of files.
#[derive(Clone, Copy, Debug, PartialEq, Eq)]
pub enum Op {
    Size,
    Read,
    Create,
    Append,
}

/// How many calls of each kind were made.
#[derive(Clone, Copy, Debug)]
pub struct Calls {
    pub size: u64,
    pub read: u64,
    pub create: u64,
    pub append: u64,
}

impl Calls {
    pub const NONE: Calls = Calls {
        size: 0,
        read: 0,
        create: 0,
        append: 0,
    };

    /// Counts a call, and answers its number.
    pub fn count(&mut self, op: Op) -> u64
        ensures number { result ≡ next_number (made self.old op) }
        ensures counted { self.new ≡ counted self.old op }
    {
        match op {
            Op::Size => {
                self.size = self.size.saturating_add(1);
                self.size
            }
            Op::Read => {
                self.read = self.read.saturating_add(1);
                self.read
            }
            Op::Create => {
                self.create = self.create.saturating_add(1);
                self.create
            }
            Op::Append => {
                self.append = self.append.saturating_add(1);
                self.append
            }
        }
    }
}

/// Counts a call, and answers whether it is listed.
pub fn is_due(failing: &[(Op, u64)], calls: &mut Calls, op: Op) -> bool
    ensures due { IsTrue result ↔ IsDue failing.now calls.old op }
    ensures counted { calls.new ≡ counted calls.old op }
{
    let number = calls.count(op);
    failing.contains(&(op, number))
}
