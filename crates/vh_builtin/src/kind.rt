//! The kinds of built-in classes.

ghost use Rattle.std.specs.Prelude.{◌≡◌, ◌<◌, ◌≤◌, ◌+◌, length};
ghost use Rattle.vh_plugin.specs.Quiet.{ids_of};
ghost use Rattle.vh_builtin.specs.Builtins.{builtin};
ghost use Rattle.vh_builtin.specs.Bytes.{writable_ids};
ghost use Rattle.vh_builtin.specs.Partners.{component_of};

use vh_ids::Tuid;

/// The built-in classes, in the order of their numbers.
#[derive(Clone, Copy, Debug, PartialEq, Eq)]
pub enum Kind {
    Gain,
    Balance,
    Delay,
    OnePole,
    Crusher,
    Gate,
    Meter,
    Tap,
}

impl Kind {
    ghost use Rattle.vh_builtin.specs.Kinds.{kind_number};

    /// The kind of a class number.
    pub fn of_number(number: u32) -> Kind
        requires { number < 8 }
        ensures { kind_number result ≡ number }
    {
        match number {
            0 => Kind::Gain,
            1 => Kind::Balance,
            2 => Kind::Delay,
            3 => Kind::OnePole,
            4 => Kind::Crusher,
            5 => Kind::Gate,
            6 => Kind::Meter,
            _ => Kind::Tap,
        }
    }

    /// The ids of its parameters, by rising id.
    pub fn ids(self) -> &'static [u32]
        ensures { result.now ≡ ids_of (builtin (kind_number self)).params }
    {
        match self {
            Kind::Balance | Kind::OnePole | Kind::Tap => &[0],
            Kind::Gain | Kind::Crusher | Kind::Meter => &[0, 1],
            Kind::Delay | Kind::Gate => &[0, 1, 2],
        }
    }

    /// The ids of those of its parameters that can be set, which stand before the others.
    pub fn writable(self) -> &'static [u32]
        ensures ids { result.now ≡ writable_ids (builtin (kind_number self)).params }
        ensures most { length result.now ≤ 3 }
        ensures params { length result.now ≤ length (builtin (kind_number self)).params }
    {
        match self {
            Kind::Balance | Kind::OnePole | Kind::Tap => &[0],
            Kind::Gain | Kind::Crusher => &[0, 1],
            Kind::Delay | Kind::Gate => &[0, 1, 2],
            Kind::Meter => &[],
        }
    }

    /// The last byte of its identifiers.
    fn last_byte(self) -> u8
        ensures { result ≡ kind_number self + 1 }
    {
        match self {
            Kind::Gain => 1,
            Kind::Balance => 2,
            Kind::Delay => 3,
            Kind::OnePole => 4,
            Kind::Crusher => 5,
            Kind::Gate => 6,
            Kind::Meter => 7,
            Kind::Tap => 8,
        }
    }

    /// The identifier of its components' class.
    pub fn component(self) -> Tuid
        ensures { result.0 ≡ component_of (kind_number self + 1) }
    {
        let k = self.last_byte();
        Tuid([86, 72, 83, 84, 67, 79, 77, 80, 0, 0, 0, 0, 0, 0, 0, k])
    }

    /// The identifier of its controllers' class.
    pub fn controller(self) -> Tuid
        ensures { result.0 ≡ (builtin (kind_number self)).partner }
    {
        let k = self.last_byte();
        Tuid([86, 72, 83, 84, 69, 68, 73, 84, 0, 0, 0, 0, 0, 0, 0, k])
    }
}
