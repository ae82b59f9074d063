//! The numbers that a holder carries.

ghost use Rattle.std.specs.Prelude.{◌≡◌, ◌≤◌, ◌<◌, ◌+◌, ◌^◌, ℕ, length, sum, slice_index, true};
ghost use Rattle.vh_counted.specs.Steps.{total, at_interface, added, released, split_off, split_part, joined, first_numbers, IsWithin};

/// What a holder has and did: its references at each position of the object's interfaces, the adds that
/// it may still make, the adds and the releases that it made, the count after the last of these, and
/// whether it made the release that ended the object.
#[derive(Clone, Copy)]
pub struct Numbers {
    pub references: [u32; 16],
    pub room: u32,
    pub adds: u32,
    pub releases: u32,
    pub seen: u64,
    pub ender: bool,
}

impl Numbers {
    /// One reference at position 0, and all room.
    pub fn first(room: u32) -> Numbers
        ensures { result ≡ first_numbers room }
    {
        Numbers {
            references: [1, 0, 0, 0, 0, 0, 0, 0, 0, 0, 0, 0, 0, 0, 0, 0],
            room,
            adds: 0,
            releases: 0,
            seen: 0,
            ender: false,
        }
    }

    /// The references at an interface, of which there are none beyond the object's.
    pub fn at(&self, iface: u32) -> u32
        ensures { result ≡ at_interface self.now iface }
    {
        self.references.get(iface as usize).copied().unwrap_or(0)
    }

    /// All references.
    pub fn total(&self) -> u32
        requires { total self.now < 2 ^ 32 }
        ensures { result ≡ total self.now }
    {
        self.references.iter().sum()
    }

    /// The first interface at which there is a reference.
    pub fn place(&self) -> u32
        requires { 1 ≤ total self.now }
        ensures { 1 ≤ at_interface self.now result }
    {
        for i in 0..15 {
            if self.references[i] > 0 {
                return i as u32;
            }
        }
        15
    }

    /// One reference more, after which the count is `seen`.
    pub fn add(&mut self, iface: u32, seen: u64)
        requires iface { iface < 16 }
        requires room { 0 < self.old.room }
        requires within { IsWithin self.old }
        ensures { self.new ≡ added iface seen self.old }
    {
        self.references[iface as usize] += 1;
        self.room -= 1;
        self.adds += 1;
        self.seen = seen;
    }

    /// One reference less, after which the count is `seen`.
    pub fn release(&mut self, iface: u32, seen: u64)
        requires iface { iface < 16 }
        requires held { 0 < slice_index self.old.references iface }
        requires within { IsWithin self.old }
        ensures { self.new ≡ released iface seen self.old }
    {
        self.references[iface as usize] -= 1;
        self.releases += 1;
        self.seen = seen;
        self.ender |= seen == 0;
    }

    /// Gives references at a position, and room, to a new holder.
    pub fn split(&mut self, iface: u32, n: u32, room: u32) -> Numbers
        requires iface { iface < 16 }
        requires held { n ≤ slice_index self.old.references iface }
        requires room { room ≤ self.old.room }
        ensures rest { self.new ≡ split_off iface n room self.old }
        ensures part { result ≡ split_part iface n room }
    {
        self.references[iface as usize] -= n;
        self.room -= room;
        let mut references = [0; 16];
        references[iface as usize] = n;
        Numbers {
            references,
            room,
            adds: 0,
            releases: 0,
            seen: 0,
            ender: false,
        }
    }

    /// Takes all that another holder has.
    pub fn join(&mut self, other: &Numbers)
        requires other { IsWithin other.now }
        requires within { IsWithin (joined self.old other.now) }
        ensures { self.new ≡ joined self.old other.now }
    {
        let mut references = self.references;
        for i in 0..16 {
            references[i] += other.references[i];
        }
        self.references = references;
        self.room += other.room;
        self.adds += other.adds;
        self.releases += other.releases;
        self.ender |= other.ender;
    }
}
