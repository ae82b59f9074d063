ghost use Rattle.std.specs.Prelude.{◌≡◌, ◌≢◌, ◌↔◌, IsTrue, ℕ, ◌≤◌, ◌<◌, ◌+◌, ◌-◌, ◌++◌, ◌^◌, [], ◌∷◌, length, IfOk, slice_index_or};
ghost use Rattle.vh_points.specs.declared.points.Queue.{Queue as Stored};
ghost use Rattle.vh_points.specs.Queues.{AreLawful, LacksId, MayFollow, queue_at, with_point};
ghost use Rattle.vh_points.specs.Stored.{queues_in, ArePlaced};

use std::alloc::{AllocError, Global};

/// A queue's parameter, and where its points stand.
#[derive(Clone, Copy)]
struct Queue {
    id: u32,
    start: usize,
    size: usize,
}

/// Whether none of these queues has this id.
fn lacks_id(queues: &[Queue], id: u32) -> bool
    ensures { IsTrue result ↔ ((i : ℕ) (d : Stored) → i < length queues.now → (slice_index_or queues.now i d).id ≢ id) }
{
    for queue in queues {
        if queue.id == id {
            return false;
        }
    }
    true
}

/// Queues of points: of each parameter at most one, with offsets that rise and no value twice running.
///
/// All memory is taken by [`Points::new`].
#[derive(Drop)]
pub struct Points {
    queues: Vec<Queue>,
    points: Vec<(u32, u32)>,
    count: usize,
    used: usize,
    ghost counted: { count ≤ length queues.items },
    ghost within: { used ≤ length points.items },
    ghost placed: { ArePlaced queues.items count used },
    ghost lawful: { AreLawful (queues_in queues.items points.items count) },
}

impl Points {
    ghost use Rattle.vh_points.specs.Model.{queues_of, queue_room, most_points, point_room};

    /// No queues, with room for so many queues, at most 64, and so many points, at most 524,288.
    pub fn new(alloc: Global, queues: usize, points: usize) -> Result<Points, AllocError>
        requires queues { queues ≤ 64 }
        requires points { points ≤ 524288 }
        ensures none { IfOk result (λ made. queues_of made ≡ []) }
        ensures queue_room { IfOk result (λ made. queue_room made ≡ queues) }
        ensures most_points { IfOk result (λ made. most_points made ≡ points) }
        ensures point_room { IfOk result (λ made. point_room made ≡ points) }
    {
        let none = Queue {
            id: 0,
            start: 0,
            size: 0,
        };
        Ok(Points {
            queues: vec![in alloc; none; queues]?,
            points: vec![in alloc; (0u32, 0u32); points]?,
            count: 0,
            used: 0,
        })
    }

    /// Adds a queue without points for a parameter that has none, and answers its number.
    pub fn add_queue(&mut self, id: u32) -> usize
        requires room { 0 < queue_room self.old }
        requires lacks { LacksId (queues_of self.old) id }
        ensures number { result ≡ length (queues_of self.old) }
        ensures added { queues_of self.new ≡ queues_of self.old ++ record { id = id; points = [] } ∷ [] }
        ensures queue_room { queue_room self.new + 1 ≡ queue_room self.old }
        ensures most_points { most_points self.new ≡ most_points self.old }
        ensures point_room { point_room self.new ≡ point_room self.old }
    {
        let q = self.count;
        self.queues[q] = Queue {
            id,
            start: self.used,
            size: 0,
        };
        self.count += 1;
        q
    }

    /// Adds a point to the last queue: a normalised value, 0 to 2^24, at an offset in samples.
    pub fn add_point(&mut self, q: usize, offset: u32, value: u32)
        requires last { q + 1 ≡ length (queues_of self.old) }
        requires room { 0 < point_room self.old }
        requires value { value ≤ 2 ^ 24 }
        requires follows { MayFollow (queue_at (queues_of self.old) q).points (offset, value) }
        ensures added { queues_of self.new ≡ with_point (queues_of self.old) q (offset, value) }
        ensures queue_room { queue_room self.new ≡ queue_room self.old }
        ensures most_points { most_points self.new ≡ most_points self.old }
        ensures point_room { point_room self.new + 1 ≡ point_room self.old }
    {
        self.points[self.used] = (offset, value);
        self.queues[q].size += 1;
        self.used += 1;
    }

    /// How many more queues there is room for.
    pub fn free_queues(&self) -> usize
        ensures { result ≡ queue_room self.now }
    {
        self.queues.len() - self.count
    }

    /// How many more points there is room for.
    pub fn free_points(&self) -> usize
        ensures { result ≡ point_room self.now }
    {
        self.points.len() - self.used
    }

    /// Whether no queue is a parameter's.
    pub fn lacks(&self, id: u32) -> bool
        ensures { IsTrue result ↔ LacksId (queues_of self.now) id }
    {
        lacks_id(&self.queues[..self.count], id)
    }

    /// Whether a point may stand behind a queue's points: its offset is above the last one's, and its
    /// value is another.
    pub fn may_follow(&self, q: usize, offset: u32, value: u32) -> bool
        requires { q < length (queues_of self.now) }
        ensures { IsTrue result ↔ MayFollow (queue_at (queues_of self.now) q).points (offset, value) }
    {
        let (_, size) = self.queue(q);
        if size == 0 {
            return true;
        }
        let (last_offset, last_value) = self.point(q, size - 1);
        last_offset < offset && last_value != value
    }

    /// Takes all queues away.
    pub fn clear(&mut self)
        ensures none { queues_of self.new ≡ [] }
        ensures queue_room { queue_room self.new ≡ queue_room self.old + length (queues_of self.old) }
        ensures most_points { most_points self.new ≡ most_points self.old }
        ensures point_room { point_room self.new ≡ most_points self.old }
    {
        self.count = 0;
        self.used = 0;
    }

    /// The number of queues. Of each parameter there is at most one, and its points rise: their offsets do,
    /// no value stands twice running, and none is above 2^24.
    pub fn queues(&self) -> usize
        ensures count { result ≡ length (queues_of self.now) }
        ensures lawful { AreLawful (queues_of self.now) }
    {
        self.count
    }

    /// The parameter of a queue, and the number of its points.
    pub fn queue(&self, i: usize) -> (u32, usize)
        requires { i < length (queues_of self.now) }
        ensures id { result.0 ≡ (queue_at (queues_of self.now) i).id }
        ensures points { result.1 ≡ length (queue_at (queues_of self.now) i).points }
    {
        let queue = self.queues[i];
        (queue.id, queue.size)
    }

    /// The offset and the value of a point.
    pub fn point(&self, i: usize, j: usize) -> (u32, u32)
        requires queue { i < length (queues_of self.now) }
        requires point { j < length (queue_at (queues_of self.now) i).points }
        ensures point { result ≡ slice_index_or (queue_at (queues_of self.now) i).points j (0, 0) }
        ensures within { result.1 ≤ 2 ^ 24 }
    {
        self.points[self.queues[i].start + j]
    }
}
