//! The least node on a cycle, by a search in depth for the nodes that lead to each other.

ghost use Rattle.std.specs.Prelude.{◌-◌, Bool, List, ◌≡◌, ◌≤◌, ◌<◌, ◌^◌, ◌++◌, ◌&&◌, ◌||◌, ℕ, [], ◌∷◌, take, drop, length, All, Contains, slice_index_or, set, Option, Some, None, Vec, IfOk, OnOk};
ghost use Rattle.std.specs.declared.alloc.Global.{Global};
ghost use Rattle.vh_graph.specs.Paths.{AreLinked, FindsLeast};
ghost use Rattle.vh_graph.specs.Steps.{IsFirst, IsJoined, IsClosed, IsLooped, part_of};
ghost use Rattle.vh_graph.specs.declared.search.Place.TheVariants.{Open};

use std::alloc::{AllocError, Global};

/// Where the search has a node.
#[derive(Clone, Copy, PartialEq, Eq)]
enum Place {
    Unseen,
    /// On the path, at this place.
    Open(usize),
    /// With all that leads to it.
    Closed { on_cycle: bool },
}

/// Nodes that lead to each other: those from `node` of the path on, up to the next part. What is still
/// to be read of their sources begins at `unread`.
#[derive(Clone, Copy)]
struct Part {
    node: usize,
    unread: usize,
}

/// Whether nodes that lead to each other are on a cycle.
fn is_looped(nodes: &[u32], sources: &[Vec<u32>]) -> bool
    requires some { 0 < length nodes.now }
    requires within { All (λ node. node < length sources.now) nodes.now }
    ensures { IsLooped sources.now nodes.now result }
{
    nodes.len() > 1 || sources[nodes[0] as usize].contains(&nodes[0])
}

/// Closes these nodes.
fn close(places: &mut [Place], nodes: &[u32], on_cycle: bool)
    requires within { All (λ node. node < length places.old) nodes.now }
    ensures { IsClosed on_cycle nodes.now places.old places.new }
{
    for &node in nodes {
        places[node as usize] = Place::Closed { on_cycle };
    }
}

/// Makes one part of those that reach past this place of the path, and that of the place.
fn join(parts: &mut Vec<Part>, place: usize)
    ensures { IsJoined place parts.old.items parts.new.items }
{
    while let Some(&part) = parts.last() {
        if part.node <= place {
            return;
        }
        parts.pop();
    }
}

/// A search from node to source.
#[derive(Drop)]
struct Search {
    places: Vec<Place>,
    path: Vec<u32>,
    parts: Vec<Part>,
    unread: Vec<u32>,
}

impl Search {
    /// Adds a node to the path, in a part of its own.
    fn enter(&mut self, node: u32, sources: &[u32]) -> Result<(), AllocError>
        requires { node < length self.old.places.items }
        ensures places { OnOk result (self.new.places.items ≡ set self.old.places.items node (Open (length self.old.path.items))) }
        ensures path { OnOk result (self.new.path.items ≡ self.old.path.items ++ node ∷ []) }
        ensures parts { OnOk result (self.new.parts.items ≡ self.old.parts.items ++ part_of (length self.old.path.items) (length self.old.unread.items) ∷ []) }
        ensures unread { OnOk result (self.new.unread.items ≡ self.old.unread.items ++ sources.now) }
    {
        self.parts.push(Part {
            node: self.path.len(),
            unread: self.unread.len(),
        })?;
        self.places[node as usize] = Place::Open(self.path.len());
        self.path.push(node)?;
        self.unread.extend_from_slice(sources)
    }

    /// Takes the last part from the path, of which all sources have been read.
    fn leave(&mut self, part: Part, sources: &[Vec<u32>])
        requires part { part.node < length self.old.path.items }
        requires path { All (λ node. node < length self.old.places.items) self.old.path.items }
        requires sources { length sources.now ≡ length self.old.places.items }
        ensures closed { (on_cycle : Bool) × IsClosed on_cycle (drop part.node self.old.path.items) self.old.places.items self.new.places.items × IsLooped sources.now (drop part.node self.old.path.items) on_cycle }
        ensures path { self.new.path.items ≡ take part.node self.old.path.items }
        ensures parts { self.new.parts.items ≡ take (length self.old.parts.items - 1) self.old.parts.items }
        ensures unread { self.new.unread.items ≡ self.old.unread.items }
    {
        self.parts.pop();
        let nodes = &self.path[part.node..];
        let on_cycle = is_looped(nodes, sources);
        close(self.places.as_mut_slice(), nodes, on_cycle);
        self.path.truncate(part.node);
    }
}

/// The first node that is closed as one on a cycle.
fn first_on_cycle(places: &[Place]) -> Option<u32>
    requires { length places.now < 2 ^ 32 }
    ensures { IsFirst places.now result }
{
    for node in 0..places.len() {
        if places[node] == (Place::Closed { on_cycle: true }) {
            return Some(node as u32);
        }
    }
    None
}

/// The least node on a cycle. Takes time linear in nodes and wires.
pub(crate) fn least_on_cycle(alloc: Global, sources: &[Vec<u32>]) -> Result<Option<u32>, AllocError>
    requires count { length sources.now < 2 ^ 32 }
    requires linked { (wires : List (ℕ × ℕ)) × AreLinked wires sources.now }
    ensures least { (wires : List (ℕ × ℕ)) → AreLinked wires sources.now → IfOk result (FindsLeast wires) }
{
    let mut search = Search {
        places: vec![in alloc; Place::Unseen; sources.len()]?,
        path: Vec::new(alloc),
        parts: Vec::new(alloc),
        unread: Vec::new(alloc),
    };
    for node in 0..sources.len() {
        if search.places[node] != Place::Unseen {
            continue;
        }
        search.enter(node as u32, &sources[node])?;
        while let Some(&part) = search.parts.last() {
            if search.unread.len() == part.unread {
                search.leave(part, sources);
            } else if let Some(source) = search.unread.pop() {
                match search.places[source as usize] {
                    Place::Unseen => search.enter(source, &sources[source as usize])?,
                    Place::Open(place) => join(&mut search.parts, place),
                    Place::Closed { .. } => {}
                }
            }
        }
    }
    Ok(first_on_cycle(&search.places))
}
