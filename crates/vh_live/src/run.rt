//! A session and its band while they are played.

ghost use Rattle.std.specs.Prelude.{◌≡◌, ◌≤◌, ℕ, [], length, false, All, IfOk, IfErr, vec_capacity};
ghost use Rattle.vh_cut.specs.Cut.{IsPattern};
ghost use Rattle.vh_params.specs.Nodes.{nodes_of};
ghost use Rattle.vh_session.specs.Names.{content_of};
ghost use Rattle.vh_legal.specs.Legal.{scripts_of};
ghost use Rattle.vh_inbox.specs.Values.{new_drain};
ghost use Rattle.vh_editors.specs.Scripts.{quotas_of};
ghost use Rattle.vh_editors.specs.Values.{seated};
ghost use Rattle.vh_live.specs.Bands.{IsMadeFor};
ghost use Rattle.vh_live.specs.Runs.{IsSetUp};

use std::alloc::{AllocError, Global};
use vh_counted::{Counted, Holder, Opened};
use vh_editors::Editors;
use vh_engine::Parts;
use vh_hands::Hands;
use vh_inbox::Drain;
use vh_instance::Band;
use vh_plugin::{Controller, Processor};
use vh_session::Session;
use vh_stage::Stage;

/// A session and its band while they are played.
pub(crate) struct Run<P: Processor + Drop, C> {
    pub(crate) stage: Stage<P>,
    pub(crate) editors: Editors,
    pub(crate) drain: Drain,
    pub(crate) hands: Hands<C>,
    pub(crate) components: Vec<Counted<P>>,
    /// The sizes of blocks.
    pub(crate) sizes: Vec<u32>,
    /// Has a place for each editor's number of refused words.
    pub(crate) refused: Vec<u32>,
}

/// What a session is played with beside its band.
#[derive(Drop)]
struct Supplies {
    editors: Editors,
    drain: Drain,
    sizes: Vec<u32>,
    refused: Vec<u32>,
}

impl Supplies {
    fn new(alloc: Global, session: &Session) -> Result<Supplies, AllocError>
        ensures editors { IfOk result (λ supplies. supplies.editors ≡ seated supplies.drain.inbox (nodes_of session.now.nodes) (scripts_of session.now) false) }
        ensures drain { IfOk result (λ supplies. supplies.drain ≡ new_drain supplies.drain.inbox supplies.drain.capacity (quotas_of (scripts_of session.now))) }
        ensures sizes { IfOk result (λ supplies. supplies.sizes.items ≡ (content_of session.now).pattern) }
        ensures pattern { IfOk result (λ supplies. IsPattern supplies.sizes.items) }
        ensures refused { IfOk result (λ supplies. supplies.refused.items ≡ []) }
        ensures places { IfOk result (λ supplies. length (scripts_of session.now) ≤ vec_capacity supplies.refused) }
    {
        let (editors, drain) = Editors::new(alloc, session)?;
        let sizes = Vec::from_slice(alloc, session.block_sizes())?;
        let refused = Vec::with_capacity(alloc, editors.count())?;
        Ok(Supplies {
            editors,
            drain,
            sizes,
            refused,
        })
    }
}

/// The longest of some sizes of blocks.
fn longest(sizes: &[u32]) -> u32
    ensures some { 1 ≤ result }
    ensures most { (most : ℕ) → 1 ≤ most → All (λ size. size ≤ most) sizes.now → result ≤ most }
    ensures each { All (λ size. size ≤ result) sizes.now }
{
    let mut longest = 1;
    for &size in sizes {
        longest = longest.max(size);
    }
    longest
}

/// The session and the band that were taken apart.
fn whole<P, C>(
    parts: Parts<P>,
    components: Vec<Counted<P>>,
    controllers: Vec<Counted<C>>,
    edits: Vec<Opened<C>>,
    holders: Vec<Vec<Holder<C>>>,
) -> (Session, Band<P, C>)
    ensures session { result.0 ≡ parts.session }
    ensures band { result.1 ≡ record { components = components; controllers = controllers; processors = parts.processors; edits = edits; holders = holders; first = parts.first } }
{
    let Parts {
        session,
        processors,
        first,
    } = parts;
    let band = Band {
        components,
        controllers,
        processors,
        edits,
        holders,
        first,
    };
    (session, band)
}

impl<P: Processor + Drop, C: Controller + Drop> Run<P, C> {
    /// A run before its first block. For want of memory it gives the session and the band back.
    pub(crate) fn new(
        alloc: Global,
        session: Session,
        band: Band<P, C>,
    ) -> Result<Run<P, C>, (Session, Band<P, C>)>
        requires { IsMadeFor
            (record { code = P.code; values = P.values; state = P.state; calls = P.calls; phase = P.phase; setup = P.last_setup })
            (record { code = C.code; values = C.values; mode = C.mode })
            P.class_of C.class_of (content_of session) band }
        ensures set_up { IfOk result (IsSetUp P.class_of C.class_of
            (record { code = P.code; values = P.values; state = P.state; calls = P.calls; phase = P.phase; setup = P.last_setup })
            (record { code = C.code; values = C.values; mode = C.mode })
            session band) }
        ensures back { IfErr result (λ back. (back.0 ≡ session) × (back.1 ≡ band)) }
    {
        let Ok(supplies) = Supplies::new(alloc, &session) else {
            return Err((session, band));
        };
        let max = longest(&supplies.sizes) as usize;
        let edits = supplies.editors.edits();
        let Band {
            components,
            controllers,
            processors,
            edits: openers,
            holders,
            first,
        } = band;
        let parts = Parts {
            session,
            processors,
            first,
        };
        match Stage::new(alloc, parts, max, edits) {
            Ok((stage, follower)) => Ok(Run {
                stage,
                editors: supplies.editors,
                drain: supplies.drain,
                hands: Hands::new(controllers, openers, holders, follower),
                components,
                sizes: supplies.sizes,
                refused: supplies.refused,
            }),
            Err(parts) => Err(whole(parts, components, controllers, openers, holders)),
        }
    }
}
