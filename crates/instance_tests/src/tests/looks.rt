//! Looks at bands.

ghost use Rattle.std.specs.Prelude.{◌≡◌, [], All, map};
ghost use Rattle.vh_points.specs.Model.{queues_of};
ghost use Rattle.vh_component.specs.declared.setup.Phase.TheVariants.{Processing as AtProcessing};
ghost use Rattle.vh_instance.specs.Seats.{processor_seat};
ghost use Rattle.vh_instance.specs.Band.{of_processors};

use std::alloc::{AllocError, Global};
use vh_component::{Created, Layout, Processing, Setup};
use vh_counted::{Holder, Opened};
use vh_instance::{Band, make, no_presets, tear_down};
use vh_num::Refusal;
use vh_plugin::{PluginSet, Processor};
use vh_points::Points;
use vh_session::{SessionFault, read};

/// What was seen of a band: the set's counts once it was made, the references of the last component and of each
/// controller's opener, those of the editors' holders, whether each component has an active aux bus, and the
/// first values.
#[derive(Drop)]
pub struct Seen {
    pub made: u64,
    pub ended: u64,
    pub component: [u32; 5],
    pub controllers: Vec<[u32; 4]>,
    pub holders: Vec<[u32; 4]>,
    pub sides: Vec<bool>,
    pub first: Vec<u32>,
}

/// The references of an opener by position.
fn of_opener<C: Drop>(opener: &Opened<C>) -> [u32; 4] {
    [0, 1, 2, 3].map(|iface| opener.references(iface))
}

/// The references of a holder by position.
fn of_holder<C: Drop>(holder: &Holder<C>) -> [u32; 4] {
    [0, 1, 2, 3].map(|iface| holder.references(iface))
}

/// Has a processor process no samples.
fn process<P: Processor>(processor: &mut P, points: &Points)
    requires processing { P.phase processor.old ≡ AtProcessing }
    requires none { queues_of points.now ≡ [] }
    ensures { P.phase processor.new ≡ AtProcessing }
{
    processor.process(0, points, &[], &[], &mut []);
}

/// The references of the last component's opener, after a call to process. For a look at it the component goes
/// back and forth through its states.
fn of_last<P: Processor + Drop>(processors: &mut Vec<Processing<P>>, points: &Points) -> [u32; 5]
    requires processing { All (λ phase. phase ≡ AtProcessing) (of_processors P.phase processors.old.items) }
    requires none { queues_of points.now ≡ [] }
    ensures seats { map processor_seat processors.new.items ≡ map processor_seat processors.old.items }
    ensures processing { All (λ phase. phase ≡ AtProcessing) (of_processors P.phase processors.new.items) }
{
    if processors.is_empty() {
        return [0; 5];
    }
    let mut processor = processors.take_last();
    process(processor.value_mut(), points);
    let opener = processor.stop().deactivate().terminate();
    let references = [0, 1, 2, 3, 4].map(|iface| opener.references(iface));
    let setup = Setup {
        channels: 2,
        max: 64,
    };
    let initialized = Created::from(opener).initialize(Layout::new(2, false));
    processors.push_reserved(initialized.set_up(&setup).activate().start());
    references
}

/// What is seen of a band beside its components' references.
fn seen_of<P: Processor + Drop, C: Drop>(
    alloc: Global,
    band: &Band<P, C>,
    made: u64,
    ended: u64,
) -> Result<Seen, AllocError> {
    let mut controllers = Vec::new(alloc);
    for edit in &band.edits {
        controllers.push(of_opener(edit))?;
    }
    let mut holders = Vec::new(alloc);
    for row in &band.holders {
        for holder in row {
            holders.push(of_holder(holder))?;
        }
    }
    let mut sides = Vec::new(alloc);
    for processor in &band.processors {
        let buses = processor.layout().buses();
        sides.push(buses.iter().any(|bus| bus.kind == 1 && bus.active))?;
    }
    let first = Vec::from_slice(alloc, &band.first)?;
    Ok(Seen {
        made,
        ended,
        component: [0; 5],
        controllers,
        holders,
        sides,
        first,
    })
}

/// Makes the band of a session's text, without presets, looks at it, and takes it down.
pub fn look_at_band<S: PluginSet>(
    alloc: Global,
    set: &mut S,
    text: &[u8],
) -> Result<Seen, Refusal<SessionFault>> {
    let Ok(points) = Points::new(alloc, 0, 0) else {
        return Err(Refusal::Memory);
    };
    let session = read(alloc, text, set.classes())?;
    let Ok(presets) = no_presets(alloc, session.nodes.len()) else {
        return Err(Refusal::Memory);
    };
    let Ok(band) = make(alloc, set, &session, &presets, 64) else {
        return Err(Refusal::Memory);
    };
    let mut band = band;
    let seen = seen_of(alloc, &band, set.made(), set.ended());
    let component = of_last(&mut band.processors, &points);
    tear_down(set, band);
    match seen {
        Ok(seen) => Ok(Seen { component, ..seen }),
        Err(AllocError) => Err(Refusal::Memory),
    }
}
