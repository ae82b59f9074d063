//! The states of a component, each of which owns the component's opener. A step consumes one state and gives
//! the next, and none can be refused. The phase is asked of the caller, since a state lends its object.

ghost use Rattle.std.specs.Prelude.{◌≡◌};
ghost use Rattle.std.specs.Borrow.{Lends, sem};
ghost use Rattle.vh_counted.specs.Held.{object_of_opened, numbers_of_opened, value_of_opened};
ghost use Rattle.vh_component.specs.declared.setup.Phase.TheVariants.{Created as AtCreated, Initialized as AtInitialized, Ready as AtReady, Active as AtActive, Processing as AtProcessing};

use crate::layout::{Layout, NoBus, Unsupported};
use crate::life::Life;
use crate::setup::Setup;
use vh_counted::Opened;

/// A component that was created, and not initialized yet.
pub struct Created<T> {
    opened: Opened<T>,
}

/// A component that was initialized. Its buses may be arranged.
pub struct Initialized<T> {
    opened: Opened<T>,
    layout: Layout,
}

/// A component that was set up.
pub struct Ready<T> {
    opened: Opened<T>,
    layout: Layout,
}

/// A component that is active.
pub struct Active<T> {
    opened: Opened<T>,
    layout: Layout,
}

/// A component that is processing.
pub struct Processing<T> {
    opened: Opened<T>,
    layout: Layout,
}

impl<T: Life + Drop> Created<T> {
    ghost use Rattle.vh_component.specs.States.{of_created, of_initialized, layout_of, with_created, IsStep};
    ghost use Rattle.vh_component.specs.contracts.states.Created.{the_row};

    /// A component of this opener.
    pub fn from(opened: Opened<T>) -> Created<T>
        requires { T.phase (value_of_opened opened) ≡ AtCreated }
        ensures { of_created result ≡ opened }
    {
        Created { opened }
    }

    /// The object.
    pub fn value(&self) -> &T
        ensures { result.now ≡ value_of_opened (of_created self.now) }
    {
        self.opened.value()
    }

    /// The object, to be changed.
    pub fn value_mut(&mut self) -> &mut T
        ensures* writes_back { sem 𝓛 (Lends (the_row T.row) T.row self.entry result (λ w. with_created w self.old)) }
        ensures value { result.now ≡ value_of_opened (of_created self.old) }
    {
        self.opened.value_mut()
    }

    /// Initializes the component, which has these buses.
    pub fn initialize(self, layout: Layout) -> Initialized<T>
        requires { T.phase (value_of_opened (of_created self)) ≡ AtCreated }
        ensures phase { T.phase (value_of_opened (of_initialized result)) ≡ AtInitialized }
        ensures setup { T.last_setup (value_of_opened (of_initialized result)) ≡ T.last_setup (value_of_opened (of_created self)) }
        ensures step { IsStep T.rest (of_created self) (of_initialized result) }
        ensures layout { layout_of result ≡ layout }
    {
        let Created { mut opened } = self;
        opened.value_mut().initialize();
        Initialized { opened, layout }
    }
}

impl<T: Life + Drop> Initialized<T> {
    ghost use Rattle.vh_component.specs.Buses.{IsActivated, IsArranged};
    ghost use Rattle.vh_component.specs.Layouts.{buses_of};
    ghost use Rattle.vh_component.specs.States.{of_initialized, of_ready, layout_of, layout_of_ready, with_initialized, IsStep};
    ghost use Rattle.vh_component.specs.contracts.states.Initialized.{the_row};

    /// The object.
    pub fn value(&self) -> &T
        ensures { result.now ≡ value_of_opened (of_initialized self.now) }
    {
        self.opened.value()
    }

    /// The object, to be changed.
    pub fn value_mut(&mut self) -> &mut T
        ensures* writes_back { sem 𝓛 (Lends (the_row T.row) T.row self.entry result (λ w. with_initialized w self.old)) }
        ensures value { result.now ≡ value_of_opened (of_initialized self.old) }
    {
        self.opened.value_mut()
    }

    /// Its buses.
    pub fn layout(&self) -> &Layout
        ensures { result.now ≡ layout_of self.now }
    {
        &self.layout
    }

    /// Switches the bus of this number among those of a media type and a direction.
    pub fn activate_bus(
        &mut self,
        media: u8,
        direction: u8,
        index: u32,
        on: bool,
    ) -> Result<(), NoBus>
        ensures layout { IsActivated media direction index on (buses_of (layout_of self.old)) (buses_of (layout_of self.new)) result }
        ensures opener { of_initialized self.new ≡ of_initialized self.old }
    {
        self.layout.activate_bus(media, direction, index, on)
    }

    /// Gives every audio bus so many channels, where inputs and outputs are to have as many, 1 or 2.
    pub fn set_arrangement(&mut self, ins: u16, outs: u16) -> Result<(), Unsupported>
        ensures layout { IsArranged ins outs (buses_of (layout_of self.old)) (buses_of (layout_of self.new)) result }
        ensures opener { of_initialized self.new ≡ of_initialized self.old }
    {
        self.layout.set_arrangement(ins, outs)
    }

    /// Sets the component up.
    pub fn set_up(self, setup: &Setup) -> Ready<T>
        requires { T.phase (value_of_opened (of_initialized self)) ≡ AtInitialized }
        ensures phase { T.phase (value_of_opened (of_ready result)) ≡ AtReady }
        ensures setup { T.last_setup (value_of_opened (of_ready result)) ≡ setup.now }
        ensures step { IsStep T.rest (of_initialized self) (of_ready result) }
        ensures layout { layout_of_ready result ≡ layout_of self }
    {
        let Initialized { mut opened, layout } = self;
        opened.value_mut().set_up(setup);
        Ready { opened, layout }
    }
}

impl<T: Life + Drop> Ready<T> {
    ghost use Rattle.vh_component.specs.States.{of_ready, of_active, layout_of_ready, layout_of_active, with_ready, IsStep};
    ghost use Rattle.vh_component.specs.contracts.states.Ready.{the_row};

    /// The object.
    pub fn value(&self) -> &T
        ensures { result.now ≡ value_of_opened (of_ready self.now) }
    {
        self.opened.value()
    }

    /// The object, to be changed.
    pub fn value_mut(&mut self) -> &mut T
        ensures* writes_back { sem 𝓛 (Lends (the_row T.row) T.row self.entry result (λ w. with_ready w self.old)) }
        ensures value { result.now ≡ value_of_opened (of_ready self.old) }
    {
        self.opened.value_mut()
    }

    /// Its buses.
    pub fn layout(&self) -> &Layout
        ensures { result.now ≡ layout_of_ready self.now }
    {
        &self.layout
    }

    /// Activates the component.
    pub fn activate(self) -> Active<T>
        requires { T.phase (value_of_opened (of_ready self)) ≡ AtReady }
        ensures phase { T.phase (value_of_opened (of_active result)) ≡ AtActive }
        ensures setup { T.last_setup (value_of_opened (of_active result)) ≡ T.last_setup (value_of_opened (of_ready self)) }
        ensures step { IsStep T.rest (of_ready self) (of_active result) }
        ensures layout { layout_of_active result ≡ layout_of_ready self }
    {
        let Ready { mut opened, layout } = self;
        opened.value_mut().set_active(true);
        Active { opened, layout }
    }

    /// Ends the component's life: its opener is given back.
    pub fn terminate(self) -> Opened<T>
        requires { T.phase (value_of_opened (of_ready self)) ≡ AtReady }
        ensures phase { T.phase (value_of_opened result) ≡ AtCreated }
        ensures setup { T.last_setup (value_of_opened result) ≡ T.last_setup (value_of_opened (of_ready self)) }
        ensures step { IsStep T.rest (of_ready self) result }
    {
        let Ready {
            mut opened,
            layout: _,
        } = self;
        opened.value_mut().terminate();
        opened
    }
}

impl<T: Life + Drop> Active<T> {
    ghost use Rattle.vh_component.specs.States.{of_ready, of_active, of_processing, layout_of_ready, layout_of_active, layout_of_processing, with_active, IsStep};
    ghost use Rattle.vh_component.specs.contracts.states.Active.{the_row};

    /// The object.
    pub fn value(&self) -> &T
        ensures { result.now ≡ value_of_opened (of_active self.now) }
    {
        self.opened.value()
    }

    /// The object, to be changed.
    pub fn value_mut(&mut self) -> &mut T
        ensures* writes_back { sem 𝓛 (Lends (the_row T.row) T.row self.entry result (λ w. with_active w self.old)) }
        ensures value { result.now ≡ value_of_opened (of_active self.old) }
    {
        self.opened.value_mut()
    }

    /// Its buses.
    pub fn layout(&self) -> &Layout
        ensures { result.now ≡ layout_of_active self.now }
    {
        &self.layout
    }

    /// Starts processing.
    pub fn start(self) -> Processing<T>
        requires { T.phase (value_of_opened (of_active self)) ≡ AtActive }
        ensures phase { T.phase (value_of_opened (of_processing result)) ≡ AtProcessing }
        ensures setup { T.last_setup (value_of_opened (of_processing result)) ≡ T.last_setup (value_of_opened (of_active self)) }
        ensures step { IsStep T.rest (of_active self) (of_processing result) }
        ensures layout { layout_of_processing result ≡ layout_of_active self }
    {
        let Active { mut opened, layout } = self;
        opened.value_mut().set_processing(true);
        Processing { opened, layout }
    }

    /// Deactivates the component.
    pub fn deactivate(self) -> Ready<T>
        requires { T.phase (value_of_opened (of_active self)) ≡ AtActive }
        ensures phase { T.phase (value_of_opened (of_ready result)) ≡ AtReady }
        ensures setup { T.last_setup (value_of_opened (of_ready result)) ≡ T.last_setup (value_of_opened (of_active self)) }
        ensures step { IsStep T.rest (of_active self) (of_ready result) }
        ensures layout { layout_of_ready result ≡ layout_of_active self }
    {
        let Active { mut opened, layout } = self;
        opened.value_mut().set_active(false);
        Ready { opened, layout }
    }
}

impl<T: Life + Drop> Processing<T> {
    ghost use Rattle.vh_component.specs.States.{of_active, of_processing, layout_of_active, layout_of_processing, with_processing, IsStep};
    ghost use Rattle.vh_component.specs.contracts.states.Processing.{the_row};

    /// The object.
    pub fn value(&self) -> &T
        ensures { result.now ≡ value_of_opened (of_processing self.now) }
    {
        self.opened.value()
    }

    /// The object, to be changed.
    pub fn value_mut(&mut self) -> &mut T
        ensures* writes_back { sem 𝓛 (Lends (the_row T.row) T.row self.entry result (λ w. with_processing w self.old)) }
        ensures value { result.now ≡ value_of_opened (of_processing self.old) }
    {
        self.opened.value_mut()
    }

    /// Its buses.
    pub fn layout(&self) -> &Layout
        ensures { result.now ≡ layout_of_processing self.now }
    {
        &self.layout
    }

    /// Stops processing.
    pub fn stop(self) -> Active<T>
        requires { T.phase (value_of_opened (of_processing self)) ≡ AtProcessing }
        ensures phase { T.phase (value_of_opened (of_active result)) ≡ AtActive }
        ensures setup { T.last_setup (value_of_opened (of_active result)) ≡ T.last_setup (value_of_opened (of_processing self)) }
        ensures step { IsStep T.rest (of_processing self) (of_active result) }
        ensures layout { layout_of_active result ≡ layout_of_processing self }
    {
        let Processing { mut opened, layout } = self;
        opened.value_mut().set_processing(false);
        Active { opened, layout }
    }
}
