// The numbers that signals and instances of an application have in a part of it.

use crate::needs::{Ground, Needs, is_marked};
use crate::part::Origin;
use ps_base::Memory;
use ps_model::{App, Driver};
use std::alloc::Global;

/// The number of what the part has not.
pub(crate) const NONE: u16 = u16::MAX;

/// Where the signals of a part have their values from, and which instances it has.
pub(crate) struct Layout {
    /// For each signal of the part, where it has its value from.
    pub origins: Vec<Origin>,
    /// How many of them are inputs: they come first.
    pub input_count: usize,
    /// For each instance of the part, the number of the instance that it is.
    pub instances: Vec<u16>,
    /// For each signal of the application, its number in the part.
    pub numbers: Vec<u16>,
}

impl Drop for Layout {
    // One call for whoever owns one, in place of a walk through all that it holds.
    fn drop(self) {
        let Layout {
            origins: _,
            input_count: _,
            instances: _,
            numbers: _,
        } = self;
    }
}

// A place as a number.
fn number_at(place: usize) -> u16 {
    if place < usize::from(NONE) {
        place as u16
    } else {
        NONE
    }
}

impl Layout {
    // No signals and instances, of as many as the application has.
    fn new(alloc: Global, app: &App) -> Result<Layout, Memory> {
        let numbers = vec![in alloc; NONE; usize::from(app.signal_count())]?;
        Ok(Layout {
            origins: Vec::new(alloc),
            input_count: 0,
            instances: Vec::new(alloc),
            numbers,
        })
    }

    // One more signal, which has the value of this one.
    fn put(&mut self, s: u16) -> Result<(), Memory> {
        let number = number_at(self.origins.len());
        self.origins.push(Origin::Now(s))?;
        let place = usize::from(s);
        if place < self.numbers.len() {
            self.numbers[place] = number;
        }
        Ok(())
    }

    // The inputs: those of the application, and the signals that have no driver in the part.
    fn put_inputs(&mut self, ground: &Ground<'_>, needs: &Needs) -> Result<(), Memory> {
        for s in 0..ground.app.signal_count() {
            if is_marked(needs.before.as_slice(), s) {
                self.origins.push(Origin::Before(s))?;
            }
            if is_input(ground, needs, s) {
                self.put(s)?;
            }
        }
        self.input_count = self.origins.len();
        Ok(())
    }

    // The signals that a step of the part assigns.
    fn put_locals(&mut self, ground: &Ground<'_>, needs: &Needs) -> Result<(), Memory> {
        for s in 0..ground.app.declared_count() {
            if is_local(ground, needs, s) {
                self.put(s)?;
            }
        }
        Ok(())
    }

    // The outputs of the instances of the part.
    fn put_outputs(&mut self, app: &App, needs: &Needs) -> Result<(), Memory> {
        for s in app.declared_count()..app.signal_count() {
            if let Some(Driver::Output { instance, .. }) = app.driver(s) {
                if is_marked(needs.called.as_slice(), instance) {
                    self.put(s)?;
                }
            }
        }
        Ok(())
    }

    // The instances.
    fn put_instances(&mut self, app: &App, needs: &Needs) -> Result<(), Memory> {
        for i in 0..app.instance_count() {
            if is_marked(needs.called.as_slice(), i) {
                self.instances.push(i)?;
            }
        }
        Ok(())
    }

    /// Where the signals of the part have their values from, and which instances it has. It takes no memory.
    pub(crate) fn into_parts(self) -> (Vec<Origin>, Vec<u16>) {
        let Layout {
            origins,
            input_count: _,
            instances,
            numbers: _,
        } = self;
        (origins, instances)
    }

    /// The number that a signal of the application has in the part.
    pub(crate) fn number_of(&self, s: u16) -> u16 {
        match self.numbers.get(usize::from(s)) {
            Some(number) => *number,
            None => NONE,
        }
    }

    /// The number that an instance of the application has in the part.
    pub(crate) fn instance_of(&self, i: u16) -> u16 {
        for place in 0..self.instances.len() {
            if self.instances[place] == i {
                return number_at(place);
            }
        }
        NONE
    }
}

/// Whether a signal of the application is an input of the part.
pub(crate) fn is_input(ground: &Ground<'_>, needs: &Needs, s: u16) -> bool {
    is_marked(needs.now.as_slice(), s) && (s < ground.app.input_count() || ground.is_cut(s))
}

/// Whether a signal of the application is a local of the part.
pub(crate) fn is_local(ground: &Ground<'_>, needs: &Needs, s: u16) -> bool {
    is_marked(needs.now.as_slice(), s)
        && s >= ground.app.input_count()
        && s < ground.app.declared_count()
        && !ground.is_cut(s)
}

/// The numbers of signals and instances in a part that has what is needed: inputs, locals, and the outputs of
/// instances, each in the order of the application. An error means out of memory.
pub(crate) fn layout_of(
    alloc: Global,
    ground: &Ground<'_>,
    needs: &Needs,
) -> Result<Layout, Memory> {
    let mut layout = Layout::new(alloc, ground.app)?;
    layout.put_inputs(ground, needs)?;
    layout.put_locals(ground, needs)?;
    layout.put_outputs(ground.app, needs)?;
    layout.put_instances(ground.app, needs)?;
    Ok(layout)
}
