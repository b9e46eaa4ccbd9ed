// Moments between two steps of a course, in the run without a fault.

ghost use Rattle.std.specs.Prelude.{◌≡◌, true};

use ps_world::World;

/// A moment between two steps of a course, in the run without a fault.
pub struct Mark {
    /// How many steps are done.
    pub place: usize,
    /// How many scans are among these.
    pub scans: u64,
    /// The world.
    pub world: World,
}

impl Drop for Mark {
    // One call for whoever owns one, in place of a walk through all that it holds.
    fn drop(self) {
        let Mark {
            place: _,
            scans: _,
            world: _,
        } = self;
    }
}

impl Mark {
    /// Whether this stands after so many steps, and a world of the same application is what it is there.
    pub fn is_at(&self, place: usize, world: &World) -> bool
        requires { world.now.setup ≡ self.now.world.setup }
        ensures place { result ≡ true → self.now.place ≡ place }
        ensures world { result ≡ true → world.now ≡ self.now.world }
    {
        if self.place != place {
            return false;
        }
        world.is_twin_of(&self.world)
    }
}
