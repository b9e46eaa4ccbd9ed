// What a call leaves behind.

use ps_base::{Bytes, Refusal};
use ps_checker::Checked;
use ps_model::App;
use ps_parser::Source;
use ps_runs::{Again, Trip};
use ps_vote::VoteWorld;
use ps_world::World;

/// What a call of the program worked with, for the caller to look at.
pub struct Left {
    /// The certificate that was checked: the number of the application's nodes, and that of the certificate's lines.
    pub checked: Option<Checked>,
    /// The world of two channels that a run ended with.
    pub world: Option<World>,
    /// The world of three seats that a run ended with.
    pub votes: Option<VoteWorld>,
    /// The refusal that was said, where the call refuses a text.
    pub refusal: Option<Refusal>,
    /// The first scan that tripped, where one did.
    pub trip: Option<Trip>,
    /// The first seat that was outvoted again in the scan after its healing, where one was.
    pub again: Option<Again>,
    /// The text of the application, where it was read: up to one byte more than the largest.
    pub text: Option<Bytes>,
    /// The application of that text, where `check` accepts it.
    pub app: Option<App>,
    /// The flat source for which that application stands.
    pub source: Option<Source>,
}

impl Drop for Left {
    // One call for whoever owns one, in place of a walk through all that it holds.
    fn drop(self) {
        let Left {
            checked: _,
            world: _,
            votes: _,
            refusal: _,
            trip: _,
            again: _,
            text: _,
            app: _,
            source: _,
        } = self;
    }
}

impl Left {
    ghost use Rattle.std.specs.Prelude.{◌≡◌, None};

    /// Nothing is left yet. It takes no memory.
    pub fn new() -> Left
        ensures checked { result.checked ≡ None }
        ensures world { result.world ≡ None }
        ensures votes { result.votes ≡ None }
        ensures refusal { result.refusal ≡ None }
        ensures trip { result.trip ≡ None }
        ensures again { result.again ≡ None }
        ensures text { result.text ≡ None }
        ensures app { result.app ≡ None }
        ensures source { result.source ≡ None }
    {
        Left {
            checked: None,
            world: None,
            votes: None,
            refusal: None,
            trip: None,
            again: None,
            text: None,
            app: None,
            source: None,
        }
    }
}

/// Something that a call leaves behind.
#[derive(Drop)]
pub enum Leaving {
    /// The certificate that was checked.
    Checked(Checked),
    /// The world of two channels that a run ended with, and its first trip.
    World(World, Option<Trip>),
    /// The world of three seats that a run ended with, and the first seat that was outvoted again after its healing.
    Votes(VoteWorld, Option<Again>),
    /// The refusal that is said.
    Refusal(Refusal),
    /// The text of the application.
    Text(Bytes),
    /// The application, and its flat source.
    App(App, Source),
}

impl Left {
    ghost use Rattle.std.specs.Prelude.{◌≡◌};
    ghost use Rattle.ps_top.specs.Leaving.{left_with};

    /// Leaves something, in the place of what was left of its kind.
    pub fn leave(&mut self, what: Leaving)
        ensures { self.new ≡ left_with what self.old }
    {
        match what {
            Leaving::Checked(checked) => self.checked = Some(checked),
            Leaving::World(world, trip) => {
                self.world = Some(world);
                self.trip = trip;
            }
            Leaving::Votes(world, again) => {
                self.votes = Some(world);
                self.again = again;
            }
            Leaving::Refusal(refusal) => self.refusal = Some(refusal),
            Leaving::Text(text) => self.text = Some(text),
            Leaving::App(app, source) => {
                self.app = Some(app);
                self.source = Some(source);
            }
        }
    }
}
