// Which names are taken of a source.

ghost use Rattle.std.specs.Prelude.{◌≡◌, ◌+◌, ◌<◌, length};
ghost use Rattle.ps_base.specs.LetterCase.{is_same_name};
ghost use Rattle.ps_model.specs.Network.{input_count, signal_name};
ghost use Rattle.ps_pairs.specs.Arranging.{is_shared};
ghost use Rattle.ps_pairs.specs.Wanting.{wants};

use ps_model::App;

/// Names that are taken.
#[derive(Clone, Copy)]
pub(crate) enum Wanted<'a> {
    /// That of an input or output, by its number in an application.
    Shared(&'a App, u16),
    /// Those of no input or output of it.
    Besides(&'a App),
}

// Whether a name is that of an input or output, without letter case.
fn is_of(app: &App, s: u16, text: &[u8]) -> bool
    requires { s < input_count app.now + length app.now.outputs }
    ensures { result ≡ is_same_name text.now (signal_name app.now s) }
{
    text.eq_ignore_ascii_case(app.signal_name(s).as_bytes())
}

// Whether an application has an input or output of this name, without letter case.
fn is_shared(app: &App, text: &[u8]) -> bool
    ensures { result ≡ is_shared app.now text.now }
{
    app.sound();
    for s in 0..app.input_count() + app.output_count() {
        if is_of(app, s, text) {
            return true;
        }
    }
    false
}

impl Wanted<'_> {
    /// Whether a name is taken.
    pub(crate) fn wants(&self, text: &[u8]) -> bool
        ensures { result ≡ wants self.now text.now }
    {
        match *self {
            Wanted::Shared(app, s) => {
                app.sound();
                s < app.input_count() + app.output_count() && is_of(app, s, text)
            }
            Wanted::Besides(app) => !is_shared(app, text),
        }
    }
}
