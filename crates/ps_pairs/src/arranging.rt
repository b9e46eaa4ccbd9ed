// A source in the order of an application, and the application that it stands for.

ghost use Rattle.std.specs.Prelude.{◌≡◌, IfOk, OnOk};
ghost use Rattle.ps_pairs.specs.Arranging.{IsArranged, arranged, arranged_sections};

use crate::copying::add_taken;
use crate::wanted::Wanted;
use ps_base::{Fail, Memory};
use ps_model::App;
use ps_parser::{Section, Sections, Source};
use ps_resolve::resolve;
use std::alloc::Global;

// Declarations in the order of an application.
fn arranged_sections(alloc: Global, app: &App, sections: &[Section]) -> Result<Sections, Memory>
    ensures { IfOk result (λ arranged. arranged ≡ arranged_sections app.now sections.now) }
{
    app.sound();
    let mut written = Sections::new(alloc);
    for s in 0..app.input_count() + app.output_count() {
        add_taken(alloc, &mut written, &Wanted::Shared(app, s), sections)?;
    }
    add_taken(alloc, &mut written, &Wanted::Besides(app), sections)?;
    Ok(written)
}

/// Makes the source of another application that with its declarations in the order of this one: each name is declared
/// alone, those of inputs and outputs of this one first. It takes a walk over the declarations for each of these. `Err`
/// comes only if memory runs out.
pub fn arrange(alloc: Global, app: &App, source: &mut Source) -> Result<(), Memory>
    ensures { OnOk result (source.new ≡ arranged app.now source.old) }
{
    source.kept();
    let sections = arranged_sections(alloc, app, source.sections.as_slice())?;
    source.sections = sections;
    Ok(())
}

/// The application of a source with its declarations in the order of another application, which the source has then.
/// None comes where that breaks a rule of names, `Err` only if memory runs out.
pub fn app_arranged(alloc: Global, app: &App, source: &mut Source) -> Result<Option<App>, Memory>
    ensures { IfOk result (IsArranged app.now source.old) }
{
    arrange(alloc, app, source)?;
    match resolve(alloc, source) {
        Ok(other) => Ok(Some(other)),
        Err(Fail::Refused(_)) => Ok(None),
        Err(Fail::Memory) => Err(Memory),
    }
}
