// What is told of the trials of a campaign.

ghost use Rattle.std.specs.Prelude.{◌≡◌, ◌++◌, List, ℕ, IfOk, OnOk};
ghost use Rattle.ps_bench_campaign.specs.Asking.{campaign_text, printed_text, sizes_in, wanted_by};
ghost use Rattle.ps_bench_campaign.specs.Courses.{IsCourse};
ghost use Rattle.ps_bench_trials.specs.Steps.{items_in};
ghost use Rattle.ps_model.specs.Typing.{Accepted};
ghost use Rattle.ps_world.specs.Whole.{Setup, IsSetupOf, machines_in};

use crate::campaigning::Asked;
use crate::printing::add_faults;
use crate::recording::Recorded;
use crate::trials::{codes_of, room_of, run_campaign};
use ps_base::{Bytes, Memory};
use ps_bench_trials::{Room, add_totals};
use ps_model::{App, ImageSizes};
use ps_world::World;
use std::alloc::Global;

// The lengths of the regions of both channels of an application.
fn sizes_of(alloc: Global, app: &App) -> Result<ImageSizes, Memory>
    requires { Accepted app.now }
    ensures { (setup : Setup) → IsSetupOf app.now setup → IfOk result (λ sizes. sizes ≡ sizes_in (machines_in setup)) }
{
    let world = World::build(alloc, app)?;
    Ok(world.sizes())
}

// The faults of the trials, where they are to be written.
fn add_printed(
    alloc: Global,
    text: &mut Bytes,
    app: &App,
    room: &Room,
    asked: &Asked<'_>,
) -> Result<(), Memory>
    requires { Accepted app.now }
    ensures { OnOk result (text.new ≡ text.old ++ printed_text app.now room.now (wanted_by asked.now)) }
{
    if !asked.print {
        return Ok(());
    }
    let codes = codes_of(alloc, app)?;
    add_faults(alloc, text, &codes, room, &asked.trials)
}

/// What is told of the trials of a campaign over a course, where `name` names the application.
pub(crate) fn campaign_text(
    alloc: Global,
    app: &App,
    asked: &Asked<'_>,
    name: &[u8],
    recorded: &Recorded,
) -> Result<Bytes, Memory>
    requires accepted { Accepted app.now }
    requires course { IsCourse app.now recorded.now.course }
    ensures { (setup : Setup) → IsSetupOf app.now setup → IfOk result (λ text.
        text ≡ campaign_text app.now (machines_in setup) (items_in recorded.now.course.steps.items) (wanted_by asked.now)
        name.now recorded.now.name) }
{
    let course = &recorded.course;
    let sizes = sizes_of(alloc, app)?;
    let room = room_of(app, sizes, course.scans, asked.trials.channel);
    let mut text = Bytes::new(alloc);
    add_printed(alloc, &mut text, app, &room, asked)?;
    let tally = run_campaign(alloc, app, sizes, course, &asked.trials)?;
    add_totals(&mut text, name, recorded.name.as_slice(), &tally)?;
    Ok(text)
}
