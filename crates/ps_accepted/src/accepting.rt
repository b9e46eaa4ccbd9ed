// From the text of a source to its application.

ghost use Rattle.std.specs.Prelude.{◌≡◌, Some, slice_get, IfOk, IfErr};
ghost use Rattle.ps_base.specs.declared.failing.Fail.TheVariants.{Refused as IsRefused};
ghost use Rattle.ps_model.specs.Typing.{Accepted as IsAccepted};
ghost use Rattle.ps_flow.specs.Derivation as derivation;
ghost use Rattle.ps_flow.specs.Refusals.{IsFirstBreach};
ghost use Rattle.ps_flow.specs.Written.{written};
ghost use Rattle.ps_names.specs.Stands.{Stands};
ghost use Rattle.ps_parser.specs.Places.{step_place};
ghost use Rattle.ps_accepted.specs.Source.{pin_name};
ghost use Rattle.ps_accepted.specs.Answering.{IsResolution, IsChecked, IsSourcedAcceptance, app_of, certificate_of};
ghost use Rattle.ps_accepted.specs.Answering.{checked_of, source_of};

use crate::flattening::flat_source;
use ps_base::{Bytes, Fail, Memory, Place, Refusal};
use ps_checker::laws::derived_passes;
use ps_checker::{Checked, check};
use ps_derived::parse_library;
use ps_flow::{Certificate, FlowFail, FlowRefusal, derive, write_certificate};
use ps_lexer::lex;
use ps_model::{App, Step, pin_name};
use ps_parser::Source;
use ps_resolve::resolve;
use std::alloc::Global;

/// An accepted application, with the flat source that it stands for, and its certificate, which was checked.
pub struct Accepted {
    pub(crate) source: Source,
    pub(crate) app: App,
    pub(crate) certificate: Certificate,
    pub(crate) checked: Checked,
}

impl Drop for Accepted {
    // One call for whoever owns one, in place of a walk through all that it holds.
    fn drop(self) {
        let Accepted {
            source: _,
            app: _,
            certificate: _,
            checked: _,
        } = self;
    }
}

impl Accepted {
    /// The application, and what was checked. It takes no memory.
    pub fn into_parts(self) -> (App, Checked)
        ensures app { result.0 ≡ app_of self }
        ensures checked { result.1 ≡ checked_of self }
    {
        let (_, app, checked) = self.into_sourced();
        (app, checked)
    }

    /// The flat source, the application that stands for it, and what was checked. It takes no memory.
    pub fn into_sourced(self) -> (Source, App, Checked)
        ensures source { result.0 ≡ source_of self }
        ensures app { result.1 ≡ app_of self }
        ensures checked { result.2 ≡ checked_of self }
    {
        let Accepted {
            source,
            app,
            certificate: _,
            checked,
        } = self;
        (source, app, checked)
    }

    /// The text of the certificate.
    pub fn certificate_text(&self, alloc: Global) -> Result<Bytes, Memory>
        ensures { IfOk result (λ text. text ≡ written (certificate_of self.now)) }
    {
        write_certificate(alloc, &self.certificate)
    }
}

// The flat source of a text and the application that stands for it, by the rules L, P, B and N, tried in this order.
pub(crate) fn resolve_source(alloc: Global, text: &[u8]) -> Result<(Source, App), Fail>
    ensures { IsResolution text.now result }
{
    let tokens = lex(alloc, text)?;
    let library = parse_library(alloc, &tokens)?;
    let source = flat_source(alloc, library)?;
    let app = resolve(alloc, &source)?;
    Ok((source, app))
}

// The place of a breach of the rules S: the pin's first mention, or the target of an assignment.
fn place_of(source: &Source, app: &App, breach: FlowRefusal) -> Place
    requires stands { Stands source.now app.now }
    requires breach { IsFirstBreach app.now breach.rule breach.step breach.pin }
    ensures { step_place source.now breach.step (pin_name app.now (slice_get app.now.steps breach.step) breach.pin) ≡ Some result }
{
    app.sound();
    match app.step(breach.step) {
        Step::Call { instance, .. } => match breach.pin {
            Some(pin) => source.place(
                breach.step,
                Some(pin_name(app.instance_kind(*instance), pin)),
            ),
            None => source.place(breach.step, None),
        },
        Step::Assign { .. } => source.place(breach.step, None),
    }
}

// An accepted application with its certificate, which is checked. What is derived passes.
fn with_check(source: Source, app: App, certificate: Certificate) -> Accepted
    requires accepted { IsAccepted app }
    requires derived { certificate ≡ derivation.certificate app }
    ensures source { result.source ≡ source }
    ensures app { result.app ≡ app }
    ensures checked { IsChecked result }
{
    derived_passes();
    match check(&app, &certificate) {
        Ok(checked) => Accepted {
            source,
            app,
            certificate,
            checked,
        },
        Err(_) => unreachable!(),
    }
}

// The accepted application of a text with its flat source and its certificate, by the rules L, P, B, N and S, tried in
// this order.
pub(crate) fn accept_source(alloc: Global, text: &[u8]) -> Result<Accepted, Fail>
    ensures { IsSourcedAcceptance text.now result }
{
    let (source, app) = resolve_source(alloc, text)?;
    match derive(alloc, &app) {
        Ok(certificate) => Ok(with_check(source, app, certificate)),
        Err(FlowFail::Memory) => Err(Fail::Memory),
        Err(FlowFail::Refused(breach)) => Err(Fail::Refused(Refusal {
            rule: breach.rule,
            place: place_of(&source, &app, breach),
        })),
    }
}
