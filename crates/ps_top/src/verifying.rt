// `verify APP CERT`.

ghost use Rattle.std.specs.Prelude.{◌≡◌, ◌≢◌, ◌+◌, List, ℕ, IfOk, ◌∷◌, [], take};
ghost use Rattle.ps_top.specs.Calls.{Answers, LeavesRefusal};
ghost use Rattle.ps_top.specs.Judging.{IsJudged, SaysJudgement};
ghost use Rattle.ps_top.specs.Program as program;
ghost use Rattle.ps_flow.specs.Read.{IsCertificate};

use crate::Status;
use crate::accepting::resolve;
use crate::call::Call;
use crate::left::Leaving;
use crate::saying::{say, say_refused};
use ps_base::limits::LARGEST_CERTIFICATE;
use ps_base::{Fail, Memory, Place, Refusal, Rule};
use ps_checker::{Checked, check};
use ps_flow::{Certificate, read_certificate};
use ps_model::App;
use ps_outside::ReadFail;
use std::alloc::Global;

// What the text of a certificate comes to.
#[derive(Drop)]
pub(crate) enum Judgement {
    // It derives the application.
    Derives(Checked),
    // The first rule that refuses it, C or O.
    Objects(Refusal),
}

// A refusal by a rule at a line.
fn at_line(rule: Rule, line: u32) -> Refusal
    ensures { result ≡ record { rule = rule; place = record { line = line; column = 0 } } }
{
    Refusal {
        rule,
        place: Place { line, column: 0 },
    }
}

// Judges a certificate for an application: by the rules O.
fn compare(app: &App, cert: &Certificate) -> Judgement
    ensures { (text : List ℕ) → IsCertificate text cert.now → IsJudged app.now text result }
{
    match check(app, cert) {
        Ok(checked) => Judgement::Derives(checked),
        Err(objection) => Judgement::Objects(at_line(objection.rule, objection.line)),
    }
}

// Judges the text of a certificate for an application: by the rules C, and then by the rules O.
fn judge(alloc: Global, app: &App, text: &[u8]) -> Result<Judgement, Memory>
    ensures { IfOk result (IsJudged app.now text.now) }
{
    match read_certificate(alloc, text) {
        Ok(cert) => Ok(compare(app, &cert)),
        Err(Fail::Refused(refusal)) => Ok(Judgement::Objects(refusal)),
        Err(Fail::Memory) => Err(Memory),
    }
}

// Judges the text of a certificate, which was read up to one byte more than the largest.
fn judge_read(alloc: Global, app: &App, text: &[u8]) -> Result<Judgement, Memory>
    ensures { (whole : List ℕ) → text.now ≡ take (LARGEST_CERTIFICATE + 1) whole →
        IfOk result (IsJudged app.now whole) }
{
    if text.len() > LARGEST_CERTIFICATE as usize {
        return Ok(Judgement::Objects(at_line(Rule::C2, 1)));
    }
    judge(alloc, app, text)
}

// Says what a certificate comes to.
fn tell<C: Call>(call: &mut C, judgement: Judgement) -> Status
    ensures says { SaysJudgement judgement (C.seen call.old) (C.seen call.new) result }
    ensures refuses { LeavesRefusal (C.seen call.new).left (C.seen call.new).out result }
    ensures no_usage { result ≢ Status.Usage }
{
    match judgement {
        Judgement::Objects(refusal) => say_refused(call, &refusal, Status::BadInput),
        Judgement::Derives(checked) => {
            let lines = checked.lines();
            match format!(in call.alloc(); "verified {lines} lines\n") {
                Ok(line) => {
                    call.leave(Leaving::Checked(checked));
                    say(call, line.as_bytes(), Status::Done)
                }
                Err(_) => Status::Memory,
            }
        }
    }
}

// Verifies the certificate of this name.
fn verify_named<C: Call>(call: &mut C, app: &App, cert: &str) -> Status
    ensures answers { Answers (program.verify_named app.now cert.now) (cert.now ∷ []) (C.seen call.old)
        (C.seen call.new) result }
    ensures no_usage { result ≢ Status.Usage }
{
    match call.read(cert, LARGEST_CERTIFICATE + 1) {
        Ok(text) => match judge_read(call.alloc(), app, text.as_slice()) {
            Ok(judgement) => tell(call, judgement),
            Err(Memory) => Status::Memory,
        },
        Err(ReadFail::Memory) => Status::Memory,
        Err(ReadFail::Fault) => Status::ReadFault,
    }
}

// `verify APP CERT`: whether a certificate derives an application. Nothing is derived, and no rule S is tried.
pub(crate) fn verify<C: Call>(call: &mut C, app: &str, cert: &str) -> Status
    ensures answers { Answers (program.verify app.now cert.now) (app.now ∷ cert.now ∷ []) (C.seen call.old)
        (C.seen call.new) result }
    ensures no_usage { result ≢ Status.Usage }
{
    match resolve(call, app) {
        Ok(app) => verify_named(call, &app, cert),
        Err(status) => status,
    }
}
