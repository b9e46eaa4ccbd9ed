// The server: its open texts, and what it does for each method.

ghost use Rattle.std.specs.Prelude.{◌≡◌, ℕ, List, IfOk, OnOk, option_map};
ghost use Rattle.serde_json.specs.View.{view};
ghost use Rattle.ps_lsp_text.specs.Findings.{Diagnoses, all_of};
ghost use Rattle.ps_accepted.specs.Answering.{IsFrontOf};
ghost use Rattle.ps_lsp_text.specs.Texts.{held};
ghost use Rattle.ps_lsp_text.specs.Answering.{IsResultAt, Says, beginning, capabilities, said_closing, said_fresh};
ghost use Rattle.ps_lsp_text.specs.Answering.{said_opening, said_shut, saying_asked, saying_at, saying_by, saying_in};
ghost use Rattle.ps_lsp_text.specs.Answering.{saying_of, saying_on};
ghost use Rattle.ps_lsp_text.specs.Asking.{position_in, uri_in};
ghost use Rattle.ps_lsp_text.specs.Published.{TellsOf, front};
ghost use Rattle.ps_lsp_text.specs.Publishing.{Holds, Publishes, closing_of, findings_of, publishing_by, publishing_in};
ghost use Rattle.ps_lsp_text.specs.Publishing.{publishing_of};
ghost use Rattle.ps_lsp_text.specs.Publishing.Publishing.{nothing};
ghost use Rattle.serde_json.specs.Data.{null};
ghost use Rattle.ps_lsp_rpc.specs.Rpc.{fails, gives, said_by, value_of};
ghost use Rattle.ps_lsp_text.specs.Serving.{IsAnswered};
ghost use Rattle.ps_lsp_text.specs.Stages.{ended_by, method_in, stage_after, stage_by, stage_of};

use crate::asking::{changed_text, place_of, position_in, text_at, uri_of};
use crate::fronts::front_of;
use crate::published::{published, withdrawn};
use crate::shown::{completion_value, definition_value, hover_value, symbols_value};
use crate::{Asked, Findings, Texts, findings_in};
use ps_base::Memory;
use ps_lsp_rpc::{Code, Outcome, Reply, Request, answer};
use serde_json::{Value, json};
use std::alloc::{AllocError, Global};

/// How far a server is.
#[derive(Clone, Copy)]
pub enum Stage {
    /// It has not been asked to begin.
    Fresh,
    /// It answers.
    Running,
    /// It has been asked to shut down.
    Shut,
    /// It has been told to exit, after it was asked to shut down or without.
    Ended { orderly: bool },
}

// What comes of a message: what its answer is to say, where it asks for one, and a notice.
struct Done {
    outcome: Outcome,
    notice: Option<Value>,
}

/// A server, with the texts that are open.
pub struct Server {
    stage: Stage,
    texts: Texts,
}

impl Drop for Server {
    fn drop(self) {
        let Server { stage: _, texts: _ } = self;
    }
}

// A result, and no notice.
fn given(value: Value) -> Done
    ensures says { said_by result.outcome ≡ gives (view value) }
    ensures publishes { Publishes nothing (option_map view result.notice) }
{
    Done {
        outcome: Outcome::Given(value),
        notice: None,
    }
}

// Why there is no result.
fn failed(code: Code, why: &'static str) -> Done
    ensures says { said_by result.outcome ≡ fails code why.now }
    ensures publishes { Publishes nothing (option_map view result.notice) }
{
    Done {
        outcome: Outcome::Failed(code, why),
        notice: None,
    }
}

// A notice, where a message is a notification.
fn told(notice: Value) -> Done
    ensures says { said_by result.outcome ≡ gives null }
    ensures tells { result.notice ≡ Some notice }
{
    Done {
        outcome: Outcome::Given(Value::Null),
        notice: Some(notice),
    }
}

// What the server can do.
fn capabilities(alloc: Global) -> Result<Value, AllocError>
    ensures { IfOk result (λ v. view v ≡ capabilities) }
{
    json!(in alloc; {
        "positionEncoding": "utf-16",
        "textDocumentSync": {"openClose": true, "change": 1u32},
        "hoverProvider": true,
        "definitionProvider": true,
        "documentSymbolProvider": true,
        "completionProvider": {"triggerCharacters": ["."]}
    })
}

// The same, and the name of the server.
fn beginning(alloc: Global) -> Result<Value, AllocError>
    ensures { IfOk result (λ v. view v ≡ beginning) }
{
    let capabilities = capabilities(alloc)?;
    json!(in alloc; {"capabilities": capabilities, "serverInfo": {"name": "plcsafe-lsp"}})
}

// How far a server is after a method.
fn stage_by(before: Stage, method: &str) -> Stage
    ensures { result ≡ stage_by before method.now }
{
    match before {
        Stage::Fresh => match method {
            "exit" => Stage::Ended { orderly: false },
            "initialize" => Stage::Running,
            _ => Stage::Fresh,
        },
        Stage::Running => match method {
            "exit" => Stage::Ended { orderly: false },
            "shutdown" => Stage::Shut,
            _ => Stage::Running,
        },
        Stage::Shut => match method {
            "exit" => Stage::Ended { orderly: true },
            _ => Stage::Shut,
        },
        Stage::Ended { orderly } => match method {
            "exit" => Stage::Ended { orderly: false },
            _ => Stage::Ended { orderly },
        },
    }
}

// A question about a place of a text.
#[derive(Clone, Copy)]
enum Asks {
    Hover,
    Completion,
    Definition,
}

// The result of a question about a place of the text of a name.
fn result_at(alloc: Global, asks: Asks, uri: &str, asked: Asked) -> Result<Value, Memory>
    ensures { IfOk result (λ v. IsResultAt asks uri.now asked.entry.text.now
        (option_map (λ text. text.now) asked.entry.parsed) asked.entry.place (view v)) }
{
    match asks {
        Asks::Hover => hover_value(alloc, asked),
        Asks::Completion => completion_value(alloc, asked),
        Asks::Definition => definition_value(alloc, uri, asked),
    }
}

// What comes of a method before the server answers.
fn perform_fresh(alloc: Global, method: &str) -> Result<Done, Memory>
    ensures says { IfOk result (λ done. said_by done.outcome ≡ said_fresh method.now) }
    ensures publishes { IfOk result (λ done. Publishes nothing (option_map view done.notice)) }
{
    match method {
        "initialize" => Ok(given(beginning(alloc)?)),
        "exit" => Ok(given(Value::Null)),
        _ => Ok(failed(Code::NotReady, "the server has not been asked to begin")),
    }
}

// What comes of a method after the server was asked to shut down.
fn perform_shut(method: &str) -> Done
    ensures says { said_by result.outcome ≡ said_shut method.now }
    ensures publishes { Publishes nothing (option_map view result.notice) }
{
    match method {
        "exit" => given(Value::Null),
        _ => failed(Code::NoRequest, "the server is shut down"),
    }
}

impl Server {
    /// A server that has not been asked to begin. It takes no memory.
    pub fn new(alloc: Global) -> Server
        ensures { stage_of result ≡ Stage.Fresh }
    {
        Server {
            stage: Stage::Fresh,
            texts: Texts::new(alloc),
        }
    }

    /// Whether it has been told to exit, and then whether it was asked to shut down before.
    pub fn ended(&self) -> Option<bool>
        ensures { result ≡ ended_by (stage_of self.now) }
    {
        match self.stage {
            Stage::Ended { orderly } => Some(orderly),
            Stage::Fresh | Stage::Running | Stage::Shut => None,
        }
    }

    // What is found in the text of a name as it is held; in an empty one, where it is not open.
    fn found(&self, alloc: Global, uri: &str) -> Result<Findings, Memory>
        ensures { IfOk result (λ findings. (text whole : List ℕ) → held self.now.texts uri.now ≡ Some text →
            IsFrontOf text whole → Diagnoses text whole (all_of findings)) }
    {
        match self.texts.text_of(uri) {
            Some(text) => findings_in(alloc, text),
            None => findings_in(alloc, &[]),
        }
    }

    // Holds the text of a name, and tells what is found in it.
    fn opened(&mut self, alloc: Global, uri: &str, text: &str) -> Result<Value, Memory>
        ensures tells { IfOk result (λ notice. TellsOf uri.now text.now (view notice)) }
        ensures holds { OnOk result (held self.new.texts uri.now ≡ Some (front text.now)) }
        ensures stays { self.new.stage ≡ self.old.stage }
    {
        let front = front_of(text);
        self.texts.hold(alloc, uri, front)?;
        let findings = self.found(alloc, uri)?;
        if findings.parses() {
            self.texts.note_parsed(uri);
        }
        published(alloc, uri, &findings)
    }

    // A text is opened, or changed: its name, and what it is now.
    fn open(&mut self, alloc: Global, uri: Option<&str>, text: Option<&str>) -> Result<Done, Memory>
        ensures says { IfOk result (λ done. said_by done.outcome
            ≡ said_opening (option_map (λ s. s.now) uri.entry) (option_map (λ s. s.now) text.entry)) }
        ensures publishes { IfOk result (λ done. Publishes
            (findings_of (option_map (λ s. s.now) uri.entry) (option_map (λ s. s.now) text.entry))
            (option_map view done.notice)) }
        ensures holds { OnOk result (Holds
            (findings_of (option_map (λ s. s.now) uri.entry) (option_map (λ s. s.now) text.entry)) self.new.texts) }
        ensures stays { self.new.stage ≡ self.old.stage }
    {
        match (uri, text) {
            (Some(uri), Some(text)) => Ok(told(self.opened(alloc, uri, text)?)),
            _ => Ok(failed(Code::NoParams, "a text has a name and a text")),
        }
    }

    // A text is closed.
    fn close(&mut self, alloc: Global, request: &Request) -> Result<Done, Memory>
        ensures says { IfOk result (λ done. said_by done.outcome ≡ said_closing (uri_in (value_of request.now))) }
        ensures publishes { IfOk result (λ done. Publishes (closing_of (uri_in (value_of request.now)))
            (option_map view done.notice)) }
        ensures stays { self.new.stage ≡ self.old.stage }
    {
        match uri_of(request) {
            Some(uri) => {
                self.texts.let_go(uri);
                Ok(told(withdrawn(alloc, uri)?))
            }
            None => Ok(failed(Code::NoParams, "a text has a name")),
        }
    }

    // What comes of a question about a place of a text.
    fn ask(&self, alloc: Global, request: &Request, asks: Asks) -> Result<Done, Memory>
        ensures says { IfOk result (λ done. Says self.now.texts
            (saying_at asks (uri_in (value_of request.now)) (position_in (value_of request.now)))
            (said_by done.outcome)) }
        ensures publishes { IfOk result (λ done. Publishes nothing (option_map view done.notice)) }
    {
        let (Some(uri), Some(position)) = (uri_of(request), position_in(request)) else {
            return Ok(failed(Code::NoParams, "a question has a text and a position"));
        };
        match self.texts.text_of(uri) {
            Some(text) => {
                let asked = Asked {
                    text,
                    parsed: self.texts.earlier_of(uri),
                    place: place_of(text, position),
                };
                Ok(given(result_at(alloc, asks, uri, asked)?))
            }
            None => Ok(given(Value::Null)),
        }
    }

    // What comes of a question about a whole text.
    fn ask_symbols(&self, alloc: Global, request: &Request) -> Result<Done, Memory>
        ensures says { IfOk result (λ done. Says self.now.texts (saying_on (uri_in (value_of request.now)))
            (said_by done.outcome)) }
        ensures publishes { IfOk result (λ done. Publishes nothing (option_map view done.notice)) }
    {
        let Some(uri) = uri_of(request) else {
            return Ok(failed(Code::NoParams, "a question has a text"));
        };
        match self.texts.text_of(uri) {
            Some(text) => Ok(given(symbols_value(alloc, text)?)),
            None => Ok(given(Value::Null)),
        }
    }

    // What comes of a question.
    fn question(&self, alloc: Global, request: &Request, method: &str) -> Result<Done, Memory>
        ensures says { IfOk result (λ done. Says self.now.texts (saying_asked method.now (value_of request.now))
            (said_by done.outcome)) }
        ensures publishes { IfOk result (λ done. Publishes nothing (option_map view done.notice)) }
    {
        match method {
            "exit" | "shutdown" | "initialized" => Ok(given(Value::Null)),
            "textDocument/hover" => self.ask(alloc, request, Asks::Hover),
            "textDocument/completion" => self.ask(alloc, request, Asks::Completion),
            "textDocument/definition" => self.ask(alloc, request, Asks::Definition),
            "textDocument/documentSymbol" => self.ask_symbols(alloc, request),
            _ => Ok(failed(Code::NoMethod, "there is no such method")),
        }
    }

    // What comes of a method while the server answers.
    fn run(&mut self, alloc: Global, request: &Request, method: &str) -> Result<Done, Memory>
        ensures says { IfOk result (λ done. Says self.old.texts (saying_by method.now (value_of request.now))
            (said_by done.outcome)) }
        ensures publishes { IfOk result (λ done. Publishes (publishing_by method.now (value_of request.now))
            (option_map view done.notice)) }
        ensures holds { OnOk result (Holds (publishing_by method.now (value_of request.now)) self.new.texts) }
        ensures stays { self.new.stage ≡ self.old.stage }
    {
        match method {
            "textDocument/didOpen" => {
                self.open(
                    alloc,
                    uri_of(request),
                    text_at(request, "/textDocument/text"),
                )
            }
            "textDocument/didChange" => self.open(alloc, uri_of(request), changed_text(request)),
            "textDocument/didClose" => self.close(alloc, request),
            _ => self.question(alloc, request, method),
        }
    }

    // What comes of a method, by how far the server was before it.
    fn perform_in(
        &mut self,
        alloc: Global,
        request: &Request,
        before: Stage,
        method: &str,
    ) -> Result<Done, Memory>
        ensures says { IfOk result (λ done. Says self.old.texts
            (saying_in before method.now (value_of request.now)) (said_by done.outcome)) }
        ensures publishes { IfOk result (λ done. Publishes
            (publishing_in before method.now (value_of request.now)) (option_map view done.notice)) }
        ensures holds { OnOk result (Holds (publishing_in before method.now (value_of request.now)) self.new.texts) }
        ensures stays { self.new.stage ≡ self.old.stage }
    {
        match before {
            Stage::Fresh => perform_fresh(alloc, method),
            Stage::Running => self.run(alloc, request, method),
            Stage::Shut | Stage::Ended { .. } => Ok(perform_shut(method)),
        }
    }

    // What comes of a message; its method, if it has one, says how far the server is after it.
    fn perform(&mut self, alloc: Global, request: &Request) -> Result<Done, Memory>
        ensures goes { OnOk result (self.new.stage ≡ stage_after self.old.stage (method_in (value_of request.now))) }
        ensures says { IfOk result (λ done. Says self.old.texts (saying_of self.old.stage (value_of request.now))
            (said_by done.outcome)) }
        ensures publishes { IfOk result (λ done. Publishes (publishing_of self.old.stage (value_of request.now))
            (option_map view done.notice)) }
        ensures holds { OnOk result (Holds (publishing_of self.old.stage (value_of request.now)) self.new.texts) }
    {
        let Some(method) = request.method() else {
            return Ok(failed(Code::NoRequest, "a request has a method"));
        };
        let before = self.stage;
        self.stage = stage_by(before, method);
        self.perform_in(alloc, request, before, method)
    }

    /// What is sent for the message with this body: the answer, where it asks for one, and a notice, where it opens,
    /// changes or closes a text. It returns for any bytes. An error means out of memory.
    pub fn reply(&mut self, alloc: Global, body: &[u8]) -> Result<Reply, Memory>
        ensures answered { IfOk result (IsAnswered self.old self.new body.now) }
    {
        let request = Request::read(alloc, body)?;
        let Done { outcome, notice } = self.perform(alloc, &request)?;
        let answer = answer(alloc, &request, outcome)?;
        Ok(Reply { answer, notice })
    }
}
