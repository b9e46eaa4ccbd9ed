// The answer to a message.

ghost use Rattle.std.specs.Prelude.{◌≡◌, IfOk, option_map};
ghost use Rattle.serde_json.specs.Data.{null};
ghost use Rattle.serde_json.specs.View.{view};
ghost use Rattle.ps_lsp_rpc.specs.Rpc.{answer_of, answer_to, asked, code_number, failure, is_id, said_by, success};
ghost use Rattle.ps_lsp_rpc.specs.Rpc.{value_of};

use crate::request::Request;
use ps_base::Memory;
use serde_json::{Value, json};
use std::alloc::{AllocError, Global};

/// Why a request has no result.
#[derive(Clone, Copy)]
pub enum Code {
    /// The message is no JSON.
    NoJson,
    /// It is no request.
    NoRequest,
    /// There is no such method.
    NoMethod,
    /// Its parameters are none of the method.
    NoParams,
    /// The server has not been asked to begin.
    NotReady,
}

impl Code {
    // The number of a code.
    fn number(self) -> i64
        ensures { result ≡ code_number self }
    {
        match self {
            Code::NoJson => -32700,
            Code::NoRequest => -32600,
            Code::NoMethod => -32601,
            Code::NoParams => -32602,
            Code::NotReady => -32002,
        }
    }
}

/// What came of a request.
#[derive(Drop)]
pub enum Outcome {
    /// Its result.
    Given(Value),
    /// Why there is none.
    Failed(Code, &'static str),
}

// The answer with a result.
fn success(alloc: Global, id: Value, given: Value) -> Result<Value, AllocError>
    ensures { IfOk result (λ v. view v ≡ success (view id) (view given)) }
{
    json!(in alloc; {"id": id, "jsonrpc": "2.0", "result": given})
}

// The answer that there is no result.
fn failure(alloc: Global, id: Value, code: Code, why: &str) -> Result<Value, AllocError>
    ensures { IfOk result (λ v. view v ≡ failure (view id) code why.now) }
{
    let number = code.number();
    json!(in alloc; {"error": {"code": number, "message": why}, "id": id, "jsonrpc": "2.0"})
}

// The answer to the request of an id.
fn answer_of(alloc: Global, id: &Value, outcome: Outcome) -> Result<Value, AllocError>
    ensures { IfOk result (λ v. view v ≡ answer_of (view id.now) (said_by outcome)) }
{
    let id = id.clone()?;
    match outcome {
        Outcome::Given(given) => success(alloc, id, given),
        Outcome::Failed(code, why) => failure(alloc, id, code, why),
    }
}

// Whether a value is an id.
fn is_id(value: &Value) -> bool
    ensures { result ≡ is_id (view value.now) }
{
    match value {
        Value::Number(_) | Value::String(_) => true,
        Value::Null | Value::Bool(_) | Value::Array(_) | Value::Object(_) => false,
    }
}

// The answer to what is no request.
fn refused(alloc: Global, code: Code, why: &str) -> Result<Option<Value>, Memory>
    ensures { IfOk result (λ given. option_map view given ≡ Some (failure null code why.now)) }
{
    Ok(Some(failure(alloc, Value::Null, code, why)?))
}

/// The answer to a message of which this came: of a request one, with its id, that says what came of it; of what is no
/// request one that says so; of a notification, and of an answer, none.
pub fn answer(alloc: Global, request: &Request, outcome: Outcome) -> Result<Option<Value>, Memory>
    ensures answers { IfOk result (λ given.
        option_map view given ≡ answer_to (asked (value_of request.now)) (said_by outcome)) }
{
    if request.value().is_none() {
        return refused(alloc, Code::NoJson, "the message is no JSON");
    }
    match (request.id(), request.method()) {
        (Some(id), Some(_)) => {
            if is_id(id) {
                Ok(Some(answer_of(alloc, id, outcome)?))
            } else {
                refused(alloc, Code::NoRequest, "an id is a number or a text")
            }
        }
        (None, None) => refused(alloc, Code::NoRequest, "a request has a method"),
        (Some(_), None) | (None, Some(_)) => Ok(None),
    }
}
