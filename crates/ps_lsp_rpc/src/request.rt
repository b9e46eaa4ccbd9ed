// A message of the other side.

ghost use Rattle.std.specs.Prelude.{◌≡◌, IfOk, option_map, option_and_then, codes};
ghost use Rattle.serde_json.specs.Find.{get, as_str};
ghost use Rattle.serde_json.specs.View.{view};
ghost use Rattle.ps_lsp_rpc.specs.Rpc.{IsReadAs, value_of};

use ps_base::Memory;
use serde_json::Value;
use std::alloc::Global;

/// A message of the other side, which contracts see as its JSON value, if it is one, by `value_of`.
#[derive(Drop)]
pub struct Request {
    pub(crate) value: Option<Value>,
}

impl Request {
    /// The message with this body. One that is no JSON, or that nests over 127 deep, is read too, as one that is
    /// none.
    pub fn read(alloc: Global, body: &[u8]) -> Result<Request, Memory>
        ensures { IfOk result (λ request. IsReadAs body.now (value_of request)) }
    {
        match Value::from_slice(alloc, body) {
            Ok(value) => Ok(Request { value: Some(value) }),
            Err(error) => {
                if error.is_memory() {
                    Err(Memory)
                } else {
                    Ok(Request { value: None })
                }
            }
        }
    }

    /// The value of the message, if it is one.
    pub fn value(&self) -> Option<&Value>
        ensures { option_map (λ v. view v.now) result ≡ value_of self.now }
    {
        self.value.as_ref()
    }

    /// Its id, if it has one.
    pub fn id(&self) -> Option<&Value>
        ensures { option_map (λ v. view v.now) result ≡ option_and_then (get (codes "id")) (value_of self.now) }
    {
        self.value()?.get("id")
    }

    /// Its method, if it has one.
    pub fn method(&self) -> Option<&str>
        ensures { option_map (λ s. s.now) result
            ≡ option_and_then as_str (option_and_then (get (codes "method")) (value_of self.now)) }
    {
        self.value()?.get("method")?.as_str()
    }

    /// What its method is about, if it says it.
    pub fn params(&self) -> Option<&Value>
        ensures { option_map (λ v. view v.now) result ≡ option_and_then (get (codes "params")) (value_of self.now) }
    {
        self.value()?.get("params")
    }
}
