// What is written for a message.

ghost use Rattle.std.specs.Prelude.{◌≡◌, [], IsTrue, OnErr, OnOk, option_map};
ghost use Rattle.serde_json.specs.View.{view};
ghost use Rattle.ps_lsp_rpc.specs.Sending.{Continues, Sends, SendsReply};

use crate::writing::write_frame;
use ps_outside::Output;
use serde_json::Value;
use std::alloc::Global;

/// What is sent for a message: the answer, and then a notice.
pub struct Reply {
    pub answer: Option<Value>,
    pub notice: Option<Value>,
}

impl Drop for Reply {
    // One call for whoever owns one, in place of a walk through all that it holds.
    fn drop(self) {
        let Reply {
            answer: _,
            notice: _,
        } = self;
    }
}

/// Why a message was not sent whole.
#[derive(Clone, Copy)]
pub enum Unsent {
    /// The output could not be written.
    Unwritten,
    /// Memory ran out.
    Memory,
}

// Writes a message of a value, or nothing where there is none.
fn send<O: Output>(alloc: Global, out: &mut O, value: Option<&Value>) -> Result<(), Unsent>
    ensures sends { IsTrue (O.tells out.old) →
        OnOk result (Sends (option_map (λ v. view v.now) value.entry) (O.taken out.old) (O.taken out.new)) }
    ensures begun { IsTrue (O.tells out.old) → OnErr result (Continues (O.taken out.old) (O.taken out.new)) }
    ensures telling { O.tells out.new ≡ O.tells out.old }
{
    let Some(value) = value else {
        return Ok(());
    };
    match value.to_string(alloc) {
        Ok(text) => match write_frame(out, text.as_str().as_bytes()) {
            Ok(()) => Ok(()),
            Err(_) => Err(Unsent::Unwritten),
        },
        Err(_) => Err(Unsent::Memory),
    }
}

/// Writes a reply: its answer, once where there is one, and then its notice, where there is one; and hands all of it
/// on. Where that fails, what was written before stays, and a part of the reply may stand after it.
pub fn send_reply<O: Output>(alloc: Global, out: &mut O, reply: &Reply) -> Result<(), Unsent>
    ensures sends { IsTrue (O.tells out.old) → OnOk result (SendsReply reply.now (O.taken out.old) (O.taken out.new)) }
    ensures handed_on { OnOk result (O.held_back out.new ≡ []) }
    ensures begun { IsTrue (O.tells out.old) → OnErr result (Continues (O.taken out.old) (O.taken out.new)) }
    ensures telling { O.tells out.new ≡ O.tells out.old }
{
    send(alloc, out, reply.answer.as_ref())?;
    send(alloc, out, reply.notice.as_ref())?;
    match out.finish() {
        Ok(()) => Ok(()),
        Err(_) => Err(Unsent::Unwritten),
    }
}
