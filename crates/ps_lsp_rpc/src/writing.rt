// Writing of a message.

ghost use Rattle.std.specs.Prelude.{◌≡◌, ◌++◌, IsTrue, OnErr, OnOk};
ghost use Rattle.ps_lsp_rpc.specs.Frames.{message};
ghost use Rattle.ps_lsp_rpc.specs.Sending.{Continues};

use itoa::Buffer;
use ps_outside::{Sink, Stopped, write_all};

/// Writes a message with this body: a head that says its length, an empty line, and the body; or a beginning of it, where
/// a write fails. It takes no memory.
pub fn write_frame<S: Sink>(out: &mut S, body: &[u8]) -> Result<(), Stopped>
    ensures written { IsTrue (S.tells out.old) → OnOk result (S.taken out.new ≡ S.taken out.old ++ message body.now) }
    ensures begun { IsTrue (S.tells out.old) → OnErr result (Continues (S.taken out.old) (S.taken out.new)) }
    ensures telling { S.tells out.new ≡ S.tells out.old }
{
    let mut digits = Buffer::new();
    write_all(out, b"Content-Length: ")?;
    write_all(out, digits.format(body.len()).as_bytes())?;
    write_all(out, b"\r\n\r\n")?;
    write_all(out, body)
}
