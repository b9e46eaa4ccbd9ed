// Laws of messages in a stream.

ghost use Rattle.std.specs.Prelude.{◌≡◌, ◌++◌, ℕ, List};
ghost use Rattle.ps_lsp_rpc.specs.Frames.{Gives, IsMessage};
ghost use Rattle.ps_lsp_rpc.specs.declared.reading.Frame.{Frame};

use crate::reading::Frame;

/// A message at the front of a stream is what a reading gives, and just what stands after it is left.
pub fn a_message_is_given()
    ensures { (ahead left bytes body rest : List ℕ) (frame : Frame) → Gives ahead left frame → IsMessage bytes body →
        ahead ≡ bytes ++ rest → (frame ≡ Frame.Message body) × (left ≡ rest) }
{}
