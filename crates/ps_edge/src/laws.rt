//! The clauses of a call where all is known: over files and an output in memory, for a listener in memory.

ghost use Rattle.std.specs.Prelude.{◌≡◌};
ghost use Rattle.ps_edge.specs.Exit.{exit_number};
ghost use Rattle.ps_edge.specs.InMemory.{DoesInMemory};
ghost use Rattle.ps_edge.specs.Listening.{listener_of};
ghost use Rattle.ps_outside.specs.HeldFiles.{in_memory};
ghost use Rattle.ps_top.specs.declared.left.Left.{Left as LeftBehind};
ghost use Rattle.ps_top.specs.declared.Status.{Status as StatusOf};

use crate::call::exit_of_call;
use crate::mem_listener::MemListener;
use ps_outside::{MemFiles, MemSink};
use ps_top::Words;
use std::alloc::Global;

/// One call of the program in memory: the files tell what they hold, the output tells what it took, and the listener
/// tells what it heard. So what it says of a call is said without a premise.
pub fn exit_of_call_in_memory(
    alloc: Global,
    words: &Words,
    files: &mut MemFiles,
    out: &mut MemSink,
    listener: &mut MemListener,
) -> u8
    ensures { (status : StatusOf) × (left : LeftBehind) × (result ≡ exit_number status)
        × DoesInMemory words.now (in_memory files.old) (in_memory files.new) out.old out.new
        (listener_of listener.old) (listener_of listener.new).heard left status }
{
    exit_of_call(alloc, words, files, out, listener)
}
