// One call of the program, from its words to the number with which it exits.

ghost use Rattle.std.specs.Prelude.{◌≡◌, ◌≢◌, [], Bool, IsTrue};
ghost use Rattle.ps_edge.specs.Doing.{Does};
ghost use Rattle.ps_edge.specs.Exit.{exit_number};
ghost use Rattle.ps_edge.specs.Heard.{IsHeard};
ghost use Rattle.ps_edge.specs.Hearing.{listener_seen};
ghost use Rattle.ps_edge.specs.Telling.{IsTold, takes_memory};
ghost use Rattle.ps_top.specs.Calls.{files_seen, output_seen};
ghost use Rattle.ps_top.specs.declared.left.Left.{Left as LeftBehind};
ghost use Rattle.ps_top.specs.declared.Status.{Status as StatusOf};

use crate::exit::{ended, exit_code};
use crate::known::{KnownListener, KnownOutput};
use crate::telling::tell;
use ps_outside::{Files, Output};
use ps_top::{Left, Status, Words, top};
use std::alloc::Global;

// Does what the words ask, and has the output hand on what it holds back.
fn do_call<F: Files, O: Output>(
    alloc: Global,
    words: &Words,
    files: &mut F,
    out: &mut O,
    left: &mut Left,
) -> Status
    ensures does { Does words.now
        (files_seen F.tells F.held F.faults files.old) (files_seen F.tells F.held F.faults files.new)
        (output_seen O.tells O.taken O.faults out.old) (output_seen O.tells O.taken O.faults out.new) left.new result }
    ensures handed_on { result ≢ Status.WriteFault → O.held_back out.new ≡ [] }
{
    let status = top(alloc, words, files, out, left);
    ended(status, out.finish())
}

/// Does what the words ask, and says the number with which the program exits: all that the program does, over any
/// files, any output, and whoever is told in words why a call did not do all.
///
/// `words` are those after the program's name. The number is that of a status, 0 to 7. What the output holds back is
/// handed on at the end; where that fails a write failed. Nothing is told of an output that nobody reads any more.
pub fn exit_of_call<F: Files, O: KnownOutput, L: KnownListener>(
    alloc: Global,
    words: &Words,
    files: &mut F,
    out: &mut O,
    listener: &mut L,
) -> u8
    // The number is that of the status with which the call ended, and what is heard is the message of that very call, by
    // whether somebody still reads the output.
    ensures does { (status : StatusOf) × (left : LeftBehind) × (result ≡ exit_number status)
        × Does words.now
        (files_seen F.tells F.held F.faults files.old) (files_seen F.tells F.held F.faults files.new)
        (output_seen O.tells O.taken O.faults out.old) (output_seen O.tells O.taken O.faults out.new) left status
        × (IsTrue (L.tells listener.old) → (is_closed : Bool) × (IsTrue (O.tells out.new) → is_closed ≡ O.closed out.new)
        × (let who = listener_seen L.quiet L.heard L.reads L.unread L.room listener.old in
        IsHeard is_closed (IsTold words.now who left status) (takes_memory words.now status) who (L.heard listener.new))) }

    // Whatever was taken is handed on, unless a write failed.
    ensures handed_on { result ≢ exit_number Status.WriteFault → O.held_back out.new ≡ [] }

    // Who asks for no messages hears none.
    ensures quiet { IsTrue (L.tells listener.old) → IsTrue (L.quiet listener.old) →
        L.heard listener.new ≡ L.heard listener.old }
    ensures telling { L.tells listener.new ≡ L.tells listener.old }
{
    let mut left = Left::new();
    let status = do_call(alloc, words, files, out, &mut left);
    tell(alloc, words, status, &left, out.is_unread(), listener);
    exit_code(status)
}
