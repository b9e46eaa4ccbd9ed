// The program, over any files and any output.

ghost use Rattle.std.specs.Prelude.{◌≡◌, ◌≢◌, ◌⊎◌, ◌≤◌, ◌++◌, ℕ, List, IsTrue, None, Any};
ghost use Rattle.ps_outside.specs.Outside.{CountsStay, Rose};
ghost use Rattle.ps_top.specs.Asking.{Answer, IsAnswer, AsksFor, IsLeft, worked};
ghost use Rattle.ps_top.specs.Calls.{Answers, LeavesRefusal, output_seen};
ghost use Rattle.ps_top.specs.Meets.{IsCut, AppendsAll, AppendsPart};
ghost use Rattle.ps_top.specs.Program as program;
ghost use Rattle.ps_words.specs.Command as asked;
ghost use Rattle.ps_words.specs.Command.Command.{Run, Vote, Heal, NotTaken};

use crate::Status;
use crate::call::{Call, CallOver};
use crate::certifying::cert;
use crate::checking::check;
use crate::demanding::demand;
use crate::imaging::image;
use crate::left::Left;
use crate::loading::load;
use crate::running::{fault, run};
use crate::saying::say;
use crate::verifying::verify;
use crate::voting::vote;
use ps_base::Memory;
use ps_outside::{Files, Sink};
use ps_words::{Command, USAGE, Words, command_of};
use std::alloc::Global;

// Does what the words ask.
fn do_words<C: Call>(call: &mut C, words: &Words) -> Status
    ensures answers { Answers (program.text words.now) (asked.names_of (asked.command_of words.now)) (C.seen call.old)
        (C.seen call.new) result }
    ensures usage { result ≡ Status.Usage → asked.command_of words.now ≡ NotTaken }
    ensures not_taken { asked.command_of words.now ≡ NotTaken → (result ≡ Status.Usage) ⊎
        ((result ≡ Status.WriteFault) ⊎ (result ≡ Status.Memory)) }
{
    let command = match command_of(call.alloc(), words) {
        Ok(command) => command,
        Err(Memory) => return Status::Memory,
    };
    match command {
        Command::NotTaken => say(call, USAGE, Status::Usage),
        Command::Run { app, trace } => run(call, app, trace),
        Command::Fault { app, trace, faults } => fault(call, app, trace, faults),
        Command::Check { app } => check(call, app),
        Command::Cert { app } => cert(call, app),
        Command::Verify { app, cert } => verify(call, app, cert),
        Command::Image { app } => image(call, app),
        Command::Load { number } => load(call, number),
        Command::Demand { app } => demand(call, app),
        Command::Vote { app, trace, faults } => vote(call, app, trace, faults, false),
        Command::Heal { app, trace, faults } => vote(call, app, trace, faults, true),
    }
}

// The same, of a call that holds its files, its output and what is left by the loans with which it came.
fn do_all<C: Call>(call: &mut C, words: &Words) -> Status
    ensures answers { Answers (program.text words.now) (asked.names_of (asked.command_of words.now)) (C.seen call.old)
        (C.seen call.new) result }
    ensures usage { result ≡ Status.Usage → asked.command_of words.now ≡ NotTaken }
    ensures not_taken { asked.command_of words.now ≡ NotTaken → (result ≡ Status.Usage) ⊎
        ((result ≡ Status.WriteFault) ⊎ (result ≡ Status.Memory)) }
    ensures files { (C.seen call.new).loans.files ≡ (C.seen call.old).loans.files }
    ensures out { (C.seen call.new).loans.out ≡ (C.seen call.old).loans.out }
    ensures left { (C.seen call.new).loans.left ≡ (C.seen call.old).loans.left }
{
    do_words(call, words)
}

/// Does what the words ask: all that the program does.
///
/// `words` are those after the program's name. What is written, and the status, is what the definition `text` says for
/// these words and the texts that the files hold. In `left` stands what the call worked with, and the refusal where a
/// text is refused; what was in it before is dropped first.
pub fn top<F: Files, S: Sink>(
    alloc: Global,
    words: &Words,
    files: &mut F,
    out: &mut S,
    left: &mut Left,
) -> Status
    // Over files that tell: a call that was not cut short has the status of the text, and an output that tells took all
    // of it.
    ensures status { IsTrue (F.tells files.old) → ¬ IsCut result →
        (answer : Answer) × IsAnswer (program.text words.now) (F.held files.old) answer × (result ≡ answer.status) }
    ensures whole { IsTrue (F.tells files.old) → ¬ IsCut result →
        AppendsAll (IsAnswer (program.text words.now) (F.held files.old)) (S.tells out.old) (S.taken out.old)
        (S.taken out.new) result }

    // A run without faults never trips.
    ensures quiet { IsTrue (F.tells files.old) → (app trace : List ℕ) → asked.command_of words.now ≡ Run app trace →
        result ≢ Status.Tripped }

    // Three seats never trip.
    ensures untripped { IsTrue (F.tells files.old) → (app trace faults : List ℕ) →
        (asked.command_of words.now ≡ Vote app trace faults) ⊎ (asked.command_of words.now ≡ Heal app trace faults) →
        result ≢ Status.Tripped }

    // One that was cut short appends a beginning of it, and if memory runs out nothing.
    ensures stopped { IsTrue (F.tells files.old) → result ≡ Status.WriteFault →
        AppendsPart (IsAnswer (program.text words.now) (F.held files.old)) (S.tells out.old) (S.taken out.old)
        (S.taken out.new) }
    ensures unread { IsTrue (F.tells files.old) → IsTrue (S.tells out.old) → result ≡ Status.ReadFault →
        (S.taken out.new ≡ S.taken out.old) ⊎ AppendsPart (IsAnswer (program.text words.now) (F.held files.old))
        (S.tells out.old) (S.taken out.old) (S.taken out.new) }
    ensures memory { IsTrue (S.tells out.old) → result ≡ Status.Memory → S.taken out.new ≡ S.taken out.old }

    // What is left behind, where the call was not cut short: this and nothing else.
    ensures leaves { IsTrue (F.tells files.old) → ¬ IsCut result →
        IsLeft (program.text words.now) (F.held files.old) (worked left.new) }

    // A refusal that was said is left: its line ends what an output that tells took.
    ensures refuses { LeavesRefusal left.new (output_seen S.tells S.taken S.faults out.new) result }

    // Where a name that the text asks for is not held, nothing is written, and a read failed or memory runs out.
    ensures not_held { IsTrue (F.tells files.old) → (name : List ℕ) →
        AsksFor (program.text words.now) (F.held files.old) name →
        F.held files.old name ≡ None → (result ≡ Status.ReadFault) ⊎ (result ≡ Status.Memory) }
    ensures nothing_written { IsTrue (F.tells files.old) → IsTrue (S.tells out.old) → (name : List ℕ) →
        AsksFor (program.text words.now) (F.held files.old) name → F.held files.old name ≡ None →
        S.taken out.new ≡ S.taken out.old }

    // Faults have causes. Over files that tell it is a name that the text asks for.
    ensures asked_fault { IsTrue (F.tells files.old) → result ≡ Status.ReadFault →
        (name : List ℕ) × AsksFor (program.text words.now) (F.held files.old) name ×
        Rose (F.faults files.old name) (F.faults files.new name) }
    ensures read_fault { result ≡ Status.ReadFault → Any (λ name. Rose (F.faults files.old name)
        (F.faults files.new name)) (asked.names_of (asked.command_of words.now)) }
    ensures write_fault { result ≡ Status.WriteFault → Rose (S.faults out.old) (S.faults out.new) }

    // And no failure is hidden, whatever the files and the output tell: any other status leaves the counts as they
    // were.
    ensures no_read_failed { result ≢ Status.ReadFault → CountsStay (F.faults files.old) (F.faults files.new) }
    ensures no_write_failed { result ≢ Status.WriteFault → S.faults out.new ≡ S.faults out.old }

    // Usage comes exactly where the words are not taken, unless the output fails or memory runs out.
    ensures usage { result ≡ Status.Usage → asked.command_of words.now ≡ NotTaken }
    ensures not_taken { asked.command_of words.now ≡ NotTaken → (result ≡ Status.Usage) ⊎
        ((result ≡ Status.WriteFault) ⊎ (result ≡ Status.Memory)) }

    // Where nothing failed the call says all, or memory runs out.
    ensures completes { IsTrue (F.tells files.old) →
        ((name : List ℕ) → AsksFor (program.text words.now) (F.held files.old) name →
        ¬ (Rose (F.faults files.old name) (F.faults files.new name))) →
        ¬ (Rose (S.faults out.old) (S.faults out.new)) →
        (result ≡ Status.Memory) ⊎ AppendsAll (IsAnswer (program.text words.now) (F.held files.old)) (S.tells out.old)
        (S.taken out.old) (S.taken out.new) result }

    // What stays: what is held, whether files and output tell, and no count falls.
    ensures kept { F.held files.new ≡ F.held files.old }
    ensures files_telling { F.tells files.new ≡ F.tells files.old }
    ensures counts { (name : List ℕ) → F.faults files.old name ≤ F.faults files.new name }
    ensures output_telling { S.tells out.new ≡ S.tells out.old }
    ensures output_count { S.faults out.old ≤ S.faults out.new }
{
    *left = Left::new();
    let mut call = CallOver {
        alloc,
        files,
        out,
        left,
    };
    let status = do_all(&mut call, words);
    let CallOver {
        alloc: _,
        files: _,
        out: _,
        left: _,
    } = call;
    status
}
