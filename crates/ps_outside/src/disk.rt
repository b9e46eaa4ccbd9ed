// The files of the system, and an output of the system: the edge that is trusted. They tell no bytes.

ghost use Rattle.std.specs.Prelude.{◌≡◌, ◌≤◌, ◌<◌, ◌+◌, false, [], None, ℕ, List, length, min, IsErr, IfOk, OnOk};
ghost use Rattle.std.specs.Prelude.{OnErr};
ghost use Rattle.std.specs.Io.Buffered.{writer_buffer, writer_contents};
ghost use Rattle.std.specs.Io.KnownBytes.{Keeps, WriteAppends};
ghost use Rattle.ps_outside.specs.Outside.{Rose, last_count};

use crate::{Failed, Files, Output, Sink};
use std::fs::File;
use std::io::{BufWriter, ErrorKind, Read, Seek, SeekFrom, Write};
use std::marker::Model;
use std::{io, rt};

/// The files of the system, each read of which opens its file anew. They never tell their bytes.
///
/// Contracts see of them the count of the reads that failed, which is the count of every name. An open that finds
/// no memory counts as such a failure.
#[derive(Drop)]
pub struct DiskFiles<'a, R: rt::Files> {
    system: &'a R,
    faults: u64,
}

impl<'a, R: rt::Files> Model for DiskFiles<'a, R> {
    ghost use Rattle.std.specs.Prelude.{ℕ};

    ghost Value = { ℕ };

    ghost view = { λ files. files.faults };
}

impl<'a, R: rt::Files> DiskFiles<'a, R> {
    /// The files of this system, of which no read has failed. It takes no memory.
    pub fn new(system: &'a R) -> DiskFiles<'a, R>
        ensures { result ≡ 0 }
    {
        DiskFiles { system, faults: 0 }
    }
}

impl<'a, R: rt::Files> Files for DiskFiles<'a, R> {
    ghost tells = { λ _. false };

    ghost held = { λ _ _. None };

    ghost faults = { λ count _. count };

    // Answers what the system does. The count rises by one at each failure, and at no other read.
    fn read_at(&mut self, name: &str, at: u64, buf: &mut [u8]) -> Result<usize, Failed>
        ensures fits { IfOk result (λ n. n ≤ length buf.new) }
        ensures failed { OnErr result (Rose self.old self.new) }
        ensures rises { OnErr result (self.new ≡ min (self.old + 1) last_count) }
        ensures exact { OnOk result (self.new ≡ self.old) }
        ensures counts { self.old ≤ self.new }
    {
        counted(read_disk(self.system, name, at, buf), &mut self.faults)
    }
}

// Reads bytes of a file of the system, from an offset on, by one read.
fn read_disk<R: rt::Files>(system: &R, name: &str, at: u64, buf: &mut [u8]) -> io::Result<usize>
    ensures { IfOk result (λ n. n ≤ length buf.new) }
{
    let mut file = File::open(system, name)?;
    file.seek(SeekFrom::Start(at))?;
    file.read(buf)
}

/// An output of the system, over a writer. It never tells its bytes.
///
/// Contracts see of it the writer, and the count of the writes and flushes that failed. A write that takes nothing of
/// a piece that is not empty counts as such a failure.
#[derive(Drop)]
pub struct StdSink<W: Write + Drop> {
    out: W,
    faults: u64,
    // whether the last write or flush failed since nobody reads what is written
    closed: bool,
}

impl<W: Write + Drop> Model for StdSink<W> {
    ghost use Rattle.ps_outside.specs.Output.{Output};

    ghost Value = { Output W };

    ghost view = { λ sink. record { writer = sink.out; faults = sink.faults } };
}

impl<W: Write + Drop> StdSink<W> {
    /// A sink over this writer, of which no write has failed. It takes no memory.
    pub fn new(out: W) -> StdSink<W>
        ensures { result ≡ record { writer = out; faults = 0 } }
    {
        StdSink {
            out,
            faults: 0,
            closed: false,
        }
    }
}

impl<W: Write + Drop> Sink for StdSink<W> {
    ghost tells = { λ _. false };

    ghost taken = { λ _. [] };

    ghost faults = { λ output. output.faults };

    // Answers what the writer does: it took just the bytes that are said, and none where the write failed. The count
    // rises by one at each failure, and at no other write.
    fn write(&mut self, piece: &[u8]) -> Result<usize, Failed>
        ensures took { WriteAppends (W.contents self.old.writer) (W.contents self.new.writer) result piece.now }
        ensures some { 0 < length piece.now → IfOk result (λ n. 0 < n) }
        ensures fits { IfOk result (λ n. n ≤ length piece.now) }
        ensures failed { OnErr result (Rose self.old.faults self.new.faults) }
        ensures rises { OnErr result (self.new.faults ≡ min (self.old.faults + 1) last_count) }
        ensures exact { OnOk result (self.new.faults ≡ self.old.faults) }
        ensures counts { self.old.faults ≤ self.new.faults }
    {
        let answer = match self.out.write(piece) {
            Ok(0) if !piece.is_empty() => Err(ErrorKind::WriteZero.into()),
            answer => answer,
        };
        self.closed = is_broken_pipe(&answer);
        counted(answer, &mut self.faults)
    }
}

// After a flush that succeeds the buffer is empty. What the writer below did with the bytes is for the system to say.
impl<W: Write + Drop> Output for StdSink<BufWriter<W>> {
    ghost held_back = { λ output. writer_buffer output.writer };

    fn finish(&mut self) -> Result<(), Failed>
        ensures kept { Keeps (writer_contents W.contents self.old.writer) (writer_contents W.contents self.new.writer) }
        ensures handed_on { OnOk result (writer_buffer self.new.writer ≡ []) }
        ensures failed { OnErr result (Rose self.old.faults self.new.faults) }
        ensures rises { OnErr result (self.new.faults ≡ min (self.old.faults + 1) last_count) }
        ensures exact { OnOk result (self.new.faults ≡ self.old.faults) }
        ensures counts { self.old.faults ≤ self.new.faults }
    {
        let answer = self.out.flush();
        self.closed = is_broken_pipe(&answer);
        counted(answer, &mut self.faults)
    }

    fn is_closed(&self) -> bool {
        self.closed
    }
}

// Whether a writer failed since nobody reads any more what it writes.
fn is_broken_pipe<T>(answer: &io::Result<T>) -> bool {
    match answer {
        Ok(_) => false,
        Err(error) => error.kind() == ErrorKind::BrokenPipe,
    }
}

// What an adapter answers where the system answers this: the same value, or a failure, which raises the count.
fn counted<T>(answer: io::Result<T>, faults: &mut u64) -> Result<T, Failed>
    ensures same { IfOk answer (λ value. result ≡ Ok value) }
    ensures exact { OnOk answer (faults.new ≡ faults.old) }
    ensures failed { OnErr answer (IsErr result) }
    ensures rises { OnErr answer (faults.new ≡ min (faults.old + 1) last_count) }
    ensures rose { OnErr answer (Rose faults.old faults.new) }
    ensures counts { faults.old ≤ faults.new }
{
    match answer {
        Ok(value) => Ok(value),
        Err(_) => {
            *faults = faults.saturating_add(1);
            Err(Failed)
        }
    }
}
