// A stream of the system: the edge that is trusted. It tells no bytes.

ghost use Rattle.std.specs.Prelude.{◌≡◌, ◌≤◌, ◌+◌, [], false, length, min, IfOk, OnOk, OnErr};
ghost use Rattle.ps_outside.specs.Outside.{Rose, last_count};

use crate::Stream;
use ps_outside::Failed;
use std::io::Read;

/// A stream over a reader, as over standard input. It never tells its bytes.
#[derive(Drop)]
pub struct StdStream<R: Read + Drop> {
    input: R,
    faults: u64,
}

impl<R: Read + Drop> StdStream<R> {
    ghost use Rattle.ps_bench_watch.specs.System.{faults_of};

    /// A stream over this reader, of which no read has failed. It takes no memory.
    pub fn new(input: R) -> StdStream<R>
        ensures { faults_of result ≡ 0 }
    {
        StdStream { input, faults: 0 }
    }
}

impl<R: Read + Drop> Stream for StdStream<R> {
    ghost use Rattle.ps_bench_watch.specs.System.{faults_of};

    ghost tells = { λ _. false };

    ghost coming = { λ _. [] };

    ghost faults = { faults_of };

    // Answers what the reader does. The count rises by one at each failure, and at no other read.
    fn read_some(&mut self, buf: &mut [u8]) -> Result<usize, Failed>
        ensures fits { IfOk result (λ n. n ≤ length buf.new) }
        ensures failed { OnErr result (Rose (faults_of self.old) (faults_of self.new)) }
        ensures rises { OnErr result (faults_of self.new ≡ min (faults_of self.old + 1) last_count) }
        ensures exact { OnOk result (faults_of self.new ≡ faults_of self.old) }
        ensures counts { faults_of self.old ≤ faults_of self.new }
    {
        match self.input.read(buf) {
            Ok(n) => Ok(n),
            Err(_) => {
                self.faults = self.faults.saturating_add(1);
                Err(Failed)
            }
        }
    }
}
