// A text that was read once, as files that hold it.

ghost use Rattle.std.specs.Prelude.{◌≡◌, ◌≤◌, true, ℕ, List, IsTrue, Some, IfOk, IfSome, IsErrOf, length};
ghost use Rattle.ps_outside.specs.Outside.{Reads, Rose};

use ps_base::Bytes;
use ps_outside::{Failed, Files, ReadFail, read_upto};
use std::alloc::Global;
use std::marker::Model;

/// A text held in memory: files that hold it under every name, whose reads never fail. Contracts see it as the text.
#[derive(Drop)]
pub struct HeldText {
    text: Bytes,
}

impl Model for HeldText {
    ghost use Rattle.std.specs.Prelude.{List, ℕ};

    ghost Value = { List ℕ };

    ghost view = { λ held. held.text };
}

impl HeldText {
    /// The text of the file of this name, where it has fewer bytes than that many; None where it has as many, or more.
    ///
    /// `Fault` comes only where the files' count of the name rose in this call.
    pub fn of_file<F: Files>(
        alloc: Global,
        files: &mut F,
        name: &str,
        most: u32,
    ) -> Result<Option<HeldText>, ReadFail>
        ensures text { IsTrue (F.tells files.old) →
            IfOk result (λ read. IfSome read (λ text. F.held files.old name.now ≡ Some text)) }
        ensures fault { IsErrOf result ReadFail.Fault →
            Rose (F.faults files.old name.now) (F.faults files.new name.now) }
        ensures reads { (other : List ℕ) → F.faults files.old other ≤ F.faults files.new other }
        ensures kept { F.held files.new ≡ F.held files.old }
        ensures reading { F.tells files.new ≡ F.tells files.old }
    {
        match read_upto(alloc, files, name, most) {
            Ok(text) => {
                if text.len() < most as usize {
                    Ok(Some(HeldText { text }))
                } else {
                    Ok(None)
                }
            }
            Err(fail) => Err(fail),
        }
    }
}

impl Files for HeldText {
    ghost tells = { λ _. true };

    ghost held = { λ text _. Some text };

    ghost faults = { λ _ _. 0 };

    fn read_at(&mut self, _name: &str, at: u64, buf: &mut [u8]) -> Result<usize, Failed> {
        Ok(copy_from(self.text.as_slice(), at, buf))
    }
}

/// Copies the bytes of a text from an offset on, as many as there is room for, and says how many.
pub fn copy_from(text: &[u8], at: u64, buf: &mut [u8]) -> usize
    ensures bytes { Reads text.now at result buf.new }
    ensures fits { result ≤ length buf.new }
{
    let at = at as usize;
    if at >= text.len() {
        return 0;
    }
    let count = (text.len() - at).min(buf.len());
    buf[..count].copy_from_slice(&text[at..at + count]);
    count
}
