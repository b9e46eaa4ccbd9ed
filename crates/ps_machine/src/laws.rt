// Laws of the words of machines. Each function computes nothing: its contract is the law.

ghost use Rattle.ps_machine.specs.ReadingBack.{ReadsBack};

/// Bytes that were replaced are read back, and all other bytes are as they were.
pub fn reads_back()
    ensures { ReadsBack }
{}
