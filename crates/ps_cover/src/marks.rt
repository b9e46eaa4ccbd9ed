// Which marks a step makes.

ghost use Rattle.std.specs.Prelude.{◌≡◌, ◌<◌, ℕ, false, length, slice_index_or};
ghost use Rattle.ps_model.specs.Blocks.{next};
ghost use Rattle.ps_model.specs.Table.{Conditions};
ghost use Rattle.ps_ways.specs.Marks.{number_taken};
ghost use Rattle.ps_cover.specs.Marks.{marked};

use ps_ways::Taken;

/// Says of each mark whether a step makes it.
pub fn mark_taken(taken: &Taken, met: &mut [bool])
    ensures each { length met.new ≡ length met.old }
    ensures marks { (c : Conditions) → taken.now.number ≡ number_taken taken.now.kind taken.now.from c →
        taken.now.to ≡ next taken.now.kind taken.now.from c → (mark : ℕ) → mark < length met.old →
        slice_index_or met.new mark false ≡ marked taken.now.kind taken.now.from c mark }
{
    for mark in 0..met.len() {
        met[mark] = taken.makes(mark);
    }
}

/// Says that no mark is made.
pub fn mark_none(met: &mut [bool])
    ensures each { length met.new ≡ length met.old }
    ensures none { (mark : ℕ) → slice_index_or met.new mark false ≡ false }
{
    met.fill(false);
}
