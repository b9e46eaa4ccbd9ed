// Values that are copied, where the header names the inputs in their order.

ghost use Rattle.std.specs.Prelude.{◌≡◌, ◌≤◌, ◌+◌, IsTrue, length, take};
ghost use Rattle.ps_trace.specs.Scans.{IsInOrder};

use ps_model::Bits;

// Whether each input's value stands at the input's number.
pub(crate) fn are_in_order(places: &[usize]) -> bool
    ensures { IsTrue result → IsInOrder places.now }
{
    for (i, place) in places.iter().enumerate() {
        if *place != i {
            return false;
        }
    }
    true
}

// Copies the values, as many as there are places.
#[tactic(auto, using(crate::proofs::CopyLemmas::copied_whole))]
pub(crate) fn copy(into: &mut Bits, values: &[bool])
    requires { length into.old ≡ length values.now }
    ensures { into.new ≡ values.now }
{
    let mut at = 0;
    'fours: while values.len() - at >= 4 {
        copy_four(into, values, at);
        at += 4;
    }
    if values.len() - at >= 2 {
        copy_two(into, values, at);
        at += 2;
    }
    if at == values.len() {
        return;
    }
    copy_one(into, values, at);
}

// Copies four values from place `at` on.
fn copy_four(into: &mut Bits, values: &[bool], at: usize)
    requires places { at + 4 ≤ length into.old }
    requires values { at + 4 ≤ length values.now }
    ensures copied { take at into.old ≡ take at values.now → take (at + 4) into.new ≡ take (at + 4) values.now }
    ensures size { length into.new ≡ length into.old }
{
    into.set(at, values[at]);
    into.set(at + 1, values[at + 1]);
    into.set(at + 2, values[at + 2]);
    into.set(at + 3, values[at + 3]);
}

// The same of two values.
fn copy_two(into: &mut Bits, values: &[bool], at: usize)
    requires places { at + 2 ≤ length into.old }
    requires values { at + 2 ≤ length values.now }
    ensures copied { take at into.old ≡ take at values.now → take (at + 2) into.new ≡ take (at + 2) values.now }
    ensures size { length into.new ≡ length into.old }
{
    into.set(at, values[at]);
    into.set(at + 1, values[at + 1]);
}

// The same of one value.
fn copy_one(into: &mut Bits, values: &[bool], at: usize)
    requires places { at + 1 ≤ length into.old }
    requires values { at + 1 ≤ length values.now }
    ensures copied { take at into.old ≡ take at values.now → take (at + 1) into.new ≡ take (at + 1) values.now }
    ensures size { length into.new ≡ length into.old }
{
    into.set(at, values[at]);
}
