// What holds of every dump.

ghost use Rattle.std.specs.Prelude.{◌≡◌, ◌<◌, ◌≤◌, ◌++◌, ℕ, List, true, false, length, map};
ghost use Rattle.std.specs.List.{list_all, AllByRecursion};
ghost use Rattle.ps_bench_waves.specs.declared.identifier.TheConstants.{MOST_WIRES};
ghost use Rattle.ps_bench_waves.specs.Values.{Held};
ghost use Rattle.ps_bench_waves.specs.Identifiers.{identifier};
ghost use Rattle.ps_bench_waves.specs.Text.{Moment, scans_text};
ghost use Rattle.ps_bench_waves.specs.Declarations.{wire_text};
ghost use Rattle.ps_bench_waves.specs.Reading.{scans_read, tokens};
ghost use Rattle.ps_bench_waves.specs.declared.wire.Wire.{Wire};
ghost use Rattle.ps_bench_waves.specs.ReadBack.{IsReadable, identifiers, is_printable, seen, wire_tokens};

/// No two wires have the same identifier; and each character prints of those of the most wires that a dump may have.
pub fn identifiers_are_unique()
    ensures unique { (wire other : ℕ) → identifier wire ≡ identifier other → wire ≡ other }
    ensures printable { (wire : ℕ) → wire < MOST_WIRES → list_all is_printable (identifier wire) ≡ true }
{}

/// A reader of the value changes gives each scan back that was written, with its time and the value of each wire, and
/// no other scan: whatever the wires had, however many scans there are, and whichever times stand again.
pub fn read_back()
    ensures { (wires : ℕ) (blank : List Held) (moments : List Moment) → length blank ≡ wires →
        AllByRecursion (IsReadable wires) moments →
        scans_read (identifiers wires) (scans_text false blank moments) ≡ map seen moments }
{}

/// The declaration of a wire whose name has printable characters alone is read as its type, the number of its bits, its
/// identifier and its name, whatever stands after.
pub fn wires_are_declared()
    ensures { (number : ℕ) (wire : Wire) (rest : List ℕ) → 0 < length wire.name →
        list_all is_printable wire.name ≡ true →
        tokens (wire_text number wire ++ rest) ≡ wire_tokens number wire ++ tokens rest }
{}
