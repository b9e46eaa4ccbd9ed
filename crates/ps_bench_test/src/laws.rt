//! What holds of what is told.

ghost use Rattle.std.specs.Prelude.{◌≡◌, List, ℕ, Some, IsTrue, IsUtf8};
ghost use Rattle.std.specs.List.{list_all};
ghost use Rattle.std.specs.Str.{chars};
ghost use Rattle.ps_bench_cases.specs.declared.case.Statement.{Statement};
ghost use Rattle.ps_bench_frame.specs.Pieces.{shown};
ghost use Rattle.ps_bench_judge.specs.declared.run.CaseOutcome.{CaseOutcome};
ghost use Rattle.ps_model.specs.Network.{Network};
ghost use Rattle.ps_bench_test.specs.Junit.{xml_escaped};
ghost use Rattle.ps_bench_test.specs.Reading.{description_read, is_no_mark, is_text, is_xml_character, value_read};
ghost use Rattle.ps_bench_test.specs.Tap.{tap_escaped};
ghost use Rattle.ps_bench_test.specs.Testing.{IsOutcome, IsToldExactly};

/// A case that was run is told as passed exactly where the run that it means has no failure.
pub fn passes_are_told_exactly()
    ensures { (net : Network) (statements : List Statement) (outcome : CaseOutcome) →
        IsOutcome net statements outcome → IsToldExactly net statements outcome }
{}

/// A reader of TAP gets each description back that was written, and takes no part of it for a directive.
pub fn descriptions_are_read_back()
    ensures { (description : List ℕ) → description_read (tap_escaped description) ≡ Some description }
{}

/// A reader of XML gets each value back that was written, of bytes of text.
pub fn values_are_read_back()
    ensures { (value : List ℕ) → IsTrue (list_all is_text value) → value_read (xml_escaped value) ≡ value }
{}

/// No value breaks out: in what is written of it stands no byte that ends a text of an element or a value of an
/// attribute.
pub fn no_value_breaks_out()
    ensures { (value : List ℕ) → IsTrue (list_all is_no_mark (xml_escaped value)) }
{}

/// What is written of a value has only characters that XML 1.0 allows, if the value has.
pub fn values_stay_xml()
    ensures { (value : List ℕ) → IsUtf8 value → IsTrue (list_all is_xml_character (chars value)) →
        IsTrue (list_all is_xml_character (chars (xml_escaped value))) }
{}

/// The name of a file is written in characters that XML 1.0 allows, whatever the name is.
pub fn names_are_xml()
    ensures { (name : List ℕ) → IsUtf8 name → IsTrue (list_all is_xml_character (chars (xml_escaped (shown name)))) }
{}
