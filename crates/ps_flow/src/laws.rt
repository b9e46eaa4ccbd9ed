// Laws of SAFEBOOL flow and of the text of a certificate.

ghost use Rattle.std.specs.Prelude.{◌≡◌, ◌≢◌, ℕ, List, Option, Result, All};
ghost use Rattle.ps_base.specs.declared.failing.Fail.{Fail};
ghost use Rattle.ps_base.specs.declared.failing.Rule.{Rule};
ghost use Rattle.ps_model.specs.Network.{Network};
ghost use Rattle.ps_model.specs.Typing.{Accepted};
ghost use Rattle.ps_flow.specs.declared.certificate.CertLine.{CertLine};
ghost use Rattle.ps_flow.specs.declared.refusal.FlowFail.{FlowFail};
ghost use Rattle.ps_flow.specs.Certifies.{Certifies};
ghost use Rattle.ps_flow.specs.Lines.{IsNumbered};
ghost use Rattle.ps_flow.specs.Read.{IsTextOf, IsWithin, IsFirstOther, ReadsAs};
ghost use Rattle.ps_flow.specs.Refusals.{IsFirstBreach};
ghost use Rattle.ps_flow.specs.Written.{written};

/// An application that is refused is not accepted. So `derive` gives a certificate exactly where it is.
pub fn refused_is_not_accepted()
    ensures { (net : Network) (rule : Rule) (step : ℕ) → (pin : Option ℕ) →
        IsFirstBreach net rule step pin → Accepted net → ⊥ }
{}

/// `derive` has one answer for an application, but if memory runs out: one certificate, or one rule at one step and
/// pin.
pub fn one_derivation()
    ensures { (net : Network) → (a b : Result (List CertLine) FlowFail) → Certifies net a → Certifies net b →
        a ≢ Err FlowFail.Memory → b ≢ Err FlowFail.Memory → a ≡ b }
{}

/// A text is that of one certificate at most.
pub fn one_text_one_certificate()
    ensures { (a b : List CertLine) (text : List ℕ) →
        All IsNumbered a → All IsNumbered b → IsTextOf a text → IsTextOf b text → a ≡ b }
{}

/// In the text of a certificate every line is of the form. So C1 refuses no text that was written.
pub fn written_lines_are_of_the_form()
    ensures { (lines : List CertLine) (text : List ℕ) (n : ℕ) →
        All IsNumbered lines → IsTextOf lines text → IsFirstOther text n → ⊥ }
{}

/// `read_certificate` has one answer for a text, but if memory runs out: one certificate, or one rule at one line.
pub fn one_reading()
    ensures { (text : List ℕ) (a b : Result (List CertLine) Fail) → ReadsAs text a → ReadsAs text b →
        a ≢ Err Fail.Memory → b ≢ Err Fail.Memory → a ≡ b }
{}

/// What `write_certificate` gives of a certificate is read back by `read_certificate` as that certificate, where the
/// text is within the limits and memory is not wanting.
pub fn written_is_read_back()
    ensures { (lines : List CertLine) (a : Result (List CertLine) Fail) → All IsNumbered lines → IsWithin (written lines) →
        ReadsAs (written lines) a → a ≢ Err Fail.Memory → a ≡ Ok lines }
{}
