// Every text, every application and every certificate comes to an answer; the program has exactly one; and what it
// tells of an accepted text is what the text means by its own names.

ghost use Rattle.std.specs.Prelude.{◌⊎◌, ℕ, List, Option, Ok, Err, ◌≡◌, IsSome};
ghost use Rattle.ps_base.specs.declared.failing.Fail.TheVariants.{Refused};
ghost use Rattle.ps_base.specs.declared.failing.Refusal.{Refusal};
ghost use Rattle.ps_base.specs.declared.failing.Rule.{Rule};
ghost use Rattle.ps_lexer.specs.declared.token.Tokens.{Tokens};
ghost use Rattle.ps_lexer.specs.Reading.{tokens};
ghost use Rattle.ps_lexer.specs.Spelling.{IsTokenList};
ghost use Rattle.ps_parser.specs.Language.{IsSpelt, IsRefused};
ghost use Rattle.ps_model.specs.Network.{Network};
ghost use Rattle.ps_model.specs.Typing.{Accepted};
ghost use Rattle.ps_model.specs.Meaning.{Item};
ghost use Rattle.ps_derived.specs.declared.library.Library.{Library};
ghost use Rattle.ps_derived.specs.Texts.{libraries};
ghost use Rattle.ps_language_laws.specs.Maps.{HasFields};
ghost use Rattle.ps_flow.specs.declared.certificate.CertLine.{CertLine};
ghost use Rattle.ps_flow.specs.Read.{IsCertificate, RefusesText};
ghost use Rattle.ps_flow.specs.Refusals.{IsFirstBreach};
ghost use Rattle.ps_checker.specs.Derives.{Derives};
ghost use Rattle.ps_checker.specs.Objections.{Objects};
ghost use Rattle.ps_accepted.specs.Demanding.{IsDemandableAs};
ghost use Rattle.ps_accepted.specs.Source.{Reading, IsResolvedAs, IsAcceptedAs};
ghost use Rattle.ps_accepted.specs.Source.Reading.{stands_for};
ghost use Rattle.ps_top.specs.Asking.{Answer, AsksFor, IsAnswer};
ghost use Rattle.ps_top.specs.Program.{Ruling, Judges};
ghost use Rattle.ps_language_laws.specs.Texts.{IsAcceptedText, HasOneMap, HasOneRun, ReportsAreOfMaps, RunsTellMaps};
ghost use Rattle.ps_language_laws.specs.Texts.{FaultsTellMaps};
ghost use Rattle.ps_top.specs.Program as program;

use ps_top::laws::{an_answer_exists, one_answer};

/// A text is read as tokens, or the rules L refuse it.
pub fn tokens_or_refused()
    ensures { (text : List ℕ) → ((t : Tokens) × tokens text (Ok t)) ⊎ ((r : Refusal) × tokens text (Err (Refused r))) }
{}

/// The tokens that a text is read as are what the parser asks for: names and TIME literals within their limits, and no
/// more tokens than it takes.
pub fn tokens_are_well_formed()
    ensures { (text : List ℕ) (t : Tokens) → tokens text (Ok t) → IsTokenList t.list }
{}

/// Tokens spell function blocks and a program, or the rules P refuse them.
pub fn spelt_or_refused()
    ensures { (t : Tokens) → IsTokenList t.list →
        ((l : Library) × IsSpelt libraries t.list l) ⊎ ((r : Refusal) × IsRefused libraries t.list t.end r) }
{}

/// An application is accepted, or it breaks the rules S, first at one step and pin.
pub fn accepted_or_breaks()
    ensures { (net : Network) → Accepted net ⊎ ((rule : Rule) × (step : ℕ) × (pin : Option ℕ) × IsFirstBreach net rule step pin) }
{}

/// A source has a reading: by the rules L, P, B and N, by these and the rules S, and by these and the rule M1.
pub fn every_source_is_read()
    ensures resolved { (source : List ℕ) → (reading : Reading) × IsResolvedAs source reading }
    ensures accepted { (source : List ℕ) → (reading : Reading) × IsAcceptedAs source reading }
    ensures demandable { (source : List ℕ) → (reading : Reading) × IsDemandableAs source reading }
{}

/// A text is that of a certificate, or the rules C refuse it.
pub fn certificate_or_refused()
    ensures { (text : List ℕ) → ((lines : List CertLine) × IsCertificate text lines) ⊎ ((r : Refusal) × RefusesText text r.rule r.place) }
{}

/// The lines of a certificate derive an application, or there is a first objection to them, by the rules O.
pub fn derived_or_objected()
    ensures { (net : Network) (lines : List CertLine) → Derives net lines ⊎ ((n : ℕ) × (rule : Rule) × Objects net lines n rule) }
{}

/// The text of a certificate is judged for every application: its lines derive it, or an objection stands first.
pub fn every_certificate_is_judged()
    ensures { (net : Network) (certificate : List ℕ) → (judged : Ruling) × Judges net certificate judged }
{
    certificate_or_refused();
    derived_or_objected();
}

/// The text of a certificate has one judgement alone for an application: it derives it by one list of lines, or has one
/// first refusal or objection, and not both.
pub fn one_judgement()
    ensures { (net : Network) (certificate : List ℕ) (first second : Ruling) → Judges net certificate first → Judges net certificate second → first ≡ second }
{}

/// The program has exactly one answer for any words and any texts, where all names that it asks for are held. So a
/// clause on its answer is never met for want of one, nor by one of several.
pub fn exactly_one_answer()
    ensures { (words : List (List ℕ)) (held : List ℕ → Option (List ℕ)) →
        ((name : List ℕ) → AsksFor (program.text words) held name → IsSome (held name)) →
        (answer : Answer) × IsAnswer (program.text words) held answer ×
        ((other : Answer) → IsAnswer (program.text words) held other → other ≡ answer) }
{
    every_source_is_read();
    every_certificate_is_judged();
    an_answer_exists();
    one_answer();
}

/// A source is accepted exactly where it is the text of function blocks and a program that is accepted.
pub fn accepted_texts()
    ensures has_library { (source : List ℕ) (net : Network) → IsAcceptedAs source (stands_for net) → (l : Library) × IsAcceptedText source l net }
    ensures is_accepted { (source : List ℕ) (l : Library) (net : Network) → IsAcceptedText source l net → IsAcceptedAs source (stands_for net) }
{}

/// By its own names an accepted text means one thing: each scan leaves exactly one map of its signals, and of the
/// states and outputs of its instances, and each run one list of maps; they are those of the application of its flat
/// source.
pub fn one_map()
    ensures scan { (source : List ℕ) (l : Library) (net : Network) → IsAcceptedText source l net → HasOneMap l net }
    ensures run { (source : List ℕ) (l : Library) (net : Network) → IsAcceptedText source l net → (items : List Item) → HasOneRun l net items }
{}

/// The lines of an accepted text are those of its maps: `S_Motor=` is the program's signal of this name, and `G.E=`
/// what the instance E in the instance G says of itself. So it is in every line of `run`, and in every line of `fault`
/// up to where it trips; and the reports of any scans and restarts are those of the maps that they mean, as in `vote`,
/// `heal` and `load`.
pub fn lines_are_of_the_text()
    ensures fields { (source : List ℕ) (l : Library) (net : Network) → IsAcceptedText source l net → HasFields l net }
    ensures reports { (source : List ℕ) (l : Library) (net : Network) → IsAcceptedText source l net → ReportsAreOfMaps l net }
    ensures run { RunsTellMaps }
    ensures fault { FaultsTellMaps }
{}
