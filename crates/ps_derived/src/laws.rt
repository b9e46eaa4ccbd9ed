// Laws of whole texts.

ghost use Rattle.std.specs.Prelude.{◌≡◌, ◌≢◌, [], ℕ, Result};
ghost use Rattle.ps_lexer.specs.declared.token.Tokens.{Tokens};
ghost use Rattle.ps_parser.specs.Language.{Answers};
ghost use Rattle.ps_parser.specs.Tree.{SourceTree};
ghost use Rattle.ps_derived.specs.declared.library.Library.{Library};
ghost use Rattle.ps_derived.specs.Flat.{flat};
ghost use Rattle.ps_derived.specs.Texts.{library_spelt, IsLibraryWithin, libraries};

use ps_base::Fail;

/// Two libraries with one spelling are equal, however deep their groups are nested.
pub fn one_spelling()
    ensures { (depth : ℕ) (l other : Library) → IsLibraryWithin depth l → IsLibraryWithin depth other → library_spelt l ≡ library_spelt other → l ≡ other }
{}

/// Tokens have one answer of `parse_library`: two answers, neither of which is running out of memory, are equal.
pub fn one_answer()
    ensures { (tokens : Tokens) (r q : Result Library Fail) → Answers libraries tokens r → Answers libraries tokens q
        → r ≢ Err Fail.Memory → q ≢ Err Fail.Memory → r ≡ q }
{}

/// A program without function blocks is its own flat source.
pub fn own_flat_source()
    ensures { (program : SourceTree) → flat (record { blocks = []; program = program }) ≡ program }
{}
