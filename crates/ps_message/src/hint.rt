// What was most likely meant at a place, and what is said of it.

ghost use Rattle.std.specs.Prelude.{◌≡◌, IsTrue};
ghost use Rattle.ps_message.specs.Message.{are_few, is_short};

use crate::advice::{Advice, Said};

/// What was most likely meant at a place.
#[derive(Clone, Copy)]
pub(crate) enum Hint {
    /// The text ends where more is asked.
    Ending,
    /// The text has nothing but blanks.
    Bare,
    /// The text does not begin as an application does.
    Beginning,
    /// The first token of a line does not fit.
    Unfinished,
    /// A section begins where none may.
    Opening,
    /// A semicolon where nothing is to be ended.
    Empty,
    /// A semicolon where what it ends is not whole.
    Early,
    /// A comma after which nothing follows.
    Comma,
    /// A sign stands where a value is asked.
    Valueless,
    /// A sign that does not fit.
    Sign,
    /// A name stands where a sign or an operator is asked.
    Joining,
    /// NOT, which the language has not.
    Inverting,
    /// XOR.
    Differing,
    /// IF, CASE or a loop.
    Branching,
    /// A section that the language has not.
    Section,
    /// A standard timer, counter or flip-flop.
    Timing,
    /// A number or a text as a type.
    Number,
    /// `=` for `:=`.
    Equals,
    /// `=>`, which names an output in a call elsewhere.
    Arrow,
    /// `|` for OR.
    Bar,
    /// A quotation mark.
    Quoted,
    /// A keyword as a name.
    Keyword,
    /// TRUE or FALSE as an operand.
    Constant,
    /// TRUE, FALSE or a TIME literal as a value that is no pin's.
    Assigned,
    /// A value in a call without the name of its pin.
    Unnamed,
    /// A value at a declaration.
    Initial,
    /// A further program or function block after the end.
    Behind,
    /// An operator on numbers, or a comparison.
    Arithmetic,
    /// A digit that begins a token.
    Digit,
    /// `%`, which begins an address elsewhere.
    Address,
    /// `#`, which begins a comment elsewhere.
    Comment,
    /// A comma in a time.
    DecimalComma,
    /// A byte order mark.
    ByteOrderMark,
    /// A blank that is no space.
    HardBlank,
    /// A dash or quotation mark of a word processor.
    Typographic,
    /// A letter beyond ASCII.
    Letter,
    /// A text in UTF-16, or no text.
    Wide,
    /// Another text in the place of an application.
    OtherGiven,
    /// An application in the place of another text.
    ApplicationGiven,
    /// A trace or a fault file in the place of the other.
    Swapped,
    /// A header with `Time`.
    SmallTime,
    /// Commas or semicolons between words.
    Separators,
    /// A CR that no LF follows.
    LoneReturn,
    /// A CR in a certificate.
    ReturnInCertificate,
    /// Channel C in a fault file of two channels.
    ThirdChannel,
}

impl Hint {
    // Its words.
    fn said(self) -> Said
        ensures sentence { IsTrue (are_few 200 result.sentence.now) }
        ensures remedy { IsTrue (are_few 200 result.remedy.now) }
    {
        match self {
            Hint::Ending => Said {
                sentence: "the text ends too soon",
                remedy: "close what is open: a comment, a bracket, a section by END_VAR, the program by END_PROGRAM",
            },
            Hint::Bare => Said {
                sentence: "the file is empty, or has blanks alone",
                remedy: "an application begins with PROGRAM and its name, or with FUNCTION_BLOCK and a name; docs/tutorial.md writes a first one",
            },
            Hint::Beginning => Said {
                sentence: "",
                remedy: "an application begins with PROGRAM and its name, or with FUNCTION_BLOCK and a name",
            },
            Hint::Valueless => Said {
                sentence: "a value is missing before this sign",
                remedy: "write a signal, an output of an instance, or a group in brackets; at a pin also TRUE, FALSE or a TIME literal",
            },
            Hint::Sign => Said {
                sentence: "this sign does not fit here",
                remedy: "a semicolon, a bracket, an operator or an END_VAR may be missing before it; see docs/language.md for the forms",
            },
            Hint::Unfinished => Said {
                sentence: "",
                remedy: "a semicolon may be missing at the end of the line before, or an END_VAR; see docs/language.md for the forms",
            },
            Hint::Opening => Said {
                sentence: "",
                remedy: "a text begins with PROGRAM or FUNCTION_BLOCK and a name, and a section ends with END_VAR before the next one",
            },
            Hint::Empty => Said {
                sentence: "a semicolon stands where nothing is to be ended",
                remedy: "leave it out: one ends each declaration, assignment and call; none stands behind the name of the program, END_VAR or END_PROGRAM",
            },
            Hint::Early => Said {
                sentence: "a semicolon stands before what it ends is whole",
                remedy: "a declaration has a colon and a type, an assignment := and a value, a call or a group its closing bracket",
            },
            Hint::Comma => Said {
                sentence: "a comma stands before this sign, and nothing between them",
                remedy: "leave the comma out, or write what is to follow it",
            },
            Hint::Joining => Said {
                sentence: "",
                remedy: "what stands before it is to be followed by a sign or an operator, as ; : := . ( ) AND OR",
            },
            Hint::Inverting => Said {
                sentence: "the language has no NOT",
                remedy: "use the signal in the sense in which it is TRUE when safe, or make its opposite where the input is made",
            },
            Hint::Differing => Said {
                sentence: "the language has no XOR",
                remedy: "write it by AND and OR, or compare two channels by SF_Equivalent or SF_Antivalent",
            },
            Hint::Branching => Said {
                sentence: "the language has no IF, CASE or loops",
                remedy: "assign each signal once, by AND and OR: the condition is an operand of the AND",
            },
            Hint::Section => Said {
                sentence: "the language has no such section or declaration",
                remedy: "declare names in VAR_INPUT, VAR_OUTPUT and VAR; a function block begins with FUNCTION_BLOCK",
            },
            Hint::Timing => Said {
                sentence: "the language has no standard timers, counters, edges or flip-flops",
                remedy: "a time stands at a TIME pin of one of the thirteen blocks of docs/blocks.md",
            },
            Hint::Number => Said {
                sentence: "",
                remedy: "values are SAFEBOOL or BOOL alone; a time stands as a literal at a TIME pin",
            },
            Hint::Equals => Said {
                sentence: "a sign = stands alone",
                remedy: "write := without a blank to assign, and between a pin and its value; values are not compared",
            },
            Hint::Arrow => Said {
                sentence: "a call names inputs alone",
                remedy: "read an output of an instance behind a dot, as E.S_EStopOut, in a statement behind the call",
            },
            Hint::Bar => Said {
                sentence: "the language has no sign |",
                remedy: "write OR",
            },
            Hint::Quoted => Said {
                sentence: "the language has no texts in quotation marks",
                remedy: "write names and TIME literals without them",
            },
            Hint::Keyword => Said {
                sentence: "",
                remedy: "AND, OR, TRUE, FALSE, VAR, VAR_INPUT, VAR_OUTPUT and PROGRAM are keywords and no names; see docs/language.md for the forms",
            },
            Hint::Constant => Said {
                sentence: "TRUE and FALSE are no operands",
                remedy: "they stand at the pins of a call alone: leave the operand out, or name a signal",
            },
            Hint::Assigned => Said {
                sentence: "TRUE, FALSE or a TIME literal is assigned, or given to a function block of the text",
                remedy: "give an input, a local, an output, or an output of an instance; literals stand at the pins of the thirteen blocks alone",
            },
            Hint::Unnamed => Said {
                sentence: "a value stands where the name of a pin is asked",
                remedy: "name the pin of each value in a call, as E(Activate := TRUE, S_EStopIn := S_In)",
            },
            Hint::Initial => Said {
                sentence: "a declaration gives no value",
                remedy: "leave the value out: each signal is what its statement says, from the first scan on",
            },
            Hint::Behind => Said {
                sentence: "",
                remedy: "a text has one program; function blocks stand before it, and nothing stands behind END_PROGRAM",
            },
            Hint::Arithmetic => Said {
                sentence: "the language has no numbers and no comparisons",
                remedy: "use AND, OR, names and brackets; a comment begins with // or stands between (* and *)",
            },
            Hint::Digit => Said {
                sentence: "a number stands alone",
                remedy: "numbers stand in TIME literals and inside names: write T#500ms, or TRUE and FALSE at a pin",
            },
            Hint::Address => Said {
                sentence: "the language has no addresses",
                remedy: "an input or output has a name alone; the trace gives the values of the inputs",
            },
            Hint::Comment => Said {
                sentence: "a sign # stands alone",
                remedy: "in an application a comment stands between (* and *) or behind //; # serves traces and fault files",
            },
            Hint::DecimalComma => Said {
                sentence: "a comma stands in a TIME literal",
                remedy: "write whole parts from the larger to the smaller unit, as T#1s500ms",
            },
            Hint::ByteOrderMark => Said {
                sentence: "the text begins with a byte order mark",
                remedy: "save the file as UTF-8 without it",
            },
            Hint::HardBlank => Said {
                sentence: "a hard blank stands here, which looks like a space",
                remedy: "write a space in its place; it came in by a copy from a page or a word processor",
            },
            Hint::Typographic => Said {
                sentence: "a typographic dash or quotation mark, or an unseen character, stands here",
                remedy: "leave it out, or write the plain character; it came in by a copy from a page or a word processor",
            },
            Hint::Letter => Said {
                sentence: "a letter beyond ASCII stands outside a comment",
                remedy: "write names with the letters A to Z, digits and _; other letters stand in comments alone",
            },
            Hint::Wide => Said {
                sentence: "the file is in UTF-16, or is no text",
                remedy: "save it as UTF-8 without a byte order mark",
            },
            Hint::OtherGiven => Said {
                sentence: "this looks like a trace, a fault file or a certificate, and an application is asked here",
                remedy: "give the application first and then the other texts, as in run APP TRACE",
            },
            Hint::ApplicationGiven => Said {
                sentence: "this looks like an application, and another text is asked here",
                remedy: "give the application first, and then the other texts",
            },
            Hint::Swapped => Said {
                sentence: "this looks like a text of another kind",
                remedy: "give the texts in the order of the usage line: APP TRACE FAULTS, or APP CERT",
            },
            Hint::SmallTime => Said {
                sentence: "the header's first word is not time in small letters",
                remedy: "write time; the names of inputs may be in any letter case",
            },
            Hint::Separators => Said {
                sentence: "",
                remedy: "put spaces or tabs between words, and no commas or semicolons",
            },
            Hint::LoneReturn => Said {
                sentence: "the line ends with CR, and no LF stands behind it",
                remedy: "end it with LF, or with CR and LF",
            },
            Hint::ReturnInCertificate => Said {
                sentence: "the line ends with CR and LF",
                remedy: "end the lines of a certificate with LF alone, as cert writes them",
            },
            Hint::ThirdChannel => Said {
                sentence: "",
                remedy: "see the form in docs/traces.md; C is a seat of vote and heal alone",
            },
        }
    }
}

/// The words of a hint on a rule, in the place of the rule's own.
pub(crate) fn hinted(advice: Advice, hint: Hint) -> Advice
    requires { IsTrue (is_short advice) }
    ensures name { result.name.now ≡ advice.name.now }
    ensures short { IsTrue (is_short result) }
{
    let said = hint.said();
    if said.sentence.is_empty() {
        Advice {
            remedy: said.remedy,
            ..advice
        }
    } else {
        Advice {
            name: advice.name,
            sentence: said.sentence,
            of_name: "",
            remedy: said.remedy,
        }
    }
}
