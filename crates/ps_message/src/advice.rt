// What is said of each rule, with the words of docs/refusals.md.

ghost use Rattle.std.specs.Prelude.{IsTrue};
ghost use Rattle.ps_message.specs.Message.{IsOf, are_few, is_short};

use ps_base::Rule;
use ps_report::rule_name;

/// What is said to a person whose text a rule refuses.
#[derive(Clone, Copy)]
pub struct Advice {
    /// The rule's name, as `N2`.
    pub name: &'static str,
    /// What is wrong, where no name stands at the place.
    pub sentence: &'static str,
    /// What is said of the name at the place, after it; empty where a name does not help.
    pub of_name: &'static str,
    /// What helps.
    pub remedy: &'static str,
}

/// What is wrong, and what helps.
#[derive(Clone, Copy)]
pub(crate) struct Said {
    // What is wrong; of a hint empty where the rule's own words serve.
    pub(crate) sentence: &'static str,
    // What helps.
    pub(crate) remedy: &'static str,
}

// What is said of a rule where no name stands at the place: one row a rule.
fn said_of(rule: Rule) -> Said
    ensures sentence { IsTrue (are_few 200 result.sentence.now) }
    ensures remedy { IsTrue (are_few 200 result.remedy.now) }
{
    match rule {
        Rule::L1 => Said {
            sentence: "a byte begins no token of the language",
            remedy: "use AND, OR, names and the signs of docs/language.md alone",
        },
        Rule::L2 => Said {
            sentence: "a comment is not closed",
            remedy: "close it, or use // up to the end of the line",
        },
        Rule::L3 => Said {
            sentence: "what stands after T# is no TIME literal",
            remedy: "write whole parts from the larger to the smaller unit, as T#1s500ms",
        },
        Rule::L4 => Said {
            sentence: "a name has over 64 bytes",
            remedy: "shorten it",
        },
        Rule::L5 => Said {
            sentence: "the text has over 1,048,576 bytes",
            remedy: "give the right file",
        },
        Rule::P1 => Said {
            sentence: "no application begins with the tokens up to this one, or the text ends too soon",
            remedy: "look at the end of the statement before; see docs/language.md for the forms",
        },
        Rule::P2 => Said {
            sentence: "brackets are nested over 16 deep",
            remedy: "assign a part to a local, and read that",
        },
        Rule::B1 => Said {
            sentence: "a function block has the name of an earlier one, of one of the thirteen blocks, SAFEBOOL or BOOL",
            remedy: "rename it",
        },
        Rule::B2 => Said {
            sentence: "a type does not fit its place",
            remedy: "give inputs and outputs SAFEBOOL or BOOL; put function blocks before those that use them",
        },
        Rule::B3 => Said {
            sentence: "a call of a function block's instance names a pin twice or one that is no input, or leaves an input out; or a name after its dot is no output of it, or is assigned",
            remedy: "give each input once in each call",
        },
        Rule::B4 => Said {
            sentence: "there are over 64 function blocks, or the text written out has over 4,000 names or 20,000 statements",
            remedy: "use fewer instances or smaller blocks",
        },
        Rule::B5 => Said {
            sentence: "an instance of a function block is not called exactly once, or its name is declared again",
            remedy: "call it once",
        },
        Rule::N1 => Said {
            sentence: "a name is declared twice; letter case does not count",
            remedy: "rename one",
        },
        Rule::N2 => Said {
            sentence: "a name in a statement is not declared",
            remedy: "declare it in VAR_INPUT, VAR_OUTPUT or VAR, or spell it as it is declared",
        },
        Rule::N3 => Said {
            sentence: "a type is neither SAFEBOOL, BOOL nor one of the thirteen blocks, or a block is declared as an input or output",
            remedy: "use the types of docs/blocks.md, and declare instances in VAR",
        },
        Rule::N4 => Said {
            sentence: "a pin is unknown or of the wrong direction, or is DiagCode; or a name is of the wrong sort",
            remedy: "see the pins in docs/blocks.md; DiagCode is in the report and cannot be read",
        },
        Rule::N5 => Said {
            sentence: "a call names a pin twice",
            remedy: "leave one",
        },
        Rule::N6 => Said {
            sentence: "an input, or an output of an instance, is assigned",
            remedy: "assign to a local or an output",
        },
        Rule::N7 => Said {
            sentence: "a signal has two assignments",
            remedy: "join both values by OR in one assignment",
        },
        Rule::N8 => Said {
            sentence: "an output has no assignment, or a local that is read has none",
            remedy: "make it an input, or assign it",
        },
        Rule::N9 => Said {
            sentence: "an instance is called twice",
            remedy: "declare an instance for each call",
        },
        Rule::N10 => Said {
            sentence: "an instance is never called",
            remedy: "call it, or leave it out",
        },
        Rule::N11 => Said {
            sentence: "a limit is passed: 512 inputs, 512 outputs, 4,000 signals with the outputs of instances, 400 instances or 20,000 nodes of expressions",
            remedy: "split it",
        },
        Rule::N12 => Said {
            sentence: "TRUE, FALSE or a TIME literal stands where it is not the whole argument of a pin",
            remedy: "leave the pin free, or give the literal alone",
        },
        Rule::S1 => Said {
            sentence: "the value that is assigned to a SAFEBOOL signal is BOOL",
            remedy: "take the BOOL out, or let it only hold the value down by AND; a signal that has to be safe comes from a safe input",
        },
        Rule::S2 => Said {
            sentence: "the value at a SAFEBOOL pin is BOOL",
            remedy: "give a SAFEBOOL; TRUE and FALSE are taken too",
        },
        Rule::S3 => Said {
            sentence: "a TIME literal stands at a Boolean pin",
            remedy: "give a signal, TRUE or FALSE here, and the time at a TIME pin",
        },
        Rule::S4 => Said {
            sentence: "TRUE, FALSE or a value stands at a TIME pin",
            remedy: "write a TIME literal; times are fixed",
        },
        Rule::M1 => Said {
            sentence: "what an output demands has over 1,000 parts before it is made slim; demand alone tries this",
            remedy: "read the value of the scan before at one place, or split the output; the application runs all the same",
        },
        Rule::C1 => Said {
            sentence: "a line is not of the form",
            remedy: "write it anew with cert",
        },
        Rule::C2 => Said {
            sentence: "the text has over 40,000 lines or 1,048,576 bytes",
            remedy: "give the right file",
        },
        Rule::O1 => Said {
            sentence: "a line speaks of a node that there is not",
            remedy: "write it anew with cert",
        },
        Rule::O2 => Said {
            sentence: "a premise is not the number of an earlier line",
            remedy: "write it anew with cert",
        },
        Rule::O3 => Said {
            sentence: "the rule of a line does not fit its node and premises",
            remedy: "write it anew with cert; where that is refused, mend the application",
        },
        Rule::O4 => Said {
            sentence: "a value that must be SAFEBOOL has no line",
            remedy: "write it anew with cert; where that is refused, mend the application",
        },
        Rule::O5 => Said {
            sentence: "a literal does not fit its pin",
            remedy: "mend the application",
        },
        Rule::T1 => Said {
            sentence: "there is no header, or its first word is not time",
            remedy: "begin with time and the names of the inputs",
        },
        Rule::T2 => Said {
            sentence: "the header has a name that is no input",
            remedy: "give inputs alone, with blanks between",
        },
        Rule::T3 => Said {
            sentence: "an input is missing in the header, or stands twice",
            remedy: "give each input once",
        },
        Rule::T4 => Said {
            sentence: "a line has another number of values than the header has names",
            remedy: "give a value for each name; # is a comment only as the first byte of a line",
        },
        Rule::T5 => Said {
            sentence: "a value is neither 0 nor 1",
            remedy: "write 0 or 1",
        },
        Rule::T6 => Said {
            sentence: "the time is not digits with a value up to 4294967295",
            remedy: "write whole ms",
        },
        Rule::T7 => Said {
            sentence: "the time is less than that of the scan before",
            remedy: "let times go on; equal times are taken",
        },
        Rule::T8 => Said {
            sentence: "a line has over 65,536 bytes",
            remedy: "end each line with LF",
        },
        Rule::T9 => Said {
            sentence: "the file has over 67,108,864 bytes",
            remedy: "split it at a place where a restart may stand",
        },
        Rule::F1 => Said {
            sentence: "a line is not of the form, or has over 600 bytes",
            remedy: "see the form in docs/traces.md",
        },
        Rule::F2 => Said {
            sentence: "a fault comes before an earlier one",
            remedy: "sort them; a fault without a turn comes first in its scan",
        },
        Rule::F3 => Said {
            sentence: "the bytes pass the end of the region",
            remedy: "image has the sizes of code and memory",
        },
        Rule::F4 => Said {
            sentence: "the fault is not of the channel of the first one, or with heal comes while another one is dirty",
            remedy: "make a file for each channel; with heal let the one that was struck be outvoted first",
        },
        Rule::F5 => Said {
            sentence: "the file has over 1,000 lines",
            remedy: "split it, and run each",
        },
    }
}

// What is said of the name at the place, after it; empty where a name does not help.
fn said_of_name(rule: Rule) -> &'static str
    ensures { IsTrue (are_few 200 result.now) }
{
    match rule {
        Rule::P1 => " does not fit here",
        Rule::B1 =>
            " is the name of an earlier function block, of one of the thirteen blocks, SAFEBOOL or BOOL",
        Rule::B2 => " is a type that does not fit here",
        Rule::B5 => " is not called exactly once, or its name is declared again",
        Rule::N1 => " is declared twice; letter case does not count",
        Rule::N2 => " is not declared",
        Rule::N3 => " is not a type that fits here",
        Rule::N4 => " is no pin of this direction, or no name that fits here",
        Rule::N5 => " is given twice in this call",
        Rule::N6 => " is an input or an output of an instance, and cannot be assigned",
        Rule::N7 => " is assigned a second time",
        Rule::N8 => " has no assignment",
        Rule::N9 => " is called a second time",
        Rule::N10 => " is never called",
        Rule::S1 => " is SAFEBOOL, and the value that is assigned to it is BOOL",
        Rule::S2 => " is a SAFEBOOL pin, and the value at it is BOOL",
        Rule::S3 => " is a Boolean pin, and a TIME literal stands at it",
        Rule::S4 => " is a TIME pin, and TRUE, FALSE or a value stands at it",
        Rule::M1 => " demands over 1,000 parts",
        _ => "",
    }
}

/// What is said of a rule.
pub fn advice_on(rule: Rule) -> Advice
    ensures name { IsOf rule result }
    ensures short { IsTrue (is_short result) }
{
    let Said { sentence, remedy } = said_of(rule);
    Advice {
        name: rule_name(rule),
        sentence,
        of_name: said_of_name(rule),
        remedy,
    }
}
