// All that is found in a text.

ghost use Rattle.std.specs.Prelude.{◌≡◌, ◌++◌, List, ℕ, IfOk, map, option_map, take};
ghost use Rattle.ps_accepted.specs.Answering.{IsFrontOf};
ghost use Rattle.ps_lsp_text.specs.Findings.{AreFurther, AreNoted, AreRefused, Diagnoses, TellMost};
ghost use Rattle.ps_lsp_text.specs.Findings.{Tells, all_of, left_out, note_found, notes_found, odd_found, odds_found};
ghost use Rattle.ps_lsp_text.specs.Findings.{note_out, odd_out, refusal_out, rest_out};
ghost use Rattle.ps_lsp_text.specs.Made.{Adds};
ghost use Rattle.ps_lsp_text.specs.Pieces.{AreShown};
ghost use Rattle.ps_lsp_text.specs.Telling.{AddsTold};

use crate::finding::{Finding, Findings, What};
use crate::looking::tokens_or_none;
use crate::made::MadeList;
use crate::spans::range_at;
use ps_accepted::accept_text;
use ps_base::{Bytes, Fail, Memory, Place, Refusal, Rule};
use ps_findings::{detail_on, further_refusals, odd_comments, placed_notes};
use ps_lexer::{Token, TokenList};
use ps_message::{plain_message, plain_note, plain_odd};
use ps_model::App;
use ps_notes::{OddComment, Placed};
use ps_parser::Source;
use ps_text::{add_number, range_from};
use std::alloc::Global;

/// The most findings of a sort after the first one, but for the one that says how many more there are.
pub const MOST_FINDINGS: usize = 20;

// The longest text, in bytes, of which each refusal is told with what the text tells of it, and by a whole token. That
// takes a reading of the whole text each time; of a longer one only the first refusal is told with what the text tells.
const LONGEST_TOLD: usize = 65_536;

// The longest text, in bytes, of which refusals after the first one are told, and of the first one how many there are
// of what is too many: each takes one more reading of it.
const LONGEST_SEARCHED: usize = 262_144;

// What a text tells of a refusal besides its rule, if that is to be told.
fn given_on(
    alloc: Global,
    text: &[u8],
    refusal: &Refusal,
    is_detailed: bool,
) -> Result<Bytes, Memory> {
    if is_detailed {
        detail_on(alloc, text, refusal)
    } else {
        Ok(Bytes::new(alloc))
    }
}

// The finding of a refusal, with what the text tells of it besides, if that is to be told.
fn refused(
    alloc: Global,
    text: &[u8],
    tokens: &[Token],
    refusal: &Refusal,
    is_detailed: bool,
) -> Result<Finding, Memory>
    ensures { IfOk result (Tells text.now tokens.now refusal.now) }
{
    let given = given_on(alloc, text, refusal, is_detailed)?;
    let words = plain_message(alloc, text, refusal, given.as_slice())?;
    Ok(Finding {
        what: What::Refused(refusal.rule),
        range: range_at(text, tokens, refusal.place),
        words,
    })
}

// Whether it is told of the first refusal of a text what the text tells of it: not how many there are of what has a
// limit, for which all of it is parsed, where the text is long.
fn is_first_detailed(text: &[u8], rule: Rule) -> bool {
    text.len() <= LONGEST_SEARCHED || !matches!(rule, Rule::N11 | Rule::B4)
}

// The finding that so many more are not shown, from a place on.
fn left_out(
    alloc: Global,
    text: &[u8],
    what: What,
    place: Place,
    count: usize,
) -> Result<Finding, Memory>
    ensures { IfOk result (λ finding. finding ≡ left_out text.now what place count) }
{
    let mut words = Bytes::new(alloc);
    add_number(&mut words, b"", count.min(u32::MAX as usize) as u32)?;
    words.extend_from_slice(b" more from here on, not shown")?;
    let range = range_from(text, place, 1);
    Ok(Finding { what, range, words })
}

// The first of these, at most `MOST_FINDINGS`.
fn first_of<T>(items: &[T]) -> &[T]
    ensures { result.now ≡ take MOST_FINDINGS items.now }
{
    &items[..items.len().min(MOST_FINDINGS)]
}

// Adds the finding that so many more are not shown, if there is one: of which sort the next one is, and where.
fn add_rest(
    alloc: Global,
    list: &mut MadeList<Finding>,
    text: &[u8],
    next: Option<(What, Place)>,
    count: usize,
)
    ensures { Adds list.old.is_whole list.new.is_whole list.old.list.items list.new.list.items
        (rest_out text.now next count) }
{
    if let Some((what, place)) = next {
        list.add(left_out(alloc, text, what, place, count));
    }
}

// The findings of these refusals, each of one.
fn add_each(
    alloc: Global,
    list: &mut MadeList<Finding>,
    text: &[u8],
    tokens: &[Token],
    refusals: &[Refusal],
)
    ensures { AddsTold text.now tokens.now refusals.now list.old.is_whole list.new.is_whole
        list.old.list.items list.new.list.items }
{
    let is_detailed = text.len() <= LONGEST_TOLD;
    for refusal in refusals {
        list.add(refused(alloc, text, tokens, refusal, is_detailed));
    }
}

// The finding of a refusal that is not shown: of which sort it is, and where.
fn refusal_out(refusal: Option<&Refusal>) -> Option<(What, Place)>
    ensures { result ≡ option_map refusal_out (option_map (λ r. r.now) refusal.entry) }
{
    let refusal = refusal?;
    Some((What::Refused(refusal.rule), refusal.place))
}

// The findings of these refusals: of at most so many, and then how many are left.
fn findings_of(
    alloc: Global,
    text: &[u8],
    tokens: &[Token],
    refusals: &[Refusal],
) -> Result<Vec<Finding>, Memory>
    ensures { IfOk result (λ found. TellMost text.now tokens.now refusals.now found.items) }
{
    let mut list = MadeList::new(alloc);
    add_each(alloc, &mut list, text, tokens, first_of(refusals));
    let next = refusal_out(refusals.get(MOST_FINDINGS));
    add_rest(
        alloc,
        &mut list,
        text,
        next,
        refusals.len().saturating_sub(MOST_FINDINGS),
    );
    list.finish()
}

// The findings of the refusals of a text after its first one: of at most so many, and then how many are left; none
// where the text is long.
fn findings_after(
    alloc: Global,
    text: &[u8],
    tokens: &[Token],
    first: &Refusal,
) -> Result<Vec<Finding>, Memory>
    ensures { IfOk result (λ found. AreFurther text.now tokens.now found.items) }
{
    if text.len() > LONGEST_SEARCHED {
        return Ok(Vec::new(alloc));
    }
    let refusals = further_refusals(alloc, text, first)?;
    findings_of(alloc, text, tokens, refusals.as_slice())
}

// The tokens by which pieces of a text are told, each by a whole one: none where a rule L refuses the text, or it is
// long.
fn tokens_shown(alloc: Global, text: &[u8]) -> Result<TokenList, Memory>
    ensures { IfOk result (AreShown text.now) }
{
    if text.len() > LONGEST_TOLD {
        return Ok(TokenList::new(alloc));
    }
    tokens_or_none(alloc, text)
}

// What is found in a text that this refusal refuses.
fn findings_behind(alloc: Global, text: &[u8], refusal: &Refusal) -> Result<Findings, Memory>
    ensures { IfOk result (λ findings. AreRefused text.now refusal.now (all_of findings)) }
{
    let tokens = tokens_shown(alloc, text)?;
    let more = findings_after(alloc, text, tokens.as_slice(), refusal)?;
    let is_detailed = is_first_detailed(text, refusal.rule);
    let first = refused(alloc, text, tokens.as_slice(), refusal, is_detailed)?;
    Ok(Findings {
        first: Some(first),
        more,
    })
}

// The finding of a note on an application.
fn noted(
    alloc: Global,
    text: &[u8],
    tokens: &[Token],
    app: &App,
    placed: &Placed,
) -> Result<Finding, Memory>
    ensures { IfOk result (λ finding. finding ≡ note_found text.now tokens.now app.now placed.now) }
{
    let words = plain_note(alloc, app, placed.note)?;
    Ok(Finding {
        what: What::Noted,
        range: range_at(text, tokens, placed.place),
        words,
    })
}

// The findings of these notes, each of one.
fn add_noted(
    alloc: Global,
    list: &mut MadeList<Finding>,
    text: &[u8],
    tokens: &[Token],
    app: &App,
    notes: &[Placed],
)
    ensures { Adds list.old.is_whole list.new.is_whole list.old.list.items list.new.list.items
        (map (note_found text.now tokens.now app.now) notes.now) }
{
    for placed in notes {
        list.add(noted(alloc, text, tokens, app, placed));
    }
}

// The finding of a note that is not shown: of which sort it is, and where.
fn note_out(placed: Option<&Placed>) -> Option<(What, Place)>
    ensures { result ≡ option_map note_out (option_map (λ p. p.now) placed.entry) }
{
    let placed = placed?;
    Some((What::Noted, placed.place))
}

// The findings of notes: of at most so many, and then how many are left.
fn add_notes(
    alloc: Global,
    list: &mut MadeList<Finding>,
    text: &[u8],
    tokens: &[Token],
    app: &App,
    notes: &[Placed],
)
    ensures { Adds list.old.is_whole list.new.is_whole list.old.list.items list.new.list.items
        (notes_found text.now tokens.now app.now notes.now) }
{
    add_noted(alloc, list, text, tokens, app, first_of(notes));
    let next = note_out(notes.get(MOST_FINDINGS));
    add_rest(
        alloc,
        list,
        text,
        next,
        notes.len().saturating_sub(MOST_FINDINGS),
    );
}

// The finding of an odd comment.
fn odd(
    alloc: Global,
    text: &[u8],
    tokens: &[Token],
    comment: &OddComment,
) -> Result<Finding, Memory>
    ensures { IfOk result (λ finding. finding ≡ odd_found text.now tokens.now comment.now) }
{
    let words = plain_odd(alloc, comment.what)?;
    Ok(Finding {
        what: What::Noted,
        range: range_at(text, tokens, comment.place),
        words,
    })
}

// The findings of these odd comments, each of one.
fn add_odds(
    alloc: Global,
    list: &mut MadeList<Finding>,
    text: &[u8],
    tokens: &[Token],
    comments: &[OddComment],
)
    ensures { Adds list.old.is_whole list.new.is_whole list.old.list.items list.new.list.items
        (map (odd_found text.now tokens.now) comments.now) }
{
    for comment in comments {
        list.add(odd(alloc, text, tokens, comment));
    }
}

// The finding of an odd comment that is not shown: of which sort it is, and where.
fn odd_out(comment: Option<&OddComment>) -> Option<(What, Place)>
    ensures { result ≡ option_map odd_out (option_map (λ o. o.now) comment.entry) }
{
    let comment = comment?;
    Some((What::Noted, comment.place))
}

// The findings of odd comments: of at most so many, and then how many are left.
fn add_odd(
    alloc: Global,
    list: &mut MadeList<Finding>,
    text: &[u8],
    tokens: &[Token],
    comments: &[OddComment],
)
    ensures { Adds list.old.is_whole list.new.is_whole list.old.list.items list.new.list.items
        (odds_found text.now tokens.now comments.now) }
{
    add_odds(alloc, list, text, tokens, first_of(comments));
    let next = odd_out(comments.get(MOST_FINDINGS));
    add_rest(
        alloc,
        list,
        text,
        next,
        comments.len().saturating_sub(MOST_FINDINGS),
    );
}

// The findings of these notes on an application, and of these odd comments.
fn findings_noted(
    alloc: Global,
    text: &[u8],
    tokens: &[Token],
    app: &App,
    notes: &[Placed],
    comments: &[OddComment],
) -> Result<Vec<Finding>, Memory>
    ensures { IfOk result (λ found. found.items
        ≡ notes_found text.now tokens.now app.now notes.now ++ odds_found text.now tokens.now comments.now) }
{
    let mut list = MadeList::new(alloc);
    add_notes(alloc, &mut list, text, tokens, app, notes);
    add_odd(alloc, &mut list, text, tokens, comments);
    list.finish()
}

// What is found in a text that is accepted, as this application of this flat source: the notes on it, and its odd
// comments.
fn findings_on(alloc: Global, text: &[u8], source: &Source, app: &App) -> Result<Findings, Memory>
    ensures { IfOk result (λ findings. AreNoted text.now source.now app.now (all_of findings)) }
{
    let tokens = tokens_shown(alloc, text)?;
    let notes = placed_notes(alloc, source, app)?;
    let comments = odd_comments(alloc, text)?;
    let more = findings_noted(
        alloc,
        text,
        tokens.as_slice(),
        app,
        notes.as_slice(),
        comments.as_slice(),
    )?;
    Ok(Findings { first: None, more })
}

/// What is found in the text that begins with these bytes: first its refusal by the rules L, P, B, N and S, with the
/// range of what stands at its place, and after it further refusals of the same letter, unless it is long; or the notes
/// on it, where it is accepted. Of each sort at most `MOST_FINDINGS` are told, and then one that says how many more
/// there are. The bytes are all of the text, or one more than the largest source has.
pub fn findings_in(alloc: Global, text: &[u8]) -> Result<Findings, Memory>
    ensures { IfOk result (λ findings. (whole : List ℕ) → IsFrontOf text.now whole →
        Diagnoses text.now whole (all_of findings)) }
{
    match accept_text(alloc, text) {
        Ok(accepted) => {
            let (source, app, _) = accepted.into_sourced();
            findings_on(alloc, text, &source, &app)
        }
        Err(Fail::Memory) => Err(Memory),
        Err(Fail::Refused(refusal)) => findings_behind(alloc, text, &refusal),
    }
}
