//! Statements, and lists of them in braces.
ghost use Rattle.std.specs.Prelude.{◌≡◌, ℕ, ◌≤◌, List, [], ◌∷◌, true, MatchResult, MatchOption};
ghost use Rattle.osek_values.specs.Answers.{Refuses};
ghost use Rattle.oil_lexer.specs.{Tokens.{name as a_name_token, mark}, declared.token.Mark.TheVariants.{OpenParen, Question, CloseParen}};
ghost use Rattle.task_code.specs.{declared.words.StatementWord.TheVariants.{Work, If, While, Service as a_service}, Words.{is_else as the_is_else}};
ghost use Rattle.task_code.specs.Expect.{Stack, scan, some_statements, after_if, a_question, open_paren as the_open_paren, close_paren as the_close_paren, statement_phrases};
ghost use Rattle.task_code.specs.Phrases.{StopsIn, block_phrases, ReadsRest, ReadsStatement, ReadsStatements, ReadsBlock};

use crate::calls::call;
use crate::phrases::{close_paren, condition, number, open_paren, question, semicolon};
use crate::tree::{Statement, StatementList};
use crate::words::{Service, StatementWord, is_else, statement_word};
use oil_lexer::{Mark, PhraseError, Stop, TokenKind, Tokens, Word, first, is_open};
use osek_values::limits::MAX_CODE_DEPTH;
use std::alloc::Global;

// number ;
fn work<'a>(line: u32, tokens: &Tokens<'a>) -> Result<(Statement, Tokens<'a>), Stop>
    ensures { MatchResult result
        (λ x. (d : ℕ) → ReadsRest Work d line tokens.now x.0 x.1)
        (λ stop. (d : ℕ) → StopsIn (statement_phrases Work) d tokens.now stop) }
{
    let (count, rest) = number(tokens)?;
    let rest = semicolon(&rest)?;
    Ok((Statement::Work { line, count }, rest))
}

// ( call ;
fn service_call<'a>(
    alloc: Global,
    line: u32,
    service: Service,
    tokens: &Tokens<'a>,
) -> Result<(Statement, Tokens<'a>), PhraseError>
    ensures { MatchResult result
        (λ x. (d : ℕ) → ReadsRest (a_service service) d line tokens.now x.0 x.1)
        (λ e. Refuses e (λ stop. (d : ℕ) → StopsIn (statement_phrases (a_service service)) d tokens.now stop)) }
{
    let rest = open_paren(tokens)?;
    let (call, rest) = call(alloc, service, &rest)?;
    let rest = semicolon(&rest)?;
    Ok((Statement::Call { line, call }, rest))
}

// ( ? )
fn choice<'a>(tokens: &Tokens<'a>) -> Result<Tokens<'a>, Stop>
    ensures { MatchResult result
        (λ rest. (l : ℕ) × (l' : ℕ) × (l'' : ℕ) × (tokens.now ≡ mark OpenParen l ∷ (mark Question l' ∷ (mark CloseParen l'' ∷ rest))))
        (λ stop. (d : ℕ) → StopsIn (the_open_paren ∷ (a_question ∷ (the_close_paren ∷ []))) d tokens.now stop) }
{
    let rest = open_paren(tokens)?;
    let rest = question(&rest)?;
    let rest = close_paren(&rest)?;
    Ok(rest)
}

/// What stands behind an `else` at the front, if one is there.
fn behind_else<'a>(tokens: &Tokens<'a>) -> Option<Tokens<'a>>
    ensures { MatchOption result
        ((d : ℕ) (stack : Stack) → scan d (after_if ∷ stack) tokens.now ≡ scan d (some_statements ∷ stack) tokens.now)
        (λ rest. (w : List ℕ) × (l : ℕ) × (tokens.now ≡ a_name_token w l ∷ rest) × (the_is_else w ≡ true)) }
{
    let (token, rest) = tokens.first()?;
    match &token.kind {
        TokenKind::Name(word) => {
            if is_else(word.as_bytes()) {
                Some(rest)
            } else {
                None
            }
        }
        _ => None,
    }
}

// ( ? ) { statement* } [else { statement* }]
#[cycle(statements)]
fn conditional<'a>(
    alloc: Global,
    depth: u32,
    line: u32,
    tokens: &Tokens<'a>,
) -> Result<(Statement, Tokens<'a>), PhraseError>
    requires { depth ≤ MAX_CODE_DEPTH }
    ensures { MatchResult result
        (λ x. ReadsRest If depth line tokens.now x.0 x.1)
        (λ e. Refuses e (λ stop. StopsIn (statement_phrases If) depth tokens.now stop)) }
{
    let rest = choice(tokens)?;
    let (then, rest) = block(alloc, depth, &rest)?;
    match behind_else(&rest) {
        Some(after) => {
            let (branch, rest) = block(alloc, depth, &after)?;
            let otherwise = Some(branch);
            Ok((
                Statement::If {
                    line,
                    then,
                    otherwise,
                },
                rest,
            ))
        }
        None => Ok((
            Statement::If {
                line,
                then,
                otherwise: None,
            },
            rest,
        )),
    }
}

// ( condition ) { statement* }
#[cycle(statements)]
fn repetition<'a>(
    alloc: Global,
    depth: u32,
    line: u32,
    tokens: &Tokens<'a>,
) -> Result<(Statement, Tokens<'a>), PhraseError>
    requires { depth ≤ MAX_CODE_DEPTH }
    ensures { MatchResult result
        (λ x. ReadsRest While depth line tokens.now x.0 x.1)
        (λ e. Refuses e (λ stop. StopsIn (statement_phrases While) depth tokens.now stop)) }
{
    let rest = open_paren(tokens)?;
    let (condition, rest) = condition(&rest)?;
    let rest = close_paren(&rest)?;
    let (body, rest) = block(alloc, depth, &rest)?;
    Ok((
        Statement::While {
            line,
            condition,
            body,
        },
        rest,
    ))
}

/// A statement, by its first word and what stands behind it.
#[cycle(statements)]
fn statement<'a>(
    alloc: Global,
    depth: u32,
    word: &Word<'_>,
    line: u32,
    tokens: &Tokens<'a>,
) -> Result<(Statement, Tokens<'a>), PhraseError>
    requires { depth ≤ MAX_CODE_DEPTH }
    ensures { MatchResult result
        (λ x. ReadsStatement depth (a_name_token word.now line ∷ tokens.now) x.0 x.1)
        (λ e. Refuses e (λ stop. StopsIn (some_statements ∷ []) depth (a_name_token word.now line ∷ tokens.now) stop)) }
{
    let Some(kind) = statement_word(word.as_bytes()) else {
        return Err(PhraseError::Fault(Stop::NotAllowed(line)));
    };
    match kind {
        StatementWord::Work => {
            let (read, rest) = work(line, tokens)?;
            Ok((read, rest))
        }
        StatementWord::If => conditional(alloc, depth, line, tokens),
        StatementWord::While => repetition(alloc, depth, line, tokens),
        StatementWord::Service(service) => service_call(alloc, line, service, tokens),
    }
}

// statement* }
#[cycle(statements)]
fn statements<'a>(
    alloc: Global,
    depth: u32,
    tokens: &Tokens<'a>,
) -> Result<(StatementList, Tokens<'a>), PhraseError>
    requires { depth ≤ MAX_CODE_DEPTH }
    ensures { MatchResult result
        (λ x. ReadsStatements depth tokens.now x.0 x.1)
        (λ e. Refuses e (λ stop. StopsIn (some_statements ∷ []) depth tokens.now stop)) }
{
    let mut found = Vec::new(alloc);
    let mut rest = tokens.copy();
    loop {
        let (token, after) = first(&rest)?;
        match &token.kind {
            TokenKind::Name(word) => {
                let (next, behind) = statement(alloc, depth, word, token.line, &after)?;
                found.push(next)?;
                rest = behind;
            }
            TokenKind::Mark(Mark::CloseBrace) => {
                return Ok((StatementList::from_vec(found, token.line), after));
            }
            _ => return Err(PhraseError::Fault(Stop::NotAllowed(token.line))),
        }
    }
}

/// Statements in braces, from the opening brace on: { statement* }.
#[cycle(statements)]
pub fn block<'a>(
    alloc: Global,
    depth: u32,
    tokens: &Tokens<'a>,
) -> Result<(StatementList, Tokens<'a>), PhraseError>
    requires { depth ≤ MAX_CODE_DEPTH }
    ensures { MatchResult result
        (λ x. ReadsBlock depth tokens.now x.0 x.1)
        (λ e. Refuses e (λ stop. StopsIn block_phrases depth tokens.now stop)) }
{
    let (token, rest) = first(tokens)?;
    if !is_open(&token) {
        return Err(PhraseError::Fault(Stop::NotAllowed(token.line)));
    }
    if depth >= MAX_CODE_DEPTH {
        return Err(PhraseError::Fault(Stop::TooDeep(token.line)));
    }
    let (found, rest) = statements(alloc, depth + 1, &rest)?;
    Ok((found, rest))
}
