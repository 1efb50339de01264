//! Calls: what stands between their parentheses.
ghost use Rattle.std.specs.Prelude.{◌≡◌, ℕ, List, [], ◌∷◌, Some, MatchResult};
ghost use Rattle.task_code.specs.Services.{plain_call as the_plain_call, object_call as the_object_call, mask_call as the_mask_call, alarm_call as the_alarm_call};
ghost use Rattle.oil_lexer.specs.{Tokens.{name, number as a_number_token, mark}, declared.token.Mark.TheVariants.{Comma}};
ghost use Rattle.task_code.specs.{Words.{status_of as the_status_of}, Grammar.{IsMask, IsCall}, Expect.{a_name, a_number, a_comma, a_status, mask_rest, operands}};
ghost use Rattle.task_code.specs.Phrases.{StopsIn};
ghost use Rattle.osek_values.specs.{Answers.{Refuses}, declared.status.Status.{Status}};

use crate::call::{Call, Reference};
use crate::phrases::{close_paren, comma, number, object_name};
use crate::words::{AlarmService, MaskService, ObjectService, PlainService, Service, status_of};
use oil_lexer::{Mark, PhraseError, Stop, TokenKind, Tokens, first};
use osek_values::{Seq, Status};
use std::alloc::Global;

fn plain_call(service: PlainService) -> Call
    ensures { result ≡ the_plain_call service }
{
    match service {
        PlainService::TerminateTask => Call::TerminateTask,
        PlainService::Schedule => Call::Schedule,
        PlainService::GetTaskId => Call::GetTaskId,
        PlainService::GetActiveApplicationMode => Call::GetActiveApplicationMode,
        PlainService::Lock(lock) => Call::LockCall(lock),
    }
}

fn object_call(service: ObjectService, object: Reference) -> Call
    ensures { result ≡ the_object_call service object }
{
    match service {
        ObjectService::ActivateTask => Call::ActivateTask(object),
        ObjectService::ChainTask => Call::ChainTask(object),
        ObjectService::GetResource => Call::GetResource(object),
        ObjectService::ReleaseResource => Call::ReleaseResource(object),
        ObjectService::GetEvent => Call::GetEvent(object),
        ObjectService::CancelAlarm => Call::CancelAlarm(object),
        ObjectService::GetAlarm => Call::GetAlarm(object),
        ObjectService::GetTaskState => Call::GetTaskState(object),
    }
}

fn mask_call(service: MaskService, mask: Seq<Reference>) -> Call
    ensures { result ≡ the_mask_call service mask }
{
    match service {
        MaskService::ClearEvent => Call::ClearEvent(mask),
        MaskService::WaitEvent => Call::WaitEvent(mask),
    }
}

fn alarm_call(service: AlarmService, alarm: Reference, first: u64, cycle: u64) -> Call
    ensures { result ≡ the_alarm_call service alarm first cycle }
{
    match service {
        AlarmService::SetRelAlarm => Call::SetRelAlarm(alarm, first, cycle),
        AlarmService::SetAbsAlarm => Call::SetAbsAlarm(alarm, first, cycle),
    }
}

/// The name of a status.
fn status<'a>(tokens: &Tokens<'a>) -> Result<(Status, Tokens<'a>), Stop>
    ensures { MatchResult result
        (λ x. (n : List ℕ) × (l : ℕ) × (tokens.now ≡ name n l ∷ x.1) × (the_status_of n ≡ Some x.0))
        (λ stop. (d : ℕ) → StopsIn (a_status ∷ []) d tokens.now stop) }
{
    let (token, rest) = first(tokens)?;
    let TokenKind::Name(name) = &token.kind else {
        return Err(Stop::NotAllowed(token.line));
    };
    match status_of(name.as_bytes()) {
        Some(status) => Ok((status, rest)),
        None => Err(Stop::NotAllowed(token.line)),
    }
}

// mask: name { | name } )
fn mask<'a>(alloc: Global, tokens: &Tokens<'a>) -> Result<(Seq<Reference>, Tokens<'a>), PhraseError>
    ensures { MatchResult result
        (λ x. IsMask x.0 tokens.now x.1)
        (λ e. Refuses e (λ stop. (d : ℕ) → StopsIn (a_name ∷ (mask_rest ∷ [])) d tokens.now stop)) }
{
    let mut events = Vec::new(alloc);
    let mut rest = tokens.copy();
    loop {
        let (event, behind) = object_name(alloc, &rest)?;
        events.push(event)?;
        let (token, after) = first(&behind)?;
        match &token.kind {
            TokenKind::Mark(Mark::CloseParen) => return Ok((Seq::of(events), after)),
            TokenKind::Mark(Mark::Bar) => rest = after,
            _ => return Err(PhraseError::Fault(Stop::NotAllowed(token.line))),
        }
    }
}

// , number
fn next_number<'a>(tokens: &Tokens<'a>) -> Result<(u64, Tokens<'a>), Stop>
    ensures { MatchResult result
        (λ x. (l : ℕ) × (l' : ℕ) × (tokens.now ≡ mark Comma l ∷ (a_number_token x.0 l' ∷ x.1)))
        (λ stop. (d : ℕ) → StopsIn (a_comma ∷ (a_number ∷ [])) d tokens.now stop) }
{
    let rest = comma(tokens)?;
    let (value, rest) = number(&rest)?;
    Ok((value, rest))
}

// name , mask
fn call_of_set_event<'a>(
    alloc: Global,
    tokens: &Tokens<'a>,
) -> Result<(Call, Tokens<'a>), PhraseError>
    ensures { MatchResult result
        (λ x. IsCall Service.SetEvent x.0 tokens.now x.1)
        (λ e. Refuses e (λ stop. (d : ℕ) → StopsIn (operands Service.SetEvent) d tokens.now stop)) }
{
    let (task, rest) = object_name(alloc, tokens)?;
    let rest = comma(&rest)?;
    let (events, rest) = mask(alloc, &rest)?;
    Ok((Call::SetEvent(task, events), rest))
}

// name , number , number )
fn call_of_alarm<'a>(
    alloc: Global,
    service: AlarmService,
    tokens: &Tokens<'a>,
) -> Result<(Call, Tokens<'a>), PhraseError>
    ensures { MatchResult result
        (λ x. IsCall (Service.Alarm service) x.0 tokens.now x.1)
        (λ e. Refuses e (λ stop. (d : ℕ) → StopsIn (operands (Service.Alarm service)) d tokens.now stop)) }
{
    let (alarm, rest) = object_name(alloc, tokens)?;
    let (first, rest) = next_number(&rest)?;
    let (cycle, rest) = next_number(&rest)?;
    let rest = close_paren(&rest)?;
    Ok((alarm_call(service, alarm, first, cycle), rest))
}

/// The call of a service, by what stands between its parentheses and the closing one.
pub fn call<'a>(
    alloc: Global,
    service: Service,
    tokens: &Tokens<'a>,
) -> Result<(Call, Tokens<'a>), PhraseError>
    ensures { MatchResult result
        (λ x. IsCall service x.0 tokens.now x.1)
        (λ e. Refuses e (λ stop. (d : ℕ) → StopsIn (operands service) d tokens.now stop)) }
{
    match service {
        Service::Plain(plain) => {
            let rest = close_paren(tokens)?;
            Ok((plain_call(plain), rest))
        }
        Service::Object(of_object) => {
            let (object, rest) = object_name(alloc, tokens)?;
            let rest = close_paren(&rest)?;
            Ok((object_call(of_object, object), rest))
        }
        Service::Mask(of_mask) => {
            let (events, rest) = mask(alloc, tokens)?;
            Ok((mask_call(of_mask, events), rest))
        }
        Service::SetEvent => call_of_set_event(alloc, tokens),
        Service::Alarm(of_alarm) => call_of_alarm(alloc, of_alarm, tokens),
        Service::ShutdownOs => {
            let (status, rest) = status(tokens)?;
            let rest = close_paren(&rest)?;
            Ok((Call::ShutdownOs(status), rest))
        }
    }
}
