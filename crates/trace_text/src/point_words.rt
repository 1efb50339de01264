//! What one line of a record of points says.
ghost use Rattle.std.specs.{Prelude.{◌≡◌, ◌≢◌, true, ℕ, ◌+◌, ◌-◌, ◌^◌, ◌<◌, ◌≤◌, List, take, ◌∷◌, ◌++◌, length, min, IsTrue, if◌then◌else◌, Option, IfSome, MatchOption, codes}, List.{list_all, position}};
ghost use Rattle.std.specs.{Char.{is_ascii_digit}, Str.{bytes_eq, Parse.{digits_value}}, Fmt.{decimal}};
ghost use Rattle.osek_values.specs.declared.numbers.{BlockNo.{BlockNo}, TaskNo.{TaskNo}};
ghost use Rattle.osek_standard.specs.{Apps.{is_task_block as is_tasks}, Points.{IsPoint, IsTaskBlock, IsRoutineBlock}, Validity.{is_within}, declared.objects.{Counter.{Counter}, Isr.{Isr}, Task.{Task}}};
ghost use Rattle.trace_text.specs.{declared.fault.PointFault.TheVariants.{G1, G2}, EventWords.{words}, PointTexts.{block_text, point_text, task_or_dash}};
ghost use Rattle.trace_text.specs.PointWords.{is_number as is_a_number, slash as the_slash, is_block_form as is_of_block_form, is_point_form as is_of_form};
ghost use Rattle.trace_text.specs.PointWords.{IsPointOf, point_named as the_point, said_point, point_of_words, read_point_line};

use crate::event_words::{is_comment, next_word};
use crate::fault::PointFault;
use osek_standard::{App, Point, Task};
use osek_values::limits::MAX_EVENT_LINE;
use osek_values::{BlockNo, TaskNo};

const HALT: &[u8] = b"halt";

const IDLE: &[u8] = b"idle";

const DASH: &[u8] = b"-";

// How many digits of a number are looked at at once: few applications have more blocks.
const MAX_DIGITS: usize = 4;

fn slash(word: &[u8]) -> Option<usize>
    ensures { result ≡ the_slash word.now }
{
    word.iter().position(|byte| *byte == b'/')
}

fn are_digits(word: &[u8]) -> bool
    ensures { result ≡ list_all is_ascii_digit word.now }
{
    word.iter().all(|byte| byte.is_ascii_digit())
}

fn is_number(word: &[u8]) -> bool
    ensures { result ≡ is_a_number word.now }
{
    let [first, rest @ ..] = word else {
        return false;
    };
    let alone = rest.is_empty();
    are_digits(word) && (*first != b'0' || alone)
}

// Whether what stands behind the `b` of a block is of the form.
fn is_block_form(rest: &[u8]) -> bool
    ensures { result ≡ is_of_block_form rest.now (the_slash rest.now) }
{
    match slash(rest) {
        None => is_number(rest),
        Some(place) => is_number(&rest[..place]) && place + 1 < rest.len(),
    }
}

// What stands behind the `b` of a block.
fn behind_b(word: &[u8]) -> Option<&[u8]>
    ensures { MatchOption result ((rest : List ℕ) → word.now ≢ codes "b" ++ rest) (λ rest. word.now ≡ codes "b" ++ rest.now) }
{
    match word {
        [b'b', rest @ ..] => Some(rest),
        _ => None,
    }
}

fn has_point_form(word: &[u8]) -> bool
    ensures { result ≡ is_of_form word.now }
{
    if word == HALT || word == IDLE {
        return true;
    }
    match behind_b(word) {
        None => false,
        Some(rest) => is_block_form(rest),
    }
}

// The value of digits, or the greatest number that a block could have where it is larger.
fn value_of(digits: &[u8]) -> u16
    requires { IsTrue (list_all is_ascii_digit digits.now) }
    ensures { result ≡ min (digits_value 10 digits.now) (2 ^ 16 - 1) }
{
    let mut value: u16 = 0;
    for digit in digits {
        value = value
            .saturating_mul(10)
            .saturating_add(u16::from(*digit - b'0'));
    }
    value
}

fn block_named(app: &App, digits: &[u8]) -> Option<BlockNo>
    ensures { MatchOption result ((b : ℕ) → b < length app.now.blocks → decimal b ≢ digits.now) (λ b. (b.0 < length app.now.blocks) × (decimal b.0 ≡ digits.now)) }
{
    if !is_number(digits) {
        return None;
    }
    let value = value_of(digits);
    if (value as usize) < app.blocks.len() {
        Some(BlockNo(value))
    } else {
        None
    }
}

// Whether a block is among so many from a first one on.
fn is_among(block: BlockNo, first: BlockNo, count: u16) -> bool
    ensures { result ≡ is_within block.0 (first.0, count) }
{
    let after = block.0 >= first.0;
    after && (block.0 as u32) < first.0 as u32 + count as u32
}

fn is_task_block(app: &App, block: BlockNo) -> bool
    ensures { result ≡ is_tasks app.now block.0 }
{
    app.tasks
        .as_slice()
        .iter()
        .any(|task| is_among(block, task.first, task.count))
}

fn isr_with(app: &App, block: BlockNo) -> Option<usize>
    ensures { result ≡ position (λ (x : Isr). is_within block.0 (x.first.0, x.count)) app.now.isrs }
{
    app.isrs
        .as_slice()
        .iter()
        .position(|isr| is_among(block, isr.first, isr.count))
}

fn counter_with(app: &App, block: BlockNo) -> Option<usize>
    ensures { result ≡ position (λ (x : Counter). is_within block.0 (x.first.0, x.count)) app.now.counters }
{
    app.counters
        .as_slice()
        .iter()
        .position(|counter| is_among(block, counter.first, counter.count))
}

// Whether an ISR or the tick routine of a counter has a block.
fn is_routine_block(app: &App, block: BlockNo) -> bool
    ensures { (x : Option TaskNo) → result ≡ true → IfSome x (λ t. t.0 < length app.now.tasks) → IsRoutineBlock app.now block x }
{
    match isr_with(app, block) {
        Some(_) => true,
        None => match counter_with(app, block) {
            Some(_) => true,
            None => false,
        },
    }
}

// Whether a task has a name. Names that begin alike mostly end otherwise.
fn is_named(task: &Task, name: &[u8]) -> bool
    ensures { result ≡ bytes_eq task.now.name name.now }
{
    let own = task.name.as_bytes();
    if own.len() != name.len() {
        return false;
    }
    if own.is_empty() || own[own.len() - 1] == name[own.len() - 1] {
        return own == name;
    }
    false
}

fn task_named(app: &App, name: &[u8]) -> Option<usize>
    ensures { result ≡ position (λ (x : Task). bytes_eq x.name name.now) app.now.tasks }
{
    app.tasks
        .as_slice()
        .iter()
        .position(|task| is_named(task, name))
}

// What a routine interrupted, by what stands behind the slash: a task, or none.
fn over_named(app: &App, name: &[u8]) -> Option<Option<TaskNo>>
    ensures { MatchOption result ((x : Option TaskNo) → IfSome x (λ t. t.0 < length app.now.tasks) → task_or_dash app.now x ≢ name.now) (λ x. IfSome x (λ t. t.0 < length app.now.tasks) × (task_or_dash app.now x ≡ name.now)) }
{
    if name == DASH {
        return Some(None);
    }
    match task_named(app, name) {
        None => None,
        Some(task) => Some(Some(TaskNo(task as u8))),
    }
}

fn task_point(app: &App, digits: &[u8]) -> Option<Point>
    ensures { MatchOption result ((b : BlockNo) → IsTaskBlock app.now b → decimal b.0 ≢ digits.now) (λ p. IsPoint app.now p × (point_text app.now p ≡ codes "b" ++ digits.now)) }
{
    match block_named(app, digits) {
        None => None,
        Some(block) => {
            if is_task_block(app, block) {
                Some(Point::Task(block))
            } else {
                None
            }
        }
    }
}

fn routine_point(app: &App, digits: &[u8], name: &[u8]) -> Option<Point>
    ensures { MatchOption result ((b : BlockNo) (x : Option TaskNo) → IsRoutineBlock app.now b x → decimal b.0 ≡ digits.now → task_or_dash app.now x ≢ name.now) (λ p. IsPoint app.now p × (point_text app.now p ≡ codes "b" ++ digits.now ++ codes "/" ++ name.now)) }
{
    let Some(block) = block_named(app, digits) else {
        return None;
    };
    let Some(over) = over_named(app, name) else {
        return None;
    };
    if is_task_block(app, block) {
        None
    } else {
        Some(Point::Routine { block, over })
    }
}

// The point of a block, by what stands behind its `b`.
fn block_point(app: &App, rest: &[u8]) -> Option<Point>
    ensures { IsPointOf app.now (codes "b" ++ rest.now) result }
{
    match slash(rest) {
        None => task_point(app, rest),
        Some(place) => routine_point(app, &rest[..place], &rest[place + 1..]),
    }
}

fn point_named(app: &App, word: &[u8]) -> Option<Point>
    ensures { IsPointOf app.now word.now result }
{
    if word == HALT {
        return Some(Point::Halted);
    }
    if word == IDLE {
        return Some(Point::Idle);
    }
    match behind_b(word) {
        None => None,
        Some(rest) => block_point(app, rest),
    }
}

// Why a word that is no point is refused.
fn fault_of(word: &[u8]) -> PointFault
    ensures { result ≡ (if is_of_form word.now then G2 else G1) }
{
    if has_point_form(word) {
        PointFault::G2
    } else {
        PointFault::G1
    }
}

// What the only word of a line says.
fn point_of(app: &App, word: &[u8]) -> Result<Option<Point>, PointFault>
    ensures { result ≡ said_point word.now (the_point app.now word.now) }
{
    match point_named(app, word) {
        None => Err(fault_of(word)),
        Some(point) => Ok(Some(point)),
    }
}

// The digits at the front of a text, as far as they are looked at.
#[derive(Clone, Copy)]
struct Digits {
    value: u16,
    count: usize,
}

fn front_digits(text: &[u8]) -> Digits
    ensures within { result.count ≤ length text.now }
    ensures digits { IsTrue (list_all is_ascii_digit (take result.count text.now)) }
    ensures value { result.value ≡ digits_value 10 (take result.count text.now) }
{
    let mut value: u16 = 0;
    let most = text.len().min(MAX_DIGITS);
    for count in 0..most {
        let byte = text[count];
        if !byte.is_ascii_digit() {
            return Digits { value, count };
        }
        value = value * 10 + u16::from(byte - b'0');
    }
    Digits { value, count: most }
}

// The block that such digits name.
fn block_of(app: &App, text: &[u8], digits: Digits) -> Option<BlockNo>
    requires within { digits.count ≤ length text.now }
    requires digits { IsTrue (list_all is_ascii_digit (take digits.count text.now)) }
    requires value { digits.value ≡ digits_value 10 (take digits.count text.now) }
    ensures { IfSome result (λ b. (b.0 < length app.now.blocks) × (decimal b.0 ≡ take digits.count text.now)) }
{
    let is_plain = digits.count == 1 || (digits.count > 0 && text[0] != b'0');
    if is_plain && (digits.value as usize) < app.blocks.len() {
        Some(BlockNo(digits.value))
    } else {
        None
    }
}

fn plain_task_point(app: &App, block: BlockNo) -> Option<Point>
    requires { block.0 < length app.now.blocks }
    ensures { IfSome result (λ p. IsPoint app.now p × (point_text app.now p ≡ block_text block.0)) }
{
    if is_task_block(app, block) {
        Some(Point::Task(block))
    } else {
        None
    }
}

fn plain_routine_point(app: &App, block: BlockNo, name: &[u8]) -> Option<Point>
    requires { block.0 < length app.now.blocks }
    ensures { IfSome result (λ p. IsPoint app.now p × (point_text app.now p ≡ block_text block.0 ++ codes "/" ++ name.now)) }
{
    let Some(over) = over_named(app, name) else {
        return None;
    };
    if is_routine_block(app, block) {
        Some(Point::Routine { block, over })
    } else {
        None
    }
}

// The point of a block, by what stands behind its `b`, where its number is short.
fn plain_block_point(app: &App, rest: &[u8]) -> Option<Point>
    ensures { IfSome result (λ p. IsPoint app.now p × (point_text app.now p ≡ codes "b" ++ rest.now)) }
{
    let digits = front_digits(rest);
    let Some(block) = block_of(app, rest, digits) else {
        return None;
    };
    match &rest[digits.count..] {
        [] => plain_task_point(app, block),
        [b'/', name @ ..] => plain_routine_point(app, block, name),
        _ => None,
    }
}

// What most lines say, judged at one look: a point that is spelled with no blank.
fn plain_point(app: &App, line: &[u8]) -> Option<Point>
    ensures { IfSome result (λ p. IsPoint app.now p × (point_text app.now p ≡ line.now)) }
{
    match behind_b(line) {
        Some(rest) => plain_block_point(app, rest),
        None => {
            if line == IDLE {
                Some(Point::Idle)
            } else {
                None
            }
        }
    }
}

fn point_in(app: &App, line: &[u8]) -> Result<Option<Point>, PointFault>
    ensures { result ≡ point_of_words app.now (words line.now) }
{
    let Some((word, rest)) = next_word(line) else {
        return Ok(None);
    };
    if is_comment(word) {
        return Ok(None);
    }
    match next_word(rest) {
        None => point_of(app, word),
        Some(_) => Err(PointFault::G1),
    }
}

/// What a line of a record says, without its LF and the CR before it: a point of the application as it is printed, or none in a
/// line of blanks alone or one whose first other byte is `#`. It takes no memory.
pub fn read_point(app: &App, line: &[u8]) -> Result<Option<Point>, PointFault>
    ensures { result ≡ read_point_line app.now line.now }
{
    if let Some(point) = plain_point(app, line) {
        return Ok(Some(point));
    }
    if line.len() > MAX_EVENT_LINE {
        return Err(PointFault::G3);
    }
    point_in(app, line)
}
