//! Tables from bytes.
ghost use Rattle.std.specs.Prelude.{◌≡◌, ◌++◌, ◌∷◌, [], ◌<◌, ◌≤◌, length, slice_set, All, Ok, Err, IfOk, IfErr, OnOk};
ghost use Rattle.osek_values.specs.Answers.{Refuses, Answers};
ghost use Rattle.abstract_state.specs.declared.table.{PlainEntry.{PlainEntry as APlainEntry}, PlainTable.{PlainTable as APlainTable}};
ghost use Rattle.abstract_state.specs.{Components.{components as components_of, component_count}, Domains.{domains, domains_of, IsSound}};
ghost use Rattle.abstract_state.specs.{Tables.{set_at}, ValueOrder.{flag_field}};
ghost use Rattle.numbered_sets.specs.{NumberedEntries.{number_domains, numbers_at}, Pools.{pool_domains, IsLonger}};
ghost use Rattle.numbered_sets.specs.{Views.{plain_entry, AreNumbersOf}, PlainTables.{plain_table, plain_rows, row_at, AreRowsOf}};
ghost use Rattle.table_codec.specs.{Spelling.{spelling, IsSpellable, magic as magic_of}, declared.fault.TableFault.{TableFault as ATableFault}};
ghost use Rattle.table_codec.specs.{Faults.{IsMagicFault, IsPresenceFault, IsTableFault, IsRowFault, IsPointFault, IsFirstFault}, Rows.{IsReadRow, IsReadTable}};
ghost use Rattle.table_codec.specs.Kept.{AreKept, AreKeptBySome, AreNoneKept, IsFilled, entry_after, filled, filled_if, last_entry, numbers_or};

use crate::entries::entry;
use crate::fault::{Fault, ReadError, TableError, TableFault, TableRule};
use crate::points::points;
use crate::reader::{Reader, Spelled, fault};
use abstract_state::{Component, PlainEntry, components, domain_of, masks_are_few};
use numbered_sets::{NumberedEntry, NumberedRow, Pool, Table, numbered};
use osek_standard::{App, Point};
use osek_values::{Memory, Seq};
use std::alloc::Global;

/// OSEKTAB, and the version.
pub(crate) fn magic() -> &'static [u8]
    ensures { result.now ≡ magic_of }
{
    b"OSEKTAB\x02"
}

fn read_magic(reader: &mut Reader) -> Result<(), Fault>
    ensures ok { OnOk result (reader.old ≡ magic_of ++ reader.new) }
    ensures err { IfErr result (IsMagicFault reader.old) }
{
    let left = reader.left();
    if left < 8 {
        return Err(fault(TableRule::K1, left));
    }
    if reader.text(8) != magic() {
        return Err(fault(TableRule::K2, left));
    }
    Ok(())
}

// whether a point has an entry
fn is_present(reader: &mut Reader) -> Result<bool, Fault>
    ensures ok { IfOk result (λ b. reader.old ≡ flag_field b ∷ reader.new) }
    ensures err { IfErr result (IsPresenceFault reader.old) }
{
    let left = reader.left();
    let Some(present) = reader.byte() else {
        return Err(fault(TableRule::K1, left));
    };
    if present > 1 {
        return Err(fault(TableRule::K3, left));
    }
    Ok(present == 1)
}

// The entry of a point, if it has one. A set is empty where it is spelled as in the row before.
fn point_entry<'a>(
    alloc: Global,
    reader: &mut Reader<'a>,
    app: &App,
    point: Point,
    components: &Seq<Component>,
    kept: &mut Seq<Spelled<'a>>,
) -> Result<Option<PlainEntry>, ReadError>
    requires components { components.now ≡ components_of app.now }
    requires many { length kept.old ≡ component_count app.now }
    requires kept { AreKeptBySome app.now kept.old }
    ensures many { OnOk result (length kept.new ≡ length kept.old) }
    ensures ok { IfOk result (λ entry. (before : APlainEntry) → AreKept app.now before kept.old → IsReadRow app.now point reader.old reader.new (filled_if before entry)) }
    ensures kept { IfOk result (λ entry. (before : APlainEntry) → AreKept app.now before kept.old → AreKept app.now (entry_after before entry) kept.new) }
    ensures err { IfErr result (λ e. Refuses e (IsPointFault app.now point reader.old)) }
{
    if !is_present(reader)? {
        return Ok(None);
    }
    let found = entry(alloc, reader, app, point, components, kept)?;
    Ok(Some(found))
}

// How many words the sets of all rows may have past the first two of each, which is half a gigabyte. A table of 16 MiB may
// ask for more, since a set has a word for each 64 numbers up to its highest; what `solve` finds asks for far less.
const MAX_WORDS: usize = 67_108_864;

// how many words the sets of a row may have, at most
fn row_words(pool: &Pool, components: usize) -> usize
    requires { components ≤ length pool.now }
{
    let mut words: usize = 0;
    for component in 0..components {
        words = words.saturating_add(pool.len(component) / 64);
    }
    words
}

// Where a set is empty, puts that of the entry before in its place.
fn fill_at(
    alloc: Global,
    before: &NumberedEntry,
    read: &PlainEntry,
    component: usize,
    entry: &mut NumberedEntry,
) -> Result<(), Memory>
    requires known { component < length read.now.sets }
    requires before { number_domains before.now ≡ domains read.now }
    requires entry { number_domains entry.old ≡ domains read.now }
    ensures { OnOk result (entry.new.sets ≡ slice_set entry.old.sets component (numbers_or (numbers_at before.now component) (set_at read.now component).members (numbers_at entry.old component))) }
{
    if !read.sets.at(component).members.is_empty() {
        return Ok(());
    }
    let set = before.sets.set(alloc, component)?;
    entry.sets.put(component, &set)?;
    Ok(())
}

// the same for each set
fn fill(
    alloc: Global,
    before: &NumberedEntry,
    read: &PlainEntry,
    entry: &mut NumberedEntry,
) -> Result<(), Memory>
    requires before { number_domains before.now ≡ domains read.now }
    requires entry { number_domains entry.old ≡ domains read.now }
    ensures { OnOk result (IsFilled before.now read.now entry.old entry.new) }
{
    for component in 0..read.sets.len() {
        fill_at(alloc, before, read, component, entry)?;
    }
    Ok(())
}

// The numbered form of an entry behind rows: its empty sets are those of the last one.
fn numbered_behind(
    alloc: Global,
    pool: &mut Pool,
    rows: &Seq<NumberedRow>,
    entry: &PlainEntry,
) -> Result<NumberedEntry, Memory>
    requires domains { domains entry.now ≡ pool_domains pool.old }
    requires sound { All IsSound entry.now.sets }
    requires rows { AreRowsOf pool.old rows.now }
    ensures pool { IsLonger pool.old pool.new }
    ensures numbers { IfOk result (AreNumbersOf pool.new) }
    ensures plain { IfOk result (λ numbered. plain_entry pool.new numbered ≡ filled (last_entry (plain_rows pool.old rows.now)) entry.now) }
{
    let mut new = numbered(alloc, pool, entry)?;
    let count = rows.len();
    if count == 0 {
        return Ok(new);
    }
    let before = &rows.at(count - 1).entry;
    fill(alloc, before, entry, &mut new)?;
    Ok(new)
}

// A row more, whose values the pool numbers. Rows that would have too many words are answered by want of memory.
fn add_row(
    alloc: Global,
    pool: &mut Pool,
    rows: &mut Seq<NumberedRow>,
    words: &mut usize,
    point: Point,
    entry: &PlainEntry,
) -> Result<(), Memory>
    requires domains { domains entry.now ≡ pool_domains pool.old }
    requires sound { All IsSound entry.now.sets }
    requires rows { AreRowsOf pool.old rows.old }
    ensures rows { OnOk result (AreRowsOf pool.new rows.new) }
    ensures domains { pool_domains pool.new ≡ pool_domains pool.old }
    ensures plain { OnOk result (plain_rows pool.new rows.new ≡ plain_rows pool.old rows.old ++ row_at point (filled (last_entry (plain_rows pool.old rows.old)) entry.now) ∷ []) }
{
    let count = entry.sets.len();
    let entry = numbered_behind(alloc, pool, rows, entry)?;
    *words = words.saturating_add(row_words(pool, count));
    if *words > MAX_WORDS {
        return Err(Memory);
    }
    rows.push(NumberedRow { point, entry })?;
    Ok(())
}

// no bytes for each of so many components
fn none_kept<'a>(alloc: Global, count: usize) -> Result<Seq<Spelled<'a>>, Memory>
    ensures { IfOk result (AreNoneKept count) }
{
    let mut kept = Seq::new(alloc);
    for _ in 0..count {
        kept.push(Spelled::none())?;
    }
    Ok(kept)
}

// the rows of all points
fn read_rows(
    alloc: Global,
    reader: &mut Reader,
    app: &App,
    pool: &mut Pool,
    components: &Seq<Component>,
) -> Result<Seq<NumberedRow>, ReadError>
    requires domains { pool_domains pool.old ≡ domains_of app.now }
    requires components { components.now ≡ components_of app.now }
    ensures rows { IfOk result (AreRowsOf pool.new) }
    ensures table { IfOk result (λ rows. IsReadTable app.now reader.old reader.new (plain_table pool.new rows)) }
    ensures err { IfErr result (λ e. Refuses e (IsRowFault app.now reader.old)) }
{
    masks_are_few(app);
    let points = points(alloc, app)?;
    let mut rows = Seq::new(alloc);
    let mut kept = none_kept(alloc, components.len())?;
    let mut words = 0;
    for place in 0..points.len() {
        let point = *points.at(place);
        if let Some(entry) = point_entry(alloc, reader, app, point, components, &mut kept)? {
            add_row(alloc, pool, &mut rows, &mut words, point, &entry)?;
        }
    }
    Ok(rows)
}

// a pool without values
fn new_pool(alloc: Global, app: &App, components: &Seq<Component>) -> Result<Pool, Memory>
    requires { components.now ≡ components_of app.now }
    ensures { IfOk result (λ pool. pool_domains pool ≡ domains_of app.now) }
{
    let mut domains = Vec::new(alloc);
    for component in components.as_slice() {
        domains.push(domain_of(app, *component))?;
    }
    Pool::new(alloc, domains.as_slice())
}

// a table that is all of the bytes
fn all(alloc: Global, reader: &mut Reader, app: &App) -> Result<Table, ReadError>
    ensures ok { IfOk result (λ t. IsSpellable app.now t × (spelling app.now t ≡ reader.old)) }
    ensures err { IfErr result (λ e. Refuses e (IsTableFault app.now reader.old)) }
{
    read_magic(reader)?;
    let components = components(alloc, app)?;
    let mut pool = new_pool(alloc, app, &components)?;
    let rows = read_rows(alloc, reader, app, &mut pool, &components)?;
    let left = reader.left();
    if left != 0 {
        return Err(ReadError::Fault(fault(TableRule::K5, left)));
    }
    Ok(Table::of(pool, rows))
}

/// The table that the bytes spell, all of the bytes, or their first fault.
pub fn read_table(alloc: Global, app: &App, bytes: &[u8]) -> Result<Table, TableError>
    ensures spellable { IfOk result (IsSpellable app.now) }
    ensures spelled { IfOk result (λ t. spelling app.now t ≡ bytes.now) }
    ensures first { IfErr result (λ e. Refuses e (IsFirstFault app.now bytes.now)) }
    // What is spelled so is answered, and what is the first fault is refused so, unless memory runs out.
    ensures complete { (t : APlainTable) → IsSpellable app.now t → spelling app.now t ≡ bytes.now → Answers result (Ok t) }
    ensures exact { (f : ATableFault) → IsFirstFault app.now bytes.now f → Answers result (Err f) }
{
    let mut reader = Reader::new(bytes);
    match all(alloc, &mut reader, app) {
        Ok(table) => Ok(table),
        Err(ReadError::Memory) => Err(TableError::Memory),
        Err(ReadError::Fault(fault)) => Err(TableError::Fault(TableFault {
            rule: fault.rule,
            offset: bytes.len().saturating_sub(fault.left),
        })),
    }
}
