//! The command `show`: what the least table of an application dictates.
ghost use Rattle.std.specs.Prelude.{◌≡◌, ◌≤◌, All, length, IfOk, OnOk, OnErr};
ghost use Rattle.osek_standard.specs.Points.{IsPoint};
ghost use Rattle.abstract_state.specs.declared.edge.FlowEdge.{FlowEdge as AnEdge};
ghost use Rattle.osek_io.specs.Reads.{OnlyReads};
ghost use Rattle.flow_text.specs.Texts.{show_text};
ghost use Rattle.commands.specs.Fitting.{IsLeastExplored};
ghost use Rattle.command_runs.specs.Outside.{outside};
ghost use Rattle.osek_io.specs.Sunk.{sunk};
ghost use Rattle.command_runs.specs.Playing.{given, Puts, PutsPrefix};
ghost use Rattle.commands.specs.{Printing.{PrintsWhole}, Showing.{IsDictated, ShowAnswers}};

use crate::compiling::compile;
use crate::fitting::{fitted, least_table};
use crate::printing::{print_counts, print_edges, print_sites};
use abstract_state::FlowEdge;
use command_runs::{Stop, line_room};
use global_cfg::edges_with;
use image_model::{Image, Version};
use osek_io::{PutBuffer, PutError, Shelf, Sink};
use osek_standard::App;
use osek_values::limits::LINE_MAX;
use osek_values::{Memory, Seq};
use state_flow::{Explored, values};
use std::alloc::Global;

/// What the least table of an application dictates.
#[derive(Drop)]
pub struct Dictated {
    /// The image in which each site has its form.
    pub image: Image,
    /// The edges of the global control-flow graph.
    pub edges: Seq<FlowEdge>,
    /// How many values the table has.
    pub values: u64,
}

fn derive_by(alloc: Global, app: App, least: &Explored) -> Result<Dictated, Memory>
    requires { IsLeastExplored app least.now }
    ensures { IfOk result (IsDictated app) }
{
    let edges = edges_with(alloc, &app, &least.table, least.exits.as_slice())?;
    let values = values(&app, &least.table);
    let image = fitted(alloc, app, least)?;
    Ok(Dictated {
        image,
        edges,
        values,
    })
}

/// What the least table of an application dictates.
fn derive(alloc: Global, app: App) -> Result<Dictated, Memory>
    ensures { IfOk result (IsDictated app) }
{
    let least = least_table(alloc, &app)?;
    let dictated = derive_by(alloc, app, &least);
    drop(least);
    dictated
}

/// Prints the text of what is dictated, or holds back its end.
fn print_dictated<O: Sink>(
    out: &mut O,
    buffer: &mut PutBuffer,
    dictated: &Dictated,
    line: &mut [u8],
) -> Result<(), PutError>
    requires begin { All (λ (e : AnEdge). IsPoint dictated.now.image.app e.from) dictated.now.edges }
    requires end { All (λ (e : AnEdge). IsPoint dictated.now.image.app e.to) dictated.now.edges }
    requires room { LINE_MAX ≤ length line.old }
    ensures ok { OnOk result (Puts (given (sunk O.Sink out.old) buffer.old) (given (sunk O.Sink out.new) buffer.new) (show_text dictated.now.image.app dictated.now.image.sites dictated.now.edges dictated.now.values)) }
    ensures prefix { OnErr result (PutsPrefix (given (sunk O.Sink out.old) buffer.old) (given (sunk O.Sink out.new) buffer.new) (show_text dictated.now.image.app dictated.now.image.sites dictated.now.edges dictated.now.values)) }
{
    let app = &dictated.image.app;
    let edges = dictated.edges.as_slice();
    print_sites(out, buffer, &dictated.image, Version::One, line)?;
    print_edges(out, buffer, app, edges, line)?;
    print_counts(out, buffer, app, dictated.values, edges.len(), line)?;
    Ok(())
}

/// Prints all of it, with room for a line and for what is held back.
fn print_shown<O: Sink>(alloc: Global, out: &mut O, dictated: &Dictated) -> Result<(), Stop>
    requires begin { All (λ (e : AnEdge). IsPoint dictated.now.image.app e.from) dictated.now.edges }
    requires end { All (λ (e : AnEdge). IsPoint dictated.now.image.app e.to) dictated.now.edges }
    ensures { PrintsWhole (sunk O.Sink out.old) (sunk O.Sink out.new) (show_text dictated.now.image.app dictated.now.image.sites dictated.now.edges dictated.now.values) result }
{
    let Ok(mut line) = line_room(alloc) else {
        return Err(Stop::Memory);
    };
    let Ok(mut buffer) = PutBuffer::new(alloc) else {
        return Err(Stop::Memory);
    };
    match print_dictated(out, &mut buffer, dictated, &mut line) {
        Ok(()) => {}
        Err(PutError::Write) => return Err(Stop::Unprinted),
    }
    match buffer.flush(out) {
        Ok(()) => Ok(()),
        Err(PutError::Write) => Err(Stop::Unprinted),
    }
}

/// Prints what the least table of the application of the two texts dictates: the form of each call site, the edges of
/// the global control-flow graph, and its counts. All memory is taken before the first line is printed.
pub fn show<F: Shelf, O: Sink>(
    alloc: Global,
    shelf: &mut F,
    out: &mut O,
    oil: &str,
    code: &str,
) -> Result<(), Stop>
    ensures answer { ShowAnswers (outside F.Shelf O.Sink shelf.old out.old) (outside F.Shelf O.Sink shelf.new out.new) oil.now code.now result }
    ensures same { OnlyReads F.Shelf shelf.old shelf.new }
{
    let app = match compile(alloc, shelf, oil, code) {
        Ok(app) => app,
        Err(stop) => return Err(stop),
    };
    let Ok(dictated) = derive(alloc, app) else {
        return Err(Stop::Memory);
    };
    let printed = print_shown(alloc, out, &dictated);
    drop(dictated);
    printed
}
