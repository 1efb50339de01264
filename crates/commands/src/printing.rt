//! Texts that are printed line by line: the sites of an image, the edges of a graph. Lines are held back in a buffer.
ghost use Rattle.std.specs.Prelude.{◌≡◌, ◌≤◌, ◌<◌, All, length, take, OnOk, OnErr};
ghost use Rattle.osek_standard.specs.Points.{IsPoint};
ghost use Rattle.abstract_state.specs.declared.edge.FlowEdge.{FlowEdge as AnEdge};
ghost use Rattle.flow_text.specs.{FlowLines.{edge_line, counts_line, info_line}, Texts.{site_text, sites_text, edges_text}};
ghost use Rattle.image_model.specs.ImageStep.{site_at as site_of};
ghost use Rattle.osek_io.specs.Sunk.{sunk};
ghost use Rattle.command_runs.specs.Playing.{given, Puts, PutsPrefix};

use abstract_state::FlowEdge;
use command_runs::prefix;
use flow_text::{write_counts_line, write_edge_line, write_info_line, write_site_line};
use image_model::{Image, Version, site_at};
use osek_io::{PutBuffer, PutError, Sink};
use osek_standard::App;
use osek_values::BlockNo;
use osek_values::limits::LINE_MAX;

/// Prints a line, or holds it back.
pub fn put_line<O: Sink>(out: &mut O, buffer: &mut PutBuffer, line: &[u8]) -> Result<(), PutError>
    ensures ok { OnOk result (Puts (given (sunk O.Sink out.old) buffer.old) (given (sunk O.Sink out.new) buffer.new) line.now) }
    ensures prefix { OnErr result (PutsPrefix (given (sunk O.Sink out.old) buffer.old) (given (sunk O.Sink out.new) buffer.new) line.now) }
{
    match buffer.put(out, line) {
        Ok(()) => Ok(()),
        Err(error) => Err(error),
    }
}

/// Prints the line of a block, where it is a site.
fn print_site<O: Sink>(
    out: &mut O,
    buffer: &mut PutBuffer,
    image: &Image,
    version: Version,
    block: BlockNo,
    line: &mut [u8],
) -> Result<(), PutError>
    requires known { block.0 < length image.now.app.blocks }
    requires room { LINE_MAX ≤ length line.old }
    ensures ok { OnOk result (Puts (given (sunk O.Sink out.old) buffer.old) (given (sunk O.Sink out.new) buffer.new) (site_text image.now.app version block.0 (site_of image.now block.0))) }
    ensures prefix { OnErr result (PutsPrefix (given (sunk O.Sink out.old) buffer.old) (given (sunk O.Sink out.new) buffer.new) (site_text image.now.app version block.0 (site_of image.now block.0))) }
    ensures room { length line.new ≡ length line.old }
{
    match site_at(image, block) {
        None => Ok(()),
        Some(site) => {
            let size = write_site_line(&image.app, version, block, site, line);
            put_line(out, buffer, prefix(line, size))
        }
    }
}

/// Prints the lines of an image's sites, as they are told of an image of this version.
pub fn print_sites<O: Sink>(
    out: &mut O,
    buffer: &mut PutBuffer,
    image: &Image,
    version: Version,
    line: &mut [u8],
) -> Result<(), PutError>
    requires room { LINE_MAX ≤ length line.old }
    ensures ok { OnOk result (Puts (given (sunk O.Sink out.old) buffer.old) (given (sunk O.Sink out.new) buffer.new) (sites_text image.now.app version image.now.sites)) }
    ensures prefix { OnErr result (PutsPrefix (given (sunk O.Sink out.old) buffer.old) (given (sunk O.Sink out.new) buffer.new) (sites_text image.now.app version image.now.sites)) }
    ensures room { length line.new ≡ length line.old }
{
    for block in 0..image.app.blocks.len() {
        print_site(out, buffer, image, version, BlockNo(block as u16), line)?;
    }
    Ok(())
}

/// Prints the line of an edge.
fn print_edge<O: Sink>(
    out: &mut O,
    buffer: &mut PutBuffer,
    app: &App,
    edge: FlowEdge,
    line: &mut [u8],
) -> Result<(), PutError>
    requires begins { IsPoint app.now edge.from }
    requires ends { IsPoint app.now edge.to }
    requires room { LINE_MAX ≤ length line.old }
    ensures ok { OnOk result (Puts (given (sunk O.Sink out.old) buffer.old) (given (sunk O.Sink out.new) buffer.new) (edge_line app.now edge)) }
    ensures prefix { OnErr result (PutsPrefix (given (sunk O.Sink out.old) buffer.old) (given (sunk O.Sink out.new) buffer.new) (edge_line app.now edge)) }
    ensures room { length line.new ≡ length line.old }
{
    let size = write_edge_line(app, edge, line);
    put_line(out, buffer, prefix(line, size))
}

/// Prints the lines of edges.
pub fn print_edges<O: Sink>(
    out: &mut O,
    buffer: &mut PutBuffer,
    app: &App,
    edges: &[FlowEdge],
    line: &mut [u8],
) -> Result<(), PutError>
    requires begin { All (λ (e : AnEdge). IsPoint app.now e.from) edges.now }
    requires end { All (λ (e : AnEdge). IsPoint app.now e.to) edges.now }
    requires room { LINE_MAX ≤ length line.old }
    ensures ok { OnOk result (Puts (given (sunk O.Sink out.old) buffer.old) (given (sunk O.Sink out.new) buffer.new) (edges_text app.now edges.now)) }
    ensures prefix { OnErr result (PutsPrefix (given (sunk O.Sink out.old) buffer.old) (given (sunk O.Sink out.new) buffer.new) (edges_text app.now edges.now)) }
    ensures room { length line.new ≡ length line.old }
{
    for edge in edges {
        print_edge(out, buffer, app, *edge, line)?;
    }
    Ok(())
}

/// Prints the line of the counts.
pub fn print_counts<O: Sink>(
    out: &mut O,
    buffer: &mut PutBuffer,
    app: &App,
    values: u64,
    edges: usize,
    line: &mut [u8],
) -> Result<(), PutError>
    requires room { LINE_MAX ≤ length line.old }
    ensures ok { OnOk result (Puts (given (sunk O.Sink out.old) buffer.old) (given (sunk O.Sink out.new) buffer.new) (counts_line app.now values edges)) }
    ensures prefix { OnErr result (PutsPrefix (given (sunk O.Sink out.old) buffer.old) (given (sunk O.Sink out.new) buffer.new) (counts_line app.now values edges)) }
{
    let size = write_counts_line(app, values, edges as u64, line);
    put_line(out, buffer, prefix(line, size))
}

/// Prints the line of an image's version, its size and its forms.
pub fn print_info<O: Sink>(
    out: &mut O,
    buffer: &mut PutBuffer,
    image: &Image,
    line: &mut [u8],
) -> Result<(), PutError>
    requires room { LINE_MAX ≤ length line.old }
    ensures ok { OnOk result (Puts (given (sunk O.Sink out.old) buffer.old) (given (sunk O.Sink out.new) buffer.new) (info_line image.now)) }
    ensures prefix { OnErr result (PutsPrefix (given (sunk O.Sink out.old) buffer.old) (given (sunk O.Sink out.new) buffer.new) (info_line image.now)) }
    ensures room { length line.new ≡ length line.old }
{
    let size = write_info_line(image, line);
    put_line(out, buffer, prefix(line, size))
}
