//! The command `report`: what can't happen, by the least table of an application.
ghost use Rattle.std.specs.Prelude.{◌≡◌, ◌≤◌, All, length, IfOk, OnOk, OnErr};
ghost use Rattle.osek_io.specs.{Reads.{OnlyReads}, Sunk.{sunk}};
ghost use Rattle.flow_report.specs.Findings.{IsOf};
ghost use Rattle.flow_report.specs.FindingLines.{finding_line, report_text};
ghost use Rattle.command_runs.specs.{Outside.{outside}, Playing.{given, Puts, PutsPrefix}};
ghost use Rattle.commands.specs.{Printing.{PrintsWhole}, Reporting.{AreLeastFindings, ReportAnswers}};

use crate::compiling::compile;
use crate::fitting::least_table;
use crate::printing::put_line;
use command_runs::{Stop, line_room, prefix};
use flow_report::{Finding, report_with, write_finding_line};
use osek_io::{PutBuffer, PutError, Shelf, Sink};
use osek_standard::App;
use osek_values::Memory;
use osek_values::limits::LINE_MAX;
use std::alloc::Global;

/// The findings of the least table of an application.
fn least_findings(alloc: Global, app: &App) -> Result<Vec<Finding>, Memory>
    ensures { IfOk result (λ findings. AreLeastFindings app.now findings.items) }
{
    let least = least_table(alloc, app)?;
    let findings = report_with(alloc, app, &least.table, least.exits.as_slice())?;
    Ok(findings)
}

/// Prints the line of a finding, or holds it back.
fn print_finding<O: Sink>(
    out: &mut O,
    buffer: &mut PutBuffer,
    app: &App,
    finding: Finding,
    line: &mut [u8],
) -> Result<(), PutError>
    requires of { IsOf app.now finding }
    requires room { LINE_MAX ≤ length line.old }
    ensures ok { OnOk result (Puts (given (sunk O.Sink out.old) buffer.old) (given (sunk O.Sink out.new) buffer.new) (finding_line app.now finding)) }
    ensures prefix { OnErr result (PutsPrefix (given (sunk O.Sink out.old) buffer.old) (given (sunk O.Sink out.new) buffer.new) (finding_line app.now finding)) }
    ensures room { length line.new ≡ length line.old }
{
    let size = write_finding_line(app, finding, line);
    put_line(out, buffer, prefix(line, size))
}

/// Prints the lines of findings, or holds back the last ones.
fn print_findings<O: Sink>(
    out: &mut O,
    buffer: &mut PutBuffer,
    app: &App,
    findings: &[Finding],
    line: &mut [u8],
) -> Result<(), PutError>
    requires of { All (IsOf app.now) findings.now }
    requires room { LINE_MAX ≤ length line.old }
    ensures ok { OnOk result (Puts (given (sunk O.Sink out.old) buffer.old) (given (sunk O.Sink out.new) buffer.new) (report_text app.now findings.now)) }
    ensures prefix { OnErr result (PutsPrefix (given (sunk O.Sink out.old) buffer.old) (given (sunk O.Sink out.new) buffer.new) (report_text app.now findings.now)) }
{
    for finding in findings {
        print_finding(out, buffer, app, *finding, line)?;
    }
    Ok(())
}

/// Prints all of them, with room for a line and for what is held back.
fn print_report<O: Sink>(
    alloc: Global,
    out: &mut O,
    app: &App,
    findings: &[Finding],
) -> Result<(), Stop>
    requires of { All (IsOf app.now) findings.now }
    ensures { PrintsWhole (sunk O.Sink out.old) (sunk O.Sink out.new) (report_text app.now findings.now) result }
{
    let Ok(mut line) = line_room(alloc) else {
        return Err(Stop::Memory);
    };
    let Ok(mut buffer) = PutBuffer::new(alloc) else {
        return Err(Stop::Memory);
    };
    match print_findings(out, &mut buffer, app, findings, &mut line) {
        Ok(()) => {}
        Err(PutError::Write) => return Err(Stop::Unprinted),
    }
    match buffer.flush(out) {
        Ok(()) => Ok(()),
        Err(PutError::Write) => Err(Stop::Unprinted),
    }
}

/// Prints the findings of the least table of the application of the two texts: what can't happen in any run. All memory is
/// taken before the first line is printed.
pub fn report<F: Shelf, O: Sink>(
    alloc: Global,
    shelf: &mut F,
    out: &mut O,
    oil: &str,
    code: &str,
) -> Result<(), Stop>
    ensures answer { ReportAnswers (outside F.Shelf O.Sink shelf.old out.old) (outside F.Shelf O.Sink shelf.new out.new) oil.now code.now result }
    ensures same { OnlyReads F.Shelf shelf.old shelf.new }
{
    let app = match compile(alloc, shelf, oil, code) {
        Ok(app) => app,
        Err(stop) => return Err(stop),
    };
    let Ok(findings) = least_findings(alloc, &app) else {
        return Err(Stop::Memory);
    };
    let printed = print_report(alloc, out, &app, findings.as_slice());
    drop(app);
    printed
}
