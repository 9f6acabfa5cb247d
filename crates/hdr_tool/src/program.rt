//! The program, over any reader and writer.

ghost use Rattle.std.specs.Prelude.{◌≡◌, ◌↔◌, Err, None, IfSome};
ghost use Rattle.std.specs.Io.KnownBytes.{Keeps};
ghost use Rattle.hdr_tool.specs.Arguments.{requested, view_of_task};
ghost use Rattle.hdr_tool.specs.Outcomes.{OnInput, Writes, ReadsAll};
ghost use Rattle.hdr_tool.specs.Program.{outputs_of, TaskLeaves};

use crate::arguments::{Task, parse, quantiles};
use crate::driver::drive;
use crate::fault::Fault;
use crate::merge::report_log;
use crate::report::write_report;
use crate::stream::read_to_end;
use std::alloc::Global;
use std::io::{Read, Write};

/// Runs a task. A merge reads all of its input first.
fn run_task<R: Read, W: Write>(
    alloc: Global,
    task: &Task<'_>,
    reader: &mut R,
    writer: &mut W,
) -> Result<(), Fault>
    ensures output { OnInput (R.remaining reader.old) (λ input. Writes
        (outputs_of (view_of_task task.now) input) (W.contents writer.old)
        (W.contents writer.new) result) }
    ensures reads { ReadsAll (TaskLeaves (view_of_task task.now)) (R.remaining reader.new) result }
{
    match task {
        Task::Report(sigfig, arguments) => {
            let quantiles = quantiles(alloc, arguments)?;
            let histogram = drive(alloc, false, *sigfig, reader, writer)?;
            write_report(alloc, &histogram, &quantiles, writer)
        }
        Task::Log(sigfig) => {
            drive(alloc, true, *sigfig, reader, writer)?;
            Ok(())
        }
        Task::Merge(options, sigfig, arguments) => {
            let quantiles = quantiles(alloc, arguments)?;
            let input = read_to_end(alloc, reader)?;
            report_log(alloc, options, *sigfig, &quantiles, &input, writer)
        }
    }
}

/// Runs the program on its arguments, without its own name. `Ok` is the exit status 0, and
/// `Fault::status` that of an error. The arguments are parsed first. `report` and `log` then run
/// the lines of the input in order as they are read, and `merge` reads all of its input first.
///
/// # Errors
/// Returns `Usage` exactly for a usage error; nothing is then read or written. An error of the
/// input's contents is returned once all of the input is read, and `log` has then written the
/// intervals before it. If the reader or an allocation fails, `report` and `merge` have written
/// nothing, and `log` some of its first intervals. If the writer fails, a proper prefix of the
/// output is written, and `log` reads no further.
pub fn run<R: Read, W: Write>(
    alloc: Global,
    arguments: &[String],
    reader: &mut R,
    writer: &mut W,
) -> Result<(), Fault>
    ensures usage { (result ≡ Err Fault.Usage) ↔ (requested arguments.now ≡ None) }
    ensures unused { requested arguments.now ≡ None
        → Keeps (R.remaining reader.old) (R.remaining reader.new)
        × Keeps (W.contents writer.old) (W.contents writer.new) }
    ensures output { IfSome (requested arguments.now) (λ task.
        OnInput (R.remaining reader.old) (λ input. Writes (outputs_of task input)
        (W.contents writer.old) (W.contents writer.new) result)) }
    ensures reads { IfSome (requested arguments.now)
        (λ task. ReadsAll (TaskLeaves task) (R.remaining reader.new) result) }
{
    let Some(task) = parse(arguments) else {
        return Err(Fault::Usage);
    };
    run_task(alloc, &task, reader, writer)
}
