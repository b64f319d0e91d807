// How the log lies in its files is printed.
ghost use Rattle.std.specs.Prelude.{◌≡◌, ◌≤◌, ◌∷◌, [], false};
ghost use Rattle.segment_set.specs.Views.{LieFrom};
ghost use Rattle.copycat_tool.specs.Census.{census_lines};
ghost use Rattle.copycat_tool.specs.ClientTakes.{ArePut};
ghost use Rattle.copycat_tool.specs.Report.{census_answer};
ghost use Rattle.copycat_tool.specs.Turning.{Answers, IsPart};

use crate::ending::Ending;
use crate::texts::put_answer;
use disk_model::Disk;
use host_recovery::Host;
use resource_catalog::Catalog;
use script_io::Sink;
use script_text::Printed;
use segment_set::PartView;

/// Prints a line for each of these parts, and one for all of them.
fn put_census<O: Sink>(list: &[PartView], text: &mut Vec<u8>, out: &mut O) -> Result<(), Ending>
    requires { LieFrom 1 list.now }
    ensures put { ArePut (O.written out.old) (O.written out.new) (O.faults out.old) (O.faults out.new) (census_lines list.now) result }
    ensures later { O.faults out.old ≤ O.faults out.new }
{
    let mut kept = 0u64;
    let mut count = 0u64;
    for one in list {
        kept += one.kept;
        count += one.last + 1 - one.base;
        let line = Printed::Part {
            base: one.base,
            last: one.last,
            kept: one.kept,
            cut: one.cut,
            floor: one.floor,
        };
        match put_answer(line, text, out) {
            Ok(()) => {}
            Err(ending) => return Err(ending),
        }
    }
    put_answer(Printed::Total { kept, count }, text, out)
}

/// Answers a line that asks how the log lies in its files.
pub fn answer_census<D: Disk, O: Sink>(
    host: &mut Host<D, Catalog>,
    text: &mut Vec<u8>,
    out: &mut O,
) -> Result<(), Ending>
    requires runs { host.old.stopped ≡ false }
    ensures { IsPart D.tells D.view D.faults host.old host.new (O.faults out.old) (O.faults out.new) result (λ files run.
        Answers D.view files (census_answer run ∷ []) host.old host.new run (O.written out.old) (O.written out.new) result) }
{
    match host.census() {
        Ok(list) => put_census(&list, text, out),
        Err(_) => Err(Ending::NoMemory),
    }
}
