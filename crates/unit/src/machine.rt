// The register machine of source document 000, with 32 registers of 0 to 65,535: one step, and the run with its three reasons to stop.
ghost use Rattle.std.specs.Prelude.{◌≡◌, ◌+◌, ◌<◌, ◌≤◌, ◌≢◌, [], ◌∷◌, length};
ghost use Rattle.scope.specs.Book.{most_lines};
ghost use Rattle.scope.specs.Steps.{register_count, top};
ghost use Rattle.scope.specs.Running.{flat_step, flat_run, program_of};
ghost use Rattle.scope.specs.Transitions.{RegisterWithin};
ghost use Rattle.book.specs.Told.{instruction_told};
ghost use Rattle.unit.specs.Told.{next_told, did, end_told};

use book::flat::{FlatLine, Instruction, instruction_at};
use book::lines::{Reg, TOP};
use book::reader::Book;

// ours has 32 of 0 to 65,535
pub const REGISTERS: usize = 32;

// The outcome carries the full register's number when it is FULL.
#[derive(Clone, Copy, Debug, PartialEq, Eq)]
pub enum Outcome {
    Finished,
    OutOfSteps,
    Full(Reg),
}

// The outcome, the steps done and the line reached.
#[derive(Clone, Copy, Debug, PartialEq, Eq)]
pub struct Answer {
    pub outcome: Outcome,
    pub steps: u64,
    pub line: FlatLine,
}

// INC adds one and goes on. DEC on a register above 0 takes one off and goes on; on 0 it goes to the target. GO TO goes to the target.
// The step goes to a line; or it is not done, since it is INC of a register at 65,535, which is named.
fn does(x: Instruction, line: FlatLine, regs: &mut [u16]) -> Result<FlatLine, Reg>
    requires register_within { RegisterWithin (length regs.old) (instruction_told x) }
    requires line_lt_most_lines { line.0 < most_lines }
    ensures { record { next = next_told result regs.new; left = regs.new } ≡ did (flat_step line.0 (instruction_told x ∷ []) regs.old) regs.old }
{
    let on = FlatLine(line.0 + 1);
    match x {
        Instruction::Inc(r) => {
            let k = r.0 as usize;
            let v = regs[k];
            if v == TOP {
                return Err(r);
            }
            regs[k] = v + 1;
            Ok(on)
        }
        Instruction::Dec(r, target) => {
            let k = r.0 as usize;
            let v = regs[k];
            if v == 0 {
                return Ok(target);
            }
            regs[k] = v - 1;
            Ok(on)
        }
        Instruction::GoTo(target) => Ok(target),
    }
}

// Before each step, in this order: at line n, FINISHED; budget used up, OUT OF STEPS; INC of a register at 65,535, FULL; else the step is
// done and counted. (It counts steps and no index: the budget is tested between the end and FULL, so it is not the loop's bound.)
pub(crate) fn run_on(flat: &Book, start: FlatLine, regs: &mut [u16], budget: u64) -> Answer
    requires one_routine { flat.now.counts.routines ≤ 1 }
    requires start_le_lines { start.0 ≤ flat.now.counts.lines }
    requires regs_len { length regs.old ≡ register_count }
    ensures { end_told result regs.new ≡ flat_run (program_of flat.now.bytes.now) start.0 budget regs.old }
{
    let n = flat.counts.lines as usize;
    let mut line = start;
    let mut steps = 0;
    'run: loop {
        if line.0 == n {
            return Answer {
                outcome: Outcome::Finished,
                steps,
                line,
            };
        }
        if steps == budget {
            return Answer {
                outcome: Outcome::OutOfSteps,
                steps,
                line,
            };
        }
        match does(instruction_at(flat.bytes, line), line, regs) {
            Err(r) => {
                return Answer {
                    outcome: Outcome::Full(r),
                    steps,
                    line,
                };
            }
            Ok(target) => {
                line = target;
                steps += 1;
            }
        }
    }
}
