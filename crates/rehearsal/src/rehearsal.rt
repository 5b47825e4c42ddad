//! A script's lines, one after another in one world.
ghost use Rattle.std.specs.Prelude.{◌∷◌, [], ℕ, IfOk, map, All};
ghost use Rattle.session_script.specs.declared.script.TaskLine.{TaskLine as TaskLines};
ghost use Rattle.session_script.specs.declared.script.Stage.{Stage};
ghost use Rattle.session_script.specs.Scripts.{act_of, task_line, settle_lines, finale_line, script_of_parts};
ghost use Rattle.session_script.specs.Ranges.{IsActor, IsInRange, IsInRanges};
ghost use Rattle.rehearsal.specs.Lines.{none_pending};
ghost use Rattle.rehearsal.specs.Reports.{Rehearses};

use crate::interpreter::Interpreter;
use crate::report::{Subject, put_line};
use carousel_profile::SCRIPT_CAROUSEL;
use carousel_world::{World, every_run_meets_the_headline};
use cycle_planner::{MOST_DRAWN, Weigh};
use oc_bytes::NoMemory;
use session_script::{Finale, Parts, Task, TaskLine};
use shell_streams::{Output, OutputFault};
use std::alloc::Global;

/// Runs a script in one world of carousel 1, each of whose modules is sent as often a cycle as it
/// weighs: each line's events happen when the line is met, and after each event its line of the
/// report is put. `settle` is two draws of [`cycle_planner::MOST_DRAWN`] sections all of whose
/// packets arrive. Edits that no commit line of their editor follows are given up.
///
/// The script's numbers are within their ranges, as those of each script that
/// `session_script::read_parts` gives. After `Failed` and `NoMemory` some of the events happened,
/// and a prefix of their report was written.
pub fn rehearse<O: Output>(
    alloc: Global,
    parts: Parts,
    weigh: Weigh,
    out: &mut O,
) -> Result<(), OutputFault>
    requires { IsInRanges (script_of_parts parts) }
    ensures { Rehearses result (O.state out.old) (O.state out.new) weigh.weights
        (script_of_parts parts) }
{
    every_run_meets_the_headline();
    let mut rehearsal = Rehearsal::new(alloc, weigh)?;
    rehearsal.run_all(parts.before, out)?;
    rehearsal.run_all(parts.during, out)?;
    rehearsal.settle(parts.settle, out)?;
    rehearsal.open_all(parts.finales, out)?;
    out.flush()
}

/// A world in which some lines of a script were run. After a fault it is of no use any more.
#[derive(Drop)]
struct Rehearsal {
    alloc: Global,
    world: World,
    interpreter: Interpreter,
}

impl Rehearsal {
    ghost use Rattle.rehearsal.specs.Inner.{Stands, Runs};

    /// One in which no line was run.
    fn new(alloc: Global, weigh: Weigh) -> Result<Rehearsal, NoMemory>
        ensures { IfOk result (λ r. Stands r weigh.weights [] none_pending) }
    {
        let world = World::new(alloc, SCRIPT_CAROUSEL, weigh)?;
        world.keeps_the_headline();
        Ok(Rehearsal {
            alloc,
            world,
            interpreter: Interpreter::new(alloc),
        })
    }

    /// Runs these tasks, which come next.
    fn run_all<O: Output>(&mut self, tasks: Vec<TaskLine>, out: &mut O) -> Result<(), OutputFault>
        requires { All (λ (line : TaskLines). IsInRange (act_of line.task)) tasks.items }
        ensures { (stage : Stage)
            → Runs result self.old self.new (O.state out.old) (O.state out.new)
            (map (task_line stage) tasks.items) }
    {
        for line in tasks {
            self.run(line.task, out)?;
        }
        Ok(())
    }

    /// Settles by two draws, where there is a line that says so, which comes next.
    fn settle<O: Output>(&mut self, line: Option<u32>, out: &mut O) -> Result<(), OutputFault>
        ensures { Runs result self.old self.new (O.state out.old) (O.state out.new)
            (settle_lines line) }
    {
        match line {
            Some(_) => {
                let first = Vec::new(self.alloc);
                let last = Vec::new(self.alloc);
                self.run(Task::Draw(MOST_DRAWN, first), out)?;
                self.run(Task::Draw(MOST_DRAWN, last), out)
            }
            None => Ok(()),
        }
    }

    /// Opens these paths, which come next.
    fn open_all<O: Output>(&mut self, finales: Vec<Finale>, out: &mut O) -> Result<(), OutputFault>
        requires { All (λ last. IsActor last.reader) finales.items }
        ensures { Runs result self.old self.new (O.state out.old) (O.state out.new)
            (map finale_line finales.items) }
    {
        for last in finales {
            self.run(Task::Open(last.reader, last.path), out)?;
        }
        Ok(())
    }

    /// Runs one task more: makes its event happen, if it has one, and puts the event's line.
    fn run<O: Output>(&mut self, task: Task, out: &mut O) -> Result<(), OutputFault>
        requires { IsInRange (act_of task) }
        ensures { (number : ℕ) (stage : Stage)
            → Runs result self.old self.new (O.state out.old) (O.state out.new)
            (record { number = number; stage = stage; act = act_of task } ∷ []) }
    {
        let Some(what) = self.interpreter.read(task)? else {
            return Ok(());
        };
        let event = what.into_event();
        let subject = Subject::of(self.alloc, &event)?;
        let reply = self.world.step(event)?;
        self.world.keeps_the_headline();
        put_line(self.alloc, &subject, &reply, out)
    }
}
