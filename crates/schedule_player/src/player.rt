//! A run of a schedule: its world, and how many lines it has answered.

ghost use Rattle.std.specs.Prelude.{◌<◌};
ghost use Rattle.node_steps.specs.Asked.{step_of};
ghost use Rattle.schedule_player.specs.Lines.{AnswersStep, PlaysLine, WritesLine};

use crate::answer::write_answer;
use crate::asking::{Note, note_of, read_step};
use crate::fault::StepsFault;
use crate::referee::Referee;
use crate::sending::send;
use node_steps::{Outcome, Step, World};
use ring_map::Ring;
use schedule_text::MAX_LINES;
use std::alloc::Global;
use std::io::Write;

/// A run of a schedule, and how many of its lines were answered.
#[derive(Drop)]
pub(crate) struct Player {
    pub(crate) world: World,
    pub(crate) referee: Referee,
    pub(crate) workers: u16,
    pub(crate) ring: Ring,
    pub(crate) lines: u32,
}

impl Player {
    /// Takes the step of a line, and writes what came of it as a line. Each further line than 100,000 is a bad step.
    pub(crate) fn play_line<W: Write>(
        &mut self,
        alloc: Global,
        text: &[u8],
        writer: &mut W,
    ) -> Result<(), StepsFault>
        ensures { PlaysLine self.old text.now
            (W.contents writer.old) (W.contents writer.new) self.new result }
    {
        if u64::from(self.lines) >= MAX_LINES {
            return Err(StepsFault::BadStep(self.lines.saturating_add(1)));
        }
        let number = self.lines + 1;
        let step = read_step(alloc, text, self.workers, self.ring, number)?;
        self.play_step(alloc, step, writer)
    }

    /// Takes a step, and writes what came of it.
    fn play_step<W: Write>(
        &mut self,
        alloc: Global,
        step: Step,
        writer: &mut W,
    ) -> Result<(), StepsFault>
        requires { self.old.lines < 100000 }
        ensures { AnswersStep self.old (step_of step)
            (W.contents writer.old) (W.contents writer.new) self.new result }
    {
        let note = note_of(alloc, &step)?;
        match self.world.step(alloc, step) {
            Ok(outcome) => self.write_line(alloc, note, &outcome, writer),
            Err(_) => Err(StepsFault::NoMemory),
        }
    }

    /// Writes what came of the next line's step.
    fn write_line<W: Write>(
        &mut self,
        alloc: Global,
        note: Note,
        outcome: &Outcome,
        writer: &mut W,
    ) -> Result<(), StepsFault>
        requires { self.old.lines < 100000 }
        ensures { WritesLine self.old note outcome.now
            (W.contents writer.old) (W.contents writer.new) self.new result }
    {
        let number = u64::from(self.lines) + 1;
        self.referee.hear(alloc, number, note, outcome)?;
        let line = write_answer(alloc, number, outcome)?;
        self.lines += 1;
        send(writer, line.as_slice())
    }
}
