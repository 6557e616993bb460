ghost use Rattle.std.specs.Prelude.{◌≡◌, ◌≢◌, ◌↔◌, ℕ, List, true};
ghost use Rattle.dali_text.specs.Output.{Takes, has_failed, is_flushed};
ghost use Rattle.dali_input.specs.Input.{ReadsAtMost, state_of};
ghost use Rattle.dali_file_commands.specs.NoteLines.{Tells};
ghost use Rattle.dali_file_commands.specs.FileCommands.{IsCarriedOut, limit_of};
ghost use Rattle.dali_file_commands.specs.Notes.{IsNoted};

use crate::check::check;
use crate::journal::journal;
use crate::run_scenario::run_scenario;
use crate::show::show;
use dali_input::{Input, Status};
use dali_journal::Journal;
use dali_text::Output;
use std::alloc::Global;
use std::io::{Read, Write};

/// A command over what one file has (profile).
#[derive(Clone, Copy)]
pub enum FileCommand<'a> {
    /// `check`, over orders, of which it tells what this journal says of each, if one is to be asked.
    Check { known: Option<&'a Journal> },
    /// `run`, over a scenario, with a line for each frame or one for each run of frames.
    Run { single_frames: bool },
    /// `show`, over the digits of a memory bank.
    Show,
    /// `journal`, over a writer's journal, with each order's updates or without.
    Journal { with_updates: bool },
}

impl FileCommand<'_> {
    /// Carries the command out over what the reader has, and writes its text. It ends as `Unwritten` if the text can't
    /// be written.
    ///
    /// The `notes` tell a person where the input is wrong and what its rule is. Whatever becomes of the notes, the
    /// answer is the same.
    pub fn carry_out<R: Read, W: Write, N: Write>(
        &self,
        alloc: Global,
        input: &mut Input<R>,
        output: &mut Output<W>,
        notes: &mut Output<N>,
    ) -> Status
        ensures carried_out { result ≢ Status.Unwritten → (text : List ℕ)
            × IsCarriedOut self.now (state_of R.remaining input.old) (state_of R.remaining input.new) result text
            × Takes W.contents output.old output.new text }
        ensures read { ReadsAtMost (limit_of self.now) (state_of R.remaining input.old)
            (state_of R.remaining input.new) }
        ensures unwritten { result ≡ Status.Unwritten ↔ has_failed output.new ≡ true }
        ensures flushed { result ≢ Status.Unwritten → is_flushed output.new ≡ true }
        ensures noted { result ≢ Status.Unwritten → (text : List ℕ) × Takes W.contents output.old output.new text
            × Tells N.contents notes.old notes.new (IsNoted self.now result text) }
    {
        match *self {
            FileCommand::Check { known } => check(alloc, input, output, known, notes),
            FileCommand::Run { single_frames } => {
                run_scenario(alloc, input, output, single_frames, notes)
            }
            FileCommand::Show => show(alloc, input, output, notes),
            FileCommand::Journal { with_updates } => {
                journal(alloc, input, output, with_updates, notes)
            }
        }
    }
}
