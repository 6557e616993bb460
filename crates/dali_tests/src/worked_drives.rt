ghost use Rattle.std.specs.Prelude.{◌∷◌, [], ℕ, List, Some, None, Err, codes};
ghost use Rattle.dali_bank.specs.Order.{Contents};
ghost use Rattle.dali_frame.specs.declared.fault.LineFault.TheVariants.{Length};
ghost use Rattle.dali_journal.specs.declared.record.Record.TheVariants.{Opened};
ghost use Rattle.dali_trace.specs.declared.fault.DriveFault.TheVariants as faults;
ghost use Rattle.dali_trace.specs.declared.happening.Reply.TheVariants as replies;
ghost use Rattle.dali_trace.specs.declared.happening.Happening.TheVariants.{Asked, Answered, Kept};
ghost use Rattle.dali_trace.specs.Next.{IsNext};
ghost use Rattle.dali_drive.specs.Lines.{IsShort, IsAnswerLine, TakesLine};
ghost use Rattle.dali_drive.specs.Transcript.{Streams, Transcript};
ghost use Rattle.dali_drive.specs.Driven.{IsInTurn, KeepsRecords, BrokenOff};
ghost use Rattle.dali_laws.specs.Joined.{FollowOn};
ghost use Rattle.dali_drive.specs.Sittings.{MayHaveHappened};
ghost use Rattle.dali_trace.specs.Worked.{empty, second_order, asked, taken, begun};
ghost use Rattle.dali_trace.specs.WorkedPlans.{half_tried};
ghost use Rattle.dali_drive.specs.WorkedDrives.{before_two, frames_turned, one_line_read, record_left_out};
ghost use Rattle.dali_drive.specs.WorkedSittings.{second_sitting};
ghost use Rattle.dali_drive.specs.WorkedSittings.{second_without_the_frame};

// Texts that aren't the trace's, or an answer's line, or what is read of one.
fn other_texts()
    ensures turned { ¬ Transcript half_tried before_two frames_turned }
    ensures unread { ¬ Transcript half_tried before_two one_line_read }
    ensures unrecorded { ¬ Transcript half_tried before_two record_left_out }
    ensures nine_bytes { ¬ IsShort (codes "123456789") }
    ensures two_lines { ¬ IsAnswerLine None (codes "--\n--\n") }
    ensures ended_in_time { ¬ TakesLine (Some (codes "12345678\n")) (Some []) (Err faults.TooLong) }
    ensures no_line { ¬ TakesLine (Some (codes "12")) (Some []) (Err (faults.Line Length)) }
    ensures more_to_come { ¬ TakesLine (Some (codes "1--\n")) (Some (codes "--\n")) (Err faults.End) }
{}

// Steps that don't come next, are out of turn or out of range, or that a fault can't break off.
fn other_steps()
    ensures another_order { ¬ IsNext empty begun (Asked second_order 9) }
    ensures another_reply { ¬ IsNext empty asked (Answered 1 replies.Busy) }
    ensures asked_at_work { ¬ IsInTurn empty (Asked second_order 9 ∷ taken) }
    ensures out_of_range { ¬ KeepsRecords (Kept (Opened 64) ∷ begun) }
    ensures two_steps { ¬ MayHaveHappened empty begun faults.Link half_tried }
    ensures no_memory { (rest : List (Contents × ℕ)) (old new : Streams)
        → ¬ BrokenOff empty begun rest faults.NoMemory old new }
{}

// No sitting follows on one that left its record out.
fn other_sittings()
    ensures forgotten { ¬ FollowOn empty (second_sitting ∷ second_without_the_frame ∷ []) }
{}
