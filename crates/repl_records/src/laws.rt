//! What holds of the spellings of records. The functions do nothing: their contracts say it.

ghost use Rattle.repl_records.specs.Capture.{IsCapture};
ghost use Rattle.repl_records.specs.FirstStates.{first_head, first_capture, first_decided};
ghost use Rattle.repl_records.specs.FirstStates.{first_number, first_read_only, first_replica};
ghost use Rattle.repl_records.specs.Prune.{IsDecided};
ghost use Rattle.repl_records.specs.SetState.{IsLastNumber, IsState};
ghost use Rattle.repl_records.specs.SourceSide.{IsHead};

/// What a missing record stands for is a record that has a spelling.
pub fn first_states_have_spellings()
    ensures head { IsHead first_head }
    ensures capture { IsCapture first_capture }
    ensures decided { IsDecided first_decided }
    ensures number { IsLastNumber first_number }
    ensures read_only { IsState first_read_only }
    ensures replica { IsState first_replica }
{}
