//! What a keeper counts, and whether a transaction is open.

ghost use Rattle.std.specs.Prelude.{◌≡◌, false, if◌then◌else◌};
ghost use Rattle.keep_core.specs.Kept.{IsClosed, IsOpen, opened, committed};
ghost use Rattle.keep_core.specs.Kept.{after_read, after_write, CallFails, Closes, HasCause};
ghost use Rattle.keep_sqlite.specs.Keepers.{kept_of, kept_new, after_error, after_rollback};

use keep_core::KeepError;
use keep_map::AreaCounts;
use repl_types::Area;

/// The counts of a keeper over a database, whether a transaction is open, and whether a rollback
/// was refused: then the keeper is dead, and each later call fails.
#[derive(Debug, Drop)]
pub struct Tally {
    is_open: bool,
    is_dead: bool,
    faults: u64,
    reads: AreaCounts,
    writes: AreaCounts,
}

impl Tally {
    /// No transaction is open, and nothing is counted.
    pub fn new() -> Tally
        ensures kept { kept_of result ≡ kept_new }
        ensures alive { result.is_dead ≡ false }
    {
        let reads = AreaCounts::new();
        let writes = AreaCounts::new();
        Tally {
            is_open: false,
            is_dead: false,
            faults: 0,
            reads,
            writes,
        }
    }

    /// Answers `Failed` if the keeper is dead.
    pub fn check_alive(&self) -> Result<(), KeepError>
        ensures { result ≡ (if self.now.is_dead then Err KeepError.Failed else Ok tt) }
    {
        if self.is_dead {
            Err(KeepError::Failed)
        } else {
            Ok(())
        }
    }

    /// A transaction was opened.
    pub fn open(&mut self)
        requires { IsClosed (kept_of self.old) }
        ensures { kept_of self.new ≡ opened (kept_of self.old) }
    {
        self.is_open = true;
    }

    /// The transaction was committed.
    pub fn commit(&mut self)
        requires { IsOpen (kept_of self.old) }
        ensures { kept_of self.new ≡ committed (kept_of self.old) }
    {
        self.is_open = false;
    }

    /// An area is read.
    pub fn read(&mut self, area: Area)
        ensures { kept_of self.new ≡ after_read (kept_of self.old) area }
    {
        self.reads.bump(area);
    }

    /// An area is written.
    pub fn write(&mut self, area: Area)
        ensures { kept_of self.new ≡ after_write (kept_of self.old) area }
    {
        self.writes.bump(area);
    }

    /// Counts a statement that was refused, but not if memory ran out.
    fn count(&mut self, error: KeepError)
        ensures counts { self.new ≡ record self.old { faults = after_error self.old.faults error } }
        ensures cause { HasCause self.old.faults self.new.faults error }
    {
        match error {
            KeepError::Memory => {}
            KeepError::Failed => self.faults = self.faults.saturating_add(1),
        }
    }

    /// A call failed, and then the transaction was rolled back, or the rollback was refused.
    pub fn fail(&mut self, error: KeepError, undone: Result<(), KeepError>)
        ensures tally { self.new ≡ after_rollback
            (record self.old { faults = after_error self.old.faults error }) undone }
        ensures fails { CallFails (kept_of self.old) (kept_of self.new) error }
    {
        self.count(error);
        self.close(undone);
    }

    /// The transaction was rolled back, or the rollback was refused.
    pub fn close(&mut self, undone: Result<(), KeepError>)
        ensures tally { self.new ≡ after_rollback self.old undone }
        ensures closes { Closes (kept_of self.old) (kept_of self.new) }
    {
        self.is_open = false;
        if let Err(error) = undone {
            self.is_dead = true;
            self.count(error);
        }
    }
}
