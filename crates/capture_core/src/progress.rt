//! How far a capture has come.

use repl_records::CaptureState;
use txn_buffer::Buffer;

/// How far a capture has come: it has read up to `read`, and keeps what is in flight there. `state`
/// is how far the server is captured, with the units that wait for their commit, which are
/// `waiting`; and `units` were taken and `rows` put in all.
#[derive(Debug, Drop)]
pub struct Progress {
    pub buffer: Buffer,
    pub read: u64,
    pub state: CaptureState,
    pub units: u64,
    pub rows: u64,
    pub waiting: u32,
}
