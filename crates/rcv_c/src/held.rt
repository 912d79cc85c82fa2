// What an open session of C's is.

use rcv_guided::session::GuidedSession;

/// A guided session, and the bytes of its last answer.
#[derive(Drop)]
pub struct Held {
    pub session: GuidedSession,
    pub answer: Vec<u8>,
}
