//! What follows from the types alone.

use crate::ring::AdminRing;

fn is_shared<T: Send + Sync>() {}

/// A queue may be sent to threads and shared by them.
pub fn queues_cross_threads() {
    is_shared::<AdminRing>();
}
