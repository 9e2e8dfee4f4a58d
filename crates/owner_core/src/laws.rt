//! What follows from the types alone.

use crate::owner::Owner;

fn is_shared<T: Send + Sync>() {}

/// An owner may be sent to threads and shared by them.
pub fn owners_cross_threads() {
    is_shared::<Owner>();
}
