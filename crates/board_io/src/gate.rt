/// Is asked before each step of an actor, and may hold the actor back. Of this project: a test orders
/// the steps of several threads by a gate of its own.
pub trait Gate {
    /// Comes before each call that the actor with this number makes on a shared object, and returns when
    /// the actor may go on.
    fn turn(&self, who: u32);
}

/// Lets every actor pass at once. It is the program's gate.
#[derive(Clone, Copy, Debug, PartialEq, Eq)]
pub struct OpenGate;

impl Gate for OpenGate {
    fn turn(&self, _who: u32) {}
}
