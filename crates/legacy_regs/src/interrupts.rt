//! Interrupts of a queue.

/// The interrupt that a queue raised.
#[derive(Clone, Copy, Debug, PartialEq, Eq)]
pub enum Irq {
    /// None was raised.
    Silent,
    /// Bit 0 of ISR: VIRTIO 1.3, 4.1.4.5.
    Isr,
    /// The MSI-X vector of this number: VIRTIO 1.3, 4.1.5.1.2.
    Vector(u16),
}
