//! The device of one member.
ghost use Rattle.std.specs.Prelude.{◌≡◌, [], IfOk};
ghost use Rattle.legacy_regs.specs.Registers.{initial_registers, selected};
ghost use Rattle.group_calls.specs.declared.member.MemberCall.TheVariants.{Msix, Flr};
ghost use Rattle.group_calls.specs.declared.member.MemberReply.TheVariants.{Written};
ghost use Rattle.group_calls.specs.MemberQueues.{receives};
ghost use Rattle.group_calls.specs.RegisterSteps.{registers_then};
ghost use Rattle.group_calls.specs.Storage.{sectors_of, zeros};
ghost use Rattle.group_calls.specs.Member.{IsMemberMade};

use blk_engine::Disk;
use group_calls::{Kind, MemberMade};
use guest_mem::GuestMem;
use legacy_regs::Regs;
use net_engine::Backlog;
use std::alloc::{AllocError as NoMemory, Global};
use std::marker::Model;

/// What a member's device holds: registers, guest memory, disk, and the frames that wait. Contracts see these, and what
/// the member was made with.
#[derive(Drop)]
pub struct Device {
    pub(crate) alloc: Global,
    pub(crate) made: MemberMade,
    pub(crate) regs: Regs,
    pub(crate) memory: GuestMem,
    pub(crate) disk: Disk,
    pub(crate) backlog: Backlog,
}

impl Model for Device {
    ghost use Rattle.member_device.specs.Device.{Holdings};

    ghost Value = { Holdings };

    ghost use Rattle.member_device.specs.Kept.{IsKept};

    ghost view = { λ d. record { made = d.made; registers = d.regs.registers; memory = d.memory; disk = d.disk; waiting = d.backlog } };

    ghost invariant = { IsKept };
}

/// How many sectors the disk of a kind has.
fn sectors(kind: &Kind) -> u64
    ensures { result ≡ sectors_of kind.now }
{
    match kind {
        Kind::Block { sectors, .. } => *sectors,
        Kind::Net { .. } => 0,
    }
}

impl Device {
    /// A device with the registers of its kind, as they are at first, a memory and a disk of zeros, and no frame. Its number
    /// is at most 999, its memory has 1 to 64 pages of 4,096 bytes, its disk at most 4,096 sectors of 512 bytes. `NoMemory`
    /// where memory, disk or the room for frames can't be had.
    pub fn new(alloc: Global, made: MemberMade) -> Result<Device, NoMemory>
        requires { IsMemberMade made }
        ensures made { IfOk result (λ device. device.made ≡ made) }
        ensures registers { IfOk result (λ device. device.registers ≡ initial_registers made.kind) }
        ensures memory { IfOk result (λ device. device.memory ≡ (zeros made).memory) }
        ensures disk { IfOk result (λ device. device.disk ≡ (zeros made).disk) }
        ensures waiting { IfOk result (λ device. device.waiting ≡ []) }
    {
        let memory = GuestMem::new(alloc, made.pages)?;
        let disk = Disk::new(alloc, sectors(&made.kind))?;
        let backlog = Backlog::new(alloc)?;
        Ok(Device {
            alloc,
            made,
            regs: Regs::new(made.kind),
            memory,
            disk,
            backlog,
        })
    }

    /// What the member was made with.
    pub fn made(&self) -> &MemberMade
        ensures made { result.now ≡ self.now.made }
        ensures limits { IsMemberMade self.now.made }
    {
        &self.made
    }

    /// The number of the selected queue (VIRTIO 1.3, 4.1.5.1.3.1), which may be one that doesn't exist.
    pub fn selected(&self) -> u16
        ensures { result ≡ selected self.now.registers }
    {
        self.regs.selected()
    }

    /// Enables or disables MSI-X (VIRTIO 1.3, 4.1.5.1.2).
    pub fn set_msix(&mut self, on: bool)
        ensures { self.new ≡ record self.old { registers = registers_then self.old.made.kind (Msix on) Written self.old.registers } }
    {
        self.regs.set_msix(on);
    }

    /// A function level reset (VIRTIO 1.3, 2.4): the registers are as they were at first, but for MSI-X, and no frame waits.
    /// Memory and disk stay.
    pub fn flr(&mut self)
        ensures { self.new ≡ record self.old { registers = registers_then self.old.made.kind Flr Written self.old.registers; waiting = [] } }
    {
        self.regs.flr();
        self.backlog.clear();
    }

    /// Whether the queue takes frames from the network: queue 0 of a network device (VIRTIO 1.3, 5.1.2).
    pub(crate) fn receives(&self, queue: u16) -> bool
        ensures { result ≡ receives self.now.made.kind queue }
    {
        match &self.made.kind {
            Kind::Block { .. } => false,
            Kind::Net { .. } => queue == 0,
        }
    }
}

fn crosses<T: Send + Sync>() {}

/// A device may be sent to a thread, and shared by threads.
pub fn devices_cross_threads() {
    crosses::<Device>();
}
