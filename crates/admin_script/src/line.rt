//! A line of the input of `admin`.
ghost use Rattle.std.specs.Prelude.{◌≡◌};
ghost use Rattle.admin_script.specs.Admin.{begins as begins_of};

use board_text::Piece;

/// A line of the input of `admin`, of this project.
#[derive(Debug, Drop)]
pub enum AdminLine {
    /// `vfs N`: 0 to 16 virtual functions.
    Vfs { count: u32 },
    /// `reset`: resets the device group.
    Reset,
    /// `cmd W HEX` and `cmd W -`: a command of at most 256 bytes, and room for W bytes, 0 to 256.
    Cmd { writable: u32, bytes: Piece },
}

// Whether no `vfs` may follow.
pub(crate) fn begins(line: &AdminLine) -> bool
    ensures { result ≡ begins_of line.now }
{
    match line {
        AdminLine::Vfs { .. } => true,
        AdminLine::Reset => true,
        AdminLine::Cmd { .. } => false,
    }
}
