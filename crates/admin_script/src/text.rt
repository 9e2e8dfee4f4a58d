//! The lines of the input of `admin`.
ghost use Rattle.std.specs.Prelude.{◌≡◌, ◌<◌, ◌++◌, ◌∷◌, [], length, OnOk, Some};
ghost use Rattle.std.specs.List.{slice_get, list_any};
ghost use Rattle.admin_script.specs.Admin.{begins as begins_of};
ghost use Rattle.admin_script.specs.Bounds.{IsAdminLine};

use crate::limits::{FIRST_LINES, LINE_LENGTH};
use crate::line::{AdminLine, begins};
use std::alloc::{AllocError as NoMemory, Global};
use std::marker::Model;

fn crosses<T: Send + Sync>() {}

/// The input of `admin` may be sent to a thread, and shared by threads.
pub fn texts_cross_threads() {
    crosses::<AdminText>();
    crosses::<AdminLine>();
}

/// The input of `admin`: one item for each line that isn't ignored, in the order of the text.
#[derive(Debug, Drop)]
pub struct AdminText {
    lines: Vec<AdminLine>,
    // whether a `vfs` or a `reset` has come
    begun: bool,
}

impl Model for AdminText {
    ghost use Rattle.std.specs.Prelude.{◌≡◌, List};
    ghost use Rattle.std.specs.List.{All, list_any};
    ghost use Rattle.admin_script.specs.declared.line.AdminLine.{AdminLine};
    ghost use Rattle.admin_script.specs.Admin.{begins};
    ghost use Rattle.admin_script.specs.Bounds.{IsAdminLine};

    ghost Value = { List AdminLine };

    ghost view = { λ t. t.lines.items };

    ghost invariant = { λ t. (t.begun ≡ list_any begins t.lines.items) × All IsAdminLine t.lines.items };
}

impl AdminText {
    pub(crate) fn new(alloc: Global) -> AdminText
        ensures { result ≡ [] }
    {
        AdminText {
            lines: Vec::new(alloc),
            begun: false,
        }
    }

    // Takes room for the first lines of a text of so many bytes.
    pub(crate) fn reserve(&mut self, bytes: usize) -> Result<(), NoMemory>
        ensures { OnOk result (self.new ≡ self.old) }
    {
        self.lines.reserve((bytes / LINE_LENGTH).min(FIRST_LINES))
    }

    pub(crate) fn has_begun(&self) -> bool
        ensures { result ≡ list_any begins_of self.now }
    {
        self.begun
    }

    pub(crate) fn push(&mut self, line: AdminLine) -> Result<(), NoMemory>
        requires { IsAdminLine line }
        ensures { OnOk result (self.new ≡ self.old ++ line ∷ []) }
    {
        let begins = begins(&line);
        self.lines.push(line)?;
        self.begun = self.begun || begins;
        Ok(())
    }

    /// How many lines there are.
    pub fn length(&self) -> usize
        ensures { result ≡ length self.now }
    {
        self.lines.len()
    }

    /// A line, counted from 0. Its contract also tells the bounds of what it says.
    pub fn line(&self, index: usize) -> &AdminLine
        requires { index < length self.now }
        ensures value { slice_get self.now index ≡ Some result.now }
        ensures bounds { IsAdminLine result.now }
    {
        &self.lines[index]
    }
}
