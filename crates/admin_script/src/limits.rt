//! How large the things are that the input of `admin` names, of this project.

// The most virtual functions.
pub(crate) const FUNCTION_LIMIT: u64 = 16;

// The most bytes of a command.
pub(crate) const COMMAND_LIMIT: usize = 256;

// The most bytes that a command leaves room for.
pub(crate) const ROOM_LIMIT: u64 = 256;

// How many bytes a line takes that isn't ignored, about the fewest.
pub(crate) const LINE_LENGTH: usize = 8;

// For how many lines room is taken at once at most. Room for more lines is taken as they come.
pub(crate) const FIRST_LINES: usize = 4_096;
