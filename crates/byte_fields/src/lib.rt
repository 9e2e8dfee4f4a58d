//! Words for contracts over lists of bytes, and no code: a part of a list by its address (`bytes_at`), a list where
//! another one stands from an address on (`overwrite`), and the little-endian number that stands at an address
//! (`number_at`, with `le16`, `le32` and `le64`). Guest memory, rings, disks and commands all speak of bytes by these.
//! How large things are, as a page, a sector, a frame or a queue, stands once in `specs/Sizes.antt`, which all others cite.
//!
//! It stands on `byteorder`, whose numbers these are. Its laws say what is read from a part of a list
//! (`number_read`), and what is read after an overwrite of the same bytes and beside them (`Overwriting`).
#![tactic(auto)]
