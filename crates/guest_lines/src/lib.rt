//! What a guest's line says to its device, and how an answer reads, and no code: the event of a line (`event_of`), with
//! I/O accesses enabled or not by the lines before it (`has_io`); the words of a member's and of a lone device's replies
//! (`reply_words`, `lone_words`), and what is shown where an access stays with the host (`outside_words`).
//!
//! It stands on the script's lines (`board_script`), the I/O BAR (`io_bar`) and the calls of a member (`group_calls`).
//! The transcript of `alone` and the definitions of whole runs cite it.
#![tactic(auto)]
