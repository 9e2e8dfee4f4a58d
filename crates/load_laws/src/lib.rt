//! Laws of what `load` prints: counted over a script's lines and its members' histories, it is what the definition of
//! whole runs sums up of what each guest performed and was answered.
//!
//! The crate has no code. Its functions have empty bodies, and their clauses are the laws.
#![tactic(auto)]

ghost use Rattle.load_laws.specs.Summed.{SummariesAgree, LoadIsSummed};

/// Where no line ends a member or disables I/O, and each line that reads names a common register and is tried until its
/// command is posted, the sum over the members' histories is the sum over the guests' answers.
pub fn summaries_agree()
    ensures { SummariesAgree }
{}

/// What `load SEED COUNT` prints is the summary of what each guest performed, and of its answers.
pub fn load_is_summed()
    ensures { LoadIsSummed }
{}
