//! Worked examples of the script language and of the input of `admin`: texts and what reading them answers, scripts
//! and their texts, and the first lines of some seeds. They are tests alone, apart from the crates that they try, so
//! that those are proved once.
#![tactic(auto)]

#[cfg(test)]
mod tests;
