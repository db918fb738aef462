//! Copies that no run of the program makes: of what controllers and syncs keep. They stand apart from the crates that they
//! try, which would be proved twice with them.
#![tactic(auto)]

#[cfg(test)]
mod copies;
