// The functions of the C interface as C calls them: each hands on what the function of its name in
// the library `medlarbrace` answers, under the same promises. A crate is a library or an archive
// for C, and `functions` speaks of the library.
#![tactic(auto)]

mod files;
mod records;
mod tallies;
