// Document 01's limits, and the sizes of the parts of a study file.
#![tactic(auto)]

// The least N, the nodes of a study.
pub const MIN_NODES: usize = 2;

// The largest N.
pub const MAX_NODES: usize = 160;

// The largest A, the arc entries of a study.
pub const MAX_ARCS: usize = 1024;

// The bytes of an arc entry: from, to, kind.
pub const ARC: usize = 3;

// The largest kind: 0, 1, 2 lead one way, 3, 4, 5 both ways; the class is the kind mod 3.
pub const MAX_KIND: u8 = 5;

// The largest M, the rounds of a study or of a tally.
pub const MAX_ROUNDS: usize = 100000;

// The largest n1 and n2, the members of a class: nodes and arcs.
pub const MAX_CLASS: usize = 64;

// The last position of a class, which stands for no member of it.
pub const MAX_POSITION: usize = MAX_CLASS + 1;

// The most bytes of a file.
pub const MAX_FILE: usize = 16777216;

// The bytes of its trailer: eight numbers of four bytes.
pub const TRAILER: usize = 32;
