// What is changed in the good case, and the number of the refusal that is due; none for a success.
use crate::Call;
use crate::cases::Change::{Arc, Left, Node, Number, Order, Right, Tally, Trailer, Whole};
use crate::cases::Number::{
    Age, Arcs, Chance1, Chance2, Class1, Class2, FileLength, FileRoom, FrontRoom, LeftLength,
    Nodes, RecordRoom, RightLength, Round, RoundBytes, Rounds, Source, TallyLength, Target,
    WeightsRoom,
};
use crate::cases::{Change, WORDS};

// Each change alone is tried at each of the calls, on the good case with the base's changes.
pub(crate) struct Trial {
    pub calls: &'static [Call],
    pub base: &'static [Change],
    pub changes: &'static [(Change, Option<u32>)],
}

// The tally of two rounds, one of them the first record's: what remove takes back.
const TWO_ROUNDS: [u32; WORDS] = [2, 2, 2, 7, 0, 0, 1, 0, 1, 1, 1, 1, 2];

// Every call's changes.
pub(crate) const TRIALS: [Trial; 18] = [
    Trial {
        calls: &[Call::Writer],
        base: &[],
        changes: &[
            (Number(FileRoom, 63), None),
            (Number(Nodes, 1), Some(2)),
            (Number(Arcs, 20), Some(2)),
            (Number(Arcs, 22), Some(2)),
            (Number(Arcs, 18), None),
            (Number(Rounds, 100001), Some(2)),
            (Number(Source, 6), Some(3)),
            (Number(Target, 6), Some(3)),
            (Number(Target, 0), Some(3)),
            (Node(2, 3), Some(5)),
            (Number(Nodes, 71), Some(6)),
            (Number(Source, 2), None),
            (Number(Target, 4), None),
            (Arc(0, 6), Some(8)),
            (Arc(1, 0), Some(8)),
            (Arc(2, 6), Some(32)),
            (Arc(2, 3), None),
            (Arc(2, 4), Some(9)),
            (Arc(2, 5), Some(9)),
            (Number(RoundBytes, 3), Some(9)),
            (Number(RoundBytes, 5), Some(9)),
            (Order(0, 2), Some(11)),
            (Order(1, 1), Some(11)),
            (Order(3, 1), Some(11)),
            (Order(3, 2), Some(11)),
            (Number(FileRoom, 62), Some(15)),
        ],
    },
    // The study file's calls: length, N, A, M, s, t, sections, nodes, arcs, rounds; then what only
    // lookup or search refuses.
    Trial {
        calls: &[Call::Opening, Call::Lookup, Call::Search],
        base: &[],
        changes: &[
            (Number(FileLength, 128), None),
            (Number(FileLength, 31), Some(1)),
            (Trailer(0, 1), Some(2)),
            (Trailer(0, 161), Some(2)),
            (Trailer(5, 5), Some(2)),
            (Trailer(10, 2), Some(2)),
            (Trailer(12, 6), Some(3)),
            (Trailer(16, 6), Some(3)),
            (Trailer(12, 1), Some(3)),
            (Trailer(28, 26), Some(4)),
            (Trailer(24, 97), Some(4)),
            (Trailer(20, 97), Some(4)),
            (Trailer(0, 72), Some(4)),
            (Trailer(4, 8), Some(4)),
            (Node(2, 3), Some(5)),
            (Trailer(0, 71), Some(6)),
            (Trailer(12, 2), None),
            (Trailer(16, 4), None),
            (Arc(0, 6), Some(8)),
            (Arc(1, 0), Some(8)),
            (Arc(2, 6), Some(32)),
            (Arc(2, 3), None),
            (Arc(2, 4), Some(9)),
            (Arc(2, 5), Some(9)),
            (Trailer(8, 2), Some(9)),
            (Number(Round, 1), Some(10)),
            (Order(0, 2), Some(11)),
            (Order(1, 1), Some(11)),
            (Order(3, 1), Some(11)),
            (Order(3, 2), Some(11)),
            (Number(FrontRoom, 8), Some(15)),
        ],
    },
    Trial {
        calls: &[Call::Series, Call::Parallel],
        base: &[],
        changes: &[
            (Number(RecordRoom, 7), None),
            (Left(0, 65), Some(12)),
            (Left(2, 4), Some(12)),
            (Number(LeftLength, 8), Some(12)),
            (Number(RightLength, 4), Some(12)),
            (Right(0, 3), Some(13)),
            (Number(RecordRoom, 6), Some(15)),
        ],
    },
    Trial {
        calls: &[Call::New],
        base: &[],
        changes: &[
            (Number(TallyLength, 13), None),
            (Number(Class1, 65), Some(6)),
            (Number(Class2, 65), Some(6)),
            (Number(TallyLength, 12), Some(21)),
            (Number(TallyLength, 4), Some(21)),
            (Number(TallyLength, 3), Some(21)),
        ],
    },
    Trial {
        calls: &[Call::New],
        base: &[Number(Class1, 0), Number(Class2, 0)],
        changes: &[
            (Number(TallyLength, 5), None),
            (Number(TallyLength, 4), Some(21)),
            (Number(TallyLength, 3), Some(21)),
        ],
    },
    // The words before the cells, at each call that tests a tally. In four words a size above 64 is 22, in
    // three it is 21.
    Trial {
        calls: &[Call::Add, Call::Remove, Call::Reliability],
        base: &[Tally(0, 65), Tally(1, 0), Tally(2, 0), Tally(3, 0)],
        changes: &[
            (Number(TallyLength, 4), Some(22)),
            (Number(TallyLength, 3), Some(21)),
            (Number(TallyLength, 0), Some(21)),
        ],
    },
    // The score, and M below the last cell.
    Trial {
        calls: &[Call::Add, Call::Remove, Call::Reliability],
        base: &[Whole(TWO_ROUNDS)],
        changes: &[
            (Tally(3, 7), None),
            (Tally(3, 6), Some(22)),
            (Tally(3, 8), Some(22)),
            (Tally(3, 0), Some(22)),
            (Tally(2, 1), Some(22)),
            (Number(TallyLength, 12), Some(21)),
            (Number(TallyLength, 4), Some(21)),
            (Number(TallyLength, 3), Some(21)),
        ],
    },
    Trial {
        calls: &[Call::Add],
        base: &[],
        changes: &[
            (Number(TallyLength, 13), None),
            (Left(2, 4), Some(12)),
            (Number(LeftLength, 8), Some(12)),
            (Number(TallyLength, 12), Some(21)),
            (Number(TallyLength, 3), Some(21)),
            (Tally(0, 65), Some(22)),
            (Tally(2, 100001), Some(22)),
            (Tally(3, 1), Some(22)),
            (Tally(12, 1), Some(22)),
            (Left(0, 3), Some(23)),
            (Left(1, 3), Some(23)),
            (Tally(2, 100000), Some(24)),
        ],
    },
    // With a score of 1 a cell alone is wrong, or the score and what 23 and 24 test.
    Trial {
        calls: &[Call::Add],
        base: &[Tally(3, 1)],
        changes: &[
            (Tally(12, 1), None),
            (Left(2, 4), Some(12)),
            (Number(TallyLength, 12), Some(21)),
            (Tally(4, 1), Some(22)),
            (Left(0, 3), Some(22)),
            (Left(1, 3), Some(22)),
            (Tally(2, 100000), Some(22)),
        ],
    },
    // Add's numbers but 24; then a cell to be lowered is 0, or the outcome is not sound: 31 with the score
    // that the change leaves, else 22.
    Trial {
        calls: &[Call::Remove],
        base: &[Whole(TWO_ROUNDS)],
        changes: &[
            (Number(TallyLength, 13), None),
            (Tally(2, 100000), None),
            (Left(2, 4), Some(12)),
            (Number(LeftLength, 8), Some(12)),
            (Number(TallyLength, 12), Some(21)),
            (Tally(0, 65), Some(22)),
            (Tally(2, 100001), Some(22)),
            (Tally(2, 0), Some(22)),
            (Tally(6, 0), Some(22)),
            (Tally(5, 1), Some(22)),
            (Tally(7, 1), Some(22)),
            (Left(0, 3), Some(23)),
            (Left(1, 3), Some(23)),
        ],
    },
    Trial {
        calls: &[Call::Remove],
        base: &[Whole(TWO_ROUNDS), Tally(3, 6)],
        changes: &[
            (Tally(12, 1), None),
            (Tally(6, 0), Some(31)),
            (Left(2, 4), Some(12)),
            (Number(TallyLength, 12), Some(21)),
            (Left(0, 3), Some(22)),
        ],
    },
    Trial {
        calls: &[Call::Remove],
        base: &[Whole(TWO_ROUNDS), Tally(3, 8)],
        changes: &[
            (Tally(4, 1), Some(22)),
            (Tally(5, 1), Some(31)),
            (Tally(7, 1), Some(31)),
        ],
    },
    // Score's one number; what the other calls refuse it passes.
    Trial {
        calls: &[Call::Score],
        base: &[Whole(TWO_ROUNDS)],
        changes: &[
            (Number(TallyLength, 13), None),
            (Number(TallyLength, 12), None),
            (Number(TallyLength, 4), None),
            (Number(TallyLength, 3), Some(21)),
            (Number(TallyLength, 2), Some(21)),
            (Number(TallyLength, 1), Some(21)),
            (Number(TallyLength, 0), Some(21)),
            (Tally(0, 65), None),
            (Tally(1, 65), None),
            (Tally(2, 100001), None),
            (Tally(2, 0), None),
            (Tally(3, 6), None),
            (Tally(4, 1), None),
        ],
    },
    Trial {
        calls: &[Call::Score],
        base: &[
            Whole(TWO_ROUNDS),
            Tally(0, 65),
            Tally(1, 0),
            Tally(2, 0),
            Tally(3, 0),
        ],
        changes: &[
            (Number(TallyLength, 4), None),
            (Number(TallyLength, 3), Some(21)),
        ],
    },
    Trial {
        calls: &[Call::Ageing],
        base: &[],
        changes: &[(Number(Age, 30), None), (Number(Age, 31), Some(14))],
    },
    Trial {
        calls: &[Call::Weights],
        base: &[],
        changes: &[
            (Number(WeightsRoom, 3), None),
            (Number(Class1, 65), Some(6)),
            (Number(Chance1, 1000001), Some(14)),
            (Number(WeightsRoom, 2), Some(15)),
        ],
    },
    // As for add; the score and what 25 tests.
    Trial {
        calls: &[Call::Reliability],
        base: &[],
        changes: &[
            (Number(TallyLength, 13), None),
            (Number(Chance1, 1000001), Some(14)),
            (Number(Chance2, 1000001), Some(14)),
            (Number(TallyLength, 12), Some(21)),
            (Number(TallyLength, 3), Some(21)),
            (Tally(0, 65), Some(22)),
            (Tally(2, 100001), Some(22)),
            (Tally(3, 1), Some(22)),
            (Tally(12, 1), Some(22)),
            (Tally(2, 0), Some(25)),
        ],
    },
    Trial {
        calls: &[Call::Reliability],
        base: &[Tally(3, 1)],
        changes: &[
            (Tally(12, 1), None),
            (Number(Chance1, 1000001), Some(14)),
            (Number(TallyLength, 12), Some(21)),
            (Tally(4, 1), Some(22)),
            (Tally(2, 0), Some(22)),
        ],
    },
];
