// What the calls answer: the values of a success, or a refusal with its number.
#![tactic(auto)]

ghost use Rattle.std.specs.Prelude.{◌≡◌, [], length};
ghost use Rattle.answer.specs.Outcome.{number_of, written, fill_answer, fill_out};

// Why a call refuses: a case for each number of document 01's two lists, and for those of document 02.
#[derive(Clone, Copy)]
pub enum Refusal {
    // the file's length
    FileLength = 1,
    // N, A or M out of limits
    Counts = 2,
    // source or target no node, or the same
    Ends = 3,
    // sections that do not fit
    Sections = 4,
    // a class byte above 2
    NodeClass = 5,
    // a class size above 64
    ClassSize = 6,
    // an arc's end no node, or both ends equal
    Arc = 8,
    // rounds that do not fit
    RoundsLength = 9,
    // no such round
    RoundNumber = 10,
    // an order that is not each member of its class once
    Order = 11,
    // not a front record
    NotRecord = 12,
    // two records of differing class sizes
    SizesDiffer = 13,
    // a chance above 1,000,000, or an age above 30
    Probability = 14,
    // an output slice too short
    OutputShort = 15,
    // a tally slice too short
    TallyShort = 21,
    // a tally that is not sound
    TallyUnsound = 22,
    // a tally of other sizes than the record
    TallySizes = 23,
    // a tally of 100,000 rounds
    TallyFull = 24,
    // no rounds where reliability is wanted
    NoRounds = 25,
    // a front that cannot be taken out of a tally
    NotRemovable = 31,
    // an arc's kind above 5
    Kind = 32,
}

impl From<Refusal> for u32 {
    ghost from_gives = { λ refusal n. n ≡ number_of refusal };

    // A refusal's number, document 01's or 02's.
    fn from(refusal: Refusal) -> u32 {
        refusal as u32
    }
}

// What opening finds in a study file: document 01's N, A, M, s, t, n1, n2.
#[derive(Clone, Copy)]
pub struct Header {
    pub nodes: usize,
    pub arcs: usize,
    pub rounds: usize,
    pub source: usize,
    pub target: usize,
    pub n1: usize,
    pub n2: usize,
}

// What reliability finds: document 01's S, M, R.
#[derive(Clone, Copy)]
pub struct Rate {
    pub sum: u64,
    pub rounds: u64,
    pub rate: u64,
}

// Copies `bytes` into `out`, or refuses where `out` is shorter: the last step of every call that
// fills a slice of bytes.
pub fn deliver(bytes: &[u8], out: &mut [u8]) -> Result<usize, Refusal>
    ensures answer { written result ≡ fill_answer [] bytes.now (length out.old) }
    ensures slice { out.new ≡ fill_out [] bytes.now out.old }
{
    if out.len() < bytes.len() {
        return Err(Refusal::OutputShort);
    }
    // A loop: `copy_from_slice` would call std, whose code `AlwaysEnds` (kinds) cannot open.
    for (i, &x) in bytes.iter().enumerate() {
        out[i] = x;
    }
    Ok(bytes.len())
}
