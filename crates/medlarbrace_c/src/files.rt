// Study files: opening, lookup, search, writer and converter.
ghost use Rattle.std.specs.Prelude.{◌≡◌, ◌++◌, ◌≤◌, ◌<◌, length, drop};
ghost use Rattle.convert.specs.Convert.{convert_answer, convert_out};
ghost use Rattle.search.specs.Search.{search_answer, search_out};
ghost use Rattle.writer.specs.Writer.{given, write_answer, write_out};
ghost use Rattle.medlarbrace.specs.Interface.{code, value_left, header_answer, header_out, place_answer};

use medlarbrace::files;

// Opens a study file; N, A, M, s, t, n1, n2 into `header`.
#[unsafe(no_mangle)]
pub extern "C" fn medlarbrace_open(file: &[u8], header: &mut [u32]) -> u32
    ensures code { result ≡ code (header_answer file.now (length header.old)) }
    ensures slice { header.new ≡ header_out file.now header.old }
{
    files::medlarbrace_open(file, header)
}

// Where a round's bytes stand in a study file: the first one's place and their number through
// `start` and `count`.
#[unsafe(no_mangle)]
pub extern "C" fn medlarbrace_round(
    file: &[u8],
    round: u64,
    start: &mut u64,
    count: &mut u64,
) -> u32
    ensures code { result ≡ code (place_answer file.now round) }
    ensures start { start.new ≡ value_left 0 (place_answer file.now round) start.old }
    ensures count { count.new ≡ value_left 1 (place_answer file.now round) count.old }
{
    files::medlarbrace_round(file, round, start, count)
}

// Searches a round of a study file; the length of the record of its front through `written`.
#[unsafe(no_mangle)]
pub extern "C" fn medlarbrace_search(
    file: &[u8],
    round: u64,
    out: &mut [u8],
    written: &mut u64,
) -> u32
    ensures code { result ≡ code (search_answer file.now round (length out.old)) }
    ensures slice { out.new ≡ search_out file.now round out.old }
    ensures written { written.new ≡ value_left 0 (search_answer file.now round (length out.old)) written.old }
{
    files::medlarbrace_search(file, round, out, written)
}

// Writes a study file from its parts; its length through `written`.
#[unsafe(no_mangle)]
pub extern "C" fn medlarbrace_write(
    nodes: &[u8],
    arcs: &[u8],
    rounds: &[u8],
    source: u64,
    target: u64,
    total: u64,
    out: &mut [u8],
    written: &mut u64,
) -> u32
    ensures code { result ≡ code (write_answer (given nodes.now arcs.now rounds.now source target total)
        (length out.old)) }
    ensures slice { out.new ≡ write_out (given nodes.now arcs.now rounds.now source target total)
        out.old }
    ensures written { written.new ≡ value_left 0 (write_answer
        (given nodes.now arcs.now rounds.now source target total) (length out.old)) written.old }
{
    files::medlarbrace_write(nodes, arcs, rounds, source, target, total, out, written)
}

// Converts an old study file; the length of the new one through `written`.
#[unsafe(no_mangle)]
pub extern "C" fn medlarbrace_convert(old: &[u8], out: &mut [u8], written: &mut u64) -> u32
    ensures code { result ≡ code (convert_answer old.now (length out.old)) }
    ensures slice { out.new ≡ convert_out old.now out.old }
    ensures written { written.new ≡ value_left 0 (convert_answer old.now (length out.old)) written.old }
{
    files::medlarbrace_convert(old, out, written)
}
