// Front records joined: series (01: row) and parallel (01: side).
ghost use Rattle.std.specs.Prelude.{◌≡◌, length};
ghost use Rattle.compose.specs.Compose.{series_answer, series_out, parallel_answer, parallel_out};
ghost use Rattle.medlarbrace.specs.Interface.{code, value_left};

use medlarbrace::records;

// The series of two records; the length of its record through `written`.
#[unsafe(no_mangle)]
pub extern "C" fn medlarbrace_series(
    left: &[u8],
    right: &[u8],
    out: &mut [u8],
    written: &mut u64,
) -> u32
    ensures code { result ≡ code (series_answer left.now right.now (length out.old)) }
    ensures slice { out.new ≡ series_out left.now right.now out.old }
    ensures written { written.new ≡ value_left 0 (series_answer left.now right.now (length out.old))
        written.old }
{
    records::medlarbrace_series(left, right, out, written)
}

// The parallel of two records; the length of its record through `written`.
#[unsafe(no_mangle)]
pub extern "C" fn medlarbrace_parallel(
    left: &[u8],
    right: &[u8],
    out: &mut [u8],
    written: &mut u64,
) -> u32
    ensures code { result ≡ code (parallel_answer left.now right.now (length out.old)) }
    ensures slice { out.new ≡ parallel_out left.now right.now out.old }
    ensures written { written.new ≡ value_left 0 (parallel_answer left.now right.now (length out.old))
        written.old }
{
    records::medlarbrace_parallel(left, right, out, written)
}
