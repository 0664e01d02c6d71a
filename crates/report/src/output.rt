// The only writing to standard output, and receipts for it, which no other module can make or
// change. No contract can say what a call of the system wrote: that `write_line` hands its line over
// is read off its body.
ghost use Rattle.std.specs.Prelude.{◌≡◌, true, ◌+◌, ◌<◌, length};
ghost use Rattle.laws.specs.Tests.{flag};
ghost use Rattle.lines.specs.Report.{report_lines, line_at};

// How many lines of a report the system took, in order from line 0, and whether none failed. No Option: both
// are told of every receipt.
#[derive(Clone, Copy)]
pub struct Sent {
    lines: usize,
    whole: bool,
}

// What other modules can read of a receipt.
impl Sent {
    pub fn lines(self) -> usize
        ensures { result ≡ self.lines }
    {
        self.lines
    }

    pub fn whole(self) -> bool
        ensures { result ≡ self.whole }
    {
        self.whole
    }
}

// The receipt before the first line.
pub fn none() -> Sent
    ensures { (result.lines ≡ 0) × (result.whole ≡ true) }
{
    Sent {
        lines: 0,
        whole: true,
    }
}

// Writes the next line of the report on `file`, which is lent for what is asked of `line`.
pub fn write_line(rt: &impl Print, file: &[u8], sent: Sent, line: &[u8]) -> Sent
    requires { (sent.whole ≡ true) × (sent.lines < length (report_lines file.now)) × (line.now ≡ line_at file.now sent.lines) }
    ensures { result.lines ≡ sent.lines + flag result.whole }
{
    if rt.write_all(line).is_ok() {
        return Sent {
            lines: sent.lines + 1,
            whole: true,
        };
    }
    Sent {
        lines: sent.lines,
        whole: false,
    }
}
