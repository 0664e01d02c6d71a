// The reporting program: a study file on standard input, its report on standard output.
#![tactic(auto)]

mod output;

ghost use Rattle.std.specs.Prelude.{◌≡◌, true, ◌≤◌, T, length};
ghost use Rattle.answer.specs.Outcome.{success, refused, number_of, header_values, opened, succeeds};
ghost use Rattle.record.specs.Record.{is_record};
ghost use Rattle.tally.specs.Calls.{add_out};
ghost use Rattle.lines.specs.Text.{front_line};
ghost use Rattle.lines.specs.Steps.{round_tally, Due, NextLine};
ghost use Rattle.lines.specs.Report.{round_answer, round_line, report_opens, report_lines, line_at, SentOf};

use answer::{Header, Refusal};
use buffer::LONGEST;
use lines::Line;
use output::Sent;
use soundness::LARGEST;
use std::io::Read;

// The line of a front, which is added to the tally.
fn add_front(round: usize, record: &[u8], tally: &mut [u32], line: &mut Line)
    requires { T (is_record «record».now) }
    ensures line { line.new.bytes ≡ front_line round «record».now }
    ensures tally { tally.new ≡ add_out «record».now tally.old }
{
    let _ = tally::add(record, tally);
    lines::front_line(round as u64, record, line);
}

// The line of a round, and whether another follows it.
fn round_line(file: &[u8], round: usize, tally: &mut [u32], line: &mut Line) -> bool
    ensures told { (line.new.bytes ≡ round_line file.now round) × (result ≡ succeeds (round_answer file.now round)) }
    ensures tally { tally.new ≡ round_tally file.now round tally.old }
{
    let mut record = [0; LONGEST];
    match search::search(file, round, &mut record) {
        Err(r) => {
            lines::refused_line(u32::from(r) as u64, line);
            false
        }
        Ok(n) => {
            add_front(round, &record[..n], tally, line);
            true
        }
    }
}

// Line i of an open study, its sizes, then its rounds, then its counts, and whether another follows it.
fn study_line(file: &[u8], h: Header, i: usize, tally: &mut [u32], line: &mut Line) -> bool
    requires { (report_opens file.now ≡ success (header_values h)) × Due file.now (header_values h) i tally.old }
    ensures line { line.new.bytes ≡ line_at file.now i }
    ensures next { NextLine file.now (header_values h) i result tally.new }
{
    if i == 0 {
        lines::sizes_line(h.n1 as u64, h.n2 as u64, h.rounds as u64, line);
        return true;
    }
    let round = i - 1;
    if round < h.rounds {
        return round_line(file, round, tally, line);
    }
    let l1 = round - h.rounds;
    lines::count_line(l1, tally, line);
    l1 < h.n1
}

// The report on an open study, line after line up to the first write that fails.
fn report_study(rt: &impl Print, file: &[u8], h: Header, begun: Sent, tally: &mut [u32]) -> Sent
    requires due { (report_opens file.now ≡ success (header_values h)) × Due file.now (header_values h) 0 tally.old }
    requires begun { (begun.lines ≡ 0) × (begun.whole ≡ true) }
    ensures { SentOf (report_lines file.now) result.lines result.whole }
{
    let mut line = Line::new();
    let mut sent = begun;
    let mut more = true;
    // A while: a search tells only when it is made whether another line follows.
    while more {
        let i = sent.lines();
        let follows = study_line(file, h, i, tally, &mut line);
        sent = output::write_line(rt, file, sent, line.as_bytes());
        more = follows & sent.whole();
    }
    sent
}

// The most bytes that a study on standard input has.
const MAX_INPUT: usize = 65536;

// Opens what was read.
fn open_input(file: &[u8]) -> Result<Header, Refusal>
    ensures { opened result ≡ report_opens file.now }
{
    if MAX_INPUT < file.len() {
        return Err(Refusal::FileLength);
    }
    study::open_study(file)
}

// The report on a file that is refused: one line.
fn report_refusal(rt: &impl Print, file: &[u8], refusal: Refusal, begun: Sent) -> Sent
    requires file_value { report_opens file.now ≡ refused (number_of refusal) }
    requires begun { (begun.lines ≡ 0) × (begun.whole ≡ true) }
    ensures { SentOf (report_lines file.now) result.lines result.whole }
{
    let mut line = Line::new();
    lines::refused_line(u32::from(refusal) as u64, &mut line);
    output::write_line(rt, file, begun, line.as_bytes())
}

// The report on a file.
fn report(rt: &impl Print, file: &[u8]) -> Sent
    ensures { SentOf (report_lines file.now) result.lines result.whole }
{
    let begun = output::none();
    match open_input(file) {
        Err(r) => report_refusal(rt, file, r, begun),
        Ok(h) => {
            let mut tally = [0; LARGEST];
            let _ = tally::new(h.n1 as u32, h.n2 as u32, &mut tally);
            report_study(rt, file, h, begun, &mut tally)
        }
    }
}

// Reads until the buffer is full, the input ends or a read fails, and tells how many bytes it has.
fn read_full(input: &mut impl Read, space: &mut [u8]) -> usize
    ensures { result ≤ length space.new }
{
    let mut done = 0;
    // A while: a read gives as many bytes as it likes, and std's `read_exact` tells no number at an end.
    while done < space.len() {
        let n = input.read(&mut space[done..]).unwrap_or(0);
        if n == 0 {
            break;
        }
        done += n;
    }
    done
}

fn main(rt: HostRuntime) {
    let mut space = [0; MAX_INPUT + 1];
    let n = read_full(&mut rt.stdin(), &mut space);
    report(&rt, &space[..n]);
}
