ghost use Rattle.std.specs.Prelude.{◌≡◌, ◌+◌, ◌++◌, ◌≤◌, codes, decimal, length};
ghost use Rattle.mg_sealing.specs.Report.{report};

use arrayvec::ArrayVec;
use itoa::Buffer;
use mg_chain::Seals;

/// The maximum length of a report, in bytes.
const LIMIT: usize = 160;

/// A report, including its line feed.
pub(crate) type ReportLine = ArrayVec<u8, LIMIT>;

/// The maximum length, in bytes, of a number in decimal.
const NUMBER_LIMIT: usize = 20;

/// Appends text to a report.
fn push(text: &[u8], line: &mut ReportLine)
    requires room { length line.old.items + length text.now ≤ LIMIT }
    ensures value { line.new.items ≡ line.old.items ++ text.now }
{
    let _ = line.try_extend_from_slice(text);
}

/// Appends a number to a report.
fn push_number(number: u64, line: &mut ReportLine)
    requires room { length line.old.items + NUMBER_LIMIT ≤ LIMIT }
    ensures value { line.new.items ≡ line.old.items ++ decimal number }
    ensures short { length (decimal number) ≤ NUMBER_LIMIT }
{
    let mut buffer = Buffer::new();
    push(buffer.format(number).as_bytes(), line);
}

/// Reports a change between a valid seal and an invalid seal.
#[tactic(auto, using(crate::proofs::ReportLemmas::joined))]
fn report_change(right: u64, wrong: u64) -> ReportLine
    ensures value { result.items ≡ codes "changed after line " ++ (decimal right ++ (codes ", up to line "
        ++ (decimal wrong ++ codes "\n"))) }
{
    let mut line = ReportLine::new();
    push(b"changed after line ", &mut line);
    push_number(right, &mut line);
    push(b", up to line ", &mut line);
    push_number(wrong, &mut line);
    push(b"\n", &mut line);
    line
}

/// Reports a change before the first seal.
#[tactic(auto, using(crate::proofs::ReportLemmas::joined))]
fn report_first_change(wrong: u64) -> ReportLine
    ensures value { result.items ≡ codes "changed up to line " ++ (decimal wrong ++ codes "\n") }
{
    let mut line = ReportLine::new();
    push(b"changed up to line ", &mut line);
    push_number(wrong, &mut line);
    push(b"\n", &mut line);
    line
}

/// Reports that all seals are valid.
#[tactic(auto, using(crate::proofs::ReportLemmas::joined))]
fn report_seals(count: u64, last: u64, more: u64) -> ReportLine
    ensures value { result.items ≡ codes "seals hold: " ++ (decimal count ++ (codes ", the last in line "
        ++ (decimal last ++ (codes "; lines after it: " ++ (decimal more ++ codes "\n"))))) }
{
    let mut line = ReportLine::new();
    push(b"seals hold: ", &mut line);
    push_number(count, &mut line);
    push(b", the last in line ", &mut line);
    push_number(last, &mut line);
    push(b"; lines after it: ", &mut line);
    push_number(more, &mut line);
    push(b"\n", &mut line);
    line
}

/// Reports that there is no seal.
#[tactic(auto, using(crate::proofs::ReportLemmas::joined))]
fn report_none(lines: u64) -> ReportLine
    ensures value { result.items ≡ codes "no seals in " ++ (decimal lines ++ codes " lines\n") }
{
    let mut line = ReportLine::new();
    push(b"no seals in ", &mut line);
    push_number(lines, &mut line);
    push(b" lines\n", &mut line);
    line
}

/// Returns the report about seals.
pub(crate) fn report(seals: &Seals) -> ReportLine
    ensures value { result.items ≡ report seals.now }
{
    match (seals.wrong, seals.right) {
        (Some(wrong), Some(right)) => report_change(right, wrong),
        (Some(wrong), None) => report_first_change(wrong),
        (None, Some(right)) => {
            report_seals(seals.count, right, seals.lines.saturating_sub(right))
        }
        (None, None) => report_none(seals.lines),
    }
}
