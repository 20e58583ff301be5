// The first line of a listing: the status, then each number behind its name.
#![tactic(auto)]

ghost use Rattle.std.specs.Prelude.{◌+◌, ◌≤◌, length};
ghost use Rattle.spec.specs.Listing.{status_of, report_line};
ghost use Rattle.decimals.specs.Writing.{Wrote};
ghost use Rattle.first_line.specs.Fields.{fields_of};

use decimals::{labelled, text};

// what the first line reports
#[derive(Clone, Copy)]
pub struct Report {
    pub complete: bool,
    pub pairs: u64,
    pub rounds: u64,
    pub size: u64,
    pub mass: u64,
    pub skipped: u64,
    pub checks: u64,
}

// no first line is longer
pub const LONGEST: usize = 200;

fn write_status(line: &mut [u8], complete: bool) -> usize
    requires { 0 + length (status_of complete) ≤ length line.old }
    ensures { Wrote (status_of complete) line.old 0 line.new result }
{
    if complete {
        return text(line, 0, b"complete");
    }
    text(line, 0, b"partial")
}

// The first line at the front of `line`, the rest as it was; its length.
pub fn write_first(line: &mut [u8], f: Report) -> usize
    requires { LONGEST ≤ length line.old }
    ensures { Wrote (report_line f.complete (fields_of f)) line.old 0 line.new result × (result ≤ LONGEST) }
{
    let mut at = write_status(line, f.complete);
    at = labelled(line, at, b" pairs ", f.pairs);
    at = labelled(line, at, b" rounds ", f.rounds);
    at = labelled(line, at, b" size ", f.size);
    at = labelled(line, at, b" mass ", f.mass);
    at = labelled(line, at, b" skipped ", f.skipped);
    at = labelled(line, at, b" checks ", f.checks);
    text(line, at, b"\n")
}
