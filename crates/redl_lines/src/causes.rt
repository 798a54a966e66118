//! The line of each failure.

ghost use Rattle.std.specs.Prelude.{◌≡◌};
ghost use Rattle.redl_lines.specs.Failures.{cause_view, failure_view, misuse_cause};
ghost use Rattle.redl_lines.specs.Lines.{failure_line, cause_line, no_format_line, fault_line, limit_line as limit_line_of, unread_line, malformed_line, other_document_line, other_count_line, difference_line, no_sequence_line};
ghost use Rattle.redl_io.specs.Sink.{Puts};

use crate::failure::{Cause, Failure, Limit, PackageFault};
use crate::misuse::Misuse;
use crate::named::write_named;
use itoa::Buffer;
use redl_io::{Failed, Sink, put_piece, put_pieces};
use redl_journal::digest_digits;

/// Puts the line of a call with such words.
pub(crate) fn write_misuse<K: Sink>(misuse: &Misuse<'_>, err: &mut K) -> Result<(), Failed>
    ensures { Puts K.told K.faults K.settled K.lenders err.old err.new (cause_line (misuse_cause misuse.now)) result }
{
    match misuse {
        Misuse::Words => put_piece(b"redline: cannot read the command line\n", err),
        Misuse::NoFormat(name) => write_no_format(name, err),
    }
}

/// Puts the line of a command that ends so.
pub(crate) fn write_failure<K: Sink>(failure: &Failure<'_>, err: &mut K) -> Result<(), Failed>
    ensures { Puts K.told K.faults K.settled K.lenders err.old err.new (failure_line (failure_view failure.now)) result }
{
    match failure {
        Failure::Cause(cause) => write_cause(cause, err),
        Failure::Unread(name) => write_unread(name, err),
        Failure::NoMemory => put_piece(b"redline: no memory\n", err),
    }
}

fn write_cause<K: Sink>(cause: &Cause<'_>, err: &mut K) -> Result<(), Failed>
    ensures { Puts K.told K.faults K.settled K.lenders err.old err.new (cause_line (cause_view cause.now)) result }
{
    match cause {
        Cause::Package(fault) => write_fault(b"redline: package: ", *fault, err),
        Cause::Second(fault) => write_fault(b"redline: second package: ", *fault, err),
        Cause::Malformed(journal) => write_malformed(journal, err),
        Cause::OtherDocument {
            journal,
            found,
            expected,
        } => write_other_document(journal, found, expected, err),
        Cause::OtherCount {
            journal,
            found,
            expected,
        } => write_other_count(journal, *found, *expected, err),
        Cause::NoSequence(reviewer) => write_no_sequence(reviewer, err),
        Cause::NotWritten => put_piece(
            b"redline: second package: not what the first one gives\n",
            err,
        ),
        Cause::Differ => put_piece(b"redline: the sittings differ\n", err),
        Cause::Limit(limit) => put_piece(limit_line(*limit), err),
    }
}

fn write_no_format<K: Sink>(name: &str, err: &mut K) -> Result<(), Failed>
    ensures { Puts K.told K.faults K.settled K.lenders err.old err.new (no_format_line name.now) result }
{
    write_named(b"redline: no format ", name.as_bytes(), b"\n", err)
}

fn write_fault<K: Sink>(title: &[u8], fault: PackageFault, err: &mut K) -> Result<(), Failed>
    ensures { Puts K.told K.faults K.settled K.lenders err.old err.new (fault_line title.now fault) result }
{
    match fault {
        PackageFault::NotReadable => put_pieces(&[title, b"not readable\n"], err),
        PackageFault::NotPackage => put_pieces(&[title, b"not a package\n"], err),
        PackageFault::PartShape => put_pieces(&[title, b"part shape\n"], err),
        PackageFault::NoDocument => put_pieces(&[title, b"no document\n"], err),
        PackageFault::Rule(rule) => write_rule(title, rule, err),
    }
}

fn write_rule<K: Sink>(title: &[u8], rule: u8, err: &mut K) -> Result<(), Failed>
    ensures { Puts K.told K.faults K.settled K.lenders err.old err.new (fault_line title.now (PackageFault.Rule rule)) result }
{
    let mut buffer = Buffer::new();
    let rule = buffer.format(rule);
    put_pieces(&[title, b"rule ", rule.as_bytes(), b"\n"], err)
}

fn limit_line(limit: Limit) -> &'static [u8]
    ensures { result.now ≡ limit_line_of limit }
{
    match limit {
        Limit::PackageBytes => b"redline: limit package bytes 134217728\n",
        Limit::JournalBytes => b"redline: limit journal bytes 67108864\n",
        Limit::Depth => b"redline: limit depth 512\n",
        Limit::Nodes => b"redline: limit nodes 2097152\n",
        Limit::Sample => b"redline: limit sample 20000\n",
    }
}

fn write_unread<K: Sink>(name: &str, err: &mut K) -> Result<(), Failed>
    ensures { Puts K.told K.faults K.settled K.lenders err.old err.new (unread_line name.now) result }
{
    write_named(b"redline: cannot read ", name.as_bytes(), b"\n", err)
}

fn write_malformed<K: Sink>(journal: &str, err: &mut K) -> Result<(), Failed>
    ensures { Puts K.told K.faults K.settled K.lenders err.old err.new (malformed_line journal.now) result }
{
    write_named(
        b"redline: journal ",
        journal.as_bytes(),
        b": malformed\n",
        err,
    )
}

fn write_other_document<K: Sink>(
    journal: &str,
    found: &[u8; 32],
    expected: &[u8; 32],
    err: &mut K,
) -> Result<(), Failed>
    ensures { Puts K.told K.faults K.settled K.lenders err.old err.new (other_document_line journal.now found.now expected.now) result }
{
    write_difference(
        journal.as_bytes(),
        b"document",
        &digest_digits(found),
        &digest_digits(expected),
        err,
    )
}

fn write_other_count<K: Sink>(
    journal: &str,
    found: u32,
    expected: u32,
    err: &mut K,
) -> Result<(), Failed>
    ensures { Puts K.told K.faults K.settled K.lenders err.old err.new (other_count_line journal.now found expected) result }
{
    let mut one = Buffer::new();
    let mut other = Buffer::new();
    write_difference(
        journal.as_bytes(),
        b"revisions",
        one.format(found).as_bytes(),
        other.format(expected).as_bytes(),
        err,
    )
}

// The line of a journal that says one thing of its package where the package has another.
fn write_difference<'a, K: Sink>(
    journal: &'a [u8],
    what: &'a [u8],
    found: &'a [u8],
    expected: &'a [u8],
    err: &mut K,
) -> Result<(), Failed>
    ensures { Puts K.told K.faults K.settled K.lenders err.old err.new (difference_line journal.now what.now found.now expected.now) result }
{
    write_named(b"redline: journal ", journal, b": ", err)?;
    put_pieces(&[what, b" ", found, b", expected ", expected, b"\n"], err)
}

fn write_no_sequence<K: Sink>(reviewer: &[u8], err: &mut K) -> Result<(), Failed>
    ensures { Puts K.told K.faults K.settled K.lenders err.old err.new (no_sequence_line reviewer.now) result }
{
    write_named(
        b"redline: no sequence number left for ",
        reviewer,
        b"\n",
        err,
    )
}
