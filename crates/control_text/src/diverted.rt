//! Which partitions are diverted, and since when.

ghost use Rattle.std.specs.Prelude.{◌≡◌, ◌≤◌, None, IfOk, OnOk, codes, replicate, slice_set};
ghost use Rattle.std.specs.Io.KnownBytes.{Appends};
ghost use Rattle.control_text.specs.Diverted.{after, behind, count_diverted, count_one};
ghost use Rattle.control_text.specs.Diverted.{diverted_line, partition_text, partitions_text};

use crate::answer::OperatorAnswer;
use std::alloc::{AllocError, Global};
use std::io;
use std::io::Write;
use std::marker::Model;

/// How many partitions are kept: as many as a ring may have.
const MAX_PARTITIONS: usize = 1_024;

/// Which partitions are diverted, and since which second, by what was answered so far: those that
/// `diverted P` named, and no `returned P` behind that. The seconds are of one clock, the caller's.
///
/// ```text
/// at 40     none yet            diverted now:
/// at 45     diverted 17
/// at 333    diverted 3
/// at 345                        diverted now: 3 for 12 s, 17 for 300 s
/// at 346    returned 3          diverted now: 17 for 301 s
/// ```
///
/// The seconds stand on the heap: 16 KiB, which are taken once.
#[derive(Drop)]
pub struct DivertedPartitions {
    /// Since which second each partition is diverted.
    begun: Vec<Option<u64>>,
}

impl Model for DivertedPartitions {
    ghost use Rattle.std.specs.Prelude.{ℕ, List, Option};

    ghost Value = { List (Option ℕ) };

    ghost view = { λ partitions. partitions.begun.items };
}

/// Keeps since when the partition of an index is diverted, where there is one.
fn set_at(begun: &mut [Option<u64>], index: usize, began: Option<u64>)
    ensures { begun.new ≡ slice_set begun.old index began }
{
    if index >= begun.len() {
        return;
    }
    begun[index] = began;
}

/// Writes a partition's index, and for how many seconds it is diverted, where it is.
fn write_partition<W: Write>(
    writer: &mut W,
    before: &str,
    index: usize,
    began: Option<u64>,
    now: u64,
) -> io::Result<()>
    ensures { OnOk result (Appends (W.contents writer.old) (W.contents writer.new)
        (partition_text now before.now index began)) }
{
    match began {
        Some(began) => {
            let seconds = now.saturating_sub(began);
            write!(writer, "{before}{index} for {seconds} s")
        }
        None => Ok(()),
    }
}

/// What stands before the next partition that is diverted, behind this one.
fn behind(before: &'static str, began: Option<u64>) -> &'static str
    ensures { result.now ≡ behind before.now began }
{
    match began {
        Some(_) => ", ",
        None => before,
    }
}

/// Writes those that are diverted.
fn write_partitions<W: Write>(writer: &mut W, begun: &[Option<u64>], now: u64) -> io::Result<()>
    ensures { OnOk result (Appends (W.contents writer.old) (W.contents writer.new)
        (partitions_text now 0 (codes " ") begun.now)) }
{
    let mut index = 0usize;
    let mut before = " ";
    for began in begun {
        write_partition(writer, before, index, *began, now)?;
        before = behind(before, *began);
        index += 1;
    }
    Ok(())
}

/// 1 for a partition that is diverted, and 0 for another.
fn count_one(began: Option<u64>) -> usize
    ensures one { result ≡ count_one began }
    ensures few { result ≤ 1 }
{
    match began {
        Some(_) => 1,
        None => 0,
    }
}

/// How many are diverted.
fn count_in(begun: &[Option<u64>]) -> usize
    ensures { result ≡ count_diverted begun.now }
{
    let mut count = 0usize;
    for began in begun {
        count += count_one(*began);
    }
    count
}

/// Writes the answer to `diverted`.
fn write_diverted<W: Write>(writer: &mut W, begun: &[Option<u64>], now: u64) -> io::Result<()>
    ensures { OnOk result
        (Appends (W.contents writer.old) (W.contents writer.new) (diverted_line now begun.now)) }
{
    write!(writer, "diverted now:")?;
    write_partitions(writer, begun, now)?;
    writeln!(writer)?;
    Ok(())
}

impl DivertedPartitions {
    /// None is diverted. It takes memory for all that may be, and no other call takes any.
    pub fn none(alloc: Global) -> Result<DivertedPartitions, AllocError>
        ensures none { IfOk result (λ partitions. partitions ≡ replicate 1024 None) }
    {
        Ok(DivertedPartitions {
            begun: vec![in alloc; None; MAX_PARTITIONS]?,
        })
    }

    /// Keeps since when a partition is diverted.
    fn set(&mut self, partition: u16, began: Option<u64>)
        ensures { self.new ≡ slice_set self.old partition began }
    {
        set_at(self.begun.as_mut_slice(), usize::from(partition), began);
    }

    /// Keeps what an answer says of a partition. It is this second now.
    pub fn note(&mut self, answer: OperatorAnswer, now: u64)
        ensures { self.new ≡ after self.old answer now }
    {
        match answer {
            OperatorAnswer::Diverted(partition) => self.set(partition, Some(now)),
            OperatorAnswer::Returned(partition) => self.set(partition, None),
            OperatorAnswer::Copied { .. } | OperatorAnswer::Refused(_) => {}
        }
    }

    /// How many there are.
    pub fn count(&self) -> usize
        ensures { result ≡ count_diverted self.now }
    {
        count_in(self.begun.as_slice())
    }

    /// Writes the answer to `diverted`: a line of the indices of those that are, in their order, and for how
    /// many seconds each is, now that it is this second: 0 where the clock went back. On an error of the writer
    /// a part of it may have been written. It takes no memory of its own.
    pub fn write_line<W: Write>(&self, writer: &mut W, now: u64) -> io::Result<()>
        ensures line { OnOk result
            (Appends (W.contents writer.old) (W.contents writer.new) (diverted_line now self.now)) }
    {
        write_diverted(writer, self.begun.as_slice(), now)
    }
}
