//! A run of the program on a script in memory.

ghost use Rattle.std.specs.Prelude.{◌≤◌};

use jc_ctl::{FreeGate, Status, run_program};
use jc_io::{Bytes, MemSink, MemSource, ReadEnd, read_all};
use std::alloc::{AllocError, Global};
use std::sync::Wait;
use std::thread::Threads;

// The room of a sink of which nothing is said, in bytes.
const ROOM: u64 = 16_777_216;

// As many bytes as may be left unread.
const MOST: u64 = 1_073_741_824;

/// What a run is of.
#[derive(Drop)]
pub struct Run {
    label: String,
    words: Vec<String>,
    script: Bytes,
    // The bytes that the sink has room for, the most bytes that one call of source or sink moves, and the calls that fail.
    room: u64,
    piece: u32,
    reads_fail: Vec<u64>,
    writes_fail: Vec<u64>,
}

// How the run ended, in words.
fn end_of(alloc: Global, status: &Status) -> Result<String, AllocError> {
    let text = match status {
        Status::Ok => "ok",
        Status::BadWords => "bad words",
        Status::ReadFault => "read fault",
        Status::WriteFault => "write fault",
        Status::HistoryFull => "history full",
        Status::Want => "no memory",
        Status::TooLong => "input too long",
        Status::AuditNo { line } => return format!(in alloc; "no at line {line}"),
        Status::BadScript { line, cause } => {
            return format!(in alloc; "line {line}: {}", cause.text(alloc)?);
        }
    };
    String::from_str(alloc, text)
}

// The number, or 1 where it is 0.
fn at_least_one(number: u32) -> u32
    ensures { 1 ≤ result }
{
    if number == 0 { 1 } else { number }
}

// How many bytes the source has left.
fn left(alloc: Global, source: &mut MemSource) -> Result<usize, AllocError> {
    match read_all(alloc, source, MOST) {
        Ok(bytes) => Ok(bytes.len()),
        Err(ReadEnd::ReadFault | ReadEnd::TooLong) => Ok(0),
        Err(ReadEnd::Want) => Err(AllocError),
    }
}

impl Run {
    /// The run of that label and those words, with no script yet.
    ///
    /// # Errors
    /// `AllocError` where there is no memory.
    pub fn of(alloc: Global, head: &str) -> Result<Run, AllocError> {
        let mut parts = head.split_whitespace();
        let label = String::from_str(alloc, parts.next().unwrap_or(""))?;
        let mut words = Vec::new(alloc);
        for part in parts {
            words.push(String::from_str(alloc, part)?)?;
        }
        Ok(Run {
            label,
            words,
            script: Vec::new(alloc),
            room: ROOM,
            piece: u32::MAX,
            reads_fail: Vec::new(alloc),
            writes_fail: Vec::new(alloc),
        })
    }

    // Adds so many bytes to the script, all the same, with no line feed.
    fn fill(&mut self, text: &str) -> Result<(), AllocError> {
        let (byte, count) = text.split_once(' ').unwrap_or(("", ""));
        match (byte.parse::<u8>(), count.parse::<u32>()) {
            (Ok(byte), Ok(count)) => {
                let len = self.script.len().saturating_add(count as usize);
                self.script.resize(len, byte)
            }
            _ => self.label.push_str(" ?"),
        }
    }

    // A setting: `word TEXT` is one word more, `room N`, `piece N`, `read N` and `write N` are numbers of the ends, `fill
    // BYTE COUNT` is a part of the script, and `cut` drops the script's last byte. Another shows in the label.
    fn set(&mut self, alloc: Global, setting: &str) -> Result<(), AllocError> {
        let (name, value) = setting.split_once(' ').unwrap_or((setting, ""));
        let number = value.parse::<u32>().unwrap_or(0);
        match name {
            "word" => self.words.push(String::from_str(alloc, value)?)?,
            "room" => self.room = u64::from(number),
            "piece" => self.piece = number,
            "read" => self.reads_fail.push(u64::from(number))?,
            "write" => self.writes_fail.push(u64::from(number))?,
            "fill" => self.fill(value)?,
            "cut" => {
                let _cut = self.script.pop();
            }
            _ => self.label.push_str(" ?")?,
        }
        Ok(())
    }

    /// Adds a line to the script, or sets what the line says of the run.
    ///
    /// # Errors
    /// `AllocError` where there is no memory.
    pub fn add(&mut self, alloc: Global, line: &[u8]) -> Result<(), AllocError> {
        let text = str::from_utf8(line).unwrap_or("");
        if let Some(setting) = text.strip_prefix("= ") {
            return self.set(alloc, setting);
        }
        self.script.extend_from_slice(line)?;
        self.script.push(b'\n')?;
        Ok(())
    }

    /// Makes the run: a line with its label, how it ended and what it left unread, then what it wrote, then a line feed.
    ///
    /// # Errors
    /// `AllocError` where there is no memory.
    pub fn told<R: Threads + Wait + Sync>(
        &self,
        rt: &R,
        alloc: Global,
    ) -> Result<Bytes, AllocError> {
        let piece = at_least_one(self.piece);
        let script = self.script.to_vec(alloc)?;
        let mut source = MemSource::new(script, self.reads_fail.to_vec(alloc)?).in_pieces(piece);
        let mut sink = MemSink::new(alloc, self.room, self.writes_fail.to_vec(alloc)?)?.in_pieces(
            piece,
        );
        let status = run_program(rt, alloc, &self.words, &mut source, &mut sink, &FreeGate);
        let end = end_of(alloc, &status)?;
        let head = match left(alloc, &mut source)? {
            0 => format!(in alloc; "== {}: {end}\n", self.label)?,
            left => format!(in alloc; "== {}: {end}, {left} bytes unread\n", self.label)?,
        };
        let mut told = head.as_bytes().to_vec(alloc)?;
        told.extend_from_slice(sink.held())?;
        told.push(b'\n')?;
        Ok(told)
    }
}
