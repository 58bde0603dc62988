//! A sink in memory, which fails where it is asked to.

ghost use Rattle.std.specs.Prelude.{◌≡◌, ℕ, ◌+◌, ◌-◌, ◌^◌, ◌<◌, ◌≤◌, ◌++◌, [], min, length, take, drop, Option, Some, Ok, Err, if◌then◌else◌, IfOk, OnErr, is_ok};
ghost use Rattle.xl_outside.specs.Sinks.{with_more, Outside, IsMore, PutAfter, FlushAfter};
ghost use Rattle.xl_outside.specs.Fronts.{more_none};
ghost use Rattle.xl_outside.specs.Memory.{SinkState, is_listed, opened_sink, text_sink, put_answer, after_put};

use crate::sink::{Failed, Sink};
use std::alloc::Global;
use std::marker::Model;
use xl_model::NoMemory;

/// A sink in memory, with room for `capacity` bytes.
///
/// A put takes at most `piece` bytes. The puts of pieces that aren't empty are numbered from 1:
/// those whose number is in `failing`, those for which no room is left, and no others, fail.
#[derive(Drop)]
pub struct MemSink {
    bytes: Vec<u8>,
    capacity: usize,
    failing: Vec<u64>,
    piece: usize,
    puts: u64,
    faults: u64,
}

impl Model for MemSink {
    ghost use Rattle.std.specs.Prelude.{ℕ, ◌<◌, ◌≤◌};
    ghost use Rattle.std.specs.Vec.{vec_len, vec_capacity};
    ghost use Rattle.xl_outside.specs.Memory.{SinkState};

    ghost Value = { SinkState };

    ghost view = { λ s. record {
      text = s.bytes.items;
      capacity = s.capacity;
      failing = s.failing.items;
      piece = s.piece;
      puts = s.puts;
      failed = s.faults;
    } };

    ghost invariant = { λ s. (0 < s.piece) × (vec_len s.bytes ≤ s.capacity)
        × (s.capacity ≤ vec_capacity s.bytes) };
}

impl MemSink {
    /// All memory that puts want is taken here.
    pub fn open(
        alloc: Global,
        capacity: usize,
        failing: Vec<u64>,
        piece: usize,
    ) -> Result<MemSink, NoMemory>
        requires { 0 < piece }
        ensures { IfOk result (λ s. s ≡ opened_sink capacity failing.items piece) }
    {
        Ok(MemSink {
            bytes: Vec::with_capacity(alloc, capacity)?,
            capacity,
            failing,
            piece,
            puts: 0,
            faults: 0,
        })
    }

    /// What was written.
    pub fn bytes(&self) -> &[u8]
        ensures { result.now ≡ self.entry.now.text }
    {
        self.bytes.as_slice()
    }
}

impl Sink for MemSink {
    ghost sink = { text_sink };

    fn put(&mut self, bytes: &[u8]) -> Result<usize, Failed>
        ensures answer { result ≡ put_answer self.old (length bytes.now) }
        ensures after { self.new ≡ after_put self.old bytes.now result }
        ensures count { IfOk result (λ n. n ≤ length bytes.now) }
        ensures empty { length bytes.now ≡ 0 → result ≡ Ok 0 }
        ensures leaves { PutAfter text_sink bytes.now self.old self.new result }
    {
        if bytes.is_empty() {
            return Ok(0);
        }
        self.puts = self.puts.saturating_add(1);
        let room = self.capacity - self.bytes.len();
        if room == 0 || self.failing.contains(&self.puts) {
            self.faults = self.faults.saturating_add(1);
            return Err(Failed);
        }
        let count = self.piece.min(room.min(bytes.len()));
        self.bytes.extend_from_slice(&bytes[..count]).unwrap();
        Ok(count)
    }

    /// Each put writes at once, so there is nothing to write.
    fn flush(&mut self) -> Result<(), Failed>
        ensures same { self.new ≡ self.old }
        ensures leaves { FlushAfter text_sink self.old self.new (is_ok result) }
    {
        Ok(())
    }

    ghost fronts = { λ s. more_none (Some s.text) };
}
