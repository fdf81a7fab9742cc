ghost use Rattle.std.specs.Prelude.{◌≤◌, ◌+◌, vec_len, vec_capacity};

use crate::counts::{is_listed, raised};
use crate::{Put, Sink};
use std::alloc::Global;
use xw_words::{List, Memory};

/// A sink that tells its bytes, has room for a number of them, and fails at chosen puts.
#[derive(Drop)]
pub struct MemSink {
    taken: Vec<u8>,
    room: usize,
    fails: List<u32>,
    calls: u64,
    faults: u64,
    ghost fits: { vec_len taken + room ≤ vec_capacity taken },
}

impl MemSink {
    ghost use Rattle.std.specs.Prelude.{◌≡◌, [], IfOk};
    ghost use Rattle.xw_io.specs.MemSink.{bytes_of, calls_of, fails_of, faults_of, room_of};

    /// A sink with no bytes yet, and room for `room` of them: all the memory that it will need. The puts whose numbers,
    /// from 1, stand in `fails` fail. The one error is want of memory.
    pub fn new(alloc: Global, room: usize, fails: List<u32>) -> Result<MemSink, Memory>
        ensures bytes { IfOk result (λ sink. bytes_of sink ≡ []) }
        ensures room { IfOk result (λ sink. room_of sink ≡ room) }
        ensures fails { IfOk result (λ sink. fails_of sink ≡ fails) }
        ensures calls { IfOk result (λ sink. calls_of sink ≡ 0) }
        ensures faults { IfOk result (λ sink. faults_of sink ≡ 0) }
    {
        Ok(MemSink {
            taken: Vec::with_capacity(alloc, room)?,
            room,
            fails,
            calls: 0,
            faults: 0,
        })
    }

    /// The bytes that it took.
    pub fn bytes(&self) -> &[u8]
        ensures { result.now ≡ bytes_of self.now }
    {
        self.taken.as_slice()
    }
}

impl Sink for MemSink {
    ghost use Rattle.std.specs.Prelude.{◌≡◌, ◌<◌, ◌-◌, Some, length};
    ghost use Rattle.xw_io.specs.Outside.{IsPut};
    ghost use Rattle.xw_io.specs.Counting.{faults_after, raised};
    ghost use Rattle.xw_io.specs.MemSink.{answer_to, bytes_of, calls_of, fails_of, faults_of, room_of, taken_by};

    ghost bytes = { λ s. Some (bytes_of s) };

    ghost faults = { λ s. faults_of s };

    /// As each sink's put, and it takes as many bytes as there is room for. It fails exactly where its number is listed
    /// or no room is left, and then raises the faults by one. It takes no memory.
    fn put(&mut self, piece: &[u8]) -> Put
        requires { 0 < length piece.now }
        ensures faults { faults_of self.old ≤ faults_of self.new }
        ensures put { IsPut (Some (bytes_of self.old)) (Some (bytes_of self.new)) (faults_of self.old) (faults_of self.new) piece.now result }

        ensures answer { result ≡ answer_to self.old piece.now }
        ensures room { room_of self.new ≡ room_of self.old - taken_by result }
        ensures calls { calls_of self.new ≡ raised (calls_of self.old) }
        ensures same_list { fails_of self.new ≡ fails_of self.old }
        ensures counted { faults_of self.new ≡ faults_after (faults_of self.old) result }
    {
        self.calls = raised(self.calls);
        if is_listed(&self.fails, self.calls) || self.room == 0 {
            self.faults = raised(self.faults);
            return Put::Failed;
        }
        let n = piece.len().min(self.room);
        self.taken.extend_from_slice(&piece[..n]).unwrap();
        self.room -= n;
        Put::Took(n)
    }
}

#[cfg(test)]
mod tests {
    use super::*;

    /// Sinks: the room, the puts that are to fail, three pieces with their answers, and all that is taken.
    const SINKS: [(usize, &[u32], [(&[u8], Put); 3], &[u8]); 2] = [
        (
            5,
            &[],
            [
                (b"abc", Put::Took(3)),
                (b"def", Put::Took(2)),
                (b"f", Put::Failed),
            ],
            b"abcde",
        ),
        (
            100,
            &[2],
            [
                (b"ab", Put::Took(2)),
                (b"cd", Put::Failed),
                (b"cd", Put::Took(2)),
            ],
            b"abcd",
        ),
    ];

    /// Whether a sink answers each piece so, and then has these bytes and has failed once.
    fn answers_so(sink: &mut MemSink, pieces: &[(&[u8], Put)], taken: &[u8]) -> bool {
        for (piece, want) in pieces {
            if piece.is_empty() || sink.put(piece) != *want {
                return false;
            }
        }
        sink.bytes() == taken && sink.faults == 1
    }

    /// The same of a new sink.
    fn starts_so(
        alloc: Global,
        room: usize,
        fails: &[u32],
        pieces: &[(&[u8], Put)],
        taken: &[u8],
    ) -> Result<bool, Memory> {
        let fails = List::from_vec(fails.to_vec(alloc)?);
        let mut sink = MemSink::new(alloc, room, fails)?;
        Ok(answers_so(&mut sink, pieces, taken))
    }

    /// The place of the first sink that answers otherwise.
    fn wrong_sink(alloc: Global) -> Result<Option<usize>, Memory> {
        for (place, (room, fails, pieces, taken)) in SINKS.iter().enumerate() {
            if !starts_so(alloc, *room, fails, pieces, taken)? {
                return Ok(Some(place));
            }
        }
        Ok(None)
    }

    /// A sink takes what fits and then fails, and it fails at a put that is listed and goes on after it.
    #[test]
    fn takes_what_fits_and_fails_where_listed(rt: HostRuntime) {
        assert_eq!(rt; wrong_sink(rt.alloc()), Ok(None));
    }
}
