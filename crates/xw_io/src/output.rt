// Pieces, gathered for a sink.
ghost use Rattle.std.specs.Prelude.{◌≡◌, ◌≤◌, ◌<◌, ℕ, List, [], length, true, false, OnOk, OnErr, IfOk, MatchResult};
ghost use Rattle.xw_io.specs.Gathering.{Wrote, WroteSome, Passed, Drew};
ghost use Rattle.xw_io.specs.Outside.{Rose, gained};

use crate::held::Held;
use crate::{Put, Sink};

/// The sink failed.
#[derive(Clone, Copy, Debug, PartialEq, Eq)]
pub struct SinkFault;

/// Gathers up to 4,096 bytes for a sink in a fixed array. What the sink gained is at all times a prefix of what was
/// written; the rest waits here. No call takes memory.
///
/// After a `SinkFault` it is used no more: `usable` is false, and `write` and `flush` require that it is true. `add`,
/// `settle` and `outcome` are for a text of many pieces: they do nothing after a fault, which is asked for once, at
/// the end. The fields are public for contracts to name; code writes them through the calls alone.
#[derive(Drop)]
pub struct Out<'a, O: Sink> {
    pub sink: &'a mut O,
    pub held: Held,
    pub usable: bool,
}

impl<'a, O: Sink> Out<'a, O> {
    /// Gathers for this sink. Nothing waits yet, and the sink is as it was.
    pub fn new(sink: &'a mut O) -> Out<'a, O>
        ensures same_sink { result.sink.ghost_name ≡ sink.entry.ghost_name }
        ensures sink { result.sink.now ≡ sink.old }
        ensures usable { result.usable ≡ true }
        ensures empty { result.held ≡ [] }
    {
        Out {
            sink,
            held: Held::new(),
            usable: true,
        }
    }

    /// Writes a piece: the sink takes a front of it and of what waited before, and the rest waits. `SinkFault` comes
    /// only where the sink's faults rose; the sink then has a front of what was written.
    pub fn write(&mut self, piece: &[u8]) -> Result<(), SinkFault>
        requires { self.old.usable ≡ true }
        ensures same_sink { self.new.sink.ghost_name ≡ self.old.sink.ghost_name }
        ensures wrote { Wrote O.bytes O.faults self.old self.new piece.now result }
    {
        let mut start = 0;
        while start < piece.len() {
            start += self.write_some(&piece[start..])?;
        }
        Ok(())
    }

    /// Hands all that waits to the sink. After Ok nothing waits. `SinkFault` comes only where the sink's faults rose;
    /// the sink then has a front of what was written.
    pub fn flush(&mut self) -> Result<(), SinkFault>
        requires { self.old.usable ≡ true }
        ensures same_sink { self.new.sink.ghost_name ≡ self.old.sink.ghost_name }
        ensures wrote { Wrote O.bytes O.faults self.old self.new [] result }
        ensures empty { OnOk result (self.new.held ≡ []) }
    {
        match put_all(self.sink, self.held.as_slice()) {
            Ok(()) => {
                self.held.clear();
                Ok(())
            }
            Err(SinkFault) => {
                self.usable = false;
                Err(SinkFault)
            }
        }
    }

    /// Writes a piece, unless the sink has failed before.
    pub fn add(&mut self, piece: &[u8])
        ensures same_sink { self.new.sink.ghost_name ≡ self.old.sink.ghost_name }
        ensures drew { Drew O.bytes O.faults self.old self.new piece.now }
    {
        if self.usable {
            let _ = self.write(piece);
        }
    }

    /// Hands on what waits, unless the sink has failed before.
    pub fn settle(&mut self)
        ensures same_sink { self.new.sink.ghost_name ≡ self.old.sink.ghost_name }
        ensures drew { Drew O.bytes O.faults self.old self.new [] }
        ensures empty { self.new.usable ≡ true → self.new.held ≡ [] }
    {
        if self.usable {
            let _ = self.flush();
        }
    }

    /// Whether the sink has failed.
    pub fn outcome(&self) -> Result<(), SinkFault>
        ensures { MatchResult result (λ _. self.now.usable ≡ true) (λ _. self.now.usable ≡ false) }
    {
        if self.usable { Ok(()) } else { Err(SinkFault) }
    }

    /// Writes as much of a piece as fits after what waits, which is handed on first where nothing fits.
    fn write_some(&mut self, piece: &[u8]) -> Result<usize, SinkFault>
        requires usable { self.old.usable ≡ true }
        requires some { 0 < length piece.now }
        ensures same_sink { self.new.sink.ghost_name ≡ self.old.sink.ghost_name }
        ensures wrote { WroteSome O.bytes O.faults self.old self.new piece.now result }
    {
        if self.held.is_full() {
            self.flush()?;
        }
        Ok(self.held.fill(piece))
    }
}

/// Puts a text, piece by piece.
fn put_all<O: Sink>(sink: &mut O, text: &[u8]) -> Result<(), SinkFault>
    ensures counts { O.faults sink.old ≤ O.faults sink.new }
    ensures ok { OnOk result (O.bytes sink.new ≡ gained (O.bytes sink.old) text.now) }
    ensures err { OnErr result (Rose (O.faults sink.old) (O.faults sink.new) × ((rest : List ℕ) × Passed (O.bytes sink.old) (O.bytes sink.new) text.now rest)) }
{
    let mut start = 0;
    while start < text.len() {
        match sink.put(&text[start..]) {
            Put::Took(n) => start += n,
            Put::Failed => return Err(SinkFault),
        }
    }
    Ok(())
}

#[cfg(test)]
mod tests {
    use super::*;
    use crate::MemSink;
    use std::alloc::Global;
    use xw_words::{List, Memory};

    /// The room of a sink, the length of a long piece, how many calls go well, and of the bytes that the sink has
    /// then how many there are and the last three.
    const LONG_PIECES: [(usize, usize, usize, usize, &[u8]); 2] = [
        (20_000, 10_000, 4, 10_004, b"xcd"),
        (5_000, 9_000, 1, 5_000, b"xxx"),
    ];

    /// How many of these calls go well, before the first that does not.
    fn calls_that_go_well(sink: &mut MemSink, long: &[u8]) -> usize {
        let mut out = Out::new(sink);
        if out.write(b"ab").is_err() {
            return 0;
        }
        if out.write(long).is_err() {
            return 1;
        }
        if out.write(b"cd").is_err() {
            return 2;
        }
        if out.flush().is_err() { 3 } else { 4 }
    }

    /// How many calls go well, how many bytes the sink has then, and whether they begin and end as they should.
    fn handed_on(
        alloc: Global,
        room: usize,
        length: usize,
        end: &[u8],
    ) -> Result<(usize, usize, bool), Memory> {
        let long = vec![in alloc; b'x'; length]?;
        let mut sink = MemSink::new(alloc, room, List::new(alloc))?;
        let well = calls_that_go_well(&mut sink, long.as_slice());
        let bytes = sink.bytes();
        let is_framed = bytes.starts_with(b"abx") && bytes.ends_with(end);
        Ok((well, bytes.len(), is_framed))
    }

    /// The place of the first long piece that is handed on otherwise.
    fn wrong_long_piece(alloc: Global) -> Result<Option<usize>, Memory> {
        for (place, (room, length, calls, count, end)) in LONG_PIECES.iter().enumerate() {
            if handed_on(alloc, *room, *length, end)? != (*calls, *count, true) {
                return Ok(Some(place));
            }
        }
        Ok(None)
    }

    /// The outcome before a sink fails, once it has failed, and after more is added then.
    fn outcomes(sink: &mut MemSink) -> [Result<(), SinkFault>; 3] {
        let mut out = Out::new(sink);
        out.add(b"hello");
        let before = out.outcome();
        out.settle();
        let failed = out.outcome();
        out.add(b"lost");
        out.settle();
        [before, failed, out.outcome()]
    }

    /// Whether a sink with room for three bytes is told to have failed, and has no more than what it took.
    fn adds_nothing_after_a_fault(alloc: Global) -> Result<bool, Memory> {
        let mut sink = MemSink::new(alloc, 3, List::new(alloc))?;
        let told = outcomes(&mut sink);
        Ok(told == [Ok(()), Err(SinkFault), Err(SinkFault)] && sink.bytes() == b"hel".as_slice())
    }

    /// What is written is gathered and handed on, up to a fault in mid-stream, and nothing is added after a fault.
    #[test]
    fn gathers_up_to_a_fault(rt: HostRuntime) {
        let told = (
            wrong_long_piece(rt.alloc()),
            adds_nothing_after_a_fault(rt.alloc()),
        );
        assert_eq!(rt; told, (Ok(None), Ok(true)));
    }
}
