// The streams of the system: an edge that is trusted, since no contract can say what a stream took.
ghost use Rattle.std.specs.Prelude.{◌≡◌, ◌≤◌, IfOk, length};

use crate::counts::raised;
use crate::{Put, Sink};
use std::io;
use std::io::Write;

/// A stream of the system. It tells no bytes.
#[derive(Drop)]
pub struct StdSink<W: Write + Drop> {
    stream: W,
    faults: u64,
}

impl<W: Write + Drop> StdSink<W> {
    ghost use Rattle.xw_io.specs.StdSink.{faults_of};

    /// A sink that writes to this stream.
    pub fn new(stream: W) -> StdSink<W>
        ensures { faults_of result ≡ 0 }
    {
        StdSink { stream, faults: 0 }
    }
}

impl<W: Write + Drop> Sink for StdSink<W> {
    ghost use Rattle.std.specs.Prelude.{◌<◌, None};
    ghost use Rattle.xw_io.specs.Counting.{faults_after};
    ghost use Rattle.xw_io.specs.Outside.{IsPut};
    ghost use Rattle.xw_io.specs.StdSink.{faults_of};

    ghost bytes = { λ _. None };

    ghost faults = { λ s. faults_of s };

    /// As each sink's put: one write, which is flushed. A write or a flush that fails and a write that takes nothing
    /// are faults, which raise the count by one.
    fn put(&mut self, piece: &[u8]) -> Put
        requires { 0 < length piece.now }
        ensures faults { faults_of self.old ≤ faults_of self.new }
        ensures put { IsPut None None (faults_of self.old) (faults_of self.new) piece.now result }
        ensures counted { faults_of self.new ≡ faults_after (faults_of self.old) result }
    {
        match write_some(&mut self.stream, piece) {
            Ok(n) if n > 0 => Put::Took(n),
            _ => {
                self.faults = raised(self.faults);
                Put::Failed
            }
        }
    }
}

/// Writes some of a piece, and flushes it.
fn write_some<W: Write>(stream: &mut W, piece: &[u8]) -> io::Result<usize>
    ensures { IfOk result (λ n. n ≤ length piece.now) }
{
    let n = stream.write(piece)?;
    stream.flush()?;
    Ok(n)
}

#[cfg(test)]
mod tests {
    use super::*;
    use std::io::ErrorKind;

    /// Takes the bytes of each write that its plan says, or fails where the plan says nothing; it notes what it took,
    /// and whether all of it was flushed.
    #[derive(Drop)]
    struct Planned {
        plan: [Option<usize>; 4],
        next: usize,
        taken: usize,
        flushed: usize,
    }

    impl Write for Planned {
        fn write(&mut self, buf: &[u8]) -> io::Result<usize> {
            let step = if self.next < 4 {
                self.plan[self.next]
            } else {
                None
            };
            self.next = self.next.saturating_add(1);
            match step {
                Some(most) => {
                    let n = buf.len().min(most);
                    self.taken = self.taken.saturating_add(n);
                    Ok(n)
                }
                None => Err(io::Error::from(ErrorKind::BrokenPipe)),
            }
        }

        fn flush(&mut self) -> io::Result<()> {
            self.flushed = self.taken;
            Ok(())
        }
    }

    /// What each put of five bytes answers, how many bytes are flushed then, and how many puts have failed.
    const PUTS: [(Put, usize, u64); 5] = [
        (Put::Took(2), 2, 0),
        (Put::Failed, 2, 1),
        (Put::Failed, 2, 2),
        (Put::Took(5), 7, 2),
        (Put::Failed, 7, 3),
    ];

    /// The place of the first put that is answered otherwise.
    fn wrong_put() -> Option<usize> {
        let mut sink = StdSink::new(Planned {
            plan: [Some(2), Some(0), None, Some(9)],
            next: 0,
            taken: 0,
            flushed: 0,
        });
        for (place, want) in PUTS.iter().enumerate() {
            if (sink.put(b"hello"), sink.stream.flushed, sink.faults) != *want {
                return Some(place);
            }
        }
        None
    }

    /// A put writes and flushes once, and fails where nothing is taken.
    #[test]
    fn puts_to_a_stream(rt: HostRuntime) {
        assert_eq!(rt; wrong_put(), None);
    }
}
