ghost use Rattle.std.specs.Prelude.{◌≡◌, ◌++◌, OnOk, OnErr, IfOk};
ghost use Rattle.std.specs.Io.KnownBytes.{Appends};
ghost use Rattle.ark_base.specs.Transfer.{AppendsBeginning, CountsFailure};

use ark_base::{Failed, IoSink, Sink};
use std::alloc::Global;
use std::io;
use std::io::{ErrorKind, Write};
use std::test::Fail;

#[derive(Clone, Copy)]
enum Step {
    Interrupted,
    TakesNothing,
    TakesOne,
}

// Does its steps in turn, one at each `write`, and then takes a byte at a time.
#[derive(Drop)]
struct Scripted {
    steps: &'static [Step],
    taken: Vec<u8>,
}

impl Write for Scripted {
    fn write(&mut self, buf: &[u8]) -> io::Result<usize> {
        let step = match self.steps.split_first() {
            Some((step, later)) => {
                self.steps = later;
                *step
            }
            None => Step::TakesOne,
        };
        match step {
            Step::Interrupted => Err(io::Error::from(ErrorKind::Interrupted)),
            Step::TakesNothing => Ok(0),
            Step::TakesOne => {
                let count = buf.len().min(1);
                self.taken.extend_from_slice(&buf[..count])?;
                Ok(count)
            }
        }
    }

    fn flush(&mut self) -> io::Result<()> {
        Ok(())
    }
}

// Two calls together keep what one promises.
#[tactic(auto, using(ark_bytes::proofs::Transfer::beginnings))]
fn put_both<S: Sink>(sink: &mut S, first: &[u8], second: &[u8]) -> Result<(), Failed>
    ensures ok { OnOk result (Appends (S.contents sink.old) (S.contents sink.new)
        (first.now ++ second.now)) }
    ensures failed { OnErr result (AppendsBeginning (S.contents sink.old)
        (S.contents sink.new) (first.now ++ second.now)) }
    ensures counted { CountsFailure result (S.failures sink.old) (S.failures sink.new) }
{
    sink.put(first)?;
    sink.put(second)
}

// Over a vector the clauses give the bytes themselves.
fn collected(alloc: Global, bytes: &[u8]) -> Result<Vec<u8>, Failed>
    ensures { IfOk result (λ all. all.items ≡ bytes.now) }
{
    let mut sink = IoSink::new(Vec::new(alloc));
    sink.put(bytes)?;
    Ok(sink.into_inner())
}

#[test]
fn appends_to_a_vector(rt: HostRuntime) -> Result<(), Fail> {
    let mut sink = IoSink::new(Vec::new(rt.alloc()));
    put_both(&mut sink, b"a", b"b")?;
    sink.put(b"")?;
    sink.put(b"c")?;
    assert_eq!(rt; sink.into_inner().as_slice(), b"abc".as_slice());
    assert_eq!(rt;
        format!(in rt.alloc(); "{Failed} {Failed:?}")?.as_str(),
        "Failed Failed"
    );
    Ok(())
}

#[test]
fn fails_where_a_write_fails_or_takes_nothing(rt: HostRuntime) -> Result<(), Fail> {
    let cases: [(&'static [Step], Result<(), Failed>, &[u8]); 5] = [
        (&[], Ok(()), b"abc"),
        (&[Step::Interrupted], Err(Failed), b""),
        (&[Step::TakesNothing], Err(Failed), b""),
        (&[Step::TakesOne, Step::Interrupted], Err(Failed), b"a"),
        (&[Step::TakesOne, Step::TakesNothing], Err(Failed), b"a"),
    ];
    for (steps, answer, taken) in cases {
        let mut sink = IoSink::new(Scripted {
            steps,
            taken: Vec::new(rt.alloc()),
        });
        assert_eq!(rt; sink.put(b""), Ok(()));
        assert_eq!(rt; sink.put(b"abc"), answer);
        assert_eq!(rt; sink.into_inner().taken.as_slice(), taken);
    }
    Ok(())
}

/// Takes so many bytes at each `write`, up to `room` bytes in all, and counts the calls.
#[derive(Drop)]
pub struct Measured {
    pub at_a_time: usize,
    pub room: usize,
    pub calls: usize,
    pub taken: Vec<u8>,
}

impl Write for Measured {
    fn write(&mut self, buf: &[u8]) -> io::Result<usize> {
        let count = buf.len().min(self.at_a_time).min(self.room);
        self.taken.extend_from_slice(&buf[..count])?;
        self.room -= count;
        self.calls = self.calls.wrapping_add(1);
        Ok(count)
    }

    fn flush(&mut self) -> io::Result<()> {
        Ok(())
    }
}

// However many calls of `write` long bytes take, no more are made, and one that takes nothing ends them.
#[test]
fn long_writes_end_where_all_is_taken_or_nothing_is(rt: HostRuntime) -> Result<(), Fail> {
    let bytes = vec![in rt.alloc(); 7; 1000]?;
    let cases = [
        (3, 1000, Ok(()), 334),
        (256, 1000, Ok(()), 4),
        (1000, 1000, Ok(()), 1),
        (usize::MAX, usize::MAX, Ok(()), 1),
        (3, 999, Err(Failed), 334),
        (256, 0, Err(Failed), 1),
    ];
    for (at_a_time, room, answer, calls) in cases {
        let mut sink = IoSink::new(Measured {
            at_a_time,
            room,
            calls: 0,
            taken: Vec::new(rt.alloc()),
        });
        assert_eq!(rt; sink.put(&bytes), answer);
        let writer = sink.into_inner();
        assert_eq!(rt; writer.calls, calls);
        assert_eq!(rt; writer.taken.len(), room.min(bytes.len()));
    }
    Ok(())
}
