//! The flush at the end of a run, which the output of a program does without a call of the system.
ghost use Rattle.std.specs.Prelude.{Some};

use gix_config_value::program::{RunError, run};
use std::alloc::{AllocError, Global};
use std::io::{self, Cursor, ErrorKind, Write};

/// A writer whose flush may fail.
#[derive(Drop)]
struct Flushed {
    held: Vec<u8>,
    flushes: u64,
    fails: bool,
}

impl Write for Flushed {
    ghost contents = { λ writer. Some writer.held.items };

    fn write(&mut self, bytes: &[u8]) -> io::Result<usize> {
        self.held.write(bytes)
    }

    fn flush(&mut self) -> io::Result<()> {
        self.flushes = self.flushes.saturating_add(1);
        if self.fails {
            return Err(io::Error::from(ErrorKind::BrokenPipe));
        }
        Ok(())
    }
}

/// How a run ends, and how many answers and flushes it has made.
fn ended(
    alloc: Global,
    input: &[u8],
    fails: bool,
) -> Result<(Result<bool, RunError>, usize, u64), AllocError> {
    let mut writer = Flushed {
        held: Vec::new(alloc),
        flushes: 0,
        fails,
    };
    let outcome = run(alloc, &mut Cursor::new(input), &mut writer);
    let answers = writer.held.iter().filter(|byte| **byte == b'\n').count();
    Ok((outcome, answers, writer.flushes))
}

#[test]
fn flushes_once_at_the_end(rt: HostRuntime) {
    const LINES: &[u8] = b"boolean\ncolor\n\nInteger 5\ninteger  5\nsuffix M";
    for (input, fails, wanted) in [
        (LINES, false, (Ok(false), 6, 1)),
        (LINES, true, (Err(RunError::Write), 6, 1)),
        (b"", false, (Ok(true), 0, 1)),
        (b"", true, (Err(RunError::Write), 0, 1)),
    ] {
        assert!(rt; ended(rt.alloc(), input, fails) == Ok(wanted));
    }
}
