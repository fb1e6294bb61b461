//! How long a run takes, and how long the reading of its sheets.
use quantities::refusal::Refusal;
use run::refusal::RunRefusal;
use run::run::{MOST_BYTES, run};
use std::io;
use std::time::{Duration, Instant};

// The least of so many rounds is given: what else the machine does only adds to a time.
const ROUNDS: u32 = 1_000;

/// The times of a run over sheets of so many bytes.
#[derive(Clone, Copy)]
pub struct RunPace {
    pub bytes: usize,
    run: Duration,
    reading: Duration,
}

impl RunPace {
    /// How many runs a second has.
    pub(crate) fn runs_a_second(&self) -> f64 {
        1.0 / self.run.as_secs_f64()
    }

    /// Milliseconds to make a run.
    pub(crate) fn millis_a_run(&self) -> f64 {
        self.run.as_secs_f64() * 1e3
    }

    /// The share of reading, in percent.
    pub(crate) fn reading_percent(&self) -> f64 {
        self.reading.as_secs_f64() * 100.0 / self.run.as_secs_f64()
    }
}

// A run's least time, and its answer.
fn least_time(
    rt: &HostRuntime,
    sheets: &[u8],
    buffer: &mut [u8],
) -> io::Result<(Duration, Result<usize, RunRefusal>)> {
    let mut least = Duration::MAX;
    let mut answer = Ok(0);
    for _ in 0..ROUNDS {
        let start = Instant::now(rt)?;
        answer = run(sheets, buffer);
        least = least.min(start.elapsed(rt)?);
    }
    Ok((least, answer))
}

/// Times a run over the sheets; a refusal is no pace.
pub(crate) fn time_run(
    rt: &HostRuntime,
    mut sheets: String,
) -> io::Result<Result<RunPace, RunRefusal>> {
    let mut buffer = vec![in rt.alloc(); 0; MOST_BYTES]?;
    let (run, answer) = least_time(rt, sheets.as_bytes(), buffer.as_mut_slice())?;
    if let Err(refusal) = answer {
        return Ok(Err(refusal));
    }
    let bytes = sheets.len();
    // A byte behind the fifth sheet is refused when all five are read, before the margin is worked.
    sheets.push('x')?;
    let (reading, answer) = least_time(rt, sheets.as_bytes(), buffer.as_mut_slice())?;
    Ok(match answer {
        Err(refusal) if refusal.refusal != Refusal::Trailer => Err(refusal),
        _ => Ok(RunPace {
            bytes,
            run,
            reading,
        }),
    })
}
