//! Retries after an allocation failure.

/// Evaluates `$call`, and once more if the result matches `$rejected`.
///
/// Before the retry it prints `refused` on standard error. `tests/out_of_memory/run.py`, under
/// which allocations fail, expects that line.
#[macro_export]
macro_rules! again {
    ($rt:expr, $rejected:pat, $call:expr) => {
        match $call {
            $rejected => {
                $rt.eprintln("refused")?;
                $call
            }
            returned => returned,
        }
    };
}
