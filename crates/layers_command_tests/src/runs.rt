//! Runs over arguments and an input: what they write, and how they end.
use crate::desk::Desk;
use cue_layers_command::act;
use cue_program::Output;
use std::alloc::Global;
use std::test::Fail;

/// A run: its arguments, what standard input has, the exit status, and what it writes.
pub type Case<'a> = (&'a [&'a str], &'a str, u8, &'a str, &'a str);

/// The arguments as the program takes them.
fn owned(alloc: Global, words: &[&str]) -> Result<Vec<String>, Fail> {
    let mut owned = Vec::new(alloc);
    for word in words {
        owned.push(String::from_str(alloc, word)?)?;
    }
    Ok(owned)
}

/// The run over these arguments and this input: the status, and what it writes. No contract says
/// what that is, so that the proof of a caller is short.
fn acted(desk: &mut Desk, words: &[String], mut input: &[u8]) -> (u8, Vec<u8>, Vec<u8>) {
    let mut out = Output::new(Vec::new(desk.alloc()));
    let mut faults = Output::new(Vec::new(desk.alloc()));
    let status = act(desk, words, &mut input, &mut out, &mut faults);
    (status, out.into_inner(), faults.into_inner())
}

/// Whether a run ends as it is to, and writes just that.
pub fn is_run(desk: &mut Desk, case: &Case) -> Result<bool, Fail> {
    let (words, input, status, out, faults) = *case;
    let words = owned(desk.alloc(), words)?;
    let run = acted(desk, &words, input.as_bytes());
    Ok(
        run.0 == status
            && run.1.as_slice() == out.as_bytes()
            && run.2.as_slice() == faults.as_bytes(),
    )
}

/// The number of the first run of these, from 0, that does not end as it is to, where one does not.
pub fn first_other(desk: &mut Desk, cases: &[Case]) -> Result<Option<usize>, Fail> {
    for (number, case) in cases.iter().enumerate() {
        if !is_run(desk, case)? {
            return Ok(Some(number));
        }
    }
    Ok(None)
}
