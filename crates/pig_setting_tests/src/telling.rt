// What a call leaves, as text.
use crate::Show;
use pig_board::JobEnd;
use pig_outside::{DirState, MemoryDepot};
use pig_run::{Outcome, Waves};
use std::alloc::{AllocError, Global};

/// What stands in a directory: `none`, `whole` or `open`, and from the next line on its bytes.
fn tell_directory(
    alloc: Global,
    state: Option<&DirState>,
    show: Show,
    told: &mut String,
) -> Result<(), AllocError> {
    let Some(state) = state else {
        return told.push_str("none\n");
    };
    told.push_str(if state.marked { "whole\n" } else { "open\n" })?;
    match show {
        Show::Parts => tell_parts(alloc, state, told),
        Show::Lists => tell_lines(alloc, state, true, told),
        Show::Bags => tell_lines(alloc, state, false, told),
    }
}

/// Each part behind a line with its number.
fn tell_parts(alloc: Global, state: &DirState, told: &mut String) -> Result<(), AllocError> {
    let mut number = 0u64;
    for part in state.parts.as_slice() {
        let head = format!(in alloc; "-- {number}\n")?;
        told.push_str(&head)?;
        let text = String::from_utf8_lossy(alloc, part.as_slice())?;
        told.push_str(&text)?;
        number = number.saturating_add(1);
    }
    Ok(())
}

/// The lines of all parts, in order where they are a list, and else ascending.
fn tell_lines(
    alloc: Global,
    state: &DirState,
    listed: bool,
    told: &mut String,
) -> Result<(), AllocError> {
    let bytes = joined(alloc, state)?;
    let text = String::from_utf8_lossy(alloc, bytes.as_slice())?;
    let mut lines = Vec::new(alloc);
    for line in text.lines() {
        lines.push(line)?;
    }
    if !listed {
        lines.sort()?;
    }
    for line in lines.as_slice() {
        told.push_str(line)?;
        told.push_str("\n")?;
    }
    Ok(())
}

/// The bytes of all parts.
fn joined(alloc: Global, state: &DirState) -> Result<Vec<u8>, AllocError> {
    let mut bytes = Vec::new(alloc);
    for part in state.parts.as_slice() {
        bytes.extend_from_slice(part.as_slice())?;
    }
    Ok(bytes)
}

/// Of each task of a wave its attempts, those that failed, and the winner.
fn tell_wave(alloc: Global, end: &JobEnd, told: &mut String) -> Result<(), AllocError> {
    for t in 0..end.len() {
        let task = end.task(t);
        let (attempts, failed) = (task.attempts, task.failed);
        let text = match task.winner {
            Some(winner) => format!(in alloc; " {attempts}-{failed}-{winner}")?,
            None => format!(in alloc; " {attempts}-{failed}-none")?,
        };
        told.push_str(&text)?;
    }
    Ok(())
}

/// A line for each wave.
pub fn tell_waves(alloc: Global, waves: &Waves, told: &mut String) -> Result<(), AllocError> {
    for end in waves.as_slice() {
        told.push_str("wave")?;
        tell_wave(alloc, end, told)?;
        told.push_str("\n")?;
    }
    Ok(())
}

/// The status, the number of bare LIMITs whose rows are told, and what the console shows.
pub fn tell_answer(
    alloc: Global,
    outcome: &Outcome,
    console: &[u8],
    told: &mut String,
) -> Result<(), AllocError> {
    let text = String::from_utf8_lossy(alloc, console)?;
    let status = outcome.status;
    let kept = outcome.kept.len();
    let answer = format!(in alloc; "{status} kept {kept}\n{text}")?;
    told.push_str(&answer)
}

/// What stands in `p` and `q`.
pub fn tell_outputs(
    alloc: Global,
    depot: &MemoryDepot,
    show: Show,
    told: &mut String,
) -> Result<(), AllocError> {
    told.push_str("p ")?;
    tell_directory(alloc, depot.dir("p"), show, told)?;
    told.push_str("q ")?;
    tell_directory(alloc, depot.dir("q"), show, told)
}
