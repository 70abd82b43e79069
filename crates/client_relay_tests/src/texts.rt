//! What the refusals say.
use cell::CellError;
use client::OpenError;
use messages::{EndError, EndFault, LENGTH};
use std::alloc::Global;
use std::process::Abort;
use std::test::*;

fn says(rt: &impl Abort, heap: Global, fault: EndFault, due: &str) -> Result<(), Fail> {
    let text = format!(in heap; "{fault}")?;
    assert_eq!(rt; text.as_str(), due);
    Ok(())
}

#[test]
fn with_place_and_number(rt: HostRuntime) -> Result<(), Fail> {
    let heap = rt.alloc();
    says(
        &rt,
        heap,
        LENGTH,
        "the cell or the payload has another length (1)",
    )?;
    says(
        &rt,
        heap,
        EndError::Spent.at(3),
        "hop 3: the messages or the layers are used up (10)",
    )?;
    let cell = EndError::from(CellError::TooLong).at(2);
    says(
        &rt,
        heap,
        cell,
        "hop 2: the data is longer than a payload holds (6)",
    )?;
    let text = format!(in heap; "{}", OpenError::Memory)?;
    assert_eq!(rt; text.as_str(), "out of memory");
    Ok(())
}

// The number in the text is that of the refusal.
#[test]
fn numbers(rt: HostRuntime) -> Result<(), Fail> {
    let all = [
        EndError::Cell(CellError::Length),
        EndError::Cell(CellError::Header),
        EndError::Cell(CellError::TooLong),
        EndError::Command,
        EndError::DataLength,
        EndError::NoSuchHop,
        EndError::Stream,
        EndError::Window,
        EndError::Spent,
        EndError::Coincidence,
        EndError::NotDue,
        EndError::Unrecognised,
        EndError::Malformed,
        EndError::Overrun,
    ];
    for error in all {
        let text = format!(in rt.alloc(); "{error}")?;
        let end = format!(in rt.alloc(); " ({})", error.at(1).number())?;
        assert!(rt; text.as_str().ends_with(end.as_str()));
    }
    Ok(())
}
