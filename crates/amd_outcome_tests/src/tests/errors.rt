// What calls refuse tells itself in words: each reason of a status, of a refusal and of a fault has a text.

use amd::{Refusal, Status};
use amd_symbolic::Fault;
use amd_symbolic::refusal::Refusal as FactorRefusal;
use amd_testing::check;
use std::alloc::AllocError;
use std::error::Error;

/// Whether an error has this text.
fn tells<E: Error>(rt: &HostRuntime, error: &E, text: &str) -> Result<bool, AllocError> {
    Ok(format!(in rt.alloc(); "{error}")?.as_str() == text)
}

#[test]
fn reasons_of_an_ordering(rt: HostRuntime) -> Result<(), AllocError> {
    check!(&rt; tells(&rt, &Status::Invalid, "the input is no column form")?);
    check!(&rt; tells(&rt, &Status::OutOfMemory, "memory was refused")?);
    let large = "the input has more rows or entries than the workspace was made for";
    check!(&rt; tells(&rt, &Refusal::TooLarge, large)?);
    Ok(())
}

#[test]
fn reasons_of_a_factor(rt: HostRuntime) -> Result<(), AllocError> {
    check!(&rt; tells(&rt, &Fault::NotPermutation, "the order does not list each row, once")?);
    check!(&rt; tells(&rt, &Fault::OutOfMemory, "memory was refused")?);
    let small = "there is no room for the entries of the factor, which has 7 of them";
    check!(&rt; tells(&rt, &FactorRefusal::TooSmall(7), small)?);
    Ok(())
}
