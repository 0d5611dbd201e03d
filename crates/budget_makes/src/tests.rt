use crate::{gates_of, make, number_of};
use budget_report::Status;
use budget_steps::{Said, Stop};
use std::process::Abort;
use std::test::Fail;

/// The answer to a job whose numbers are in range.
fn said(rt: &(impl Abort + AllocGlobal), gates: u32, number: u32) -> Result<Said, Fail> {
    assert!(rt; 1 <= gates);
    assert!(rt; gates <= 20000);
    assert!(rt; number < 2_147_483_648);
    match make(rt.alloc(), gates, number) {
        Ok(answer) => Ok(answer.said),
        Err(Stop::Refused(said)) => Ok(said),
        Err(Stop::NoMemory) => Err(Fail::new("no memory")),
    }
}

#[test]
fn words_of_numbers(rt: HostRuntime) -> Result<(), Fail> {
    assert_eq!(rt; gates_of("0000020000"), Some(20000));
    assert_eq!(rt; gates_of("00000000001"), None);
    assert_eq!(rt; gates_of("0"), None);
    assert_eq!(rt; gates_of("20001"), None);
    assert_eq!(rt; gates_of("+1"), None);
    assert_eq!(rt; gates_of("-1"), None);
    assert_eq!(rt; gates_of(""), None);
    assert_eq!(rt; number_of("2147483647"), Some(2147483647));
    assert_eq!(rt; number_of("2147483648"), None);
    assert_eq!(rt; number_of("-0"), None);
    Ok(())
}

#[test]
fn one_gate(rt: HostRuntime) -> Result<(), Fail> {
    let said = said(&rt, 1, 0)?;
    assert_eq!(&rt;
        said.text.as_slice(),
        b"gates 1\nregisters 0\nmeets 1012\nclasses 1\nnodes 35\nitems 33\nweight 9160\n".as_slice()
    );
    assert_eq!(rt; said.status, Status::Done);
    Ok(())
}
