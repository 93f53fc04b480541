//! The message of a run, and its exit status.

use std::alloc::Global;
use std::process::Abort;
use std::test::Fail;
use ud_model::Settings;
use unifdef::{EXIT_TROUBLE, Usage, Watched, final_result, report_result, report_usage};

/// Compares the message and the status.
fn check(rt: &impl Abort, said: &[u8], status: u8, message: &[u8], expected: u8) {
    assert!(rt; said == message);
    assert_eq!(rt; status, expected);
}

/// Compares the message and the status of a run without arguments that changed a line.
fn check_result(rt: &impl Abort, alloc: Global, flushed: bool, message: &[u8], expected: u8) {
    let settings = Settings::default();
    let mut err = Watched::new(Vec::new(alloc));
    let status = report_result(&mut err, b"a.h", settings, final_result(Ok(true), flushed));
    check(rt, err.inner(), status, message, expected);
}

#[test]
fn a_failed_flush_is_reported_as_a_failed_write(rt: HostRuntime) -> Result<(), Fail> {
    let message = b"unifdef: a.h: Write error\n";
    check_result(&rt, rt.alloc(), false, message, EXIT_TROUBLE);
    Ok(())
}

#[test]
fn a_run_that_changed_a_line_has_status_1(rt: HostRuntime) -> Result<(), Fail> {
    check_result(&rt, rt.alloc(), true, b"", 1);
    Ok(())
}

#[test]
fn a_usage_fault_is_reported_without_the_input(rt: HostRuntime) -> Result<(), Fail> {
    let mut err = Watched::new(Vec::new(rt.alloc()));
    report_usage(&mut err, Usage::TooManyFiles);
    check(&rt, err.inner(), 0, b"unifdef: Too many files\n", 0);
    Ok(())
}
