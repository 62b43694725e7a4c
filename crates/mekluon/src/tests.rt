//! Jobs that end before their last line, and one that does not.
use crate::run;
use std::test::Fail;

// a job, and what is told of its end
const STOPPED: [(&str, &str); 4] = [
    (
        "evaluate 0 1 410\n",
        "line 1: word 4 is not pairs of hexadecimal digits",
    ),
    ("\n# a note\n\nsummary now\n", "line 4: a word too many"),
    ("evaluated", "line 1: no such command"),
    (
        "arithmetic float\nsummary\n",
        "line 1: no such arithmetic: it is plain or tracing",
    ),
];

#[test]
fn bad_lines_end_the_job(rt: HostRuntime) -> Result<(), Fail> {
    for (job, told) in STOPPED {
        match run(&rt, job.as_bytes()) {
            Ok(()) => return Err(Fail::new(told)),
            Err(stop) => assert!(rt; stop.to_string(rt.alloc())?.as_str() == told, "{}", job),
        }
    }
    Ok(())
}

#[test]
fn jobs_without_bad_lines_end_well(rt: HostRuntime) {
    assert!(rt; run(&rt, "\n# nothing to do\n".as_bytes()).is_ok());
    assert!(rt; run(&rt, "".as_bytes()).is_ok());
}
