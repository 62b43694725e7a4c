//! What the console should do on examples.
use crate::session::Session;
use std::test::Fail;

// line, what is told of it
const BAD: [(&str, &str); 14] = [
    ("evaluated", "no such command"),
    ("Summary", "no such command"),
    ("summary now", "a word too many"),
    ("arithmetic", "a word is missing"),
    ("arithmetic plain tracing", "a word too many"),
    (
        "arithmetic float",
        "no such arithmetic: it is plain or tracing",
    ),
    ("evaluate 0 1", "a word is missing"),
    ("evaluate zero 1 4100", "word 2 is no signed 32-bit number"),
    (
        "evaluate 0 2147483648 4100",
        "word 3 is no signed 32-bit number",
    ),
    ("evaluate 1 0 4100", "the low limit is over the high limit"),
    (
        "evaluate 0 1 410",
        "word 4 is not pairs of hexadecimal digits",
    ),
    (
        "evaluate 0 1 4g00",
        "word 4 is not pairs of hexadecimal digits",
    ),
    (
        "evaluate 0 1 4100 7 1.5",
        "word 6 is no signed 32-bit number",
    ),
    (
        "evaluate 0 1 4100 0 1 2 3 4 5 6 7 8 9 0 1 2 3 4 5 6 7 8 9 0 1 2 3 4 5 6 7 8 9 0 1 2",
        "more than 32 readings",
    ),
];

#[test]
fn good_lines_are_answered(rt: HostRuntime) -> Result<(), Fail> {
    let heap = rt.alloc();
    let mut session = Session::new();
    for (line, answer) in [
        ("", ""),
        (" \t ", ""),
        ("# evaluate", ""),
        ("evaluate 0 100 4100410142 3 4", "evaluate: 7 -"),
        ("evaluate -5 5 4100410143 -30 +4", "evaluate: -5 -"),
        ("evaluate 0 100 - 3", "evaluate: refused 6 place 0"),
        ("arithmetic tracing", ""),
        (" evaluate 0 100\t4100410242 3 4 5 ", "evaluate: 8 00000005"),
        (
            "evaluate -2147483648 2147483647 40ffffFF7f",
            "evaluate: 2147483647 00000000",
        ),
        (
            "evaluate 0 100 41004103 3 4 5",
            "evaluate: refused 7 place 2",
        ),
        ("arithmetic plain", ""),
        ("evaluate 0 100 4100 101", "evaluate: 100 -"),
        (
            "summary",
            "summary: loads 0 ticks 0 steps 0 refusals 2 longest tick 0 of 0",
        ),
    ] {
        let answered = match session.take_line(heap, line)? {
            Some(answer) => answer.to_string(heap)?,
            None => String::new(heap),
        };
        assert!(rt; answered.as_str() == answer, "{}", line);
    }
    Ok(())
}

#[test]
fn bad_lines_are_told(rt: HostRuntime) -> Result<(), Fail> {
    let heap = rt.alloc();
    let mut session = Session::new();
    for (line, told) in BAD {
        match session.take_line(heap, line) {
            Ok(_) => return Err(Fail::new(line)),
            Err(problem) => assert!(rt; problem.to_string(heap)?.as_str() == told, "{}", line),
        }
    }
    Ok(())
}
