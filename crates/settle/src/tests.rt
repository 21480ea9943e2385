// What scripts are answered, by example.
use crate::answer::Answer;
use crate::desk::Desk;
use std::alloc::{AllocError, Global};
use std::fmt::Write;
use std::test::Fail;

// An answer, on a line of its own.
fn write_line(text: &mut String, answer: Answer) -> Result<(), AllocError> {
    match answer {
        Ok(reply) => writeln!(text, "{reply}"),
        Err(trouble) => writeln!(text, "{trouble}"),
    }
}

// The answers to a script, each on a line of its own.
fn answers(heap: Global, script: &[u8]) -> Result<String, AllocError> {
    let mut desk = Desk::new();
    let mut text = String::new(heap);
    for byte in script {
        if let Some(answer) = desk.take(*byte) {
            write_line(&mut text, answer)?;
        }
    }
    if let Some(answer) = desk.end_line() {
        write_line(&mut text, answer)?;
    }
    if desk.failed() {
        text.push_str("failed")?;
    }
    Ok(text)
}

#[test]
fn books(rt: HostRuntime) -> Result<(), Fail> {
    let script =
        b"book table 2 2\nput 0 1 70\nmove 0 1 1 30\npull 1 1 31\nbalance 1 1\nbalances\n\n# end";
    assert_eq!(rt;
        answers(rt.alloc(), script)?.as_str(),
        "ok\nok\nok\nrefused book 7\n30\nspace 4294967295\n"
    );
    Ok(())
}

#[test]
fn errors(rt: HostRuntime) -> Result<(), Fail> {
    let script =
        b"# \xff\nput 0 0 1\nbook table 1 1\nput \xff 0 1\nput 0 0 123456789012345678901234567890\nbook table 0 1\nbalances";
    assert_eq!(rt;
        answers(rt.alloc(), script)?.as_str(),
        "error no book\nok\nerror line 4: not a number\nerror line 5: number out of range\nrefused book 19\nerror no book\nfailed"
    );
    Ok(())
}

#[test]
fn nothing_and_a_long_line(rt: HostRuntime) -> Result<(), Fail> {
    assert_eq!(rt; answers(rt.alloc(), b"")?.as_str(), "");
    let script = [b'x'; 70_000];
    assert_eq!(rt;
        answers(rt.alloc(), &script)?.as_str(),
        "error line 1: line too long\nfailed"
    );
    Ok(())
}
