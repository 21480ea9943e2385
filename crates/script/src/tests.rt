// What lines say, by example.
use crate::command::{BookCommand, Command};
use crate::line::Line;
use crate::misread::Misread;
use crate::reader::read;

fn said(command: BookCommand) -> Result<Option<Command>, Misread> {
    Ok(Some(Command::OnBook(command)))
}

#[test]
fn commands(rt: HostRuntime) {
    assert_eq!(rt;
        read(b"book table 75 17"),
        Ok(Some(Command::Table {
            accounts: 75,
            assets: 17,
        }))
    );
    assert_eq!(rt;
        read(b"put 1 2 30"),
        said(BookCommand::Put {
            account: 1,
            asset: 2,
            amount: 30,
        })
    );
    assert_eq!(rt;
        read(b"\tpull 255  02\r 0018446744073709551615 "),
        said(BookCommand::Pull {
            account: 255,
            asset: 2,
            amount: u64::MAX,
        })
    );
    assert_eq!(rt;
        read(b"move 1 2 3 4"),
        said(BookCommand::Move {
            from: 1,
            to: 2,
            asset: 3,
            amount: 4,
        })
    );
    assert_eq!(rt;
        read(b"balance 3 0"),
        said(BookCommand::Balance {
            account: 3,
            asset: 0,
        })
    );
    assert_eq!(rt; read(b"balances"), said(BookCommand::Balances));
    assert_eq!(rt; read(b" \t\r"), Ok(None));
    assert_eq!(rt; read(b" #put \xff"), Ok(None));
}

#[test]
fn misread(rt: HostRuntime) {
    assert_eq!(rt; read(b"Put 1 2 3"), Err(Misread::Unknown));
    assert_eq!(rt; read(b"\xff\xfe 1"), Err(Misread::Unknown));
    assert_eq!(rt; read(b"book journal 2 2 9"), Err(Misread::Unknown));
    assert_eq!(rt; read(b"put 1 2"), Err(Misread::Count));
    assert_eq!(rt; read(b"balances 1"), Err(Misread::Count));
    assert_eq!(rt; read(b"put +1 2 3"), Err(Misread::NoNumber));
    assert_eq!(rt; read(b"put 256 2 3"), Err(Misread::Range));
    assert_eq!(rt; read(b"put 1 2 18446744073709551616"), Err(Misread::Range));
    assert_eq!(rt;
        read(b"put 1 2 123456789012345678901234567890"),
        Err(Misread::Range)
    );
}

#[test]
fn long_lines(rt: HostRuntime) {
    let mut line = Line::new();
    for _ in 0..65_536 {
        line.push(b'#');
    }
    assert_eq!(rt; line.read(), Ok(None));
    for _ in 0..4_464 {
        line.push(b'#');
    }
    assert_eq!(rt; line.read(), Err(Misread::Long));
    line.clear();
    assert_eq!(rt; line.read(), Ok(None));
    assert_eq!(rt; Misread::Long.words(), "line too long");
}
