//! How commands end: a last line, and a status.
use clap::error::ErrorKind;
use fx_audit::Answer;
use fx_base::{Fault, Room};
use fx_cli::{finish, finish_arguments, finish_unread};
use std::alloc::AllocError;
use std::io;
use std::test::Fail;

/// Returns whether a command with this outcome ends with this status and has written this line.
fn ends_with(outcome: &Result<Answer, Fault>, status: u8, line: &[u8]) -> bool {
    let mut octets = [0u8; 64];
    let mut room = Room::new(&mut octets);
    finish(outcome, &mut room) == status && room.octets() == line
}

/// Returns whether a fault at no place ends with this status and has written this line.
fn fails_with(number: u16, status: u8, line: &[u8]) -> bool {
    ends_with(&Err(Fault::bare(number)), status, line)
}

#[test]
fn ends_commands(rt: HostRuntime) {
    for (answer, status) in [(Answer::Yes, 0), (Answer::No, 1), (Answer::Unknown, 3)] {
        assert!(rt; ends_with(&Ok(answer), status, b""));
    }
    for (number, status, line) in [
        (900, 4, b"memory 900\n".as_slice()),
        (901, 5, b"device 901\n"),
        (902, 5, b"device 902\n"),
        (101, 2, b"refused 101\n"),
    ] {
        assert!(rt; fails_with(number, status, line));
    }
}

#[test]
fn ends_commands_at_places(rt: HostRuntime) -> Result<(), Fail> {
    let root = Fault::at_text(103, String::new(rt.alloc()));
    let index = String::from_str(rt.alloc(), "/report/a\tb")?;
    let key = Fault::at_text(205, index);
    assert!(rt;
        ends_with(&Err(Fault::at_line(855, 3)), 2, b"refused 855 line 3\n")
            && ends_with(&Err(root), 2, b"refused 103 \n")
            && ends_with(&Err(key), 2, b"refused 205 /report/a?b\n")
    );
    Ok(())
}

#[test]
fn fails_without_room(rt: HostRuntime) {
    let mut octets = [0u8; 4];
    let mut room = Room::new(&mut octets);
    assert_eq!(rt; finish(&Err(Fault::bare(101)), &mut room), 5);
}

#[test]
fn ends_for_want_of_memory(rt: HostRuntime) {
    let mut octets = [0u8; 64];
    let mut room = Room::new(&mut octets);
    let error = clap::Error::from(AllocError);
    assert!(rt; error.kind() == ErrorKind::OutOfMemory);
    assert!(rt; finish_arguments(rt.alloc(), &error, &mut room) == 4);
    assert!(rt; room.octets() == b"memory 900\n".as_slice());
}

/// Returns whether arguments that can't be read because of this error end with this status and this text.
fn ends_unread(kind: io::ErrorKind, status: u8, text: &[u8]) -> bool {
    let mut octets = [0u8; 128];
    let mut room = Room::new(&mut octets);
    finish_unread(kind, &mut room) == status && room.octets() == text
}

#[test]
fn ends_unread_words(rt: HostRuntime) {
    for (kind, status, text) in [
        (io::ErrorKind::OutOfMemory, 4, b"memory 900\n".as_slice()),
        (io::ErrorKind::NotFound, 5, b"device 901\n"),
        (
            io::ErrorKind::InvalidData,
            6,
            b"error: an argument is not UTF-8 text\n\nwhat to do: Name each file in UTF-8: rename it, or name a link to it.\n",
        ),
    ] {
        assert!(rt; ends_unread(kind, status, text));
    }
}
