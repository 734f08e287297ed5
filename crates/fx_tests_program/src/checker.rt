//! The checker's own program: its arguments, and how it ends.
use fx_base::{Fault, Room};
use fx_checker::{
    Answer, all_arguments, answer_arguments, asks_for_help, finish_with, put_and_end,
};
use std::alloc::{AllocError, Global};
use std::test::Fail;

/// Returns arguments with these texts.
fn arguments_of(alloc: Global, texts: &[&str]) -> Result<Vec<String>, AllocError> {
    let mut arguments: Vec<String> = Vec::new(alloc);
    for text in texts {
        arguments.push(String::from_str(alloc, *text)?)?;
    }
    Ok(arguments)
}

#[test]
fn requests_help(rt: HostRuntime) -> Result<(), Fail> {
    for (texts, wanted) in [
        (["once_check", "--help"], true),
        (["once_check", "-h"], true),
        (["once_check", "--version"], false),
        (["--help", "network.json"], false),
    ] {
        let arguments = arguments_of(rt.alloc(), &texts)?;
        assert!(rt; asks_for_help(arguments.as_slice()) == wanted);
    }
    Ok(())
}

#[test]
fn writes_its_usage(rt: HostRuntime) -> Result<(), Fail> {
    for (texts, status) in [
        (["once_check", "-h"], 0),
        (["once_check", "network.json"], 6),
    ] {
        let arguments = arguments_of(rt.alloc(), &texts)?;
        let mut octets = [0u8; 2048];
        let mut room = Room::new(&mut octets);
        assert!(rt; answer_arguments(&rt, arguments.as_slice(), &mut room) == status);
        assert!(rt; room.octets().starts_with(b"usage: once_check "));
    }
    Ok(())
}

#[test]
fn refuses_a_file_that_does_not_exist(rt: HostRuntime) -> Result<(), Fail> {
    let texts = ["once_check", "no/network", "no/traffic", "no/certificate"];
    let arguments = arguments_of(rt.alloc(), &texts)?;
    let mut octets = [0u8; 64];
    let mut room = Room::new(&mut octets);
    assert!(rt; answer_arguments(&rt, arguments.as_slice(), &mut room) == 5);
    assert!(rt; room.octets() == b"device 901\n".as_slice());
    Ok(())
}

#[test]
fn ends_with_a_text(rt: HostRuntime) {
    let mut octets = [0u8; 32];
    let mut room = Room::new(&mut octets);
    assert!(rt; put_and_end(b"text\n", 6, &mut room) == 6);
    assert!(rt; finish_with(&Err(Fault::bare(101)), b"why\n", &mut room) == 2);
    assert!(rt; finish_with(&Ok(Answer::No), b"", &mut room) == 1);
    assert!(rt; room.octets() == b"text\nrefused 101\nwhy\n".as_slice());
    assert!(rt; put_and_end(b"a text without room", 0, &mut room) == 5);
}

#[test]
fn has_a_name(rt: HostRuntime) {
    assert!(rt; all_arguments(&rt).is_ok());
}
