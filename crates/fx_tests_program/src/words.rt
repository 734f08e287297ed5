//! Arguments that specify a call, and arguments that don't.
use fx_base::Room;
use fx_cli::{Call, finish_arguments, read_words};
use std::alloc::{AllocError, Global};
use std::test::Fail;

/// Returns the arguments of a command line, separated by spaces.
fn words(alloc: Global, line: &str) -> Result<Vec<String>, AllocError> {
    let mut words = Vec::new(alloc);
    for word in line.split(' ') {
        words.push(String::from_str(alloc, word)?)?;
    }
    Ok(words)
}

/// Returns the command of the call that the arguments specify, and its files and option, each after a bar, or an empty
/// text if they specify none.
fn call(alloc: Global, line: &str) -> Result<String, AllocError> {
    let words = words(alloc, line)?;
    match read_words(alloc, words.as_slice()) {
        Ok(call) => parts(alloc, &call),
        Err(_) => Ok(String::new(alloc)),
    }
}

/// Returns a call's command, and its files and option, each after a bar.
fn parts(alloc: Global, call: &Call) -> Result<String, AllocError> {
    match call {
        Call::Replay {
            network,
            traffic,
            run,
        } => format!(in alloc; "replay|{network}|{traffic}|{run}"),
        Call::Collect { network, stream } => format!(in alloc; "collect|{network}|{stream}"),
        Call::Check {
            network,
            traffic,
            certificate,
        } => format!(in alloc; "check|{network}|{traffic}|{certificate}"),
        Call::Confirm {
            network,
            traffic,
            refutation,
        } => format!(in alloc; "confirm|{network}|{traffic}|{refutation}"),
        Call::Audit {
            network,
            traffic,
            limit,
        } => format!(in alloc; "audit|{network}|{traffic}|{limit}"),
        Call::Run {
            network,
            traffic,
            capture,
            schedule,
            links,
        } => {
            let links = links.as_deref().unwrap_or("");
            format!(in alloc; "run|{network}|{traffic}|{capture}|{schedule}|{links}")
        }
        Call::Lint { network, traffic } => {
            let traffic = traffic.as_deref().unwrap_or("");
            format!(in alloc; "lint|{network}|{traffic}")
        }
        Call::Draw {
            network,
            traffic,
            answer,
            class,
        } => {
            let traffic = traffic.as_deref().unwrap_or("");
            let answer = answer.as_deref().unwrap_or("");
            let class = class.as_deref().unwrap_or("");
            format!(in alloc; "draw|{network}|{traffic}|{answer}|{class}")
        }
        Call::Sum { network, totals } => format!(in alloc; "sum|{network}|{totals}"),
        Call::Join {
            network,
            traffic,
            parts,
        } => format!(in alloc; "join|{network}|{traffic}|{parts}"),
        Call::Explain { number } => format!(in alloc; "explain|{number}"),
    }
}

#[test]
fn reads_words(rt: HostRuntime) -> Result<(), Fail> {
    for (line, wanted) in [
        (
            "once replay net.json traffic.json run.txt",
            "replay|net.json|traffic.json|run.txt",
        ),
        ("./a/b replay - -- -x --", "replay|-|-x|--"),
        (
            "once collect net.json stream.ipfix",
            "collect|net.json|stream.ipfix",
        ),
        ("once draw net.json", "draw|net.json|||"),
        (
            "once draw net.json t.json c.txt",
            "draw|net.json|t.json|c.txt|",
        ),
        ("once draw net.json --class web", "draw|net.json|||web"),
        (
            "once draw net.json t.json --class=-w c.txt",
            "draw|net.json|t.json|c.txt|-w",
        ),
        ("once draw net.json --class", ""),
        ("once draw net.json t.json c.txt d", ""),
        ("once sum net.json totals.txt", "sum|net.json|totals.txt"),
        ("once sum net.json", ""),
        (
            "once join net.json t.json p.txt",
            "join|net.json|t.json|p.txt",
        ),
        ("once join net.json t.json", ""),
        (
            "once check net.json traffic.json cert.txt",
            "check|net.json|traffic.json|cert.txt",
        ),
        (
            "once confirm net.json traffic.json refutation.txt",
            "confirm|net.json|traffic.json|refutation.txt",
        ),
        (
            "once audit net.json traffic.json",
            "audit|net.json|traffic.json|1000000",
        ),
        ("once audit --limit 7 a b", "audit|a|b|7"),
        ("once audit a --limit=1000000 b", "audit|a|b|1000000"),
        ("once audit a b --limit +001", "audit|a|b|1"),
        ("once audit -- --limit 7", "audit|--limit|7|1000000"),
        ("once run A B C D --links E", "run|A|B|C|D|E"),
        ("once run A B --links=-E C D", "run|A|B|C|D|-E"),
        ("once run A B C D", "run|A|B|C|D|"),
        ("once lint net.json", "lint|net.json|"),
        (
            "once lint net.json traffic.json",
            "lint|net.json|traffic.json",
        ),
        ("once lint -- -x", "lint|-x|"),
        ("once explain 409", "explain|409"),
    ] {
        assert!(rt; call(rt.alloc(), line)?.as_str() == wanted);
    }
    Ok(())
}

/// Returns the exit status of arguments that specify no call, and whether a text was written. Returns `None` if they
/// specify a call.
fn ends_words(alloc: Global, line: &str) -> Result<Option<(u8, bool)>, AllocError> {
    let words = words(alloc, line)?;
    let mut octets = [0u8; 8192];
    let mut room = Room::new(&mut octets);
    Ok(match read_words(alloc, words.as_slice()) {
        Ok(_) => None,
        Err(error) => {
            let status = finish_arguments(alloc, &error, &mut room);
            Some((status, !room.octets().is_empty()))
        }
    })
}

#[test]
fn ends_words_that_name_no_call(rt: HostRuntime) -> Result<(), Fail> {
    for (line, status) in [
        ("once --help", 0),
        ("once replay -h", 0),
        ("once help", 0),
        ("once --version", 0),
        ("once -V", 0),
        ("once replay --version", 6),
        ("once repaly a b c", 6),
        ("once replay a b", 6),
        ("once replay a b c d", 6),
        ("once replay a -x c", 6),
        ("once collect a b c", 6),
        ("once check a b", 6),
        ("once confirm a b", 6),
        ("once audit a b c", 6),
        ("once audit a b --limit", 6),
        ("once audit a b --limit 0", 6),
        ("once audit a b --limit=1000001", 6),
        ("once audit a b --limit many", 6),
        ("once audit a b --limit -7", 6),
        ("once audit a b --lim 7", 6),
        ("once audit --limit 7 a --limit 7 b", 6),
        ("once run a b c", 6),
        ("once run a b c d e", 6),
        ("once run a b c d --links", 6),
        ("once run a b c d --links -e", 6),
        ("once run --links e a b c d --links e", 6),
        ("once lint", 6),
        ("once lint a b c", 6),
        ("once lint -x", 6),
        ("once explain", 6),
        ("once explain 1 2", 6),
    ] {
        assert!(rt; ends_words(rt.alloc(), line)? == Some((status, true)));
    }
    Ok(())
}
