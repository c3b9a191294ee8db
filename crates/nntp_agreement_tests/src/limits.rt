//! Lines at their greatest length and past it, and lines with octets that none may have.
use crate::runs::expect_run;
use nntp_fixtures::{check_by, checked_split, expect_octets, shown};
use nntp_run_fixtures::check_task;
use nntp_sessions::{NARROW_LENIENT, capture};
use nntp_wire::Overviews;
use std::alloc::{AllocError, Global};
use std::test::Fail;

/// Expects a verdict of both streams.
fn expect_verdict(
    alloc: Global,
    name: &str,
    (client, server): (&[u8], &[u8]),
    wanted: &[u8],
) -> Result<(), Fail> {
    let places = (client.len() / 2, server.len() / 2);
    let split = checked_split(alloc, NARROW_LENIENT, (client, server), places)?;
    expect_octets(name, &split, wanted)?;
    let verdict = check_by(NARROW_LENIENT, alloc, (client, server))?;
    expect_octets(name, &shown(alloc, &verdict)?, wanted)
}

/// Expects a verdict of both streams, and the report that a run writes of it. `told` is the same report with
/// nothing escaped.
fn expect_report(
    alloc: Global,
    (client, server): (&str, &str),
    told: &str,
    report: &str,
) -> Result<(), Fail> {
    let streams = (client.as_bytes(), server.as_bytes());
    expect_verdict(alloc, report, streams, told.as_bytes())?;
    let capture = capture(alloc, client, server)?;
    let wanted = (report.starts_with("consistent "), report.as_bytes());
    expect_run(
        alloc,
        report,
        check_task(NARROW_LENIENT, Overviews::Opaque),
        capture.as_str(),
        wanted,
    )
}

/// A text, and so many letters `a` behind it.
#[derive(Clone, Copy)]
struct Long {
    text: &'static str,
    letters: usize,
}

impl Long {
    fn spell(&self, alloc: Global) -> Result<String, AllocError> {
        let mut line = String::from_str(alloc, self.text)?;
        for _ in 0..self.letters {
            line.push('a')?;
        }
        Ok(line)
    }
}

/// What is said of a line and its answer.
#[derive(Clone, Copy)]
enum Said {
    Consistent,
    Malformed,
    OutOfPlace,
}

impl Said {
    fn report(&self, alloc: Global, line: &str, answer: &str) -> Result<String, AllocError> {
        let class = match self {
            Said::Consistent => {
                return String::from_str(
                    alloc,
                    "consistent answers=2 groups=0 numbers=0 articles=0\nspool 1\nend\n",
                );
            }
            Said::Malformed => "Malformed",
            Said::OutOfPlace => "OutOfPlace",
        };
        format!(in alloc; "bad answer 1 {class}\ncommand {line}\nanswer {answer}\n")
    }
}

const GROUP: Long = Long {
    text: "GROUP g",
    letters: 0,
};

const DENIED: Long = Long {
    text: "411 no",
    letters: 0,
};

const UNKNOWN: Long = Long {
    text: "XFOO",
    letters: 0,
};

/// A GROUP of 510 octets, and of 511.
const GROUP_510: Long = Long {
    text: "GROUP ",
    letters: 504,
};

const GROUP_511: Long = Long {
    text: "GROUP ",
    letters: 505,
};

/// A 411 of 510 octets, and of 511.
const DENIED_510: Long = Long {
    text: "411 ",
    letters: 506,
};

const DENIED_511: Long = Long {
    text: "411 ",
    letters: 507,
};

/// Lines and their answers.
const LINES: [(Long, Long, Said); 5] = [
    (GROUP_510, DENIED, Said::Consistent),
    (GROUP_511, DENIED, Said::OutOfPlace),
    (GROUP, DENIED_510, Said::Consistent),
    (GROUP, DENIED_511, Said::Malformed),
    (UNKNOWN, DENIED_511, Said::Consistent),
];

#[test]
fn lines_of_512_octets_and_more(rt: HostRuntime) -> Result<(), Fail> {
    for (line, answer, said) in LINES {
        let line = line.spell(rt.alloc())?;
        let answer = answer.spell(rt.alloc())?;
        let client = format!(in rt.alloc(); "{line}\r\n")?;
        let server = format!(in rt.alloc(); "200 hi\r\n{answer}\r\n")?;
        let report = said.report(rt.alloc(), line.as_str(), answer.as_str())?;
        let streams = (client.as_str(), server.as_str());
        expect_report(rt.alloc(), streams, report.as_str(), report.as_str())?;
    }
    Ok(())
}

/// What the client and the server send, with an octet that no line has; what is told of it, and what is written.
const OCTETS: [(&str, &str, &str, &str); 5] = [
    (
        "",
        "200 h\0i\r\n",
        "bad answer 0 Malformed\nno command\nanswer 200 h\0i\n",
        "bad answer 0 Malformed\nno command\nanswer 200 h\\x00i\n",
    ),
    (
        "",
        "200 h\ri\r\n",
        "bad answer 0 Malformed\nno command\nanswer 200 h\ri\n",
        "bad answer 0 Malformed\nno command\nanswer 200 h\\x0di\n",
    ),
    (
        "",
        "200 h\ni\r\n",
        "bad answer 0 Malformed\nno command\nanswer 200 h\ni\n",
        "bad answer 0 Malformed\nno command\nanswer 200 h\\x0ai\n",
    ),
    (
        "GROUP g\n\r\n",
        "200 hi\r\n411 no\r\n",
        "bad answer 1 OutOfPlace\ncommand GROUP g\n\nanswer 411 no\n",
        "bad answer 1 OutOfPlace\ncommand GROUP g\\x0a\nanswer 411 no\n",
    ),
    (
        "GROUP g\r\r\n",
        "200 hi\r\n411 no\r\n",
        "bad answer 1 OutOfPlace\ncommand GROUP g\r\nanswer 411 no\n",
        "bad answer 1 OutOfPlace\ncommand GROUP g\\x0d\nanswer 411 no\n",
    ),
];

#[test]
fn octets_that_no_line_has(rt: HostRuntime) -> Result<(), Fail> {
    for (client, server, told, written) in OCTETS {
        expect_report(rt.alloc(), (client, server), told, written)?;
    }
    Ok(())
}
