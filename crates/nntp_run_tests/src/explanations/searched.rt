//! Of which contradictions `explain` looks for the reasons: behind fewer than three bad answers, and else where their
//! number times that of the accepted ones is below 20,000.
use super::expect_told;
use std::alloc::{AllocError, Global};
use std::test::Fail;

/// A group, and so many ids that are denied, in both streams; with the greeting these are two answers more.
fn denied(alloc: Global, ids: u32) -> Result<(String, String), AllocError> {
    let mut client = String::from_str(alloc, "GROUP g\r\n")?;
    let mut server = String::from_str(alloc, "200 hi\r\n211 9 1 9 g\r\n")?;
    for k in 1..=ids {
        let line = format!(in alloc; "STAT <{k}@x>\r\n")?;
        client.push_str(line.as_str())?;
        server.push_str("430 no\r\n")?;
    }
    Ok((client, server))
}

/// Adds that one of the ids has an article.
fn shown(
    alloc: Global,
    (client, server): (&mut String, &mut String),
    id: u32,
) -> Result<(), AllocError> {
    let line = format!(in alloc; "STAT <{id}@x>\r\n")?;
    client.push_str(line.as_str())?;
    let line = format!(in alloc; "223 0 <{id}@x>\r\n")?;
    Ok(server.push_str(line.as_str())?)
}

/// Adds what is printed of that answer before its reasons.
fn shown_told(alloc: Global, report: &mut String, index: u64, id: u32) -> Result<(), AllocError> {
    let lines = format!(in alloc;
        "bad answer {index} Contradiction\ncommand STAT <{id}@x>\nanswer 223 0 <{id}@x>\nin g since 1 at first\n\
        about article <{id}@x>\nsays article <{id}@x>\n"
    )?;
    Ok(report.push_str(lines.as_str())?)
}

/// Adds the answer that denied the id, as its reason.
fn denied_told(alloc: Global, report: &mut String, id: u32) -> Result<(), AllocError> {
    let lines = format!(in alloc;
        "because answer {}\ncommand STAT <{id}@x>\nanswer 430 no\nin g since 1 at first\nsays no article <{id}@x>\n",
        u64::from(id) + 1
    )?;
    Ok(report.push_str(lines.as_str())?)
}

#[test]
fn reasons_are_looked_for_below_a_product(rt: HostRuntime) -> Result<(), Fail> {
    let alloc = rt.alloc();
    // 250 answers are accepted: 79 times as many are 19,750, and 80 times as many are 20,000.
    for count in [80u32, 81] {
        let (mut client, mut server) = denied(alloc, 248)?;
        let mut report = String::new(alloc);
        for id in 1..=count {
            shown(alloc, (&mut client, &mut server), id)?;
            shown_told(alloc, &mut report, 249 + u64::from(id), id)?;
            if id <= 80 {
                denied_told(alloc, &mut report, id)?;
            } else {
                report.push_str("because some of 0 to 249\n")?;
            }
        }
        let last = format!(in alloc;
            "end answers={} bad={count} unanswered=0\n",
            250 + u64::from(count)
        )?;
        report.push_str(last.as_str())?;
        let streams = (client.as_str(), server.as_str());
        expect_told(&rt, alloc, streams, report.as_str())?;
    }
    Ok(())
}

#[test]
fn what_takes_no_search_is_told_beyond_it(rt: HostRuntime) -> Result<(), Fail> {
    let alloc = rt.alloc();
    let (mut client, mut server) = denied(alloc, 248)?;
    let mut report = String::new(alloc);
    for id in 1..=80 {
        shown(alloc, (&mut client, &mut server), id)?;
        shown_told(alloc, &mut report, 249 + u64::from(id), id)?;
        denied_told(alloc, &mut report, id)?;
    }
    // The first of them again, and one that contradicts itself.
    shown(alloc, (&mut client, &mut server), 1)?;
    shown_told(alloc, &mut report, 330, 1)?;
    denied_told(alloc, &mut report, 1)?;
    client.push_str("LAST\r\n")?;
    server.push_str("223 5 <q@x>\r\n")?;
    report.push_str(
        "bad answer 331 Contradiction\ncommand LAST\nanswer 223 5 <q@x>\nin g since 1 at first\nabout step g\nsays last g from first is 5\n\
        says number g 5 is <q@x>\nend answers=332 bad=82 unanswered=0\n",
    )?;
    let streams = (client.as_str(), server.as_str());
    Ok(expect_told(&rt, alloc, streams, report.as_str())?)
}

#[test]
fn reasons_of_three_are_looked_for_in_any_case(rt: HostRuntime) -> Result<(), Fail> {
    let alloc = rt.alloc();
    // 10,000 answers are accepted, and twice as many are 20,000.
    let (mut client, mut server) = denied(alloc, 9998)?;
    let mut report = String::new(alloc);
    for id in 1..=4 {
        shown(alloc, (&mut client, &mut server), id)?;
        shown_told(alloc, &mut report, 9999 + u64::from(id), id)?;
        if id <= 3 {
            denied_told(alloc, &mut report, id)?;
        } else {
            report.push_str("because some of 0 to 9999\n")?;
        }
    }
    report.push_str("end answers=10004 bad=4 unanswered=0\n")?;
    let streams = (client.as_str(), server.as_str());
    Ok(expect_told(&rt, alloc, streams, report.as_str())?)
}
