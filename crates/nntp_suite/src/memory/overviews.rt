//! Want of memory while sessions are judged in which overviews tell of headers, or ids are listed (RFC 3977, sections 8.3.2
//! and 8.5).
use crate::memory::facts::outcome;
use crate::memory::several::{judge_at_once, judge_in_turn, verify_given};
use crate::memory::spools::right_if_written;
use nntp_fixtures::{note_taking, recorded_taking};
use nntp_little_memory::{Ended, refuse_each, right_if};
use nntp_pair::Class;
use nntp_refusing::{Refusal, Refusing};
use nntp_sessions::{Choice, NARROW_LENIENT};
use nntp_several::Recorded;
use nntp_spool::Spool;
use nntp_wire::Overviews;
use nntp_witness::witness;
use std::alloc::{AllocError, Allocator, Global};
use std::test::Fail;

/// A session by name.
#[derive(Clone, Copy)]
struct Session {
    name: &'static str,
    /// What the client sent, and what the server sent.
    client: &'static str,
    server: &'static str,
    /// How many answers are right, and the class of the one behind them, if that is bad.
    end: (u64, Option<Class>),
    /// The lines that tell it, before the text of a spool.
    verdict: &'static str,
    /// The text of the spool that is given for the right answers.
    given: &'static str,
    /// What `verify_sessions` answers of it.
    verified: &'static str,
}

/// Two overviews, and behind them a head that tells the same, and a body.
const SAME_HEAD: Session = Session {
    name: "a head that tells what an overview tells",
    client: "GROUP g\r\nXOVER 1-2\r\nHEAD 1\r\nBODY 2\r\n",
    server: "200 hi\r\n211 5 1 5 g\r\n\
        224 x\r\n1\tone\tf\td\t<a@x>\t<r@x>  <q@x>\t9\t1\r\n2\t two  more\t\td\t<b@x>\r\n.\r\n\
        221 1 <a@x>\r\nSubject: one\r\nFrom: f\r\nDate: d\r\nreferences: <r@x>\r\n\t<q@x>\r\n.\r\n\
        222 2 <b@x>\r\nbody\r\n.\r\n",
    end: (5, None),
    verdict: "consistent answers=5\n",
    given: "spool 1\ngroup g 2\n1 <a@x>\n2 <b@x>\n\
        article <a@x> 5 0\n|Subject: one\n|From: f\n|Date: d\n|references: <r@x>\n|\t<q@x>\n\
        article <b@x> 3 1\n|Message-ID: <b@x>\n|Subject: two more\n|Date: d\n|body\nend\n",
    verified: "permits answers=5\n",
};

/// An overview, and behind it a head that tells another Subject.
const OTHER_HEAD: Session = Session {
    name: "a head that tells something else than an overview",
    client: "GROUP g\r\nXOVER 1\r\nHEAD 1\r\n",
    server: "200 hi\r\n211 5 1 5 g\r\n224 x\r\n1\tone\tf\td\t<a@x>\t<r@x>\t9\t1\r\n.\r\n\
        221 1 <a@x>\r\nSubject: two\r\nFrom: f\r\nDate: d\r\nReferences: <r@x>\r\n.\r\n",
    end: (3, Some(Class::Contradiction)),
    verdict: "session 0\nbad answer 3 Contradiction\ncommand HEAD 1\nanswer 221 1 <a@x>\n",
    given: "spool 1\ngroup g 1\n1 <a@x>\narticle <a@x> 5 0\n\
        |Message-ID: <a@x>\n|Subject: one\n|From: f\n|Date: d\n|References: <r@x>\nend\n",
    verified: "session 0\nrefuses answer 3\n",
};

/// A head, and behind it an overview by the id that tells another Date.
const OTHER_OVERVIEW: Session = Session {
    name: "an overview that tells something else than a head",
    client: "HEAD <a@x>\r\nOVER <a@x>\r\n",
    server: "200 hi\r\n221 0 <a@x>\r\nSubject: one\r\nFrom: f\r\nDate: d\r\n.\r\n\
        224 x\r\n0\tone\tf\te\t<a@x>\t\t9\t1\r\n.\r\n",
    end: (2, Some(Class::Contradiction)),
    verdict: "session 0\nbad answer 2 Contradiction\ncommand OVER <a@x>\nanswer 224 x\n",
    given: "spool 1\narticle <a@x> 3 0\n|Subject: one\n|From: f\n|Date: d\nend\n",
    verified: "session 0\nrefuses answer 2\n",
};

/// Overviews of one article in two groups.
const TWO_GROUPS: Session = Session {
    name: "two overviews of an article",
    client: "GROUP g\r\nOVER\r\nGROUP h\r\nXOVER 7\r\n",
    server: "200 hi\r\n211 5 1 5 g\r\n224 x\r\n1\tone more\tf\t\t<a@x>\r\n.\r\n\
        211 5 3 9 h\r\n224 x\r\n7\tone  more \tf\t\t<a@x>\t\t9\t1\r\n.\r\n",
    end: (5, None),
    verdict: "consistent answers=5\n",
    given: "spool 1\ngroup g 1\n1 <a@x>\ngroup h 1\n7 <a@x>\n\
        article <a@x> 3 0\n|Message-ID: <a@x>\n|Subject: one more\n|From: f\nend\n",
    verified: "permits answers=5\n",
};

/// The ids of a range, and behind them an overview of one of them.
const LISTED_IDS: Session = Session {
    name: "ids of a range, and an overview of one",
    client: "GROUP g\r\nHDR Message-ID 1-3\r\nXOVER 1\r\nSTAT 3\r\n",
    server: "200 hi\r\n211 5 1 5 g\r\n225 h\r\n1 <a@x>\r\n3 <c@x>\r\n.\r\n\
        224 x\r\n1\tone more\tf\t\t<a@x>\r\n.\r\n223 3 <c@x>\r\n",
    end: (5, None),
    verdict: "consistent answers=5\n",
    given: "spool 1\ngroup g 2\n1 <a@x>\n3 <c@x>\n\
        article <a@x> 3 0\n|Message-ID: <a@x>\n|Subject: one more\n|From: f\n\
        article <c@x> 1 0\n|Message-ID: <c@x>\nend\n",
    verified: "permits answers=5\n",
};

const SESSIONS: [Session; 5] = [
    SAME_HEAD,
    OTHER_HEAD,
    OTHER_OVERVIEW,
    TWO_GROUPS,
    LISTED_IDS,
];

impl Session {
    /// The session, where overviews are judged.
    fn recorded(&self) -> Recorded<'static> {
        recorded_taking(Overviews::Judged, (self.client, self.server))
    }

    /// The verdict, and behind a yes the text of the given spool.
    fn report(&self, alloc: Global) -> Result<String, AllocError> {
        match self.end.1 {
            Some(_) => String::from_str(alloc, self.verdict),
            None => format!(in alloc; "{}{}", self.verdict, self.given),
        }
    }
}

/// Notes the exchanges of a session.
fn note<A: Allocator + Copy>(heap: A, session: &Session) -> Ended {
    let (client, server) = (session.client.as_bytes(), session.server.as_bytes());
    let Choice { limit, marks } = NARROW_LENIENT;
    let noted = note_taking(heap, limit, marks, Overviews::Judged, client, server);
    match outcome(noted) {
        Ok(outcome) => right_if(outcome == session.end),
        Err(ended) => ended,
    }
}

#[test]
fn overviews_are_noted(rt: HostRuntime) -> Result<(), Fail> {
    for session in &SESSIONS {
        let refused = refuse_each(rt.alloc(), session.name, |heap| note(heap, session))?;
        assert!(rt; refused > 3, "{refused}");
    }
    Ok(())
}

/// Makes the spool that is given for a session, of facts that are kept in `ample` memory.
fn make_spool<A: Allocator + Copy>(alloc: Global, heap: A, ample: A, session: &Session) -> Ended {
    let (client, server) = (session.client.as_bytes(), session.server.as_bytes());
    let Choice { limit, marks } = NARROW_LENIENT;
    let noted = note_taking(ample, limit, marks, Overviews::Judged, client, server);
    let Ok(mut whole) = noted else {
        return Ended::Wrong;
    };
    match witness(heap, &mut whole.facts) {
        Ok(spool) => right_if_written(alloc, &spool, session.given.as_bytes()),
        Err(AllocError) => Ended::Memory,
    }
}

#[test]
fn spools_are_made_of_overviews(rt: HostRuntime) -> Result<(), Fail> {
    let ample = Refusing::new(rt.alloc(), Refusal::Never);
    for session in [SAME_HEAD, TWO_GROUPS, LISTED_IDS] {
        let refused = refuse_each(rt.alloc(), session.name, |heap| {
            make_spool(rt.alloc(), heap, &ample, &session)
        })?;
        assert!(rt; refused > 3, "{refused}");
    }
    Ok(())
}

#[test]
fn verdicts_on_sessions_with_overviews(rt: HostRuntime) -> Result<(), Fail> {
    for session in &SESSIONS {
        let wanted = session.report(rt.alloc())?;
        let sessions = [session.recorded()];
        refuse_each(rt.alloc(), session.name, |heap| {
            judge_at_once(rt.alloc(), heap, &sessions, wanted.as_str())
        })?;
    }
    Ok(())
}

#[test]
fn sessions_with_overviews_in_turn(rt: HostRuntime) -> Result<(), Fail> {
    for session in &SESSIONS {
        let wanted = session.report(rt.alloc())?;
        let sessions = [session.recorded()];
        refuse_each(rt.alloc(), session.name, |heap| {
            judge_in_turn(
                rt.alloc(),
                heap,
                Overviews::Judged,
                &sessions,
                wanted.as_str(),
            )
        })?;
    }
    Ok(())
}

#[test]
fn spools_that_are_put_to_overviews(rt: HostRuntime) -> Result<(), Fail> {
    for session in &SESSIONS {
        let sessions = [session.recorded()];
        let spool = Spool::read(rt.alloc(), session.given.as_bytes())?;
        refuse_each(rt.alloc(), session.name, |heap| {
            verify_given(rt.alloc(), heap, &spool, &sessions, session.verified)
        })?;
    }
    Ok(())
}
