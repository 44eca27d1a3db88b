//! As many tests as a session may have, and one more.

use crate::example::SINGLE;
use crate::judging::{Expectation, Verdict};
use crate::row::{Row, add_row};
use crate::sized::repeated;
use crate::tool::Tool;
use crate::trial::Trial;
use std::alloc::{AllocError, Global};

// How many tests are accepted.
const TESTS: usize = 4_096;

// A test that is asked many times: its line, and its reply behind the number.
#[derive(Clone, Copy)]
struct RepeatedTest {
    line: &'static [u8],
    reply: &'static [u8],
}

// A test of a route.
const ROUTE: RepeatedTest = RepeatedTest {
    line: b"rib r1 10.0.0.0/24\n",
    reply: b" facts 4\nstrong 2 weak 0 uncovered 3 outside 4\nr1 ..S.S.UUU\n",
};

// A test of an element.
const ELEMENT: RepeatedTest = RepeatedTest {
    line: b"element r1 9\n",
    reply: b" facts 1\nstrong 3 weak 0 uncovered 2 outside 4\nr1 ..U.U.SSS\n",
};

// So many tests of one kind more than are accepted.
#[derive(Clone, Copy)]
struct ManyTests {
    name: &'static str,
    test: RepeatedTest,
    more: usize,
}

static MANY_TESTS: [ManyTests; 4] = [
    ManyTests {
        name: "4,096 tests",
        test: ROUTE,
        more: 0,
    },
    ManyTests {
        name: "4,097 tests",
        test: ROUTE,
        more: 1,
    },
    ManyTests {
        name: "4,096 tests of an element",
        test: ELEMENT,
        more: 0,
    },
    ManyTests {
        name: "4,097 tests of an element",
        test: ELEMENT,
        more: 1,
    },
];

// Adds the reply to the test of that number.
fn add_reply(
    alloc: Global,
    replies: &mut Vec<u8>,
    test: &RepeatedTest,
    number: usize,
) -> Result<(), AllocError> {
    let head = format!(in alloc; "test {number}")?;
    replies.extend_from_slice(head.as_str().as_bytes())?;
    replies.extend_from_slice(test.reply)?;
    Ok(())
}

// The replies to as many such tests as are accepted, and to so many more.
fn test_replies(alloc: Global, test: &RepeatedTest, more: usize) -> Result<Vec<u8>, AllocError> {
    let mut replies = Vec::new(alloc);
    for number in 1..TESTS + 1 {
        add_reply(alloc, &mut replies, test, number)?;
    }
    for _ in 0..more {
        replies.extend_from_slice(b"refused limit tests\n")?;
    }
    Ok(replies)
}

// What comes of a session over a router that must have these replies.
fn over_replies<T: Tool>(
    tool: &T,
    alloc: Global,
    session: &[u8],
    replies: &[u8],
) -> Result<Verdict, AllocError> {
    let network = SINGLE.network(alloc)?;
    let trial = Trial::new(&network, session);
    Verdict::of(tool, alloc, trial, Expectation::done(replies))
}

// What comes of a session of so many tests.
fn over_tests<T: Tool>(
    tool: &T,
    alloc: Global,
    many: &ManyTests,
    session: &[u8],
) -> Result<Verdict, AllocError> {
    let replies = test_replies(alloc, &many.test, many.more)?;
    over_replies(tool, alloc, session, &replies)
}

// What comes of as many tests as are accepted, and so many more.
fn judge<T: Tool>(tool: &T, alloc: Global, many: &ManyTests) -> Result<Verdict, AllocError> {
    let session = repeated(alloc, b"", many.test.line, TESTS.saturating_add(many.more))?;
    over_tests(tool, alloc, many, &session)
}

/// The rows on how many tests are accepted.
///
/// # Errors
///
/// No memory for the rows or the objects of a run.
pub fn add_many_tests<T: Tool>(
    tool: &T,
    alloc: Global,
    rows: &mut Vec<Row>,
) -> Result<(), AllocError> {
    for many in &MANY_TESTS {
        add_row(rows, "limits", many.name, judge(tool, alloc, many))?;
    }
    Ok(())
}
