//! Four small networks, one of them with two sessions, and the replies. They were worked out by hand, but for those to
//! questions, which the second program answered.

use crate::network::{Config, Network};
use std::alloc::{AllocError, Global};

/// A line of a session, without its end, and its reply.
#[derive(Clone, Copy)]
pub struct Exchange {
    /// The line.
    pub line: &'static [u8],
    /// The reply; empty where there is none.
    pub reply: &'static [u8],
}

/// A network with a session, and how many calls of each object a run makes.
#[derive(Clone, Copy)]
pub struct Example {
    /// What it is called in the rows.
    pub name: &'static str,
    /// The files.
    pub files: &'static [Config],
    /// The session, line by line.
    pub exchanges: &'static [Exchange],
    /// How many calls enter and read the files: each is entered, read, and read again to its end.
    pub file_calls: u64,
    /// How many reads take the session, where each takes a line.
    pub reads: usize,
    /// How many writes take the replies.
    pub writes: usize,
}

// Two routers with a route to one prefix, each by the other.
const PAIR_FILES: [Config; 2] = [
    Config {
        name: "r1.cfg",
        text: b"hostname r1\ninterface Ethernet0\n ip address 10.0.12.1 255.255.255.252\n\
            ip route 10.9.0.0 255.255.0.0 10.0.12.2\n",
    },
    Config {
        name: "r2.cfg",
        text: b"hostname r2\ninterface Ethernet0\n ip address 10.0.12.2 255.255.255.252\n\
            ip route 10.9.0.0 255.255.0.0 10.0.12.1\n",
    },
];

// Two tests between which one is refused, and a line behind the end, which has no reply.
const PAIR_EXCHANGES: [Exchange; 6] = [
    Exchange {
        line: b"rib r1 10.9.0.0/16",
        reply: b"test 1 facts 6\nstrong 3 weak 0 uncovered 3 outside 2\nr1 .SSS\nr2 .UUU\n",
    },
    Exchange {
        line: b"# a note",
        reply: b"",
    },
    Exchange {
        line: b"rib r1 10.8.0.0/16",
        reply: b"refused absent rib r1 10.8.0.0/16\n",
    },
    Exchange {
        line: b"rib r2 10.9.0.0/16 via 10.0.12.1",
        reply: b"test 2 facts 12\nstrong 6 weak 0 uncovered 0 outside 2\nr1 .SSS\nr2 .SSS\n",
    },
    Exchange {
        line: b"quit",
        reply: b"",
    },
    Exchange {
        line: b"rib r1 10.9.0.0/16",
        reply: b"",
    },
];

// One router with an interface that is up and one that is shut.
const SINGLE_FILES: [Config; 1] = [Config {
    name: "r1.cfg",
    text: b"!\nhostname r1\ninterface Ethernet0\n description lan\n\
        \x20ip address 10.0.0.1 255.255.255.0\n!\ninterface Ethernet1\n\
        \x20ip address 10.0.1.1 255.255.255.0\n shutdown\n",
}];

// A test, and lines that are refused; the session has no line that ends it.
const SINGLE_EXCHANGES: [Exchange; 4] = [
    Exchange {
        line: b"rib r1 10.0.0.0/24",
        reply: b"test 1 facts 4\nstrong 2 weak 0 uncovered 3 outside 4\nr1 ..S.S.UUU\n",
    },
    Exchange {
        line: b"rib r1 10.0.1.0/24",
        reply: b"refused absent rib r1 10.0.1.0/24\n",
    },
    Exchange {
        line: b"rib r2 10.0.0.0/24",
        reply: b"refused router r2\n",
    },
    Exchange {
        line: b"frob",
        reply: b"refused syntax\n",
    },
];

// Two systems with a session between them, over which a network of the first goes to the second.
const ROUTE_FILES: [Config; 2] = [
    Config {
        name: "r1.cfg",
        text: b"hostname r1\ninterface Ethernet0\n ip address 10.0.12.1 255.255.255.252\n\
            interface Ethernet1\n ip address 10.1.0.1 255.255.255.0\nrouter bgp 65001\n\
            \x20bgp log-neighbor-changes\n network 10.1.0.0 mask 255.255.255.0\n\
            \x20neighbor 10.0.12.2 remote-as 65002\n",
    },
    Config {
        name: "r2.cfg",
        text: b"hostname r2\ninterface Ethernet0\n ip address 10.0.12.2 255.255.255.252\n\
            router bgp 65002\n neighbor 10.0.12.1 remote-as 65001\n",
    },
];

// Two tests of one route, which rest on the same facts, and between them a route that the first
// system doesn't take back.
const ROUTE_EXCHANGES: [Exchange; 3] = [
    Exchange {
        line: b"rib r2 10.1.0.0/24",
        reply: b"test 1 facts 29\nstrong 11 weak 0 uncovered 0 outside 3\nr1 .SSSSS.SS\nr2 .SSSS\n",
    },
    Exchange {
        line: b"bgp r1 10.1.0.0/24 from 10.0.12.2",
        reply: b"refused absent bgp r1 10.1.0.0/24 from 10.0.12.2\n",
    },
    Exchange {
        line: b"bgp r2 10.1.0.0/24 from 10.0.12.1",
        reply: b"test 2 facts 29\nstrong 11 weak 0 uncovered 0 outside 3\nr1 .SSSSS.SS\nr2 .SSSS\n",
    },
];

// Two routers with two links, and a static route over each to the network of the second.
const WAYS_FILES: [Config; 2] = [
    Config {
        name: "r1.cfg",
        text: b"hostname r1\ninterface Ethernet0\n ip address 10.0.12.1 255.255.255.252\n\
            interface Ethernet1\n ip address 10.0.13.1 255.255.255.252\ninterface Ethernet2\n\
            \x20ip address 10.1.0.1 255.255.255.0\nip route 10.2.0.0 255.255.255.0 10.0.12.2\n\
            ip route 10.2.0.0 255.255.255.0 10.0.13.2\n",
    },
    Config {
        name: "r2.cfg",
        text: b"hostname r2\ninterface Ethernet0\n ip address 10.0.12.2 255.255.255.252\n\
            interface Ethernet1\n ip address 10.0.13.2 255.255.255.252\ninterface Ethernet2\n\
            \x20ip address 10.2.0.1 255.255.255.0\n",
    },
];

// A packet to that network arrives by some way and by every way; then a line that no element has, and
// one of an element on which neither rests.
const WAYS_EXCHANGES: [Exchange; 4] = [
    Exchange {
        line: b"reach r1 10.2.0.9",
        reply: b"test 1 facts 25\nstrong 2 weak 10 uncovered 2 outside 2\nr1 .WWWWUUWW\n\
            r2 .WWWWSS\n",
    },
    Exchange {
        line: b"every r1 10.2.0.9",
        reply: b"test 2 facts 30\nstrong 12 weak 0 uncovered 2 outside 2\nr1 .SSSSUUSS\n\
            r2 .SSSSSS\n",
    },
    Exchange {
        line: b"element r1 1",
        reply: b"refused line\n",
    },
    Exchange {
        line: b"element r1 7",
        reply: b"test 3 facts 31\nstrong 14 weak 0 uncovered 0 outside 2\nr1 .SSSSSSSS\n\
            r2 .SSSSSS\n",
    },
];

// Questions about two tests over those ways, of which one is taken back.
const QUESTION_EXCHANGES: [Exchange; 11] = [
    Exchange {
        line: b"reach r1 10.2.0.9",
        reply: b"test 1 facts 25\nstrong 2 weak 10 uncovered 2 outside 2\nr1 .WWWWUUWW\n\
            r2 .WWWWSS\n",
    },
    Exchange {
        line: b"rib r1 10.2.0.0/24 via 10.0.12.2",
        reply: b"test 2 facts 25\nstrong 5 weak 7 uncovered 2 outside 2\nr1 .SSWWUUSW\n\
            r2 .WWWWSS\n",
    },
    Exchange {
        line: b"implies 1 2",
        reply: b"implies 1 2 no without r1:8\n",
    },
    Exchange {
        line: b"implies 2 1",
        reply: b"implies 2 1 no without r2:6\n",
    },
    Exchange {
        line: b"cut 1",
        reply: b"cut 1 1 r2:6\n",
    },
    Exchange {
        line: b"cut 1 keep r2",
        reply: b"cut 1 2 r1:2 r1:4\n",
    },
    Exchange {
        line: b"suite",
        reply: b"suite 1 2\n",
    },
    Exchange {
        line: b"dead",
        reply: b"dead 0\n",
    },
    Exchange {
        line: b"forget 1",
        reply: b"forgot 1\nstrong 3 weak 0 uncovered 11 outside 2\nr1 .SSUUUUSU\nr2 .UUUUUU\n",
    },
    Exchange {
        line: b"show r2",
        reply: b". 1 hostname r2\nU 2 interface Ethernet0\n\
            U 3  ip address 10.0.12.2 255.255.255.252\nU 4 interface Ethernet1\n\
            U 5  ip address 10.0.13.2 255.255.255.252\nU 6 interface Ethernet2\n\
            U 7  ip address 10.2.0.1 255.255.255.0\n",
    },
    Exchange {
        line: b"implies 2 1",
        reply: b"refused test 1\n",
    },
];

/// Two routers; the session ends with `quit`.
pub const PAIR: Example = Example {
    name: "pair",
    files: &PAIR_FILES,
    exchanges: &PAIR_EXCHANGES,
    file_calls: 6,
    reads: 5,
    writes: 3,
};

/// One router; the session ends with its bytes.
pub const SINGLE: Example = Example {
    name: "single",
    files: &SINGLE_FILES,
    exchanges: &SINGLE_EXCHANGES,
    file_calls: 3,
    reads: 5,
    writes: 4,
};

/// Two systems; the session ends with its bytes.
pub const ROUTE: Example = Example {
    name: "route",
    files: &ROUTE_FILES,
    exchanges: &ROUTE_EXCHANGES,
    file_calls: 6,
    reads: 4,
    writes: 3,
};

/// Two routers with two ways between them; the session ends with its bytes.
pub const WAYS: Example = Example {
    name: "ways",
    files: &WAYS_FILES,
    exchanges: &WAYS_EXCHANGES,
    file_calls: 6,
    reads: 5,
    writes: 4,
};

/// The same routers and questions about tests; the session ends with its bytes.
pub const QUESTIONS: Example = Example {
    name: "questions",
    files: &WAYS_FILES,
    exchanges: &QUESTION_EXCHANGES,
    file_calls: 6,
    reads: 12,
    writes: 11,
};

/// All examples, in the order of their rows.
pub static EXAMPLES: [Example; 5] = [PAIR, SINGLE, ROUTE, WAYS, QUESTIONS];

impl Example {
    /// The session, each line with this end.
    pub fn session(&self, alloc: Global, end: &[u8]) -> Result<Vec<u8>, AllocError> {
        let mut session = Vec::new(alloc);
        for exchange in self.exchanges {
            session.extend_from_slice(exchange.line)?;
            session.extend_from_slice(end)?;
        }
        Ok(session)
    }

    /// The replies to the first lines, so many of them as are given.
    pub fn replies(&self, alloc: Global, lines: usize) -> Result<Vec<u8>, AllocError> {
        let mut replies = Vec::new(alloc);
        for exchange in self.exchanges.iter().take(lines) {
            replies.extend_from_slice(exchange.reply)?;
        }
        Ok(replies)
    }

    /// The replies to all lines.
    pub fn all_replies(&self, alloc: Global) -> Result<Vec<u8>, AllocError> {
        self.replies(alloc, self.exchanges.len())
    }

    /// The first replies that have bytes, so many of them as are given.
    pub fn written(&self, alloc: Global, writes: usize) -> Result<Vec<u8>, AllocError> {
        let mut replies = Vec::new(alloc);
        let mut left = writes;
        for exchange in self.exchanges {
            if left > 0 && !exchange.reply.is_empty() {
                replies.extend_from_slice(exchange.reply)?;
                left -= 1;
            }
        }
        Ok(replies)
    }

    /// The words and the files, as a run takes them.
    pub fn network(&self, alloc: Global) -> Result<Network, AllocError> {
        Network::of(alloc, self.files)
    }
}
