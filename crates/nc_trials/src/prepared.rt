//! What a session is tried with: a network, the session and the replies to it, in memory.

use crate::example::Example;
use crate::judging::Expectation;
use crate::network::Network;
use crate::trial::Trial;
use std::alloc::{AllocError, Global};

/// A network, a session and the replies to it.
#[derive(Drop)]
pub struct Prepared {
    session: Vec<u8>,
    replies: Vec<u8>,
    network: Network,
}

impl Prepared {
    /// The network of an example, with this session and these replies.
    ///
    /// # Errors
    ///
    /// No memory for the network.
    pub fn new(
        alloc: Global,
        example: &Example,
        session: Vec<u8>,
        replies: Vec<u8>,
    ) -> Result<Prepared, AllocError> {
        let network = example.network(alloc)?;
        Ok(Prepared {
            session,
            replies,
            network,
        })
    }

    /// An example, each line of its session with this end.
    ///
    /// # Errors
    ///
    /// No memory for it.
    pub fn of(alloc: Global, example: &Example, end: &[u8]) -> Result<Prepared, AllocError> {
        let session = example.session(alloc, end)?;
        let replies = example.all_replies(alloc)?;
        Prepared::new(alloc, example, session, replies)
    }

    /// A run in which nothing fails and the session comes at once.
    pub fn trial(&self) -> Trial<'_> {
        Trial::new(&self.network, &self.session)
    }

    /// A run that ends well and writes the replies.
    pub fn done(&self) -> Expectation<'_> {
        Expectation::done(&self.replies)
    }
}
