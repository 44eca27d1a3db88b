//! Of what the lines of a file speak.

ghost use Rattle.std.specs.Prelude.{◌≡◌, IfOk};
ghost use Rattle.std.specs.Option.{option_map};
ghost use Rattle.nc_reader.specs.Readings.{topic_of};
ghost use Rattle.nc_reader.specs.Topics.{same_topic, asn_in, interface_name};

use nc_types::Text;
use std::alloc::{AllocError, Global};

/// A thing of which lines speak.
#[derive(Drop, PartialEq, Eq, Hash)]
pub(crate) enum Topic {
    /// The interface of this name.
    Interface(Text),
    /// The static routes, all of them.
    Statics,
    /// The process of the autonomous system of this number, from 1.
    Process(u32),
    /// The clause of the route map of this name with this number.
    Clause(Text, u16),
    /// The prefix list of this name.
    List(Text),
    /// The community list of this name.
    Communities(Text),
    /// The access lists, all of them.
    Filters,
    /// What applies an access list to the interface of this name, where packets come in, or else
    /// where they go out.
    Group(Text, bool),
}

/// A topic as a statement writes it. Its variants stand in the order of those of [`Topic`], so that
/// both are hashed alike, and a topic is looked up by the words of a statement.
#[derive(Clone, Copy, PartialEq, Eq, Hash)]
pub(crate) enum Subject<'a> {
    Interface(&'a [u8]),
    Statics,
    Process(u32),
    Clause(&'a [u8], u16),
    List(&'a [u8]),
    Communities(&'a [u8]),
    Filters,
    Group(&'a [u8], bool),
}

impl Topic {
    /// The topic of a statement.
    pub(crate) fn new(alloc: Global, subject: Subject<'_>) -> Result<Topic, AllocError>
        ensures { IfOk result (λ topic. topic ≡ topic_of subject.entry) }
    {
        Ok(match subject {
            Subject::Interface(name) => Topic::Interface(Text::new(alloc, name)?),
            Subject::Statics => Topic::Statics,
            Subject::Process(asn) => Topic::Process(asn),
            Subject::Clause(map, number) => Topic::Clause(Text::new(alloc, map)?, number),
            Subject::List(name) => Topic::List(Text::new(alloc, name)?),
            Subject::Communities(name) => Topic::Communities(Text::new(alloc, name)?),
            Subject::Filters => Topic::Filters,
            Subject::Group(name, inward) => Topic::Group(Text::new(alloc, name)?, inward),
        })
    }

    /// The number of the autonomous system of a process.
    pub(crate) fn asn(&self) -> Option<u32>
        ensures { result ≡ asn_in self.now }
    {
        match self {
            Topic::Process(asn) => Some(*asn),
            _ => None,
        }
    }

    /// The name of an interface.
    pub(crate) fn interface(&self) -> Option<&Text>
        ensures { option_map (λ name. name.now) result ≡ interface_name self.now }
    {
        match self {
            Topic::Interface(name) => Some(name),
            _ => None,
        }
    }

    /// Whether it is the topic of a statement.
    #[inline(always)]
    pub(crate) fn is(&self, subject: Subject<'_>) -> bool
        ensures { result ≡ same_topic (topic_of subject.entry) self.now }
    {
        match (subject, self) {
            (Subject::Interface(name), Topic::Interface(own)) => name == own.bytes(),
            (Subject::Statics, Topic::Statics) => true,
            (Subject::Process(asn), Topic::Process(own)) => asn == *own,
            (Subject::Clause(map, n), Topic::Clause(own, m)) => map == own.bytes() && n == *m,
            (Subject::List(name), Topic::List(own)) => name == own.bytes(),
            (Subject::Communities(name), Topic::Communities(own)) => name == own.bytes(),
            (Subject::Filters, Topic::Filters) => true,
            (Subject::Group(name, j), Topic::Group(own, i)) => name == own.bytes() && j == *i,
            _ => false,
        }
    }
}
