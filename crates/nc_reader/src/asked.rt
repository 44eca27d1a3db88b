//! A topic is looked up by the words of a statement, without a copy of its name.

ghost use Rattle.nc_reader.specs.Readings.{topic_of};
ghost use Rattle.nc_reader.specs.Topics.{same_topic};
ghost use Rattle.nc_reader.specs.Asked.{asked_alike, asked_same};

use crate::topic::{Subject, Topic};
use indexmap::Equivalent;

impl Equivalent<Topic> for Subject<'_> {
    ghost equivalent = { λ q k. same_topic (topic_of q) k };

    ghost respects_hash = { asked_alike };

    ghost respects_eq = { asked_same };

    fn equivalent(&self, key: &Topic) -> bool {
        key.is(*self)
    }
}
