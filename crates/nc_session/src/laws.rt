//! What follows from the definitions alone.

ghost use Rattle.std.specs.Prelude.{◌≡◌, ◌⊎◌, ℕ, List};
ghost use Rattle.nc_outside.specs.Named.{Named};
ghost use Rattle.nc_types.specs.declared.TheConstants.{ROUTER_LIMIT, LINE_LIMIT, NAME_LIMIT, MULTIPATH_LIMIT, PATH_LIMIT, COMMUNITY_LIMIT, HOP_LIMIT, UNUSED_DISTANCE, DEFAULT_PREFERENCE};
ghost use Rattle.nc_network.specs.declared.TheConstants.{PREFIX_LIMIT, NEIGHBOR_LIMIT};
ghost use Rattle.nc_read_link.specs.declared.TheConstants.{DEFAULT_DISTANCE};
ghost use Rattle.nc_read_policy.specs.declared.TheConstants.{PREPEND_LIMIT};
ghost use Rattle.nc_tables.specs.declared.TheConstants.{EXTERNAL_DISTANCE, INTERNAL_DISTANCE, LOCAL_DISTANCE};
ghost use Rattle.nc_words.specs.declared.TheConstants.{DEFAULT_ROUNDS, MOST_ROUNDS, MOST_PODS};
ghost use Rattle.nc_session.specs.declared.status.Status.{Status};
ghost use Rattle.nc_session.specs.Load.{load};
ghost use Rattle.nc_session.specs.Output.{Output, session_of};
ghost use Rattle.nc_session.specs.Crowding.{IsCrowding};

use nc_diagram::law_of_all_but;
use nc_fact::Fact;
use nc_graph::laws::closures_have_one_length;
use nc_reader::laws::configurations_are_well_formed;
use nc_rules::rules_make_a_flow;
use nc_stable::settled_states_are_states;

/// The law of the limits: each number of the definitions that stands in the code under a name is the one that is promised.
/// Behind each stands what it counts.
pub fn limits_are_numbers()
    // routers, lines of a file, bytes of the name of a router
    ensures routers { ROUTER_LIMIT ≡ 256 }
    ensures lines { LINE_LIMIT ≡ 65535 }
    ensures name { NAME_LIMIT ≡ 63 }

    // distinct prefixes and neighbors of all files
    ensures prefixes { PREFIX_LIMIT ≡ 1024 }
    ensures neighbors { NEIGHBOR_LIMIT ≡ 1024 }

    // routes of a prefix that a process uses at once, numbers of a path, communities of a route, numbers that a clause
    // puts before a path, hops of a packet
    ensures multipath { MULTIPATH_LIMIT ≡ 16 }
    ensures path { PATH_LIMIT ≡ 250 }
    ensures communities { COMMUNITY_LIMIT ≡ 64 }
    ensures prepended { PREPEND_LIMIT ≡ 10 }
    ensures hops { HOP_LIMIT ≡ 30 }

    // administrative distances: of a static route without one, of routes by external and internal sessions, of
    // aggregates, and of a route that is never used; the local preference where nothing else is said
    ensures static_distance { DEFAULT_DISTANCE ≡ 1 }
    ensures external_distance { EXTERNAL_DISTANCE ≡ 20 }
    ensures internal_distance { INTERNAL_DISTANCE ≡ 200 }
    ensures local_distance { LOCAL_DISTANCE ≡ 200 }
    ensures unused_distance { UNUSED_DISTANCE ≡ 255 }
    ensures preference { DEFAULT_PREFERENCE ≡ 100 }

    // rounds where the words name none, and at most; pods of a generated network
    ensures rounds { DEFAULT_ROUNDS ≡ 256 }
    ensures most_rounds { MOST_ROUNDS ≡ 10000 }
    ensures pods { MOST_PODS ≡ 8 }
{}

/// The law of the output: for the same words, files and session the definitions allow one status; and one text, or the
/// session asks a question whose diagrams have more parts than may be kept.
pub fn output_is_one()
    ensures { (words : List (List ℕ)) (files : List Named) (session : List ℕ) (m n : Status) (bytes more : List ℕ)
        → Output words files session m bytes → Output words files session n more
        → (m ≡ n) × ((bytes ≡ more)
        ⊎ IsCrowding (load words files) (session_of words session)) }
{
    configurations_are_well_formed();
    settled_states_are_states();
    rules_make_a_flow();
    closures_have_one_length::<Fact>();
    law_of_all_but();
}
