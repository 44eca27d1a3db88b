ghost use Rattle.std.specs.Prelude.{◌≡◌, ◌<◌, ◌^◌, All, IfOk, true};
ghost use Rattle.nc_tables.specs.State.{StateView, IsState};
ghost use Rattle.nc_policy.specs.Indexes.{ArePolicies};
ghost use Rattle.nc_underlay.specs.Kept.{AreKept};
ghost use Rattle.nc_graph.specs.Flow.{IsFlow};
ghost use Rattle.nc_fact.specs.Tested.{tested_facts};
ghost use Rattle.nc_rules.specs.Known.{IsKnown, IsKnownFlow};
ghost use Rattle.nc_rules.specs.Rules.{flow_of};

use crate::flows::KnownFlow;
use crate::known::Known;
use nc_fact::{Fact, facts_of};
use nc_graph::inference::Inference;
use nc_graph::node::NodeKind;
use nc_policy::Policies;
use nc_rules_route::{flow_start, path_parents, path_start, route_parents, rules_are_lawful};
use nc_stable::SettledNetwork;
use nc_tables::Stable;
use nc_types::TestCommand;
use nc_underlay::DistancesByAddr;
use std::alloc::{AllocError, Global};

/// The flow graph of every state of a network meets the laws of flow graphs. It does nothing: a
/// caller that needs the laws calls it.
pub fn rules_make_a_flow()
    ensures { (s : StateView) → IsState s → IsFlow (flow_of s) }
{
    rules_are_lawful();
}

/// The rules of a network: its state and the tables of its maps, both of which they own as settling made them, and
/// how many facts were asked for. Nothing gives the state back, so whatever is inferred of it is counted here. They
/// keep the ways of packets for the address of the test or the fact of such a way that was asked for last, and for
/// up to 512 others that were asked for before, which have 65,536 ways at most; the ways that let one packet pass, that
/// of the last such test or fact; and over how few hops each neighbor address is reached of which a fact was inferred.
/// At first there are none.
#[derive(Drop)]
pub struct Rules {
    alloc: Global,
    state: Stable,
    policies: Policies,
    known: Known,
    flow: KnownFlow,
    distances: DistancesByAddr,
    asked: u64,
    ghost lawful: { IsFlow (flow_of state) },
    ghost tables: { ArePolicies state.routers policies },
    ghost right: { IsKnown state known },
    ghost flowing: { IsKnownFlow state flow },
    ghost kept: { AreKept state.routers state.base distances },
    ghost counted: { asked < 2 ^ 64 },
}

impl Rules {
    ghost use Rattle.nc_rules.specs.Seen.{state_of, asked_of};

    /// The rules of a network that settled, by the tables of its maps that settling made; no fact
    /// was asked for yet. Takes no memory; `alloc` is for what is inferred later.
    pub fn new(alloc: Global, settled: SettledNetwork) -> Rules
        ensures state { state_of result ≡ settled.state }
        ensures asked { asked_of result ≡ 0 }
    {
        rules_make_a_flow();
        let SettledNetwork { state, policies } = settled;
        let _valid = state.network();
        let known = Known::new(alloc, &state);
        let flow = KnownFlow::new(alloc, &state);
        Rules {
            alloc,
            state,
            policies,
            known,
            flow,
            distances: DistancesByAddr::new(alloc),
            asked: 0,
        }
    }

    /// The state.
    pub fn state(&self) -> &Stable
        ensures { result.now ≡ state_of self.now }
    {
        &self.state
    }

    /// The tables of the maps of the state's routers.
    pub fn policies(&self) -> &Policies
        ensures { ArePolicies (state_of self.now).routers result.now }
    {
        &self.policies
    }

    /// The facts that a test tests, in order: those that it names and that hold. Nothing is counted.
    ///
    /// # Errors
    ///
    /// Memory that runs out.
    #[tactic(auto, unfolding(crate::specs::Rules::flow_of))]
    pub fn facts_of(&mut self, test: &TestCommand) -> Result<Vec<Fact>, AllocError>
        ensures facts { IfOk result (λ facts. facts.items ≡ tested_facts (state_of self.old) test.now) }
        ensures hold { IfOk result (λ facts.
            All (λ f. (flow_of (state_of self.old)).holds f ≡ true) facts.items) }
        ensures state { state_of self.new ≡ state_of self.old }
        ensures asked { asked_of self.new ≡ asked_of self.old }
    {
        self.known.include_of(&self.state, test)?;
        self.flow.include_of(&self.state, test)?;
        facts_of(
            self.alloc,
            &self.state,
            &self.policies,
            &self.known.traced,
            &self.flow.flowing,
            test,
        )
    }

    /// How many facts were asked for so far, up to the largest `u64`, at which the count stays.
    pub fn asked(&self) -> u64
        ensures { result ≡ asked_of self.now }
    {
        self.asked
    }
}

impl Inference for Rules {
    ghost use Rattle.nc_tables.specs.State.{StateView};
    ghost use Rattle.nc_rules.specs.Sameness.{exactly};
    ghost use Rattle.nc_rules.specs.Seen.{state_of, asked_of};

    type Fact = Fact;

    ghost flow = { λ rules. flow_of rules.state };

    ghost Basis = { StateView };

    ghost basis = { state_of };

    ghost asked = { asked_of };

    #[tactic(auto, unfolding(crate::specs::Rules::flow_of))]
    fn infer(&mut self, fact: &Fact, into: &mut Vec<Fact>) -> Result<NodeKind, AllocError> {
        self.asked = self.asked.saturating_add(1);
        let kind = match path_start(fact) {
            Some((router, addr)) => {
                self.known.include(&self.state, router, addr)?;
                path_parents(&self.state, &self.known.traced, fact, into)?
            }
            None => match flow_start(fact) {
                Some(start) => self.flow.parents(&self.state, start, fact, into)?,
                None => {
                    let distances = &mut self.distances;
                    route_parents(&self.state, &self.policies, distances, fact, into)?
                }
            },
        };
        Ok(kind)
    }

    ghost lawful = { λ rules. rules.lawful };

    ghost counted = { λ rules. rules.counted };

    ghost exact = { exactly };
}
