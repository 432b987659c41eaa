// The steps of a net, all of them, by their numbers.
ghost use Rattle.std.specs.Prelude.{◌≡◌, ◌<◌, ◌≤◌, map, length, All, slice_index_or};
ghost use Rattle.arrayvec.specs.ArrayVec.{array_vec_len};
ghost use Rattle.nets.specs.Views.{of_net, of_step};
ghost use Rattle.nets.specs.declared.Step.TheVariants.{Forward};
ghost use Rattle.lengths.specs.Laws.{comes_before};
ghost use Rattle.timing.specs.Edges.{edges_of, Found};
ghost use Rattle.timing.specs.Listing.{links_to, steps_of};
ghost use Rattle.timing.specs.Timing.{told_step};

use crate::edges::StepLength;
use crate::steps::NetStep;
use arrayvec::ArrayVec;
use nets::sound::SoundNet;
use nets::{CircuitStep, Step};
use search::{Circuit, Edge, SearchError, least_starts};

// The steps of the links, in the order of their numbers.
fn link_steps(net: &SoundNet) -> ArrayVec<Step, 320>
    ensures few { array_vec_len result ≤ 256 }
    ensures links { map of_step result.items ≡ links_to (of_net net.now.net) (length (of_net net.now.net).links) }
{
    let mut list = ArrayVec::new();
    for (k, slot) in net.net.links.iter().enumerate() {
        if let Some(link) = slot {
            list.push(Step::Forward(k as u8));
            if link.terms.capacity.is_some() {
                list.push(Step::Back(k as u8));
            }
        }
    }
    list
}

// All steps of a net: the links', and then the stations' own.
#[derive(Drop)]
pub(crate) struct Steps<'a> {
    pub(crate) net: &'a SoundNet,
    pub(crate) list: ArrayVec<Step, 320>,
    ghost all: { ∥ map of_step list.items ≡ steps_of (of_net net.now.net) ∥₁ },
}

impl<'a> Steps<'a> {
    pub(crate) fn of(net: &'a SoundNet) -> Steps<'a>
        ensures { result.net.now ≡ net.now }
    {
        let mut list = link_steps(net);
        for i in 0..net.net.stations {
            list.push(Step::Own(i));
        }
        Steps { net, list }
    }

    // The step of the number e.
    pub(crate) fn get(&self, e: usize) -> NetStep<'a>
        requires { e < array_vec_len self.now.list }
        ensures net { result.net.now ≡ self.now.net.now }
        ensures step { result.step ≡ slice_index_or self.now.list.items e (Forward 0) }
    {
        let step = self.list[e];
        NetStep {
            net: self.net,
            step,
        }
    }

    // The steps as edges: edge e is step e.
    // By number: a `zip` with `iter_mut` asks for an invariant on what is still lent, and the proof did not close.
    fn put_edges<L: StepLength>(&self, edges: &mut [Edge<L>])
        requires room { length edges.old ≡ array_vec_len self.now.list }
        ensures { edges.new ≡ edges_of (of_net self.now.net.now.net) (L.measured (of_net self.now.net.now.net)) }
    {
        for (e, &step) in self.list.iter().enumerate() {
            edges[e] = L::edge(&NetStep {
                net: self.net,
                step,
            });
        }
    }

    // The least starts of the stations, and neutral past the last one, or a circuit above neutral, by the number of each step.
    // It does not matter what `memory` holds. Each caller makes it in place, which fills it once: code for any kind of length would fill it twice, for
    // itself and for its caller, and may hold an array of it only where its signature has one.
    pub(crate) fn search<L: StepLength>(
        &self,
        memory: &mut [Edge<L>; 320],
    ) -> Result<[L; 64], Circuit>
        ensures { Found L.neutral L.joined (comes_before L.cmp) self.now.net.now.net (L.measured (of_net self.now.net.now.net)) result }
    {
        let edges = &mut memory[..self.list.len()];
        self.put_edges(edges);
        match least_starts(self.net.net.stations as usize, edges) {
            Ok(starts) => Ok(starts),
            // A match of its own: a pattern through both enums gets no proof.
            Err(error) => match error {
                SearchError::Above(circuit) => Err(circuit),
                SearchError::Unsearchable => unreachable(),
            },
        }
    }

    // The circuit of the steps of these numbers, with their lengths.
    pub(crate) fn told(&self, circuit: &Circuit) -> ArrayVec<CircuitStep, 64>
        requires known { All (λ e. e < array_vec_len self.now.list) circuit.now }
        ensures few { array_vec_len result ≤ 64 }
        ensures steps { result.items ≡ map (λ e. told_step (of_net self.now.net.now.net) (slice_index_or self.now.list.items e (Forward 0))) circuit.now }
    {
        let mut told = ArrayVec::new();
        for &e in circuit.iter() {
            told.push(self.get(e).told());
        }
        told
    }
}
