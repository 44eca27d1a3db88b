// The answers of the pairs that one operator combined, for all its calls.

ghost use Rattle.std.specs.Prelude.{◌≡◌, ◌≢◌, ◌+◌, ◌*◌, ◌<◌, ◌≤◌, ◌∷◌, [], List, length, get_or, All, Contains, IfSome, OnOk};
ghost use Rattle.nc_diagram.specs.declared.node.Node.{Node};
ghost use Rattle.nc_diagram.specs.declared.apply.Operator.{Operator};
ghost use Rattle.nc_diagram.specs.Operations.{IsAnswer};
ghost use Rattle.nc_diagram.specs.declared.table.Slot.{Slot};
ghost use Rattle.nc_diagram.specs.Table.{AreRight, of_call};

use crate::apply::Pair;
use crate::nodes::next;
use std::alloc::{AllocError, Global};

/// How many slots a table has at first.
const LEAST: usize = 256;

/// How many slots a table has at most after a call.
const MOST: usize = 65_536;

// Odd numbers that spread a pair's references over all bits.
const LEFT: u64 = 0x9e37_79b9_7f4a_7c15;

const RIGHT: u64 = 0xc2b2_ae3d_27d4_eb4f;

/// A pair, its answer, and the number of the call that found it, counted from 1.
#[derive(Clone, Copy)]
pub(crate) struct Slot {
    pub pair: Pair,
    pub place: u32,
    pub call: u32,
}

// What stands in a slot before any call: false with itself is false, by either operator.
const NONE: Slot = Slot {
    pair: Pair { left: 0, right: 0 },
    place: 0,
    call: 0,
};

/// Slots for answers. Those of the call under way are found again for sure; those of earlier calls until
/// their slots are wanted. A quarter of the slots is kept free of answers of the call under way. It takes
/// no memory before the first answer.
#[derive(Drop)]
pub(crate) struct Table {
    pub slots: Vec<Slot>,
    pub call: u32,
    pub done: usize,
    pub noted: u32,
    ghost counted: { 0 < call },
    ghost earlier: { All (λ e. e.call ≤ call) slots.items },
    ghost used: { of_call call slots.items ≤ done },
    ghost roomy: { 4 * done ≤ 3 * length slots.items },
}

// Where a pair is looked for first, before what is over the number of slots is cut off.
pub(crate) fn home(pair: Pair) -> usize {
    let left = u64::from(pair.left).wrapping_mul(LEFT);
    let right = u64::from(pair.right).wrapping_mul(RIGHT);
    (left.wrapping_add(right) >> 32) as usize
}

// The index of the first slot on a pair's way that is not of this call.
fn vacant(slots: &[Slot], call: u32, pair: Pair) -> usize
    requires { of_call call slots.now < length slots.now }
    ensures within { result < length slots.now }
    ensures vacant { (d : Slot) → (get_or slots.now result d).call ≢ call }
{
    let mut at = home(pair) & (slots.len() - 1);
    'slots: for _step in 0..slots.len() {
        if slots[at].call != call {
            return at;
        }
        at = next(at, slots.len());
    }
    unreachable!()
}

// Puts an answer where it is found again.
fn put(slots: &mut Vec<Slot>, call: u32, slot: Slot)
    requires { of_call call slots.old.items < length slots.old.items }
    ensures right { (nodes : List Node) (operator : Operator) → AreRight nodes operator slots.old.items
        → IsAnswer nodes operator slot.pair slot.place → AreRight nodes operator slots.new.items }
    ensures there { Contains slots.new.items slot }
    ensures used { of_call call slots.new.items ≤ of_call call (slot ∷ slots.old.items) }
    ensures earlier { slot.call ≤ call → All (λ e. e.call ≤ call) slots.old.items
        → All (λ e. e.call ≤ call) slots.new.items }
    ensures as_many { length slots.new.items ≡ length slots.old.items }
{
    let at = vacant(slots, call, slot.pair);
    slots[at] = slot;
}

// The index of the first slot that a call may use, or the number of slots.
fn first_free(slots: &[Slot], call: u32) -> usize {
    slots
        .iter()
        .position(|slot| slot.call != call)
        .unwrap_or(slots.len())
}

// Takes the answer at an index out, and puts it where it is found now.
fn put_again(slots: &mut Vec<Slot>, call: u32, at: usize)
    requires counted { 0 < call }
    requires within { at < length slots.old.items }
    ensures right { (nodes : List Node) (operator : Operator) → AreRight nodes operator slots.old.items
        → AreRight nodes operator slots.new.items }
    ensures used { of_call call slots.new.items ≤ of_call call slots.old.items }
    ensures earlier { All (λ e. e.call ≤ call) slots.old.items → All (λ e. e.call ≤ call) slots.new.items }
    ensures as_many { length slots.new.items ≡ length slots.old.items }
{
    let slot = slots[at];
    if slot.call > 0 {
        slots[at] = NONE;
        put(slots, call, slot);
    }
}

// Puts the answers of the first slots where they are found among all. Each way of slots that are in use
// is gone from its beginning, so that no answer is put behind one that goes.
fn spread(slots: &mut Vec<Slot>, call: u32, count: usize)
    requires counted { 0 < call }
    requires within { count ≤ length slots.old.items }
    ensures right { (nodes : List Node) (operator : Operator) → AreRight nodes operator slots.old.items
        → AreRight nodes operator slots.new.items }
    ensures used { of_call call slots.new.items ≤ of_call call slots.old.items }
    ensures earlier { All (λ e. e.call ≤ call) slots.old.items → All (λ e. e.call ≤ call) slots.new.items }
    ensures as_many { length slots.new.items ≡ length slots.old.items }
{
    let mask = count.saturating_sub(1);
    let mut at = first_free(slots, call);
    'slots: for _step in 0..count {
        at = at.wrapping_add(1) & mask;
        put_again(slots, call, at);
    }
}

impl Table {
    // No answers. It takes no memory.
    pub(crate) fn new(alloc: Global) -> Table
        ensures { result.slots.items ≡ [] }
    {
        Table {
            slots: Vec::new(alloc),
            call: 1,
            done: 0,
            noted: 0,
        }
    }

    // The answer of a pair with this home, where it is kept: on its way, up to the first slot that is not
    // of this call.
    pub(crate) fn find(&self, pair: Pair, home: usize) -> Option<u32>
        ensures { (nodes : List Node) (operator : Operator)
            → AreRight nodes operator self.now.slots.items → IfSome result (IsAnswer nodes operator pair) }
    {
        let count = self.slots.len();
        if count == 0 {
            return None;
        }
        let mut at = home & (count - 1);
        'slots: for _step in 0..count {
            let slot = self.slots[at];
            if slot.pair == pair {
                return Some(slot.place);
            }
            if slot.call != self.call {
                return None;
            }
            at = next(at, count);
        }
        None
    }

    // Keeps the answer of a pair.
    pub(crate) fn note(&mut self, pair: Pair, place: u32) -> Result<(), AllocError>
        ensures right { OnOk result ((nodes : List Node) (operator : Operator)
            → AreRight nodes operator self.old.slots.items → IsAnswer nodes operator pair place
            → AreRight nodes operator self.new.slots.items) }
        ensures kept { OnOk result (Contains self.new.slots.items
            (record { pair = pair; place = place; call = self.new.call })) }
    {
        self.make_room()?;
        self.done += 1;
        self.noted = self.noted.wrapping_add(1);
        put(
            &mut self.slots,
            self.call,
            Slot {
                pair,
                place,
                call: self.call,
            },
        );
        Ok(())
    }

    // Makes room for an answer: three quarters of the slots are for the call under way, and while they
    // are few, half of them for all calls.
    fn make_room(&mut self) -> Result<(), AllocError>
        ensures right { OnOk result ((nodes : List Node) (operator : Operator)
            → AreRight nodes operator self.old.slots.items → AreRight nodes operator self.new.slots.items) }
        ensures room { OnOk result (4 * (self.new.done + 1) ≤ 3 * length self.new.slots.items) }
    {
        let count = self.slots.len();
        let has_room = self.done < count / 4 * 3;
        if has_room && (count >= MOST || (self.noted as usize) < count / 2) {
            return Ok(());
        }
        self.grow()?;
        Ok(())
    }

    // Twice as many slots, or the first ones.
    fn grow(&mut self) -> Result<(), AllocError>
        ensures right { OnOk result ((nodes : List Node) (operator : Operator)
            → AreRight nodes operator self.old.slots.items → AreRight nodes operator self.new.slots.items) }
        ensures room { OnOk result (4 * (self.new.done + 1) ≤ 3 * length self.new.slots.items) }
    {
        let count = self.slots.len();
        self.slots.resize(count.saturating_mul(2).max(LEAST), NONE)?;
        spread(&mut self.slots, self.call, count);
        Ok(())
    }

    // Ends a call: gives the slots back that are more than are kept. Where the number of the next call was
    // used before, the answers of all calls are given up.
    pub(crate) fn end(&mut self, alloc: Global)
        ensures { (nodes : List Node) (operator : Operator)
            → AreRight nodes operator self.old.slots.items → AreRight nodes operator self.new.slots.items }
    {
        if self.call == u32::MAX {
            *self = Table::new(alloc);
            return;
        }
        self.call += 1;
        self.done = 0;
        if self.slots.len() > MOST {
            self.slots.truncate(MOST);
            self.slots.shrink_to_fit();
        }
    }
}
