//! A ring from one processor to another, with both of its ends in hand.
ghost use Rattle.std.specs.Prelude.{◌≡◌, ◌≤◌, ◌<◌, ◌+◌, [], ◌∷◌, ◌++◌, length, IfOk, OnOk, Some};
ghost use Rattle.std.specs.VecDeque.{deque_len, deque_capacity};
ghost use Rattle.rtrb.specs.Ring.{sent, received, known_items, producer_capacity, IsPair};
ghost use Rattle.rtrb.specs.Ring.{SameProducer, SameConsumer};
ghost use Rattle.l4_mail.specs.Ends.{outlet_ring, outlet_posted, outlet_room, inlet_ring};
ghost use Rattle.l4_mail.specs.Ends.{inlet_taken, inlet_kept, RingId, ring_out, posted, room};
ghost use Rattle.l4_mail.specs.Ends.{ring_in, taken, kept};

use crate::bells::Bell;
use crate::inlets::Inlet;
use crate::outlets::Outlet;
use l4_types::letters::Letter;
use rtrb::{Consumer, Producer, RingBuffer};
use std::alloc::{AllocError, Global};
use std::collections::VecDeque;

/// The two ends of a new ring with room for some letters, to a processor with this bell.
pub fn open(alloc: Global, room: usize, bell: Bell) -> Result<(Outlet, Inlet), AllocError>
    requires { 0 < room }
    ensures ring { IfOk result (λ way. outlet_ring way.0 ≡ inlet_ring way.1) }
    ensures room { IfOk result (λ way. (outlet_ring way.0).capacity ≡ room) }
    ensures posted { IfOk result (λ way. outlet_posted way.0 ≡ []) }
    ensures taken { IfOk result (λ way. (inlet_taken way.1 ≡ []) × (inlet_kept way.1 ≡ [])) }
{
    let (producer, consumer) = RingBuffer::new(alloc, room)?;
    let outlet = Outlet {
        ring: producer,
        outbox: VecDeque::new(alloc),
        bell,
    };
    let inlet = Inlet {
        ring: consumer,
        kept: VecDeque::new(alloc),
    };
    Ok((outlet, inlet))
}

// Moves the letters of the ring behind those that are kept.
fn pull(ring: &mut Consumer<Letter>, kept: &mut VecDeque<Letter>, count: usize)
    requires count { count ≡ length (known_items ring.old) }
    requires room { deque_len kept.old + count ≤ deque_capacity kept.old }
    ensures received { received ring.new ≡ received ring.old ++ known_items ring.old }
    ensures known { known_items ring.new ≡ [] }
    ensures kept { kept.new.items ≡ kept.old.items ++ known_items ring.old }
    ensures ring { SameConsumer ring.old ring.new }
    ensures capacity { deque_capacity kept.new ≡ deque_capacity kept.old }
{
    for _ in 0..count {
        let letter = ring.pop_known();
        let Ok(()) = kept.push_back(letter) else {
            unreachable!()
        };
    }
}

// Moves one letter through the empty ring.
fn pass(
    producer: &mut Producer<Letter>,
    consumer: &mut Consumer<Letter>,
    kept: &mut VecDeque<Letter>,
    letter: Letter,
)
    requires pair { IsPair producer.old consumer.old }
    requires empty { received consumer.old ≡ sent producer.old }
    requires places { 0 < producer_capacity producer.old }
    requires room { deque_len kept.old < deque_capacity kept.old }
    ensures pair { IsPair producer.new consumer.new }
    ensures sent { sent producer.new ≡ sent producer.old ++ letter ∷ [] }
    ensures empty { received consumer.new ≡ sent producer.new }
    ensures kept { kept.new.items ≡ kept.old.items ++ letter ∷ [] }
    ensures producer { SameProducer producer.old producer.new }
    ensures consumer { SameConsumer consumer.old consumer.new }
    ensures capacity { deque_capacity kept.new ≡ deque_capacity kept.old }
{
    producer.slots_beside(consumer);
    producer.push_reserved(letter);
    let count = consumer.slots_beside(producer);
    pull(consumer, kept, count);
}

// Moves the letters of the ring and then those of the outbox behind those that are kept.
fn drain(
    producer: &mut Producer<Letter>,
    outbox: &mut VecDeque<Letter>,
    consumer: &mut Consumer<Letter>,
    kept: &mut VecDeque<Letter>,
) -> Result<(), AllocError>
    requires pair { IsPair producer.old consumer.old }
    requires places { 0 < producer_capacity producer.old }
    ensures pair { IsPair producer.new consumer.new }
    ensures producer { SameProducer producer.old producer.new }
    ensures consumer { SameConsumer consumer.old consumer.new }
    ensures posted { sent producer.new ++ outbox.new.items ≡ sent producer.old ++ outbox.old.items }
    ensures all { OnOk result ((outbox.new.items ≡ []) ×
        (received consumer.new ≡ sent producer.new)) }
    ensures kept { (more : _) × (received consumer.new ≡ received consumer.old ++ more) ×
        (kept.new.items ≡ kept.old.items ++ more) }
{
    let count = consumer.slots_beside(producer);
    let Some(total) = count.checked_add(outbox.len()) else {
        return Err(AllocError);
    };
    kept.reserve(total)?;
    pull(consumer, kept, count);
    while let Some(letter) = outbox.pop_front() {
        pass(producer, consumer, kept, letter);
    }
    Ok(())
}

// Moves all letters under way to the inlet, which keeps them.
fn rest_way(outlet: &mut Outlet, inlet: &mut Inlet) -> Result<(), AllocError>
    requires { outlet_ring outlet.old ≡ inlet_ring inlet.old }
    ensures ring { (outlet_ring outlet.new ≡ outlet_ring outlet.old) ×
        (inlet_ring inlet.new ≡ inlet_ring inlet.old) }
    ensures posted { outlet_posted outlet.new ≡ outlet_posted outlet.old }
    ensures taken { inlet_taken inlet.new ≡ inlet_taken inlet.old }
    ensures all { OnOk result (outlet_posted outlet.new ≡
        inlet_taken inlet.new ++ inlet_kept inlet.new) }
{
    drain(
        &mut outlet.ring,
        &mut outlet.outbox,
        &mut inlet.ring,
        &mut inlet.kept,
    )
}

/// Moves all letters under way to the inlet, which keeps them. Where memory is refused, none is
/// lost.
pub fn rest(outlet: &mut Option<Outlet>, inlet: &mut Option<Inlet>) -> Result<(), AllocError>
    requires { (ring : RingId) × (ring_out outlet.old ≡ Some ring) ×
        (ring_in inlet.old ≡ Some ring) }
    ensures ring { (ring_out outlet.new ≡ ring_out outlet.old) ×
        (ring_in inlet.new ≡ ring_in inlet.old) }
    ensures posted { posted outlet.new ≡ posted outlet.old }
    ensures taken { taken inlet.new ≡ taken inlet.old }
    ensures all { OnOk result (posted outlet.new ≡ taken inlet.new ++ kept inlet.new) }
{
    let Some(outlet) = outlet else { unreachable!() };
    let Some(inlet) = inlet else { unreachable!() };
    rest_way(outlet, inlet)
}
