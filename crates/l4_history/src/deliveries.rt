//! What a history stores of a delivery.
ghost use Rattle.std.specs.Prelude.{◌≡◌, ◌<◌, ◌≤◌, All, IfSome, IsTrue, length, slice_get};
ghost use Rattle.l4_types.specs.StepView.{delivered, seen};
ghost use Rattle.l4_types.specs.declared.steps.Step.TheVariants.{Deliver};
ghost use Rattle.l4_history.specs.Inner.Rows.{IsBody, IsBodyOf, IsHead, IsHeadOf, IsWide};
ghost use Rattle.l4_history.specs.Inner.Rows.{IsWideHeadOf};
ghost use Rattle.l4_history.specs.Inner.Rows.{ShowsSender, delivery_at, message_of, wide_at};
ghost use Rattle.l4_history.specs.Inner.Rows.{wide_delivery};
ghost use Rattle.l4_history.specs.Inner.Slots.{Keeps, slot_count};
ghost use Rattle.l4_history.specs.declared.records.WideHead.{WideHead};

use crate::records::{Body, Head, SHORT, WideHead, name_at};
use crate::threads::Threads;
use crate::visitor::Visitor;
use l4_types::ids::GlobalId;
use l4_types::message_ref::MessageRef;
use l4_types::step_ref::{DeliveryRef, StepRef};
use l4_types::steps::Step;

/// Whether a delivery shows the thread that sends.
#[inline(always)]
pub(crate) fn shows_sender(delivery: &DeliveryRef<'_>) -> bool
    ensures { IsTrue result → ShowsSender delivery.now }
{
    let sender = delivery.name.thread();
    delivery.message.shown() == sender && delivery.message.actual() == sender
}

/// The head of a delivery whose words begin at a place of the row. None where it takes more room.
#[inline(always)]
pub(crate) fn head(delivery: &DeliveryRef<'_>, threads: &mut Threads, start: u32) -> Option<Head>
    requires { slot_count ≤ length threads.old.slots.items }
    ensures kept { Keeps threads.old.slots.items threads.new.slots.items }
    ensures count { length threads.new.slots.items ≡ length threads.old.slots.items }
    ensures some { IfSome result (IsHeadOf threads.new.slots.items delivery.now start) }
{
    let k = delivery.name.k();
    if k > SHORT || !shows_sender(delivery) {
        return None;
    }
    let sender = threads.slot_of(delivery.name.thread())?;
    let receiver = threads.slot_of(delivery.receiver)?;
    Some(Head {
        sender,
        receiver,
        k: k as u32,
        body: body(delivery, start),
    })
}

/// What is told of a message beside its words, which begin at a place of the row.
#[inline(always)]
pub(crate) fn body(delivery: &DeliveryRef<'_>, start: u32) -> Body
    ensures { IsBodyOf delivery.now start result }
{
    let message = &delivery.message;
    Body {
        label: message.label(),
        start,
        count: message.words().len() as u8,
        propagated: message.propagated(),
        cross: delivery.cross,
    }
}

/// A delivery as a step, with the ids that it shows.
#[inline(always)]
pub(crate) fn wide_head(delivery: &DeliveryRef<'_>, start: u32) -> Step<WideHead>
    ensures { (w : WideHead) × (result ≡ Deliver w) × IsWideHeadOf delivery.now start w }
{
    Step::Deliver(WideHead {
        name: delivery.name,
        receiver: delivery.receiver,
        shown: delivery.message.shown(),
        actual: delivery.message.actual(),
        body: body(delivery, start),
    })
}

/// The delivery of the head at an index.
#[inline(always)]
pub(crate) fn delivery<'a>(
    threads: &Threads,
    heads: &[Head],
    words: &'a [u64],
    index: usize,
) -> DeliveryRef<'a>
    requires known { index < length heads.now }
    requires within { All (IsHead threads.now.slots.items (length words.now)) heads.now }
    ensures { delivery_at threads.now.slots.items words.now (slice_get heads.now index) ≡
        delivered result }
{
    let head = &heads[index];
    let sender = threads.get(head.sender);
    DeliveryRef {
        name: name_at(threads, head.sender, head.k),
        receiver: threads.get(head.receiver),
        message: message(&head.body, words, sender, sender),
        cross: head.body.cross,
    }
}

/// The message that shows these ids.
#[inline(always)]
pub(crate) fn message<'a>(
    body: &Body,
    words: &'a [u64],
    shown: GlobalId,
    actual: GlobalId,
) -> MessageRef<'a>
    requires { IsBody (length words.now) body.now }
    ensures { result ≡ message_of words.now shown actual body.now }
{
    let start = body.start as usize;
    MessageRef::new(
        body.label,
        body.propagated,
        &words[start..start + usize::from(body.count)],
        shown,
        actual,
    )
}

/// The delivery of a head that may show other ids.
#[inline(always)]
pub(crate) fn wide_delivery<'a>(head: &WideHead, words: &'a [u64]) -> DeliveryRef<'a>
    requires { IsBody (length words.now) head.now.body }
    ensures { wide_delivery words.now head.now ≡ delivered result }
{
    DeliveryRef {
        name: head.name,
        receiver: head.receiver,
        message: message(&head.body, words, head.shown, head.actual),
        cross: head.body.cross,
    }
}

/// The step that no record fits at an index. Inlined, though it is rare: a step that a call returns
/// lies in memory, and so does each step that may be it.
#[inline(always)]
pub(crate) fn wide_step<'a>(wide: &[Step<WideHead>], words: &'a [u64], index: usize) -> StepRef<'a>
    requires known { index < length wide.now }
    requires within { All (IsWide (length words.now)) wide.now }
    ensures { wide_at words.now (slice_get wide.now index) ≡ seen result }
{
    match wide[index].as_delivery() {
        Ok(head) => Step::Deliver(wide_delivery(head, words)),
        Err(step) => step,
    }
}

/// Shows the step that no record fits at an index. It is rare, so it is a call.
#[inline(never)]
pub(crate) fn show_wide<V: Visitor>(
    wide: &[Step<WideHead>],
    words: &[u64],
    index: usize,
    visitor: &mut V,
)
    requires known { index < length wide.now }
    requires within { All (IsWide (length words.now)) wide.now }
    requires ready { V.is_ready visitor.old }
    ensures { V.sees visitor.old (wide_at words.now (slice_get wide.now index)) visitor.new }
{
    visitor.visit(wide_step(wide, words, index));
}
