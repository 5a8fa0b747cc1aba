//! Borrowed steps.
ghost use Rattle.std.specs.Prelude.{◌≡◌};
ghost use Rattle.l4_model.specs.Words.{word_of_tag, tag_of_word};
ghost use Rattle.l4_model.specs.Rules.{received_tag};
ghost use Rattle.l4_types.specs.StepView.{delivered, delivery_of, seen, step_of};

use crate::ids::GlobalId;
use crate::message_ref::MessageRef;
use crate::steps::{Delivery, Name, Step};
use crate::tags::MsgTag;

/// A delivery whose words stay where they are.
#[derive(Drop)]
pub struct DeliveryRef<'a> {
    /// The send that it ends.
    pub name: Name,
    /// The thread that gets the message.
    pub receiver: GlobalId,
    /// The message, as it was sent.
    pub message: MessageRef<'a>,
    /// Whether sender and receiver are of different processors.
    pub cross: bool,
}

impl DeliveryRef<'_> {
    /// The tag that the receiver gets in message register 0.
    pub fn tag(&self) -> MsgTag
        ensures value { result ≡ tag_of_word (received_tag self.now.cross self.now.message) }
        ensures word { word_of_tag result ≡ received_tag self.now.cross self.now.message }
    {
        self.message
            .tag()
            .received(self.cross, self.message.propagated())
    }

    /// The delivery with a copy of the words.
    pub fn to_delivery(&self) -> Delivery
        ensures { delivery_of result ≡ delivered self.now }
    {
        Delivery {
            name: self.name,
            receiver: self.receiver,
            message: self.message.to_message(),
            cross: self.cross,
        }
    }
}

impl<'a> From<&'a Delivery> for DeliveryRef<'a> {
    ghost from_gives = { λ delivery result. delivered result ≡ delivery_of delivery.now };

    fn from(delivery: &'a Delivery) -> DeliveryRef<'a> {
        DeliveryRef {
            name: delivery.name,
            receiver: delivery.receiver,
            message: MessageRef::from(&delivery.message),
            cross: delivery.cross,
        }
    }
}

/// A step whose words stay where they are.
pub type StepRef<'a> = Step<DeliveryRef<'a>>;

impl<'a> From<&'a Step> for StepRef<'a> {
    ghost from_gives = { λ step result. seen result ≡ step_of step.now };

    fn from(step: &'a Step) -> StepRef<'a> {
        match step.as_delivery() {
            Ok(delivery) => Step::Deliver(DeliveryRef::from(delivery)),
            Err(step) => step,
        }
    }
}

impl Step<DeliveryRef<'_>> {
    /// The step with a copy of the words.
    pub fn to_step(&self) -> Step
        ensures { step_of result ≡ seen self.now }
    {
        match self.as_delivery() {
            Ok(delivery) => Step::Deliver(delivery.to_delivery()),
            Err(step) => step,
        }
    }
}
