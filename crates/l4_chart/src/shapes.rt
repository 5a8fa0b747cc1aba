//! How each kind of step looks in a picture.
ghost use Rattle.std.specs.Prelude.{◌≡◌};
ghost use Rattle.l4_chart.specs.Shapes.{class_of, meaning_of, outline_of};

use crate::marks::Kind;

/// All kinds that are drawn, in the order of the legend.
pub(crate) const KINDS: [Kind; 11] = [
    Kind::Local,
    Kind::Begin,
    Kind::Queue,
    Kind::Wait,
    Kind::SendFailure,
    Kind::ReceiveFailure,
    Kind::Order,
    Kind::Obey,
    Kind::Retarget,
    Kind::Ended,
    Kind::Deleted,
];

/// The class of a kind, by which it has its colour.
pub(crate) fn class_of(kind: Kind) -> &'static str
    ensures { result.now ≡ class_of kind }
{
    match kind {
        Kind::Local => "local",
        Kind::Begin => "begin",
        Kind::Queue => "queue",
        Kind::Wait => "wait",
        Kind::SendFailure => "sfail",
        Kind::ReceiveFailure => "rfail",
        Kind::Order => "order",
        Kind::Obey => "obey",
        Kind::Retarget => "retarget",
        Kind::Ready => "ready",
        Kind::Ended => "ended",
        Kind::Deleted => "deleted",
    }
}

/// The outline of a kind around the point where it begins, in pixels.
pub(crate) fn outline_of(kind: Kind) -> &'static str
    ensures { result.now ≡ outline_of kind }
{
    match kind {
        Kind::Local => "m-3 0a3 3 0 1 0 6 0a3 3 0 1 0-6 0z",
        Kind::Begin => "m-5 0a5 5 0 1 0 10 0a5 5 0 1 0-10 0z",
        Kind::Queue => "m-5-5h10v10h-10z",
        Kind::Wait => "m0-6l6 6l-6 6l-6-6z",
        Kind::SendFailure => "m-5-5l10 10m0-10l-10 10",
        Kind::ReceiveFailure => "m-7 0a7 7 0 1 0 14 0a7 7 0 1 0-14 0zm3-4l8 8m0-8l-8 8",
        Kind::Order => "m0-6l6 11h-12z",
        Kind::Obey => "m0 6l6-11h-12z",
        Kind::Retarget => "m-6 0a6 6 0 1 1 6 6m4-3l-4 3l4 3",
        Kind::Ready => "",
        Kind::Ended => "m-8 0h16",
        Kind::Deleted => "m-8 0h16m-12-4l8 8m0-8l-8 8",
    }
}

/// What a kind is, for the legend.
pub(crate) fn meaning_of(kind: Kind) -> &'static str
    ensures { result.now ≡ meaning_of kind }
{
    match kind {
        Kind::Local => "an instruction",
        Kind::Begin => "a send begins",
        Kind::Queue => "a send is queued",
        Kind::Wait => "a receive phase begins",
        Kind::SendFailure => "a send fails",
        Kind::ReceiveFailure => "a receive phase fails",
        Kind::Order => "an order",
        Kind::Obey => "an order is done",
        Kind::Retarget => "a retarget",
        Kind::Ready => "ready",
        Kind::Ended => "has ended",
        Kind::Deleted => "was deleted",
    }
}
