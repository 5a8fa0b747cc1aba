//! Where the instructions of a script have ids from.
ghost use Rattle.std.specs.Prelude.{◌≡◌, ◌==◌};
ghost use Rattle.l4_script.specs.Inner.Scripts.{id_from_of};
ghost use Rattle.l4_lint.specs.Doubts.{may_name_originator};
ghost use Rattle.l4_lint.specs.Scripts.{hears_nobody, is_taken_from, may_receive};

use l4_script::instructions::{IdFrom, Source};
use l4_script::machine::Machine;
use l4_types::ids::{GlobalId, ThreadId};

/// Whether a receive phase may follow: `last` and a register may have any id.
pub(crate) fn may_receive(from: IdFrom) -> bool
    ensures { result ≡ may_receive (id_from_of from) }
{
    match from {
        IdFrom::Fixed(id) => id != ThreadId::NIL,
        IdFrom::Last | IdFrom::InRegister(_, _) => true,
    }
}

/// Whether nobody else is received from: nilthread, or the thread itself.
pub(crate) fn hears_nobody(own: GlobalId, from: IdFrom) -> bool
    ensures { result ≡ hears_nobody own (id_from_of from) }
{
    match from {
        IdFrom::Fixed(id) => id == ThreadId::NIL || id == ThreadId::from(own),
        IdFrom::Last | IdFrom::InRegister(_, _) => false,
    }
}

/// Whether a register has this number.
pub(crate) fn is_register(register: u64, source: Source) -> bool
    ensures { result ≡ (source == register) }
{
    u64::from(source.number()) == register
}

/// Whether the id is taken from this register.
pub(crate) fn is_taken_from(register: u64, from: IdFrom) -> bool
    ensures { result ≡ is_taken_from register (id_from_of from) }
{
    match from {
        IdFrom::InRegister(_, source) => is_register(register, source),
        IdFrom::Fixed(_) | IdFrom::Last => false,
    }
}

/// Whether the id is, or may be, that of an originator which this sender may show.
pub(crate) fn may_name_originator(machine: &Machine, sender: GlobalId, from: IdFrom) -> bool
    ensures { result ≡ may_name_originator machine.now sender (id_from_of from) }
{
    match from {
        IdFrom::Fixed(id) => machine.may_show(sender, id),
        IdFrom::Last | IdFrom::InRegister(_, _) => true,
    }
}
