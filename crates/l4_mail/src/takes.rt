//! Looking for a letter at the inlets of a port.
ghost use Rattle.std.specs.Prelude.{◌≡◌, ◌↔◌, false, map, IfSome, IfNone};
ghost use Rattle.std.specs.List.{list_any};
ghost use Rattle.l4_mail.specs.Ends.{kept, keeps};
ghost use Rattle.l4_mail.specs.Inner.Takes.{NoneIsKept, NoneIsHere, NoneIsTaken, IsNext};

use crate::ends;
use crate::inlets::Inlet;

/// Whether a letter is kept at one of the inlets.
pub fn keeps_mail(inlets: &[Option<Inlet>]) -> bool
    ensures { result ≡ list_any keeps inlets.now }
{
    inlets.iter().any(ends::keeps_mail)
}

/// Whether a letter is at one of the inlets.
pub fn has_mail(inlets: &mut [Option<Inlet>]) -> bool
    ensures taken { NoneIsTaken inlets.old inlets.new }
    ensures kept { map kept inlets.new ≡ map kept inlets.old }
    ensures here { (result ≡ false) ↔ NoneIsHere inlets.new }
{
    for from in 0..inlets.len() {
        if ends::has_mail(&mut inlets[from]) {
            return true;
        }
    }
    false
}

/// The place of the inlet whose letter is next: the first that keeps one, or else the first in whose
/// ring there is one.
pub fn next_inlet(inlets: &mut [Option<Inlet>]) -> Option<usize>
    ensures taken { NoneIsTaken inlets.old inlets.new }
    ensures kept { map kept inlets.new ≡ map kept inlets.old }
    ensures some { IfSome result (λ from. IsNext inlets.new from) }
    ensures none { IfNone result (NoneIsKept inlets.old × NoneIsHere inlets.new) }
{
    for from in 0..inlets.len() {
        if ends::keeps_mail(&inlets[from]) {
            return Some(from);
        }
    }
    for from in 0..inlets.len() {
        if ends::has_mail(&mut inlets[from]) {
            return Some(from);
        }
    }
    None
}
