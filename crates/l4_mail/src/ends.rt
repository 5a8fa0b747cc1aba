//! The ends of rings, by the other processor. A port has none to itself.
ghost use Rattle.std.specs.Prelude.{◌≡◌, ◌≢◌, ◌↔◌, ◌≤◌, ◌<◌, ◌+◌, [], ◌∷◌, ◌++◌, false, OnOk};
ghost use Rattle.std.specs.Prelude.{IsTrue, Option, None, ◌⊎◌};
ghost use Rattle.std.specs.List.{list_any};
ghost use Rattle.l4_mail.specs.Ends.{ring_out, posted, waiting, free, room, ring_in, taken, kept};
ghost use Rattle.l4_mail.specs.Ends.{here, keeps, waits};

use crate::inlets::Inlet;
use crate::outlets::Outlet;
use l4_types::letters::Letter;
use std::alloc::AllocError;

pub fn reserve(end: &mut Option<Outlet>, letters: usize) -> Result<(), AllocError>
    ensures ring { ring_out end.new ≡ ring_out end.old }
    ensures posted { posted end.new ≡ posted end.old }
    ensures room { OnOk result ((letters ≤ room end.new) ⊎ (ring_out end.new ≡ None)) }
    ensures grown { room end.old ≤ room end.new }
{
    match end {
        Some(outlet) => outlet.reserve(letters),
        None => Ok(()),
    }
}

pub fn has_room(end: &Option<Outlet>) -> bool
    ensures { IsTrue result ↔ (0 < room end.now) }
{
    match end {
        Some(outlet) => outlet.has_room(),
        None => false,
    }
}

pub fn post(end: &mut Option<Outlet>, letter: Letter)
    requires { 0 < room end.old }
    ensures ring { ring_out end.new ≡ ring_out end.old }
    ensures posted { posted end.new ≡ posted end.old ++ letter ∷ [] }
    ensures room { room end.new + 1 ≡ room end.old }
{
    let Some(outlet) = end else { unreachable!() };
    outlet.post(letter);
}

#[inline(always)]
pub fn flush(end: &mut Option<Outlet>)
    ensures ring { ring_out end.new ≡ ring_out end.old }
    ensures posted { posted end.new ≡ posted end.old }
    ensures room { room end.old ≤ room end.new }
    ensures moved { (waiting end.new ≡ []) ⊎ (free end.new ≡ 0) }
{
    if let Some(outlet) = end {
        outlet.flush();
    }
}

#[inline(always)]
pub fn make_ready(end: &mut Option<Outlet>, letters: usize) -> Result<(), AllocError>
    ensures ring { ring_out end.new ≡ ring_out end.old }
    ensures posted { posted end.new ≡ posted end.old }
    ensures room { OnOk result ((letters ≤ room end.new) ⊎ (ring_out end.new ≡ None)) }
    ensures grown { room end.old ≤ room end.new }
    ensures moved { OnOk result ((waiting end.new ≡ []) ⊎ (free end.new ≡ 0)) }
{
    reserve(end, letters)?;
    flush(end);
    Ok(())
}

pub fn waits(end: &Option<Outlet>) -> bool
    ensures { result ≡ waits end.now }
{
    match end {
        Some(outlet) => !outlet.outbox.is_empty(),
        None => false,
    }
}

/// Whether a letter waits at one of the outlets.
pub fn any_waits(outlets: &[Option<Outlet>]) -> bool
    ensures { result ≡ list_any waits outlets.now }
{
    outlets.iter().any(waits)
}

pub fn keeps_mail(end: &Option<Inlet>) -> bool
    ensures { result ≡ keeps end.now }
{
    match end {
        Some(inlet) => inlet.keeps_mail(),
        None => false,
    }
}

pub fn has_mail(end: &mut Option<Inlet>) -> bool
    ensures ring { ring_in end.new ≡ ring_in end.old }
    ensures taken { taken end.new ≡ taken end.old }
    ensures kept { kept end.new ≡ kept end.old }
    ensures here { (result ≡ false) ↔ (here end.new ≡ []) }
{
    match end {
        Some(inlet) => inlet.has_mail(),
        None => false,
    }
}

#[inline(always)]
pub fn take(end: &mut Option<Inlet>) -> Letter
    requires { here end.old ≢ [] }
    ensures ring { ring_in end.new ≡ ring_in end.old }
    ensures taken { taken end.new ≡ taken end.old ++ result ∷ [] }
    ensures kept { (kept end.old ≡ result ∷ kept end.new) ⊎
        ((kept end.old ≡ []) × (kept end.new ≡ [])) }
{
    let Some(inlet) = end else { unreachable!() };
    inlet.take()
}
