//! What is under way, once all ports are in one hand.
ghost use Rattle.std.specs.Prelude.{ℕ, ◌≡◌, ◌≢◌, ◌<◌, ◌≤◌, ◌↔◌, false, map, length, OnOk, IfOk};
ghost use Rattle.std.specs.Prelude.{IsErrOf};
ghost use Rattle.l4_mail.specs.Ports.{AreOneFabric, AreWhole, IsWay, IsWhole, place, account};
ghost use Rattle.l4_mail.specs.Ports.{carried, kept_from};
ghost use Rattle.l4_mail.specs.declared.rests.RestFault.TheVariants.{NoMemory as OutOfMemory};
ghost use Rattle.l4_mail.specs.declared.rests.RestFault.TheVariants as RestFault;
ghost use Rattle.l4_mail.specs.Rests.{has_number, have_numbers, have_size, are_all, IsRested};
ghost use Rattle.l4_mail.specs.Rests.{IsRestedTo, under_way};

use crate::lists::{Rest, list};
use crate::ports::Port;
use crate::ways;
use std::alloc::{AllocError, Global};

/// Why a rest is refused.
#[derive(Clone, Copy, PartialEq, Eq, Debug)]
pub enum RestFault {
    /// The ports are not those of all processors of their fabric, each once.
    Numbers,
    /// Memory was refused.
    NoMemory,
}

impl From<AllocError> for RestFault {
    ghost from_gives = { λ _ fault. fault ≡ OutOfMemory };

    fn from(_: AllocError) -> RestFault {
        RestFault::NoMemory
    }
}

// Moves all letters under way from one port to the other, which keeps them.
fn rest_between(from: &mut Port, to: &mut Port) -> Result<(), AllocError>
    requires { IsWay (place from.old) (place to.old) }
    ensures from { carried from.new ≡ carried from.old }
    ensures account { account to.new ≡ account to.old }
    ensures others { (k : ℕ) → k ≢ from.old.cpu → kept_from to.new k ≡ kept_from to.old k }
    ensures whole { OnOk result (IsWhole (carried from.new) (carried to.new)) }
{
    from.ready = false;
    to.quiet = false;
    ways::rest(
        &mut from.outlets[usize::from(to.cpu)],
        &mut to.inlets[usize::from(from.cpu)],
    )
}

// The same for the ports at two places of a list.
fn rest_pair(ports: &mut [Port], from: usize, to: usize) -> Result<(), AllocError>
    requires within { (from < length ports.old) × (to < length ports.old) }
    requires apart { from ≢ to }
    requires fabric { AreOneFabric ports.old }
    ensures same { map account ports.new ≡ map account ports.old }
    ensures rested { OnOk result (IsRested ports.old ports.new from to) }
{
    if from < to {
        let (left, right) = ports.split_at_mut(to);
        rest_between(&mut left[from], &mut right[0])
    } else {
        let (left, right) = ports.split_at_mut(from);
        rest_between(&mut right[0], &mut left[to])
    }
}

// Moves all letters under way to one port.
fn rest_to(ports: &mut [Port], to: usize) -> Result<(), AllocError>
    requires within { to < length ports.old }
    requires fabric { AreOneFabric ports.old }
    ensures same { map account ports.new ≡ map account ports.old }
    ensures rested { OnOk result (IsRestedTo ports.old ports.new to) }
{
    for from in 0..ports.len() {
        if from != to {
            rest_pair(ports, from, to)?;
        }
    }
    Ok(())
}

// Moves all letters under way to the ports that they go to.
fn rest_all(ports: &mut [Port]) -> Result<(), AllocError>
    requires { AreOneFabric ports.old }
    ensures same { map account ports.new ≡ map account ports.old }
    ensures whole { OnOk result (AreWhole ports.new) }
{
    for to in 0..ports.len() {
        rest_to(ports, to)?;
    }
    Ok(())
}

fn has_number(ports: &[Port], cpu: usize) -> bool
    ensures { result ≡ has_number cpu ports.now }
{
    for port in ports {
        if usize::from(port.cpu) == cpu {
            return true;
        }
    }
    false
}

fn have_size(ports: &[Port], cpus: usize) -> bool
    ensures { result ≡ have_size cpus ports.now }
{
    for port in ports {
        if port.outlets.len() != cpus {
            return false;
        }
    }
    true
}

fn have_numbers(ports: &[Port], below: usize) -> bool
    ensures { result ≡ have_numbers below ports.now }
{
    for cpu in 0..below {
        if !has_number(ports, cpu) {
            return false;
        }
    }
    true
}

// Whether these are the ports of all processors of their fabric, each once.
fn are_all(ports: &[Port]) -> bool
    ensures { result ≡ are_all ports.now }
{
    !ports.is_empty() && have_size(ports, ports.len()) && have_numbers(ports, ports.len())
}

/// Moves every letter under way to the port that it goes to, which keeps it, and lists them. From
/// then on `take` gives these first. What was posted and what was taken stays; where memory is
/// refused, some letters may have moved, and none is lost. The ports are of one fabric, in any
/// order.
///
/// `Numbers`: they are not the ports of all its processors. Nothing is changed then.
pub fn rest(alloc: Global, ports: &mut [Port]) -> Result<Rest, RestFault>
    requires { AreOneFabric ports.old }
    ensures numbers { IsErrOf result RestFault.Numbers ↔ (are_all ports.old ≡ false) }
    ensures unchanged { are_all ports.old ≡ false → ports.new ≡ ports.old }
    ensures same { map account ports.new ≡ map account ports.old }
    ensures whole { OnOk result (AreWhole ports.new) }
    ensures list { IfOk result (λ list. map (λ r. (r.0, r.1, r.2.items)) list.items ≡
        under_way ports.new) }
{
    if !are_all(ports) {
        return Err(RestFault::Numbers);
    }
    rest_all(ports)?;
    Ok(list(alloc, ports)?)
}
