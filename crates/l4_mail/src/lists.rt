//! What is under way, as a list.
ghost use Rattle.std.specs.Prelude.{◌≡◌, ◌≤◌, ◌++◌, length, map, IfOk, OnOk};
ghost use Rattle.l4_model.specs.Machine.{most_processors};
ghost use Rattle.l4_mail.specs.Ports.{kept_from};
ghost use Rattle.l4_mail.specs.Rests.{kept_between, under_way_from, under_way};

use crate::ports::Port;
use l4_types::letters::Letter;
use std::alloc::{AllocError, Global};
use std::collections::VecDeque;

/// For each pair of different processors, rising: the poster, the receiver, and what is under way
/// from the one to the other.
pub type Rest = Vec<(u8, u8, Vec<Letter>)>;

fn copies(alloc: Global, letters: &VecDeque<Letter>) -> Result<Vec<Letter>, AllocError>
    ensures { IfOk result (λ v. v.items ≡ letters.now.items) }
{
    let mut all = Vec::new(alloc);
    for letter in letters {
        all.push(letter.copy())?;
    }
    Ok(all)
}

// What the port keeps of a processor.
fn kept_at(alloc: Global, port: &Port, from: u8) -> Result<Vec<Letter>, AllocError>
    ensures { IfOk result (λ v. v.items ≡ kept_from port.now from) }
{
    match port.inlets.get(usize::from(from)) {
        Some(Some(inlet)) => copies(alloc, &inlet.kept),
        _ => Ok(Vec::new(alloc)),
    }
}

// What the port of the one keeps of the other.
fn kept_between(alloc: Global, ports: &[Port], from: u8, to: u8) -> Result<Vec<Letter>, AllocError>
    ensures { IfOk result (λ v. v.items ≡ kept_between from to ports.now) }
{
    for port in ports {
        if port.cpu == to {
            return kept_at(alloc, port, from);
        }
    }
    Ok(Vec::new(alloc))
}

// Appends what is under way from a processor to the list.
fn list_from(alloc: Global, ports: &[Port], from: u8, list: &mut Rest) -> Result<(), AllocError>
    requires { length ports.now ≤ most_processors }
    ensures { OnOk result (map (λ r. (r.0, r.1, r.2.items)) list.new.items ≡
        map (λ r. (r.0, r.1, r.2.items)) list.old.items ++
        under_way_from ports.now from (length ports.now)) }
{
    for to in 0..ports.len() as u8 {
        if from != to {
            list.push((from, to, kept_between(alloc, ports, from, to)?))?;
        }
    }
    Ok(())
}

/// What all ports of a fabric keep.
pub fn list(alloc: Global, ports: &[Port]) -> Result<Rest, AllocError>
    requires { length ports.now ≤ most_processors }
    ensures { IfOk result (λ list. map (λ r. (r.0, r.1, r.2.items)) list.items ≡
        under_way ports.now) }
{
    let mut all = Vec::new(alloc);
    for from in 0..ports.len() as u8 {
        list_from(alloc, ports, from, &mut all)?;
    }
    Ok(all)
}
