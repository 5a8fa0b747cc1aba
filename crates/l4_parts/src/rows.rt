//! States as rows of numbers: of each place the number of its part. First stand the processors, then
//! the pairs of processors, those of letters to processor 0 first.
ghost use Rattle.std.specs.Prelude.{ℕ, List, ◌≡◌, ◌<◌, ◌+◌, ◌*◌, IfOk, OnOk, length};
ghost use Rattle.l4_model.specs.Machine.{Machine};
ghost use Rattle.l4_core_model.specs.Letters.{Letter};
ghost use Rattle.l4_core_model.specs.Runs.{System, at_rest, is_empty, processors};
ghost use Rattle.l4_explore.specs.Inner.Views.{state_from};
ghost use Rattle.l4_states.specs.Choices.{state_in};
ghost use Rattle.l4_states.specs.Inner.Codes.{local_code, mail_code, mail_from_code, mail_to_code};
ghost use Rattle.l4_states.specs.Inner.Codes.{sized};
ghost use Rattle.l4_states.specs.Inner.Remembered.{pair_place};
ghost use Rattle.l4_codes.specs.Inner.Written.{unwritten, Writes};
ghost use Rattle.l4_parts.specs.Inner.Numbers.{part_at};
ghost use Rattle.l4_parts.specs.Inner.Known.{number_at};
ghost use Rattle.l4_parts.specs.Inner.Rows.{letters_code, AreNumbers, IsRowIn};

use crate::parts::Part;
use l4_codes::code::Code;
use l4_explore::tries::Reached;
use std::alloc::{AllocError, Global};

// Most codes are not longer, so memory is asked for once.
const USUAL_LEN: usize = 256;

/// The place of the letters of a pair of processors.
pub fn pair_place(cpus: u8, from: u8, to: u8) -> usize
    ensures { result ≡ pair_place cpus from to }
{
    cpus as usize + (to as usize * cpus as usize + from as usize)
}

/// The part at a place.
pub fn part<'a>(parts: &'a [Part], row: &[u32], place: usize) -> &'a Part
    requires inside { place < length row.now }
    requires number { number_at row.now place < length parts.now }
    ensures { result.now ≡ part_at parts.now (number_at row.now place) }
{
    &parts[row[place] as usize]
}

// Writes what the processors know.
fn put_cores(code: &mut Code, parts: &[Part], row: &[u32], cpus: u8) -> Result<(), AllocError>
    requires { AreNumbers parts.now row.now cpus }
    ensures { (m : Machine) (g : System) → IsRowIn m g parts.now row.now cpus →
        OnOk result (Writes (sized m.cpus (local_code (length m.threads)) g.locals)
        code.old code.new) }
{
    code.put(0)?;
    for cpu in 0..cpus {
        code.append(&part(parts, row, cpu as usize).code)?;
    }
    Ok(())
}

// Writes the letters of a pair.
fn put_letters(code: &mut Code, part: &Part) -> Result<(), AllocError>
    ensures { (ls : List Letter) → is_empty ls ≡ part.now.rests →
        Writes (letters_code ls) unwritten part.now.code →
        OnOk result (Writes (letters_code ls) code.old code.new) }
{
    if part.rests {
        return code.put(0);
    }
    code.append(&part.code)
}

// Writes the letters that have come to a processor.
fn put_mail_to(
    code: &mut Code,
    parts: &[Part],
    row: &[u32],
    cpus: u8,
    to: u8,
) -> Result<(), AllocError>
    requires numbers { AreNumbers parts.now row.now cpus }
    requires to { to < cpus }
    ensures { (m : Machine) (g : System) → IsRowIn m g parts.now row.now cpus →
        OnOk result (Writes (mail_to_code (processors m) g.mail to) code.old code.new) }
{
    for from in 0..cpus {
        put_letters(code, part(parts, row, pair_place(cpus, from, to)))?;
    }
    Ok(())
}

// Writes all letters under way.
fn put_mail(code: &mut Code, parts: &[Part], row: &[u32], cpus: u8) -> Result<(), AllocError>
    requires { AreNumbers parts.now row.now cpus }
    ensures { (m : Machine) (g : System) → IsRowIn m g parts.now row.now cpus →
        OnOk result (Writes (mail_code (processors m) g.mail) code.old code.new) }
{
    for to in 0..cpus {
        put_mail_to(code, parts, row, cpus, to)?;
    }
    Ok(())
}

// Whether nothing is to be done, armed or under way.
fn is_at_rest(parts: &[Part], row: &[u32], cpus: u8) -> bool
    requires { AreNumbers parts.now row.now cpus }
    ensures { (m : Machine) (g : System) → IsRowIn m g parts.now row.now cpus →
        result ≡ at_rest m g }
{
    for place in 0..row.len() {
        if !part(parts, row, place).rests {
            return false;
        }
    }
    true
}

/// The state that a row is that of.
///
/// `AllocError`: memory was refused.
pub fn state_of(alloc: Global, parts: &[Part], row: &[u32], cpus: u8) -> Result<Reached, AllocError>
    requires { AreNumbers parts.now row.now cpus }
    ensures { (m : Machine) (g : System) → IsRowIn m g parts.now row.now cpus →
        IfOk result (λ s. state_from s ≡ state_in m g) }
{
    let mut code = Code::new(alloc);
    code.reserve(USUAL_LEN)?;
    put_cores(&mut code, parts, row, cpus)?;
    put_mail(&mut code, parts, row, cpus)?;
    Ok(Reached {
        code: code.into_bytes()?,
        is_end: is_at_rest(parts, row, cpus),
    })
}
