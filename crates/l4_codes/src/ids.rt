//! Ids and names.
ghost use Rattle.std.specs.Prelude.{OnOk};
ghost use Rattle.l4_states.specs.Inner.Codes.{global_code, id_code, name_code};
ghost use Rattle.l4_codes.specs.Inner.Written.{Writes};

use crate::code::Code;
use l4_types::ids::{GlobalId, Kind, ThreadId};
use l4_types::steps::Name;
use std::alloc::AllocError;

/// Appends a global id.
///
/// `AllocError`: memory was refused.
pub fn put_global(code: &mut Code, id: GlobalId) -> Result<(), AllocError>
    ensures { OnOk result (Writes (global_code id) code.old code.new) }
{
    code.put(u64::from(id.number()))?;
    code.put(u64::from(id.version()))
}

/// Appends any id.
///
/// `AllocError`: memory was refused.
pub fn put_id(code: &mut Code, id: ThreadId) -> Result<(), AllocError>
    ensures { OnOk result (Writes (id_code id) code.old code.new) }
{
    match id.kind() {
        Kind::Nil => code.put(0),
        Kind::Any => code.put(1),
        Kind::AnyLocal => code.put(2),
        Kind::Local => {
            code.put(3)?;
            code.put(id.raw())
        }
        Kind::Global { number, version } => {
            code.put(4)?;
            code.put(u64::from(number))?;
            code.put(u64::from(version))
        }
    }
}

/// Appends whose a send is, without its number.
///
/// `AllocError`: memory was refused.
pub fn put_name(code: &mut Code, name: Name) -> Result<(), AllocError>
    ensures { OnOk result (Writes (name_code name) code.old code.new) }
{
    put_global(code, name.thread())
}
