//! What happens to a thread.
use crate::orders::PendingOrder;
use l4_types::errors::IpcError;
use l4_types::letters::Decision;

/// What happens to a thread, but for an instruction that it runs and a message that it receives.
#[derive(Clone, Copy, PartialEq, Eq, Debug)]
pub enum Change {
    /// Its Ipc fails. A deleted thread stays as it is.
    Fail(IpcError),
    /// Its send is decided. After a delivery the receive phase of the same Ipc begins at once. A
    /// deleted thread keeps its registers.
    EndSend(Decision),
    /// It gave an order, and waits until that is done.
    GiveOrder(PendingOrder),
    /// Its order is done. A deleted thread keeps its registers.
    Obey,
}
