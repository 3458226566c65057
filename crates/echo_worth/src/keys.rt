use sprite_ids::{Kernel, TxNo};
use trace_tables::CallAt;

/// A remote call, at the kernel that sends it (this project).
#[derive(Clone, Copy, Debug, PartialEq, Eq, Hash)]
pub(crate) struct Sender {
    pub(crate) kernel: Kernel,
    pub(crate) tx: TxNo,
}

/// A call and the kernel to which a packet went for its sake (this project).
#[derive(Clone, Copy, Debug, PartialEq, Eq, Hash)]
pub(crate) struct CallTo {
    pub(crate) call: CallAt,
    pub(crate) to: Kernel,
}

/// The same, with the kernel that sent it (this project).
#[derive(Clone, Copy, Debug, PartialEq, Eq, Hash)]
pub(crate) struct OtherAt {
    pub(crate) kernel: Kernel,
    pub(crate) call: CallTo,
}

/// The place of an echo among those that went with one number (this project).
#[derive(Clone, Copy, Debug, PartialEq, Eq, Hash)]
pub(crate) struct EchoSlot {
    pub(crate) at: Sender,
    pub(crate) place: u64,
}
