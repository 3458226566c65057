use crate::home_call::HomeCall;
use sprite_ids::{Copying, NoMemory, Pid};
use std::alloc::Global;

/// Asks a process's home to do a call of the process, which runs elsewhere (Douglis and Ousterhout 1991).
#[derive(Debug, PartialEq, Eq, Drop)]
pub struct HomeRequest {
    /// The process whose call it is.
    pub pid: Pid,
    /// The number of that call.
    pub number: u32,
    /// The call.
    pub call: HomeCall,
}

impl Copying for HomeRequest {
    fn copy(&self, alloc: Global) -> Result<HomeRequest, NoMemory> {
        Ok(HomeRequest {
            pid: self.pid,
            number: self.number,
            call: self.call.copy(alloc)?,
        })
    }
}
