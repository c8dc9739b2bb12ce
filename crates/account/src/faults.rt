// Why a line of a script is not carried out.
use std::alloc::AllocError;
use thiserror::Error;

/// Why a line is not carried out. Want of memory ends the reading; each of the others gets a message.
#[derive(Clone, Copy, Debug, Error)]
pub enum Fault {
    #[error("this is no call")]
    NoCall,
    #[error("the round is not open yet: open P T comes first")]
    NotOpened,
    #[error("an opening line in the wrong place")]
    TooLate,
    #[error(transparent)]
    NoMemory(#[from(alloc)] AllocError),
}
