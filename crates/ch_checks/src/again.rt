//! Calls that may be refused memory once.

/// Makes a call, and makes it a second time if the first was refused memory.
macro_rules! again {
    ($call:expr) => {
        match $call {
            Ok(value) => value,
            Err(AllocError) => $call?,
        }
    };
}

/// Makes a call that may end in a fault, and makes it a second time if the first call ended in this refusal.
macro_rules! again_after {
    ($refusal:path, $call:expr) => {
        match $call {
            Err($refusal) => $call?,
            answer => answer?,
        }
    };
}

pub(crate) use again;
pub(crate) use again_after;
