// Why no request is asked.

use http_framing::FrameFault;

// Why no request is asked behind those that were.
#[derive(Clone, Copy)]
pub(crate) enum Stop {
    // The input ended between requests.
    Finished,
    // What stands in front is no request that may be asked.
    Refused(FrameFault),
    // The source failed.
    ReadFault,
    // Memory was wanting.
    Memory,
}

// What the bytes tell of a head.
#[derive(Clone, Copy)]
pub(crate) enum Seen {
    // It ends behind so many bytes.
    Ended(usize),
    // It may not be asked.
    Refused(FrameFault),
    // More bytes are wanted.
    Wants,
}
