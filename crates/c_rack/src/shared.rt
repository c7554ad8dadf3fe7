// What both formats share.
use rack_waiting::Waiting;

// What waits for each decoder; the places past the number are not read.
#[repr(C)]
#[derive(Clone, Copy)]
pub struct RackWaiting {
    pub decoders: [Waiting; 8],
}
