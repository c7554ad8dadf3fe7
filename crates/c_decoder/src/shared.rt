// What both formats share: the read-outs.

// What the read-outs say: turns a sample and the level as f64, and the switches as 0 or 1.
#[repr(C)]
#[derive(Clone, Copy)]
pub struct Readout {
    pub integrator: f64,
    pub integrator_limit: f64,
    pub lock_level: f64,
    pub phase: u32,
    pub stereo: u32,
    pub enabled: u32,
}
