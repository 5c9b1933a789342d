/// The numbers of a running rig.
#[derive(Drop)]
pub struct Rig {
    /// The delay in ticks of packets without a fate of their own.
    pub delay: u16,
    /// The ticks between two signs of life.
    pub interval: u32,
    /// How many fates the caller's list holds.
    pub fates: usize,
    /// How many packets were sent, which is also the next packet's number.
    pub packets: u32,
}
