/// The sentinel of a slot: a node before its first row and after its last one.
#[derive(Clone, Copy)]
pub struct Ends {
    /// The slot's first row, or the sentinel itself.
    pub head: u16,
    /// The slot's last row, or the sentinel itself.
    pub tail: u16,
}
