/// Where a bank lies, in blocks of 4,096 octets: its gate, its manifest and its image area.
///
/// The gate is the first octet of its block. The numbers are as given: `Idle::new` alone asks
/// that the parts lie in the greatest flash and have no block in common.
#[derive(Clone, Copy, Debug, PartialEq, Eq)]
pub struct Place {
    pub gate: u32,
    pub manifest: u32,
    pub manifest_blocks: u32,
    pub area: u32,
    pub area_blocks: u32,
}
