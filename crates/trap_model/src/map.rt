//! What an access of an address names, if it is allowed.

ghost use Rattle.std.specs.Prelude.{IsTrue, ◌≡◌, ◌+◌, ◌%◌, ◌<◌, ◌≤◌, ◌↔◌};
ghost use Rattle.trap_model.specs.Map.{IsFetchInside, IsLoadInside, IsStoreInside, fetch_at, lies_in, load_at, store_at};
ghost use Rattle.trap_model.specs.Width.{IsWidth};

/// The address of the first byte of RAM.
pub const RAM_BASE: u32 = 0x1000_0000;

/// The address of input port 0.
const IN_BASE: u32 = 0x2000_0000;

/// The address of output port 0.
const OUT_BASE: u32 = 0x2000_1000;

/// The bytes of the area of the 256 input ports, and of that of the 256 output ports.
const PORT_BYTES: u32 = 1024;

/// Where a load comes from.
#[derive(Clone, Copy, Debug, PartialEq, Eq)]
pub enum Loads {
    /// From ROM, at this offset in bytes from its first byte: a multiple of the load's width.
    Rom(u32),
    /// From RAM, at this offset in bytes from its first byte: a multiple of the load's width.
    Ram(u32),
    /// From the input port with this number, from 0 to 255.
    InPort(u32),
    /// From nowhere: the load isn't allowed.
    Trap,
}

/// Where a store goes.
#[derive(Clone, Copy, Debug, PartialEq, Eq)]
pub enum Stores {
    /// To RAM, at this offset in bytes from its first byte: a multiple of the store's width.
    Ram(u32),
    /// To the output port with this number, from 0 to 255.
    OutPort(u32),
    /// To nowhere: the store isn't allowed.
    Trap,
}

/// The memory map of a machine with `ROM` bytes of ROM and `RAM` bytes of RAM. It holds nothing: its functions
/// read addresses alone.
pub struct MemMap<const ROM: u32, const RAM: u32>;

impl<const ROM: u32, const RAM: u32> MemMap<ROM, RAM> {
    /// The number of the word of ROM that the program counter names, word 0 being at address 0: `None` exactly
    /// where `pc` isn't a multiple of 4 or isn't below `ROM`.
    #[tactic(auto, unfolding(crate::specs::Map::fetch_at))]
    pub fn fetch(pc: u32) -> Option<u32>
        ensures value { result ≡ fetch_at ROM pc }
        ensures inside { IsFetchInside ROM result }
    {
        if is_aligned(pc, 4) && pc < ROM {
            Some(pc / 4)
        } else {
            None
        }
    }

    /// Where a load of `width` bytes from an address comes from. It traps exactly where the address isn't a
    /// multiple of the width, and where it is neither in ROM nor in RAM nor, for 4 bytes, an input port's.
    #[tactic(auto, unfolding(crate::specs::Map::load_at))]
    pub fn load(address: u32, width: u32) -> Loads
        requires { IsWidth width }
        ensures value { result ≡ load_at ROM RAM address width }
        ensures inside { IsLoadInside ROM RAM width result }
    {
        if !is_aligned(address, width) {
            Loads::Trap
        } else if is_within(0, ROM, address) {
            Loads::Rom(address)
        } else if is_within(RAM_BASE, RAM, address) {
            Loads::Ram(address - RAM_BASE)
        } else if width == 4 && is_within(IN_BASE, PORT_BYTES, address) {
            Loads::InPort((address - IN_BASE) / 4)
        } else {
            Loads::Trap
        }
    }

    /// Where a store of `width` bytes to an address goes. It traps exactly where the address isn't a multiple of
    /// the width, and where it is neither in RAM nor, for 4 bytes, an output port's.
    #[tactic(auto, unfolding(crate::specs::Map::store_at))]
    pub fn store(address: u32, width: u32) -> Stores
        requires { IsWidth width }
        ensures value { result ≡ store_at RAM address width }
        ensures inside { IsStoreInside RAM width result }
    {
        if !is_aligned(address, width) {
            Stores::Trap
        } else if is_within(RAM_BASE, RAM, address) {
            Stores::Ram(address - RAM_BASE)
        } else if width == 4 && is_within(OUT_BASE, PORT_BYTES, address) {
            Stores::OutPort((address - OUT_BASE) / 4)
        } else {
            Stores::Trap
        }
    }
}

/// Whether an address is a multiple of a width in bytes.
fn is_aligned(address: u32, width: u32) -> bool
    requires { IsWidth width }
    ensures { IsTrue result ↔ (address % width ≡ 0) }
{
    address % width == 0
}

/// Whether an address lies in the area of `size` bytes from `base` on.
#[tactic(auto, unfolding(crate::specs::Map::lies_in))]
fn is_within(base: u32, size: u32, address: u32) -> bool
    ensures value { result ≡ lies_in base size address }
    ensures inside { IsTrue result → (base ≤ address) × (address < base + size) }
{
    base <= address && address - base < size
}
