//! Where ports are.

ghost use Rattle.std.specs.Prelude.{◌≡◌, ◌<◌, ◌*◌, pos};

use rv_isa::{Imm12, ImmU};

/// The page of the input ports.
pub fn inputs_page() -> ImmU
    ensures { result ≡ 131072 }
{
    let Some(imm) = ImmU::new(131072) else {
        unreachable!()
    };
    imm
}

/// The page of the output ports.
pub fn outputs_page() -> ImmU
    ensures { result ≡ 131073 }
{
    let Some(imm) = ImmU::new(131073) else {
        unreachable!()
    };
    imm
}

/// How far a port is from the first.
pub fn port_offset(port: u32) -> Imm12
    requires { port < 256 }
    ensures { result ≡ pos (4 * port) }
{
    let Some(imm) = Imm12::new(4 * port as i32) else {
        unreachable!()
    };
    imm
}
