//! How many lanes host electrical interfaces have (SFF-8024, Table 4-5 Host Electrical Interface IDs).
ghost use Rattle.std.specs.Prelude.{◌≡◌};
ghost use Rattle.interface_lanes.specs.HostInterfaces.{host_interface_lanes};

use crate::row::Row;

const ROWS: &[Row] = rows! {
    0x01 1; // 1000BASE-CX
    0x02 4; // XAUI
    0x03 1; // XFI
    0x04 1; // SFI
    0x05 1; // 25GAUI C2M
    0x06 4; // XLAUI C2M
    0x07 4; // XLPPI
    0x08 2; // LAUI-2 C2M
    0x09 2; // 50GAUI-2 C2M
    0x0a 1; // 50GAUI-1 C2M
    0x0b 4; // CAUI-4 C2M
    0x0c 4; // 100GAUI-4 C2M
    0x0d 2; // 100GAUI-2 C2M
    0x0e 8; // 200GAUI-8 C2M
    0x0f 4; // 200GAUI-4 C2M
    0x11 8; // 400GAUI-8 C2M
    0x13 4; // 10GBASE-CX4
    0x14 1; // 25GBASE-CR CA-25G-L
    0x15 1; // 25GBASE-CR CA-25G-S
    0x16 1; // 25GBASE-CR CA-25G-N
    0x17 4; // 40GBASE-CR4
    0x18 1; // 50GBASE-CR
    0x1a 4; // 100GBASE-CR4
    0x1b 2; // 100GBASE-CR2
    0x1c 4; // 200GBASE-CR4
    0x1d 8; // 400G CR8
    0x25 1; // 8GFC
    0x27 1; // 16GFC
    0x28 1; // 32GFC
    0x29 1; // 64GFC
    0x2a 4; // 128GFC
    0x2b 4; // 256GFC
    0x37 4; // OTL3.4
    0x39 4; // OTL4.4
    0x3a 4; // OTLC.4
    0x3b 4; // FOIC1.4
    0x3c 2; // FOIC1.2
    0x3d 8; // FOIC2.8
    0x3e 4; // FOIC2.4
    0x40 8; // FOIC4.8
    0x41 4; // CAUI-4 C2M without FEC
    0x42 4; // CAUI-4 C2M with RS(528,514) FEC
    0x43 2; // 50GBASE-CR2 with RS(528,514) FEC
    0x44 2; // 50GBASE-CR2 with BASE-R FEC
    0x45 2; // 50GBASE-CR2 without FEC
    0x46 1; // 100GBASE-CR1
    0x47 2; // 200GBASE-CR2
    0x48 4; // 400GBASE-CR4
    0x49 8; // 800G-ETC-CR8
    0x4b 1; // 100GAUI-1-S C2M
    0x4c 1; // 100GAUI-1-L C2M
    0x4d 2; // 200GAUI-2-S C2M
    0x4e 2; // 200GAUI-2-L C2M
    0x4f 4; // 400GAUI-4-S C2M
    0x50 4; // 400GAUI-4-L C2M
    0x51 8; // 800GAUI-8-S C2M
    0x52 8; // 800GAUI-8-L C2M
    0x53 2; // OTL4.2
};

pub fn host_interface_lanes() -> &'static [Row]
    ensures { result.now ≡ host_interface_lanes }
{
    ROWS
}
