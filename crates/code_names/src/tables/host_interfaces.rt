//! How an Application's host lanes carry their signal (SFF-8024, Table 4-5 Host Electrical Interface IDs).
ghost use Rattle.std.specs.Prelude.{◌≡◌, map};
ghost use Rattle.code_names.specs.Rows.{row_of};
ghost use Rattle.code_names.specs.HostInterfaces.{host_interface_names};

use crate::row::{Name, Row};

const ROWS: &[Row] = rows! {
    0x00 "Undefined";
    0x01 "1000BASE-CX";
    0x02 "XAUI";
    0x03 "XFI";
    0x04 "SFI";
    0x05 "25GAUI C2M";
    0x06 "XLAUI C2M";
    0x07 "XLPPI";
    0x08 "LAUI-2 C2M";
    0x09 "50GAUI-2 C2M";
    0x0a "50GAUI-1 C2M";
    0x0b "CAUI-4 C2M";
    0x0c "100GAUI-4 C2M";
    0x0d "100GAUI-2 C2M";
    0x0e "200GAUI-8 C2M";
    0x0f "200GAUI-4 C2M";
    0x10 "400GAUI-16 C2M";
    0x11 "400GAUI-8 C2M";
    0x13 "10GBASE-CX4";
    0x14 "25GBASE-CR CA-25G-L";
    0x15 "25GBASE-CR CA-25G-S";
    0x16 "25GBASE-CR CA-25G-N";
    0x17 "40GBASE-CR4";
    0x18 "50GBASE-CR";
    0x19 "100GBASE-CR10";
    0x1a "100GBASE-CR4";
    0x1b "100GBASE-CR2";
    0x1c "200GBASE-CR4";
    0x1d "400G CR8";
    0x1e "1000BASE-T";
    0x1f "2.5GBASE-T";
    0x20 "5GBASE-T";
    0x21 "10GBASE-T";
    0x22 "25GBASE-T";
    0x23 "40GBASE-T";
    0x24 "50GBASE-T";
    0x25 "8GFC";
    0x26 "10GFC";
    0x27 "16GFC";
    0x28 "32GFC";
    0x29 "64GFC";
    0x2a "128GFC";
    0x2b "256GFC";
    0x2c "IB SDR";
    0x2d "IB DDR";
    0x2e "IB QDR";
    0x2f "IB FDR";
    0x30 "IB EDR";
    0x31 "IB HDR";
    0x32 "IB NDR";
    0x33 "E.96";
    0x34 "E.99";
    0x35 "E.119";
    0x36 "E.238";
    0x37 "OTL3.4";
    0x38 "OTL4.10";
    0x39 "OTL4.4";
    0x3a "OTLC.4";
    0x3b "FOIC1.4";
    0x3c "FOIC1.2";
    0x3d "FOIC2.8";
    0x3e "FOIC2.4";
    0x3f "FOIC4.16";
    0x40 "FOIC4.8";
    0x41 "CAUI-4 C2M without FEC";
    0x42 "CAUI-4 C2M with RS(528,514) FEC";
    0x43 "50GBASE-CR2 with RS(528,514) FEC";
    0x44 "50GBASE-CR2 with BASE-R FEC";
    0x45 "50GBASE-CR2 without FEC";
    0x46 "100GBASE-CR1";
    0x47 "200GBASE-CR2";
    0x48 "400GBASE-CR4";
    0x49 "800G-ETC-CR8";
    0x4b "100GAUI-1-S C2M";
    0x4c "100GAUI-1-L C2M";
    0x4d "200GAUI-2-S C2M";
    0x4e "200GAUI-2-L C2M";
    0x4f "400GAUI-4-S C2M";
    0x50 "400GAUI-4-L C2M";
    0x51 "800GAUI-8-S C2M";
    0x52 "800GAUI-8-L C2M";
    0x53 "OTL4.2";
    0xc0 to 0xff VendorSpecific;
};

pub fn host_interface_names() -> &'static [Row]
    ensures { map row_of result.now ≡ host_interface_names }
{
    ROWS
}
