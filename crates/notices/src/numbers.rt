//! What the library for C tells by numbers: its statuses, the faults of procedures and the reasons against certificates.
ghost use Rattle.std.specs.Prelude.{◌≡◌, ◌==◌, List, ℕ, map, find, option_map, option_copied};
ghost use Rattle.std.specs.Borrow.{Bor};
ghost use Rattle.notices.specs.Numbers.{numbered_of, procedure_faults, reasons, said_of, statuses, text_by};

use crate::table::sentence_by_code;

/// What a number stands for: a fault, which has its sentence, or what its own text says.
#[derive(Clone, Copy)]
pub struct Numbered {
    pub number: u32,
    /// The code of the fault; empty if it is none.
    pub code: &'static str,
    /// Empty if it is a fault.
    pub text: &'static str,
}

macro_rules! table {
    ($($number:literal $code:literal $text:literal;)*) => {
        &[$(Numbered { number: $number, code: $code, text: $text }),*]
    };
}

/// All statuses, in the order of include/dovecounter.h.
pub fn statuses() -> &'static [Numbered]
    ensures { map numbered_of result.now ≡ statuses }
{
    table! {
        0 "" "it is done";
        1 "" "there are more than 16 halves: hand over only those that are needed";
        2 "" "a half has no place: its device is 0xA0 or 0xA2, and a lower half is of bank 0 and page 0";
        3 "" "there is no text for this number";
        4 "" "the buffer is too small for the text: hand over a larger one";
        11 "AD1" "";
        12 "AD2" "";
        13 "AD3" "";
        14 "AD4" "";
        15 "AD5" "";
        16 "AD6" "";
        21 "CT1" "";
        22 "CT2" "";
        23 "CT3" "";
        24 "CT4" "";
        31 "" "this is no conversation, or it was changed: keep it as the library wrote it";
        32 "" "it has ended, so there is no operation to make: ask how it ended";
        33 "" "it has not ended: make the next operation, and tell its reply";
        34 "" "the operation can't have this reply: tell as many bytes as were asked for, and none of a store";
        36 "" "the bus fetches fewer than 8 bytes at once, and a reading needs 8";
        42 "KP2" "";
        43 "KP3" "";
        51 "SM1" "";
        53 "SM3" "";
        54 "SM4" "";
        61 "" "this is no simulated module, or it was changed: keep it as the library wrote it";
        62 "" "there are no such bytes: a fetch is of 1 to 128 bytes and a store of 1 to 8, of one half of 0xA0 or 0xA2";
        63 "" "the simulated module does not answer, or does not take the bytes";
        71 "RP1" "";
        74 "RP4" "";
        76 "RP6" "";
        83 "SF3" "";
        84 "SF4" "";
        85 "SF5" "";
        86 "SF6" "";
        91 "" "the line is none of weights: write '[host]' once, and after it lines as '0Dh = 101', comments or empty lines, with numbers up to 4294967295";
        92 "WT2" "";
        94 "" "the line writes a HostInterfaceID that an earlier line writes: keep one of them";
        101 "" "the stored equalization that a lane is to recall is none of 0 to 3";
        102 "" "the module advertises no such fixed equalization of the input: ask what it can do";
        103 "" "the module advertises no such equalization before the cursor: ask what it can do";
        104 "" "the module advertises no such equalization after the cursor: ask what it can do";
        105 "" "the module advertises no such amplitude: ask what it can do";
        106 "" "a lane of the change may not be disturbed: settings change while lanes are up, so permit each";
    }
}

/// The faults of procedures, by their number.
pub fn procedure_faults() -> &'static [Numbered]
    ensures { map numbered_of result.now ≡ procedure_faults }
{
    table! {
        1 "PV1" "";
        2 "PV2" "";
        3 "PV3" "";
        4 "PV4" "";
        5 "PV5" "";
        6 "PV6" "";
        7 "PV7" "";
        8 "" "nothing new was done for longer than may be waited: look whether the module answers, and begin again";
        9 "" "the module left ModuleReady meanwhile, as after a reset: read it again, and begin again";
        10 "" "the module went to ModuleFault meanwhile: look at its flags, and reset it";
    }
}

/// The reasons against certificates, by their number.
pub fn reasons() -> &'static [Numbered]
    ensures { map numbered_of result.now ≡ reasons }
{
    table! {
        1 "VR1" "";
        2 "VR2" "";
        3 "VR3" "";
        4 "VR4" "";
        5 "VR5" "";
        6 "VR6" "";
        7 "VR7" "";
        8 "VR8" "";
        9 "VR9" "";
        10 "VR10" "";
    }
}

/// The text of this status.
pub fn status_text(status: u32) -> Option<&'static str>
    ensures { option_map (λ (text : Bor (List ℕ)). text.now) result ≡ text_by statuses status }
{
    text_by(statuses(), status)
}

/// The text of this fault of a procedure.
pub fn procedure_fault_text(number: u32) -> Option<&'static str>
    ensures { option_map (λ (text : Bor (List ℕ)). text.now) result ≡ text_by procedure_faults number }
{
    text_by(procedure_faults(), number)
}

/// The text of this reason against a certificate.
pub fn reason_text(number: u32) -> Option<&'static str>
    ensures { option_map (λ (text : Bor (List ℕ)). text.now) result ≡ text_by reasons number }
{
    text_by(reasons(), number)
}

fn text_by(rows: &'static [Numbered], number: u32) -> Option<&'static str>
    ensures { option_map (λ (text : Bor (List ℕ)). text.now) result ≡ text_by (map numbered_of rows.now) number }
{
    match row_by(rows, number) {
        Some(row) => said_of(row),
        None => None,
    }
}

fn row_by(rows: &'static [Numbered], number: u32) -> Option<&'static Numbered>
    ensures { option_map numbered_of (option_copied result) ≡ find (λ row. row.number == number) (map numbered_of rows.now) }
{
    rows.iter().find(|row| row.number == number)
}

fn said_of(row: &'static Numbered) -> Option<&'static str>
    ensures { option_map (λ (text : Bor (List ℕ)). text.now) result ≡ said_of (numbered_of row.now) }
{
    if !row.code.is_empty() {
        return match sentence_by_code(row.code) {
            Some(sentence) => Some(sentence.text),
            None => None,
        };
    }
    Some(row.text)
}
