ghost use Rattle.std.specs.Prelude.{◌≡◌, ◌≢◌, ◌≤◌, length, option_map, IfSome, List, Some, ℕ};
ghost use Rattle.std.specs.Borrow.{Bor};
ghost use Rattle.notices.specs.Numbers.{procedure_faults, reasons, statuses, text_by};
ghost use Rattle.firmware_api.specs.Statuses.{done, status_by};
ghost use Rattle.notices.specs.declared.version.TheConstants.{VERSION};
ghost use Rattle.firmware_api.specs.Texts.{text_refusal, with_text};

use crate::status::{DONE, NO_TEXT, TOO_SMALL};
use notices::{procedure_fault_text, reason_text, status_text, version_text};

/// Puts the text of a status into `buffer`, and its length into `text_length`.
#[unsafe(no_mangle)]
pub extern "C" fn dovecounter_status_text(
    status: u32,
    buffer: &mut [u8],
    text_length: &mut usize,
) -> u32
    ensures status { result ≡ status_by (text_refusal (text_by statuses status) (length buffer.old)) }
    ensures written { result ≡ done → option_map (with_text buffer.old) (text_by statuses status) ≡ Some (buffer.new, text_length.new) }
    ensures short { result ≡ done → text_length.new ≤ 256 }
    ensures refused { result ≢ done → (buffer.new ≡ buffer.old) × (text_length.new ≡ text_length.old) }
{
    put(status_text(status), buffer, text_length)
}

/// The same of a fault of a procedure, by its code.
#[unsafe(no_mangle)]
pub extern "C" fn dovecounter_fault_text(
    code: u32,
    buffer: &mut [u8],
    text_length: &mut usize,
) -> u32
    ensures status { result ≡ status_by (text_refusal (text_by procedure_faults code) (length buffer.old)) }
    ensures written { result ≡ done → option_map (with_text buffer.old) (text_by procedure_faults code) ≡ Some (buffer.new, text_length.new) }
    ensures short { result ≡ done → text_length.new ≤ 256 }
    ensures refused { result ≢ done → (buffer.new ≡ buffer.old) × (text_length.new ≡ text_length.old) }
{
    put(procedure_fault_text(code), buffer, text_length)
}

/// The same of a reason against a certificate.
#[unsafe(no_mangle)]
pub extern "C" fn dovecounter_verdict_text(
    reason: u32,
    buffer: &mut [u8],
    text_length: &mut usize,
) -> u32
    ensures status { result ≡ status_by (text_refusal (text_by reasons reason) (length buffer.old)) }
    ensures written { result ≡ done → option_map (with_text buffer.old) (text_by reasons reason) ≡ Some (buffer.new, text_length.new) }
    ensures short { result ≡ done → text_length.new ≤ 256 }
    ensures refused { result ≢ done → (buffer.new ≡ buffer.old) × (text_length.new ≡ text_length.old) }
{
    put(reason_text(reason), buffer, text_length)
}

/// The same of the version.
#[unsafe(no_mangle)]
pub extern "C" fn dovecounter_version(buffer: &mut [u8], text_length: &mut usize) -> u32
    ensures status { result ≡ status_by (text_refusal (Some VERSION.now) (length buffer.old)) }
    ensures written { result ≡ done → option_map (with_text buffer.old) (Some VERSION.now) ≡ Some (buffer.new, text_length.new) }
    ensures short { result ≡ done → text_length.new ≤ 256 }
    ensures refused { result ≢ done → (buffer.new ≡ buffer.old) × (text_length.new ≡ text_length.old) }
{
    put(Some(version_text()), buffer, text_length)
}

// Puts a text into a buffer that has room for it.
pub fn put(text: Option<&str>, buffer: &mut [u8], text_length: &mut usize) -> u32
    ensures status { result ≡ status_by (text_refusal (option_map (λ (t : Bor (List ℕ)). t.now) text.entry) (length buffer.old)) }
    ensures written { result ≡ done → option_map (with_text buffer.old) (option_map (λ (t : Bor (List ℕ)). t.now) text.entry) ≡ Some (buffer.new, text_length.new) }
    ensures short { result ≡ done → IfSome text.entry (λ (t : Bor (List ℕ)). length t.now ≤ 256) → text_length.new ≤ 256 }
    ensures refused { result ≢ done → (buffer.new ≡ buffer.old) × (text_length.new ≡ text_length.old) }
{
    let Some(text) = text else {
        return NO_TEXT;
    };
    let bytes = text.as_bytes();
    if bytes.len() > buffer.len() {
        return TOO_SMALL;
    }
    buffer[..bytes.len()].copy_from_slice(bytes);
    *text_length = bytes.len();
    DONE
}
