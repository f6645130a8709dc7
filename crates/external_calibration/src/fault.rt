use thiserror::Error;

/// Why constants calibrate nothing. The number is the power of the reading that the constant multiplies: 4 for Rx_PWR(4).
#[derive(Clone, Copy, Debug, PartialEq, Eq, Drop, Error)]
#[error("the constants calibrate nothing")]
pub enum CalibrationFault {
    /// The constant is infinite, or no number.
    NotFinite(u8),
    /// The constant is so large that it could make more than 2^48 steps, 28 megawatts, of a reading of 16 bits.
    OutOfRange(u8),
}
